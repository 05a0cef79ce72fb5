//! Why the candidates that the best choice passes over aren't chosen.
ghost use Rattle.std.specs.Prelude.{◌≤◌};
ghost use Rattle.zi_universe.specs.Whole.{BeginsWith};
ghost use Rattle.zi_choice.specs.Valid.{IsValid};
ghost use Rattle.zi_certificate.specs.Certificates.{Excludes};

use crate::asking::Asked;
use crate::refusing::put_build_fault;
use std::alloc::Global;
use zi_choice::Choice;
use zi_lines::Sheet;
use zi_proof::Certificate;
use zi_solve::{Answer, solve};
use zi_text::Memory;
use zi_why::{Reason, Report, why};

/// Adds a reason, and what it names.
fn put_reason(out: &mut Sheet, reason: &Reason) {
    match reason {
        Reason::Version { by } => {
            out.put("version ");
            out.put(by.as_str());
        }
        Reason::Lacking { command } => {
            out.put("lacking ");
            out.put(command.as_str());
        }
        Reason::Bits { by } => {
            out.put("bits ");
            out.put(by.as_str());
        }
        Reason::Against { interface } => {
            out.put("against ");
            out.put(interface.as_str());
        }
        Reason::Needs { interface } => {
            out.put("needs ");
            out.put(interface.as_str());
        }
        Reason::Search { hints } => {
            out.put("search ");
            out.number(*hints);
        }
    }
}

/// Adds each report: its place, its candidate's variable and the reason.
fn put_reports(out: &mut Sheet, reports: &[Report]) {
    for report in reports {
        out.put(" ");
        out.number(u64::from(report.place));
        out.put(".");
        out.number(u64::from(report.candidate));
        out.put(" ");
        put_reason(out, &report.reason);
        out.put(";");
    }
}

/// Adds the reports of a choice and its certificate.
fn put_why(
    alloc: Global,
    out: &mut Sheet,
    asked: &Asked,
    choice: &Choice,
    certificate: &Certificate,
)
    requires rooted { BeginsWith asked.now.universe asked.now.req.interface }
    requires valid { IsValid asked.now.universe asked.now.req choice.now.picks }
    requires excludes { Excludes asked.now.universe asked.now.req choice.now.picks certificate.now }
{
    match why(alloc, &asked.universe, &asked.req, choice, certificate) {
        Ok(reports) => put_reports(out, reports.as_slice()),
        Err(Memory) => out.lose(),
    }
}

/// Adds the reports of what is answered within a budget.
fn put_within(alloc: Global, out: &mut Sheet, asked: &Asked, budget: u64)
    requires rooted { BeginsWith asked.now.universe asked.now.req.interface }
    requires budget { budget ≤ 4000000000 }
{
    match solve(alloc, &asked.universe, &asked.req, budget) {
        Ok(
            Answer::Best {
                choice,
                certificate,
            },
        ) => put_why(alloc, out, asked, &choice, &certificate),
        Ok(_) => out.put("none"),
        Err(fault) => put_build_fault(out, &fault),
    }
}

/// Adds the reports of what is answered within the budget that a row has.
pub(crate) fn put_explained(alloc: Global, out: &mut Sheet, asked: &Asked, row: &str)
    requires { BeginsWith asked.now.universe asked.now.req.interface }
{
    let budget = row.parse::<u16>().unwrap_or(0);
    put_within(alloc, out, asked, u64::from(budget));
}
