//! The lines, each put at the end of a text.
ghost use Rattle.std.specs.Prelude.{◌≡◌, ◌++◌, OnOk};
ghost use Rattle.std.specs.List.{flat_map};
ghost use Rattle.zi_choice.specs.Traces.{as_place};
ghost use Rattle.zi_why.specs.Reasons.{uri_of};
ghost use Rattle.zi_why.specs.declared.report.Reason.TheVariants.{Search};
ghost use Rattle.zi_report.specs.Text.{id_at, id_of, chosen_words, place_line, reason_words, report_line};

use std::alloc::Global;
use zi_choice::Place;
use zi_numbering::Numbering;
use zi_text::{Memory, Text};
use zi_why::{Reason, Report};

// The address of an interface.
fn uri<'u>(of: &Numbering<'u>, i: u32) -> &'u str
    ensures { result.now ≡ uri_of of.now i }
{
    match of.universe().interfaces().get(i as usize) {
        None => "",
        Some(x) => x.uri.as_str(),
    }
}

// The id of a candidate.
fn id<'u>(of: &Numbering<'u>, i: u32, c: usize) -> &'u str
    ensures { result.now ≡ id_at of.now i c }
{
    match of.candidates(i).get(c) {
        None => "",
        Some(k) => k.imp.id.as_str(),
    }
}

// The id of the candidate of an interface whose variable has a number.
fn id_of<'u>(of: &Numbering<'u>, i: u32, variable: u32) -> &'u str
    ensures { result.now ≡ id_of of.now i variable }
{
    if of.candidates(i).is_empty() {
        return "";
    }
    let first = of.number(i, 0);
    id(of, i, variable.saturating_sub(first) as usize)
}

// What a line says of a choice.
fn chosen<'u>(of: &Numbering<'u>, i: u32, pick: Option<u32>) -> &'u str
    ensures { result.now ≡ chosen_words of.now i pick }
{
    match pick {
        None => "none",
        Some(c) => id(of, i, c as usize),
    }
}

/// Puts the line of a place: the interface, and what is chosen for it.
pub(crate) fn put_place(of: &Numbering, p: &Place, text: &mut Text) -> Result<(), Memory>
    ensures { OnOk result (text.new ≡ text.old ++ place_line of.now (as_place p.now)) }
{
    text.push_str(uri(of, p.interface))?;
    text.push_str(" ")?;
    text.push_str(chosen(of, p.interface, p.pick))?;
    text.push_str("\n")
}

// Puts some words, and a name behind them.
fn put_named(words: &str, name: &Text, text: &mut Text) -> Result<(), Memory>
    ensures { OnOk result (text.new ≡ text.old ++ (words.now ++ name.now)) }
{
    text.push_str(words)?;
    text.push_str(name.as_str())
}

// Puts a number of steps.
fn put_steps(alloc: Global, hints: u64, text: &mut Text) -> Result<(), Memory>
    ensures { OnOk result (text.new ≡ text.old ++ reason_words (Search hints)) }
{
    let words = format!(in alloc; " excluded by {hints} steps")?;
    text.push_str(words.as_str())
}

// Puts what a line says of a reason.
fn put_reason(alloc: Global, reason: &Reason, text: &mut Text) -> Result<(), Memory>
    ensures { OnOk result (text.new ≡ text.old ++ reason_words reason.now) }
{
    match reason {
        Reason::Version { by } => put_named(" version refused by ", by, text),
        Reason::Lacking { command } => put_named(" has no command ", command, text),
        Reason::Bits { by } => put_named(" other bits than ", by, text),
        Reason::Against { interface } => put_named(" against ", interface, text),
        Reason::Needs { interface } => put_named(" needs ", interface, text),
        Reason::Search { hints } => put_steps(alloc, *hints, text),
    }
}

// Puts the line of a report of an interface's place: the candidate, and the reason.
fn put_report(
    alloc: Global,
    of: &Numbering,
    i: u32,
    report: &Report,
    text: &mut Text,
) -> Result<(), Memory>
    ensures { OnOk result (text.new ≡ text.old ++ report_line of.now i report.now) }
{
    text.push_str("  ")?;
    text.push_str(id_of(of, i, report.candidate))?;
    put_reason(alloc, &report.reason, text)?;
    text.push_str("\n")
}

/// Puts the lines of the reports of an interface's place.
pub(crate) fn put_reports(
    alloc: Global,
    of: &Numbering,
    i: u32,
    reports: &[Report],
    text: &mut Text,
) -> Result<(), Memory>
    ensures { OnOk result (text.new ≡ text.old ++ flat_map (report_line of.now i) reports.now) }
{
    for report in reports {
        put_report(alloc, of, i, report, text)?;
    }
    Ok(())
}
