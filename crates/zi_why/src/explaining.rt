//! A report for each block of a certificate.
ghost use Rattle.std.specs.Prelude.{◌≡◌, ◌<◌, ◌+◌, [], length, Some, slice_get, IfOk, OnOk};
ghost use Rattle.zi_universe.specs.Whole.{BeginsWith};
ghost use Rattle.zi_choice.specs.declared.traced.Stop.TheVariants.{Came};
ghost use Rattle.zi_choice.specs.Choice.{candidate_at};
ghost use Rattle.zi_choice.specs.Stops.{AreStops};
ghost use Rattle.zi_choice.specs.Valid.{IsValid};
ghost use Rattle.zi_certificate.specs.Certificates.{is_passed, Excludes};
ghost use Rattle.zi_why.specs.Known.{universe_of, picks_of, Knows};
ghost use Rattle.zi_why.specs.Taking.{due_one, due_at, due_left, Took, ReportedOn, place_at};
ghost use Rattle.zi_why.specs.Reports.{AreReports};

use crate::known::Known;
use crate::reasons::reason;
use crate::report::Report;
use crate::setting::{Numbered, Setting, candidates, picked};
use std::alloc::Global;
use zi_choice::{Choice, Names, Stop, stops};
use zi_proof::Certificate;
use zi_text::{List, Memory};
use zi_universe::{Requirement, Universe};

// Whether a candidate stands before what is picked; where nothing is, each does.
fn is_passed(pick: Option<u32>, c: u32) -> bool
    ensures { result ≡ is_passed pick c }
{
    match pick {
        None => true,
        Some(d) => c < d,
    }
}

// The report of the next block, if a candidate is passed over at the place of a stop.
fn report_one(
    on: &Setting,
    known: &Known,
    at: usize,
    p: &Numbered,
    reports: &mut List<Report>,
) -> Result<(), Memory>
    requires are { AreStops (universe_of on.now) on.now.req.now (picks_of on.now) on.now.stops.now }
    requires knows { Knows on.now at known.now }
    requires here { slice_get on.now.stops.now at ≡ Some (Came p.now.interface) }
    requires there { candidate_at (universe_of on.now) p.now.interface p.now.candidate ≡ Some p.now.is.now }
    requires within { p.now.interface < length (universe_of on.now) }
    ensures { OnOk result (Took on.now (due_one (universe_of on.now) (picks_of on.now) (place_at on.now at) p.now.interface p.now.candidate p.now.is.now) reports.old reports.new) }
{
    if !is_passed(picked(on, p.interface), p.candidate) {
        return Ok(());
    }
    let Some(block) = on.blocks.get(reports.len()) else {
        return Ok(());
    };
    let reason = reason(on, known, at, p, block.hints.len() as u64)?;
    reports.push(Report {
        place: block.place,
        candidate: block.candidate,
        reason,
    })?;
    Ok(())
}

// The reports of the next blocks, those of the place of a stop.
fn report_place(
    on: &Setting,
    known: &Known,
    at: usize,
    i: u32,
    reports: &mut List<Report>,
) -> Result<(), Memory>
    requires are { AreStops (universe_of on.now) on.now.req.now (picks_of on.now) on.now.stops.now }
    requires knows { Knows on.now at known.now }
    requires here { slice_get on.now.stops.now at ≡ Some (Came i) }
    ensures { OnOk result (Took on.now (due_at (universe_of on.now) (picks_of on.now) (place_at on.now at) i) reports.old reports.new) }
{
    let all = candidates(on, i);
    for c in 0..all.len() {
        let p = Numbered {
            interface: i,
            candidate: c as u32,
            is: &all[c],
        };
        report_one(on, known, at, &p, reports)?;
    }
    Ok(())
}

// The reports of the next blocks, those of a stop.
fn report_stop(
    on: &Setting,
    known: &Known,
    at: usize,
    stop: &Stop,
    reports: &mut List<Report>,
) -> Result<(), Memory>
    requires are { AreStops (universe_of on.now) on.now.req.now (picks_of on.now) on.now.stops.now }
    requires knows { Knows on.now at known.now }
    requires here { slice_get on.now.stops.now at ≡ Some stop.now }
    ensures { OnOk result (ReportedOn on.now (due_left on.now at) reports.old → ReportedOn on.now (due_left on.now (at + 1)) reports.new) }
{
    match stop {
        Stop::Came(i) => {
            report_place(on, known, at, *i, reports)?;
            Ok(())
        }
        Stop::Needed(_, _) => Ok(()),
    }
}

// The reports of all blocks, stop by stop.
fn reports_of(on: &Setting) -> Result<List<Report>, Memory>
    requires are { AreStops (universe_of on.now) on.now.req.now (picks_of on.now) on.now.stops.now }
    ensures { IfOk result (λ rs. ReportedOn on.now (due_left on.now 0) [] → ReportedOn on.now [] rs) }
{
    let mut known = Known::nothing(on.alloc, on.names.universe().interfaces().len())?;
    let mut reports = List::new(on.alloc);
    for at in 0..on.stops.len() {
        let stop = &on.stops[at];
        report_stop(on, &known, at, stop, &mut reports)?;
        known.pass(on, stop)?;
    }
    Ok(reports)
}

/// For each block of the certificate of a valid choice why its candidate isn't chosen at its place. The work is that of the walk,
/// that of going over the candidates of the places, and for each candidate before the choice that of the dependencies that bear
/// on it: those of what was come to before on its interface, and its own, each of which is at most held against all candidates of
/// the interface that it is on.
pub fn why(
    alloc: Global,
    u: &Universe,
    req: &Requirement,
    c: &Choice,
    certificate: &Certificate,
) -> Result<List<Report>, Memory>
    requires rooted { BeginsWith u.now req.now.interface }
    requires valid { IsValid u.now req.now c.now.picks }
    requires excludes { Excludes u.now req.now c.now.picks certificate.now }
    ensures { IfOk result (λ rs. AreReports u.now req.now c.now.picks certificate.now.blocks rs) }
{
    let names = Names::of(alloc, u)?;
    let picks = c.picks.as_slice();
    let stops = stops(alloc, &names, req, picks)?;
    let on = Setting {
        alloc,
        names: &names,
        req,
        picks,
        stops: stops.as_slice(),
        blocks: certificate.blocks.as_slice(),
    };
    let reports = reports_of(&on)?;
    Ok(reports)
}
