//! The places with their reports, and the whole.
ghost use Rattle.std.specs.Prelude.{◌≡◌, ◌≤◌, ◌++◌, length, map, IfOk, OnOk};
ghost use Rattle.zi_universe.specs.Whole.{BeginsWith};
ghost use Rattle.zi_choice.specs.Valid.{IsValid};
ghost use Rattle.zi_choice.specs.Traces.{as_place};
ghost use Rattle.zi_certificate.specs.Certificates.{Excludes};
ghost use Rattle.zi_report.specs.Taking.{front, behind, part, text_from};
ghost use Rattle.zi_report.specs.Reported.{IsReported};

use crate::lines::{put_place, put_reports};
use std::alloc::Global;
use zi_choice::{Choice, Place, trace};
use zi_numbering::Numbering;
use zi_proof::Certificate;
use zi_text::{Memory, Text};
use zi_universe::{Requirement, Universe};
use zi_why::{Report, why};

// How many of the reports at the front are of a place.
fn count_of(n: usize, reports: &[Report]) -> usize
    ensures is { result ≡ length (front n reports.now) }
    ensures few { result ≤ length reports.now }
{
    let mut count = 0;
    for report in reports {
        if report.place as usize != n {
            return count;
        }
        count += 1;
    }
    count
}

// Puts the lines of a place and of its reports, those at the front, and gives those that are left.
fn put_part<'a>(
    alloc: Global,
    of: &Numbering,
    n: usize,
    p: &Place,
    reports: &'a [Report],
    text: &mut Text,
) -> Result<&'a [Report], Memory>
    ensures { IfOk result (λ left. (left.now ≡ behind n reports.now) × (text.new ≡ text.old ++ part of.now (as_place p.now) (front n reports.now))) }
{
    let (mine, left) = reports.split_at(count_of(n, reports));
    put_place(of, p, text)?;
    put_reports(alloc, of, p.interface, mine, text)?;
    Ok(left)
}

// Puts the lines of all places, the first having the number 1.
#[tactic(auto, using(crate::proofs::TextLaws::parting))]
fn put_parts(
    alloc: Global,
    of: &Numbering,
    places: &[Place],
    reports: &[Report],
    text: &mut Text,
) -> Result<(), Memory>
    ensures { OnOk result (text.new ≡ text.old ++ text_from of.now 1 (map as_place places.now) reports.now) }
{
    let mut left = reports;
    for n in 0..places.len() {
        let p = &places[n];
        left = put_part(alloc, of, n + 1, p, left, text)?;
    }
    Ok(())
}

// The text of reports that stand in the order of the places.
fn text_of(
    alloc: Global,
    u: &Universe,
    places: &[Place],
    reports: &[Report],
) -> Result<Text, Memory>
    ensures { IfOk result (λ t. t ≡ text_from u.now 1 (map as_place places.now) reports.now) }
{
    let of = Numbering::of(alloc, u)?;
    let mut text = Text::new(alloc);
    put_parts(alloc, &of, places, reports, &mut text)?;
    Ok(text)
}

/// The report on a valid choice, by a certificate that excludes all that rank earlier: for each place of its walk the line
/// `INTERFACE ID`, or `INTERFACE none` where nothing is chosen, and below it a line for each candidate that is passed over there:
/// two spaces, its id, and one of ` version refused by INTERFACE`, ` has no command NAME`, ` other bits than INTERFACE`,
/// ` against INTERFACE`, ` needs INTERFACE` and ` excluded by N steps`. Memory is its one refusal. The work is that of `why` and
/// of the walk, and linear in the text.
pub fn report(
    alloc: Global,
    u: &Universe,
    req: &Requirement,
    c: &Choice,
    certificate: &Certificate,
) -> Result<Text, Memory>
    requires rooted { BeginsWith u.now req.now.interface }
    requires valid { IsValid u.now req.now c.now.picks }
    requires excludes { Excludes u.now req.now c.now.picks certificate.now }
    ensures { IfOk result (λ t. IsReported u.now req.now c.now.picks certificate.now t) }
{
    let walk = trace(alloc, u, req, c)?;
    let reports = why(alloc, u, req, c, certificate)?;
    let text = text_of(alloc, u, walk.places.as_slice(), reports.as_slice())?;
    Ok(text)
}
