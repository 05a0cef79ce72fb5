//! The work of `why`.
ghost use Rattle.std.specs.Prelude.{◌≤◌, map};
ghost use Rattle.zi_universe.specs.Whole.{BeginsWith};
ghost use Rattle.zi_choice.specs.Valid.{IsValid};
ghost use Rattle.zi_certificate.specs.Certificates.{Excludes};
ghost use Rattle.zi_choosing.specs.declared.shows.Shows.TheVariants.{Reasons};
ghost use Rattle.zi_choosing.specs.Select.{Explains};
ghost use Rattle.zi_choosing.specs.SelectParts.{PrintsChoice};

use crate::asked::Asked;
use crate::selecting::select_shown;
use crate::shows::Shows;
use std::alloc::Global;
use zi_choice::Choice;
use zi_outcome::{Outcome, put_text};
use zi_outside::{Feeds, Sink};
use zi_proof::Certificate;
use zi_report::report;
use zi_shelf::Shelf;
use zi_text::Memory;
use zi_universe::{Requirement, Universe};

/// Writes the report on a choice.
pub(crate) fn put_report<O: Sink>(
    alloc: Global,
    req: &Requirement,
    universe: &Universe,
    choice: &Choice,
    certificate: &Certificate,
    out: &mut O,
) -> Outcome
    requires rooted { BeginsWith universe.now req.now.interface }
    requires excludes { Excludes universe.now req.now choice.now.picks certificate.now }
    requires valid { IsValid universe.now req.now choice.now.picks }
    ensures { PrintsChoice Reasons universe.now req.now choice.now.picks (O.seen out.old) (O.seen out.new) result }
{
    match report(alloc, universe, req, choice, certificate) {
        Ok(text) => put_text(text.as_str().as_bytes(), out),
        Err(Memory) => Outcome::Memory,
    }
}

/// Loads what is asked for and chooses as `select` does, and writes the report on the best choice: why each candidate that it passes
/// over isn't chosen, by a certificate of it. Where no choice is valid nothing is written.
pub fn explain<F: Feeds, K: Shelf, R: Shelf, O: Sink>(
    alloc: Global,
    asked: Asked,
    feeds: &mut F,
    shelf: &mut K,
    others: &mut [R],
    out: &mut O,
) -> Outcome
    requires { asked.ask.search ≤ 4000000000 }
    ensures { Explains asked
        (record { feeds = F.seen feeds.old; shelf = K.seen shelf.old; others = map R.seen others.old; out = O.seen out.old })
        (record { feeds = F.seen feeds.new; shelf = K.seen shelf.new; others = map R.seen others.new; out = O.seen out.new })
        result }
{
    select_shown(alloc, asked, Shows::Reasons, feeds, shelf, others, out)
}
