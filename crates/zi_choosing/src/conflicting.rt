//! The work of `conflict`.
ghost use Rattle.std.specs.Prelude.{◌≤◌, map};
ghost use Rattle.zi_universe.specs.Whole.{BeginsWith};
ghost use Rattle.zi_certificate.specs.Certificates.{Refutes};
ghost use Rattle.zi_outcome.specs.declared.outcome.Outcome.TheVariants.{NoSolution};
ghost use Rattle.zi_outcome.specs.Writing.{PrintsThen};
ghost use Rattle.zi_choosing.specs.declared.shows.Shows.TheVariants.{Conflict};
ghost use Rattle.zi_choosing.specs.Select.{TellsConflict};
ghost use Rattle.zi_choosing.specs.SelectParts.{PutsNone};

use crate::asked::Asked;
use crate::formula::without_formula;
use crate::selecting::select_shown;
use crate::shows::Shows;
use std::alloc::Global;
use zi_conflict::conflict_text;
use zi_outcome::{Outcome, put_text};
use zi_outside::{Feeds, Sink};
use zi_proof::Proof;
use zi_shelf::Shelf;
use zi_text::Text;
use zi_universe::{Requirement, Universe};

// Writes a text, and answers that there is no solution.
#[tactic(auto, using(crate::proofs::SelectLemmas::facts_printing))]
fn put_facts<O: Sink>(text: &Text, proof: Proof, out: &mut O) -> Outcome
    ensures { PrintsThen text.now (NoSolution proof) (O.seen out.old) (O.seen out.new) result }
{
    match put_text(text.as_str().as_bytes(), out) {
        Outcome::Done => Outcome::NoSolution { proof },
        outcome => outcome,
    }
}

/// Writes the facts that leave no choice, and answers that there is no solution.
#[tactic(auto, using(crate::proofs::SelectLemmas::facts_putting))]
pub(crate) fn put_conflict<O: Sink>(
    alloc: Global,
    req: &Requirement,
    universe: &Universe,
    proof: Proof,
    out: &mut O,
) -> Outcome
    requires rooted { BeginsWith universe.now req.now.interface }
    requires refutes { Refutes universe.now req.now proof }
    ensures { PutsNone Conflict universe.now req.now proof (O.seen out.old) (O.seen out.new) result }
{
    match conflict_text(alloc, universe, req, &proof) {
        Ok(text) => put_facts(&text, proof, out),
        Err(fault) => without_formula(fault),
    }
}

/// Loads what is asked for and chooses as `select` does. Where no choice is valid it writes the facts that leave none, a line for each, and
/// the outcome is `NoSolution`; where there is one it writes nothing.
pub fn tell_conflict<F: Feeds, K: Shelf, R: Shelf, O: Sink>(
    alloc: Global,
    asked: Asked,
    feeds: &mut F,
    shelf: &mut K,
    others: &mut [R],
    out: &mut O,
) -> Outcome
    requires { asked.ask.search ≤ 4000000000 }
    ensures { TellsConflict asked
        (record { feeds = F.seen feeds.old; shelf = K.seen shelf.old; others = map R.seen others.old; out = O.seen out.old })
        (record { feeds = F.seen feeds.new; shelf = K.seen shelf.new; others = map R.seen others.new; out = O.seen out.new })
        result }
{
    select_shown(alloc, asked, Shows::Conflict, feeds, shelf, others, out)
}
