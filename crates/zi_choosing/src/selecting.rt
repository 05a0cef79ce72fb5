//! The work of `select`, and of `why` and `conflict`, which show the choice otherwise.
ghost use Rattle.std.specs.Prelude.{◌≡◌, ◌≤◌, [], None, map};
ghost use Rattle.zi_docout.specs.Amiss.{first_amiss};
ghost use Rattle.zi_universe.specs.Whole.{BeginsWith};
ghost use Rattle.zi_choice.specs.Valid.{IsValid};
ghost use Rattle.zi_proof.specs.ProofText.{certificate_text};
ghost use Rattle.zi_certificate.specs.Certificates.{Excludes, Refutes};
ghost use Rattle.zi_sels.specs.Written.{tree, document};
ghost use Rattle.zi_outcome.specs.declared.outcome.Outcome.TheVariants.{Spent};
ghost use Rattle.zi_outcome.specs.Writing.{Prints};
ghost use Rattle.zi_sels_laws.specs.Rows.{HasRightRows};
ghost use Rattle.zi_world.specs.Asking.{FeedsStay};
ghost use Rattle.zi_choosing.specs.declared.shows.Shows.TheVariants.{Document};
ghost use Rattle.zi_choosing.specs.Loaded.{DoesOver};
ghost use Rattle.zi_choosing.specs.Select.{SelectsOver, Selects};
ghost use Rattle.zi_choosing.specs.SelectParts.{CanBeWritten, PrintsChoice, PrintsRefutation, PutsNone, ChoosesFrom};

use crate::asked::Asked;
use crate::chosen::Chosen;
use crate::conflicting::put_conflict;
use crate::explaining::put_report;
use crate::formula::without_formula;
use crate::known::{Known, known_of, load_over};
use crate::shows::{Shows, shown_by};
use crate::wanted::into_job;
use std::alloc::Global;
use std::mem;
use zi_choice::Choice;
use zi_docout::WriteFault;
use zi_outcome::{Outcome, put_text, refused};
use zi_outside::{Feeds, Sink};
use zi_proof::{Certificate, Proof};
use zi_sels::{Selections, from_choice};
use zi_shelf::Shelf;
use zi_solve::{Answer, solve};
use zi_text::{List, Memory};
use zi_universe::{Requirement, Universe};
use zi_words::Ask;
use zi_written_laws::what_is_chosen_can_be_written;

// Writes the document of selections, each element of which can be written.
#[tactic(auto, using(crate::proofs::SelectLemmas::certifying))]
fn put_sels<O: Sink>(alloc: Global, sels: &Selections, out: &mut O) -> Outcome
    requires { first_amiss (tree sels.now) ≡ None }
    ensures { Prints (document sels.now) (O.seen out.old) (O.seen out.new) result }
{
    let mut text = Vec::new(alloc);
    match zi_sels::write(alloc, sels, &mut text) {
        Ok(()) => put_text(text.as_slice(), out),
        Err(WriteFault::Unwritable { .. }) => unreachable!(),
        Err(WriteFault::Memory) => Outcome::Memory,
    }
}

/// Writes the document of what the best choice selects.
pub fn put_document<O: Sink>(alloc: Global, chosen: &Chosen, out: &mut O) -> Outcome
    ensures { Prints (document chosen.now.sels) (O.seen out.old) (O.seen out.new) result }
{
    put_sels(alloc, &chosen.sels, out)
}

// Writes the text of a certificate.
#[tactic(auto, using(crate::proofs::SelectLemmas::certifying))]
fn put_certificate<O: Sink>(alloc: Global, certificate: &Certificate, out: &mut O) -> Outcome
    ensures { Prints (certificate_text certificate.now) (O.seen out.old) (O.seen out.new) result }
{
    let mut lines = Vec::new(alloc);
    match zi_proof::write(certificate, &mut lines) {
        Ok(()) => put_text(lines.as_slice(), out),
        Err(Memory) => Outcome::Memory,
    }
}

// Writes what a choice selects.
fn put_selected<O: Sink>(
    alloc: Global,
    req: &Requirement,
    universe: &Universe,
    choice: &Choice,
    out: &mut O,
) -> Outcome
    requires valid { IsValid universe.now req.now choice.now.picks }
    requires written { CanBeWritten universe.now req.now }
    ensures { PrintsChoice Document universe.now req.now choice.now.picks (O.seen out.old) (O.seen out.new) result }
{
    match from_choice(alloc, universe, req, choice) {
        Ok(sels) => put_sels(alloc, &sels, out),
        Err(Memory) => Outcome::Memory,
    }
}

// Nothing is written of a choice.
fn put_nothing<O: Sink>(out: &O) -> Outcome
    ensures { Prints [] (O.seen out.now) (O.seen out.now) result }
{
    Outcome::Done
}

// Writes what shows a choice: what it selects, its certificate, the report on it, or nothing.
#[tactic(auto, using(crate::proofs::SelectLemmas::choice_showing))]
fn put_choice<O: Sink>(
    alloc: Global,
    req: &Requirement,
    universe: &Universe,
    shows: Shows,
    choice: &Choice,
    certificate: &Certificate,
    out: &mut O,
) -> Outcome
    requires rooted { BeginsWith universe.now req.now.interface }
    requires excludes { Excludes universe.now req.now choice.now.picks certificate.now }
    requires valid { IsValid universe.now req.now choice.now.picks }
    requires written { CanBeWritten universe.now req.now }
    ensures { PrintsChoice shows universe.now req.now choice.now.picks (O.seen out.old) (O.seen out.new) result }
{
    match shows {
        Shows::Document => put_selected(alloc, req, universe, choice, out),
        Shows::Certificate => put_certificate(alloc, certificate, out),
        Shows::Reasons => put_report(alloc, req, universe, choice, certificate, out),
        Shows::Conflict => put_nothing(out),
    }
}

// Writes the text of a refutation, and answers that there is no solution.
fn put_refutation<O: Sink>(alloc: Global, proof: Proof, out: &mut O) -> Outcome
    ensures { PrintsRefutation proof (O.seen out.old) (O.seen out.new) result }
{
    let certificate = Certificate {
        proof,
        blocks: List::new(alloc),
    };
    match put_certificate(alloc, &certificate, out) {
        Outcome::Done => {
            let Certificate { proof, blocks: _ } = certificate;
            Outcome::NoSolution { proof }
        }
        outcome => outcome,
    }
}

// Writes what is shown of there being no solution, and answers that there is none.
#[tactic(auto, using(crate::proofs::SelectLemmas::none_showing))]
fn put_none<O: Sink>(
    alloc: Global,
    req: &Requirement,
    universe: &Universe,
    shows: Shows,
    proof: Proof,
    out: &mut O,
) -> Outcome
    requires rooted { BeginsWith universe.now req.now.interface }
    requires refutes { Refutes universe.now req.now proof }
    ensures { PutsNone shows universe.now req.now proof (O.seen out.old) (O.seen out.new) result }
{
    match shows {
        Shows::Document => put_refutation(alloc, proof, out),
        Shows::Certificate => put_refutation(alloc, proof, out),
        Shows::Reasons => Outcome::NoSolution { proof },
        Shows::Conflict => put_conflict(alloc, req, universe, proof, out),
    }
}

/// The outcome of a search that learned as many lemmas as it was let.
pub(crate) fn spent(proof: Proof, count: u64) -> Outcome
    ensures { result ≡ Spent proof count }
{
    Outcome::Spent { proof, count }
}

// Chooses from a universe, and writes what shows the choice, or that there is none.
#[tactic(auto, using(crate::proofs::SelectLemmas::none_chosen))]
fn choose<O: Sink>(
    alloc: Global,
    req: &Requirement,
    universe: &Universe,
    budget: u64,
    shows: Shows,
    out: &mut O,
) -> Outcome
    requires rooted { BeginsWith universe.now req.now.interface }
    requires budget { budget ≤ 4000000000 }
    requires written { CanBeWritten universe.now req.now }
    ensures { ChoosesFrom (record { req = req.now; budget = budget; shows = shows }) universe.now (O.seen out.old) (O.seen out.new) result }
{
    match solve(alloc, universe, req, budget) {
        Ok(
            Answer::Best {
                choice,
                certificate,
            },
        ) => put_choice(alloc, req, universe, shows, &choice, &certificate, out),
        Ok(Answer::None { proof: refutation }) => put_none(
            alloc, req, universe, shows, refutation, out,
        ),
        Ok(
            Answer::Spent {
                proof: learned,
                count,
            },
        ) => spent(learned, count),
        Err(fault) => without_formula(fault),
    }
}

// Loads what is asked for over what is known, and chooses.
fn select_over<F: Feeds, O: Sink>(
    alloc: Global,
    ask: Ask,
    shows: Shows,
    known: &Known,
    feeds: &mut F,
    out: &mut O,
) -> Outcome
    requires budget { ask.search ≤ 4000000000 }
    requires rows { HasRightRows known.now.packages }
    ensures over { SelectsOver ask shows known.now
        (record { feeds = F.seen feeds.old; out = O.seen out.old })
        (record { feeds = F.seen feeds.new; out = O.seen out.new })
        result }
    ensures feeds { FeedsStay (F.seen feeds.old) (F.seen feeds.new) }
{
    let budget = ask.search;
    let Ok(job) = into_job(alloc, ask) else {
        return Outcome::Memory;
    };
    what_is_chosen_can_be_written();
    match load_over(alloc, &job, known, feeds) {
        Ok(universe) => {
            let outcome = choose(alloc, &job.req, &universe, budget, shows, out);
            // The program ends behind this, and to take all apart would take a tenth of its time.
            mem::forget(universe);
            outcome
        }
        Err(fault) => refused(fault),
    }
}

/// Finds out which digests are in which store and which packages there are, loads what is asked for, chooses, and shows the choice.
pub(crate) fn select_shown<F: Feeds, K: Shelf, R: Shelf, O: Sink>(
    alloc: Global,
    asked: Asked,
    shows: Shows,
    feeds: &mut F,
    shelf: &mut K,
    others: &mut [R],
    out: &mut O,
) -> Outcome
    requires { asked.ask.search ≤ 4000000000 }
    ensures { DoesOver asked.table (SelectsOver asked.ask shows)
        (record { feeds = F.seen feeds.old; shelf = K.seen shelf.old; others = map R.seen others.old; out = O.seen out.old })
        (record { feeds = F.seen feeds.new; shelf = K.seen shelf.new; others = map R.seen others.new; out = O.seen out.new })
        result }
{
    let Asked { ask, table } = asked;
    match known_of(alloc, table, feeds, shelf, others) {
        Ok(known) => select_over(alloc, ask, shows, &known, feeds, out),
        Err(outcome) => outcome,
    }
}

/// Finds out which digests are in which store and which packages there are, loads what is asked for, and chooses: the document of what
/// the best choice selects is written, or with `proof` a certificate, by which every other valid choice is worse. Where no choice is
/// valid a refutation is written, and the outcome is `NoSolution`; where the search learned as many lemmas as it was let, nothing is,
/// and it is `Spent`.
pub fn select<F: Feeds, K: Shelf, R: Shelf, O: Sink>(
    alloc: Global,
    asked: Asked,
    proof: bool,
    feeds: &mut F,
    shelf: &mut K,
    others: &mut [R],
    out: &mut O,
) -> Outcome
    requires { asked.ask.search ≤ 4000000000 }
    ensures { Selects asked proof
        (record { feeds = F.seen feeds.old; shelf = K.seen shelf.old; others = map R.seen others.old; out = O.seen out.old })
        (record { feeds = F.seen feeds.new; shelf = K.seen shelf.new; others = map R.seen others.new; out = O.seen out.new })
        result }
{
    select_shown(alloc, asked, shown_by(proof), feeds, shelf, others, out)
}
