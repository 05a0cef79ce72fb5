//! The work of `refute`.
ghost use Rattle.std.specs.Prelude.{map};
ghost use Rattle.zi_universe.specs.Whole.{BeginsWith};
ghost use Rattle.zi_world.specs.Asking.{FeedsStay};
ghost use Rattle.zi_choosing.specs.Refute.{RefutesOver, ChecksNone};
ghost use Rattle.zi_choosing.specs.RefuteParts.{ChecksRead, ChecksText, ChecksFile};

use crate::asked::Asked;
use crate::file::get_file;
use crate::formula::without_formula;
use crate::known::{Known, known_of, load_over};
use crate::wanted::into_job;
use std::alloc::Global;
use zi_check::check_none;
use zi_outcome::{Outcome, put_text, refused};
use zi_outside::{Feeds, Sink};
use zi_proof::{Certificate, ProofFault, read};
use zi_shelf::Shelf;
use zi_text::Text;
use zi_universe::{Requirement, Universe};
use zi_words::Ask;

// How many bytes a proof may have: 64 MiB.
const PROOF_LIMIT: u64 = 67_108_864;

// Says yes where a certificate has no block and refutes.
#[tactic(auto, using(crate::proofs::RefuteLemmas::checking))]
fn check_read<O: Sink>(
    alloc: Global,
    req: &Requirement,
    universe: &Universe,
    certificate: &Certificate,
    out: &mut O,
) -> Outcome
    requires { BeginsWith universe.now req.now.interface }
    ensures { ChecksRead req.now universe.now certificate.now (O.seen out.old) (O.seen out.new) result }
{
    if !certificate.blocks.is_empty() {
        return Outcome::Rejected;
    }
    match check_none(alloc, universe, req, &certificate.proof) {
        Ok(true) => put_text(b"yes\n", out),
        Ok(false) => Outcome::Rejected,
        Err(fault) => without_formula(fault),
    }
}

// Says yes where bytes are a proof that refutes.
fn check_text<O: Sink>(
    alloc: Global,
    req: &Requirement,
    universe: &Universe,
    bytes: &[u8],
    out: &mut O,
) -> Outcome
    requires { BeginsWith universe.now req.now.interface }
    ensures { ChecksText req.now universe.now bytes.now (O.seen out.old) (O.seen out.new) result }
{
    match read(alloc, bytes) {
        Ok(certificate) => check_read(alloc, req, universe, &certificate, out),
        Err(ProofFault::Bad { line }) => Outcome::BadProof { line },
        Err(ProofFault::Memory) => Outcome::Memory,
    }
}

// Says yes where a file has a proof that refutes.
fn check_file<F: Feeds, O: Sink>(
    alloc: Global,
    req: &Requirement,
    universe: &Universe,
    name: Text,
    feeds: &mut F,
    out: &mut O,
) -> Outcome
    requires { BeginsWith universe.now req.now.interface }
    ensures { ChecksFile req.now universe.now name
        (record { feeds = F.seen feeds.old; out = O.seen out.old })
        (record { feeds = F.seen feeds.new; out = O.seen out.new })
        result }
{
    match get_file(alloc, name, PROOF_LIMIT, feeds) {
        Ok(bytes) => check_text(alloc, req, universe, bytes.as_slice(), out),
        Err(outcome) => outcome,
    }
}

// Loads what is asked for over what is known, and checks the proof.
fn refute_over<F: Feeds, O: Sink>(
    alloc: Global,
    ask: Ask,
    name: Text,
    known: &Known,
    feeds: &mut F,
    out: &mut O,
) -> Outcome
    ensures over { RefutesOver ask name known.now
        (record { feeds = F.seen feeds.old; out = O.seen out.old })
        (record { feeds = F.seen feeds.new; out = O.seen out.new })
        result }
    ensures feeds { FeedsStay (F.seen feeds.old) (F.seen feeds.new) }
{
    let Ok(job) = into_job(alloc, ask) else {
        return Outcome::Memory;
    };
    match load_over(alloc, &job, known, feeds) {
        Ok(universe) => check_file(alloc, &job.req, &universe, name, feeds, out),
        Err(fault) => refused(fault),
    }
}

/// Finds out which digests are in which store and which packages there are, loads what is asked for, gets the proof of this name, and
/// writes `yes` where it shows that no choice is valid. A proof with a block doesn't, nor does one that isn't accepted: `Rejected`.
pub fn refute<F: Feeds, K: Shelf, R: Shelf, O: Sink>(
    alloc: Global,
    asked: Asked,
    proof: Text,
    feeds: &mut F,
    shelf: &mut K,
    others: &mut [R],
    out: &mut O,
) -> Outcome
    ensures { ChecksNone asked proof
        (record { feeds = F.seen feeds.old; shelf = K.seen shelf.old; others = map R.seen others.old; out = O.seen out.old })
        (record { feeds = F.seen feeds.new; shelf = K.seen shelf.new; others = map R.seen others.new; out = O.seen out.new })
        result }
{
    let Asked { ask, table } = asked;
    match known_of(alloc, table, feeds, shelf, others) {
        Ok(known) => refute_over(alloc, ask, proof, &known, feeds, out),
        Err(outcome) => outcome,
    }
}
