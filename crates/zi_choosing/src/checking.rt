//! The work of `check`.
ghost use Rattle.std.specs.Prelude.{◌≡◌, ◌↔◌, map, IsTrue, MatchResult};
ghost use Rattle.zi_universe.specs.Whole.{BeginsWith};
ghost use Rattle.zi_world.specs.Asking.{FeedsStay};
ghost use Rattle.zi_choosing.specs.Named.{AreAskedFor};
ghost use Rattle.zi_choosing.specs.Check.{ChecksOver, ChecksBest};
ghost use Rattle.zi_choosing.specs.CheckParts.{Judges, JudgesNot, SaysOf, SaysBy, ChecksBy, ChecksText, ChecksFile};

use crate::asked::Asked;
use crate::file::get_file;
use crate::formula::without_formula;
use crate::known::{Known, known_of, load_over};
use crate::named::{are_candidates, choice_of};
use crate::own::are_own;
use crate::wanted::into_job;
use std::alloc::Global;
use zi_build::BuildFault;
use zi_check::check_best;
use zi_choice::Names;
use zi_outcome::{Outcome, put_text, refused};
use zi_outside::{Feeds, Sink};
use zi_proof::{Certificate, ProofFault};
use zi_sels::{Selections, SelsFault};
use zi_shelf::Shelf;
use zi_text::Text;
use zi_universe::{Requirement, Universe};
use zi_words::Ask;

// How many bytes selections may have: 4 MiB.
const SELS_LIMIT: u64 = 4_194_304;

// How many bytes a certificate may have: 64 MiB.
const PROOF_LIMIT: u64 = 67_108_864;

// Whether root and command are those that are asked for.
fn are_asked_for(req: &Requirement, sels: &Selections) -> bool
    ensures { IsTrue result ↔ AreAskedFor req.now sels.now }
{
    sels.interface == req.interface && sels.command == req.command
}

// Whether selections are those of the best choice, by a certificate: the tests in their order.
fn judge(
    alloc: Global,
    universe: &Universe,
    req: &Requirement,
    sels: Selections,
    certificate: &Certificate,
) -> Result<bool, BuildFault>
    requires { BeginsWith universe.now req.now.interface }
    ensures { MatchResult result (Judges universe.now req.now sels certificate.now) (JudgesNot universe.now req.now sels) }
{
    let names = Names::of(alloc, universe)?;
    if !are_candidates(&names, sels.items.as_slice()) {
        return Ok(false);
    }
    if !are_asked_for(req, &sels) {
        return Ok(false);
    }
    let choice = choice_of(alloc, universe, sels.items.as_slice())?;
    let is_best = check_best(alloc, universe, req, &choice, certificate)?;
    if !is_best {
        return Ok(false);
    }
    let is_own = are_own(alloc, universe, req, &choice, sels)?;
    Ok(is_own)
}

// Says yes where selections are those of the best choice, by a certificate.
fn check_by<O: Sink>(
    alloc: Global,
    universe: &Universe,
    req: &Requirement,
    sels: Selections,
    certificate: &Certificate,
    out: &mut O,
) -> Outcome
    requires { BeginsWith universe.now req.now.interface }
    ensures { SaysOf universe.now req.now sels certificate.now (O.seen out.old) (O.seen out.new) result }
{
    match judge(alloc, universe, req, sels, certificate) {
        Ok(true) => put_text(b"yes\n", out),
        Ok(false) => Outcome::Rejected,
        Err(fault) => without_formula(fault),
    }
}

// Says yes where bytes are a certificate that shows it.
fn check_by_text<O: Sink>(
    alloc: Global,
    universe: &Universe,
    req: &Requirement,
    sels: Selections,
    bytes: &[u8],
    out: &mut O,
) -> Outcome
    requires { BeginsWith universe.now req.now.interface }
    ensures { SaysBy universe.now req.now sels bytes.now (O.seen out.old) (O.seen out.new) result }
{
    match zi_proof::read(alloc, bytes) {
        Ok(certificate) => check_by(alloc, universe, req, sels, &certificate, out),
        Err(ProofFault::Bad { line }) => Outcome::BadProof { line },
        Err(ProofFault::Memory) => Outcome::Memory,
    }
}

// Says yes where a file has a certificate that shows it.
fn check_by_file<F: Feeds, O: Sink>(
    alloc: Global,
    universe: &Universe,
    req: &Requirement,
    sels: Selections,
    proof: Text,
    feeds: &mut F,
    out: &mut O,
) -> Outcome
    requires { BeginsWith universe.now req.now.interface }
    ensures { ChecksBy universe.now req.now sels proof
        (record { feeds = F.seen feeds.old; out = O.seen out.old })
        (record { feeds = F.seen feeds.new; out = O.seen out.new })
        result }
{
    match get_file(alloc, proof, PROOF_LIMIT, feeds) {
        Ok(bytes) => check_by_text(alloc, universe, req, sels, bytes.as_slice(), out),
        Err(outcome) => outcome,
    }
}

// Checks the selections that bytes say.
fn check_text<F: Feeds, O: Sink>(
    alloc: Global,
    universe: &Universe,
    req: &Requirement,
    bytes: &[u8],
    proof: Text,
    feeds: &mut F,
    out: &mut O,
) -> Outcome
    requires { BeginsWith universe.now req.now.interface }
    ensures { ChecksText universe.now req.now bytes.now proof
        (record { feeds = F.seen feeds.old; out = O.seen out.old })
        (record { feeds = F.seen feeds.new; out = O.seen out.new })
        result }
{
    match zi_sels::read(alloc, bytes) {
        Ok(sels) => check_by_file(alloc, universe, req, sels, proof, feeds, out),
        Err(SelsFault::Memory) => Outcome::Memory,
        Err(fault) => Outcome::BadSels { fault },
    }
}

// Checks the selections of a file.
fn check_file<F: Feeds, O: Sink>(
    alloc: Global,
    universe: &Universe,
    req: &Requirement,
    sels: Text,
    proof: Text,
    feeds: &mut F,
    out: &mut O,
) -> Outcome
    requires { BeginsWith universe.now req.now.interface }
    ensures { ChecksFile universe.now req.now sels proof
        (record { feeds = F.seen feeds.old; out = O.seen out.old })
        (record { feeds = F.seen feeds.new; out = O.seen out.new })
        result }
{
    match get_file(alloc, sels, SELS_LIMIT, feeds) {
        Ok(bytes) => check_text(alloc, universe, req, bytes.as_slice(), proof, feeds, out),
        Err(outcome) => outcome,
    }
}

// Loads what is asked for over what is known, and checks the selections.
fn check_over<F: Feeds, O: Sink>(
    alloc: Global,
    ask: Ask,
    sels: Text,
    proof: Text,
    known: &Known,
    feeds: &mut F,
    out: &mut O,
) -> Outcome
    ensures over { ChecksOver ask sels proof known.now
        (record { feeds = F.seen feeds.old; out = O.seen out.old })
        (record { feeds = F.seen feeds.new; out = O.seen out.new })
        result }
    ensures feeds { FeedsStay (F.seen feeds.old) (F.seen feeds.new) }
{
    let Ok(job) = into_job(alloc, ask) else {
        return Outcome::Memory;
    };
    match load_over(alloc, &job, known, feeds) {
        Ok(universe) => check_file(alloc, &universe, &job.req, sels, proof, feeds, out),
        Err(fault) => refused(fault),
    }
}

/// Finds out which digests are in which store and which packages there are, loads what is asked for, gets the selections and the
/// certificate of these names, and writes `yes` where the selections are those of the best choice. `Rejected` comes at the first test
/// that fails: each selection is a candidate, found by interface, feed and id; root and command are those asked for; the certificate
/// shows their choice the best; and the selections, with their items in byte order of the interface, are those of that choice.
pub fn check<F: Feeds, K: Shelf, R: Shelf, O: Sink>(
    alloc: Global,
    asked: Asked,
    sels: Text,
    proof: Text,
    feeds: &mut F,
    shelf: &mut K,
    others: &mut [R],
    out: &mut O,
) -> Outcome
    ensures { ChecksBest asked sels proof
        (record { feeds = F.seen feeds.old; shelf = K.seen shelf.old; others = map R.seen others.old; out = O.seen out.old })
        (record { feeds = F.seen feeds.new; shelf = K.seen shelf.new; others = map R.seen others.new; out = O.seen out.new })
        result }
{
    let Asked { ask, table } = asked;
    match known_of(alloc, table, feeds, shelf, others) {
        Ok(known) => check_over(alloc, ask, sels, proof, &known, feeds, out),
        Err(outcome) => outcome,
    }
}
