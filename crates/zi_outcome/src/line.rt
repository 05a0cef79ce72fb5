//! The line of an outcome, put piece by piece.
ghost use Rattle.std.specs.Prelude.{◌≡◌, ◌<◌, ◌+◌, [], ◌∷◌, ◌++◌, codes};
ghost use Rattle.std.specs.Fmt.{decimal};
ghost use Rattle.zi_outcome.specs.Line.{line_of, blamed, measure_of, number_of_sels, number_of_plan};
ghost use Rattle.zi_outcome.specs.Writing.{PutsAll};

use crate::Outcome;
use crate::writing::put_piece;
use zi_faults::number;
use zi_outside::{Sink, SinkFault};
use zi_plan::PlanFault;
use zi_sels::SelsFault;
use zi_text::Text;
use zi_tree::TreeLimit;
use zi_universe::BadFeed;

// Two pieces, one behind the other.
#[tactic(auto, using(crate::proofs::WritingLemmas::pieces))]
fn put_two<E: Sink>(a: &[u8], b: &[u8], err: &mut E) -> Result<(), SinkFault>
    ensures { PutsAll (E.seen err.old) (a.now ++ b.now) result (E.seen err.new) }
{
    match put_piece(a, err) {
        Ok(()) => put_piece(b, err),
        Err(e) => Err(e),
    }
}

// Three pieces.
#[tactic(auto, using(crate::proofs::WritingLemmas::pieces))]
fn put_three<E: Sink>(a: &[u8], b: &[u8], c: &[u8], err: &mut E) -> Result<(), SinkFault>
    ensures { PutsAll (E.seen err.old) (a.now ++ b.now ++ c.now) result (E.seen err.new) }
{
    match put_two(a, b, err) {
        Ok(()) => put_piece(c, err),
        Err(e) => Err(e),
    }
}

// A name between two pieces.
fn put_name<E: Sink>(a: &[u8], name: &Text, b: &[u8], err: &mut E) -> Result<(), SinkFault>
    ensures { PutsAll (E.seen err.old) (a.now ++ name.now ++ b.now) result (E.seen err.new) }
{
    put_three(a, name.as_str().as_bytes(), b, err)
}

// A digit.
#[tactic(auto, using(crate::proofs::WritingLemmas::pieces))]
fn put_digit<E: Sink>(digit: u8, err: &mut E) -> Result<(), SinkFault>
    requires { digit < 10 }
    ensures { PutsAll (E.seen err.old) ((48 + digit) ∷ []) result (E.seen err.new) }
{
    put_piece(&[b'0' + digit], err)
}

// A number in decimal digits.
#[tactic(auto, using(crate::proofs::LineLemmas::numbers))]
fn put_number<E: Sink>(n: u64, err: &mut E) -> Result<(), SinkFault>
    ensures { PutsAll (E.seen err.old) (decimal n) result (E.seen err.new) }
{
    if n < 10 {
        return put_digit(n as u8, err);
    }
    match put_number(n / 10, err) {
        Ok(()) => put_digit((n % 10) as u8, err),
        Err(e) => Err(e),
    }
}

// A number behind a piece.
#[tactic(auto, using(crate::proofs::WritingLemmas::pieces))]
fn put_behind<E: Sink>(a: &[u8], n: u64, err: &mut E) -> Result<(), SinkFault>
    ensures { PutsAll (E.seen err.old) (a.now ++ decimal n) result (E.seen err.new) }
{
    match put_piece(a, err) {
        Ok(()) => put_number(n, err),
        Err(e) => Err(e),
    }
}

/// Puts a number in decimal digits between two pieces. Failed comes where a put failed, at a front of them, and Memory where one
/// lacked memory; it takes none of its own.
#[tactic(auto, using(crate::proofs::WritingLemmas::pieces))]
pub fn put_around<E: Sink>(a: &[u8], n: u64, b: &[u8], err: &mut E) -> Result<(), SinkFault>
    ensures { PutsAll (E.seen err.old) (a.now ++ decimal n ++ b.now) result (E.seen err.new) }
{
    match put_behind(a, n, err) {
        Ok(()) => put_piece(b, err),
        Err(e) => Err(e),
    }
}

// Two pieces with a number behind each, and the end of the line.
#[tactic(auto, using(crate::proofs::WritingLemmas::pieces))]
fn put_numbers<E: Sink>(a: &[u8], m: u64, b: &[u8], n: u64, err: &mut E) -> Result<(), SinkFault>
    ensures { PutsAll (E.seen err.old) ((a.now ++ decimal m) ++ (b.now ++ decimal n ++ codes "\n")) result (E.seen err.new) }
{
    match put_behind(a, m, err) {
        Ok(()) => put_around(b, n, b"\n", err),
        Err(e) => Err(e),
    }
}

// The line of bytes that aren't as many as was said.
#[tactic(auto, using(crate::proofs::WritingLemmas::pieces))]
fn put_sizes<E: Sink>(href: &Text, got: u64, said: u64, err: &mut E) -> Result<(), SinkFault>
    ensures { PutsAll (E.seen err.old) ((codes "zi: " ++ href.now) ++ ((codes " has " ++ decimal got) ++ (codes " bytes, not " ++ decimal said ++ codes "\n"))) result (E.seen err.new) }
{
    match put_two(b"zi: ", href.as_str().as_bytes(), err) {
        Ok(()) => put_numbers(b" has ", got, b" bytes, not ", said, err),
        Err(e) => Err(e),
    }
}

// The number of a fault of a document of selections.
fn number_of_sels(fault: &SelsFault) -> u8
    ensures { result ≡ number_of_sels fault.now }
{
    match fault {
        SelsFault::Doc { .. } => 1,
        SelsFault::NotSelections => 2,
        SelsFault::NoRoot => 3,
        SelsFault::Twice { .. } => 4,
        SelsFault::Feed { .. } => 5,
        SelsFault::Unclosed { .. } => 6,
        SelsFault::Memory => 7,
    }
}

// The number of a fault of a plan.
fn number_of_plan(fault: &PlanFault) -> u8
    ensures { result ≡ number_of_plan fault.now }
{
    match fault {
        PlanFault::NoSelection { .. } => 1,
        PlanFault::NoCommand { .. } => 2,
        PlanFault::NoPath { .. } => 3,
        PlanFault::Loop { .. } => 4,
        PlanFault::Bind(_) => 5,
        PlanFault::Unbuilt { .. } => 6,
        PlanFault::BadPath { .. } => 7,
        PlanFault::NoFolder { .. } => 8,
        PlanFault::Memory => 9,
    }
}

// The kind and the place of a fault, and the end of the line.
fn put_fault<E: Sink>(fault: BadFeed, err: &mut E) -> Result<(), SinkFault>
    ensures { PutsAll (E.seen err.old) (blamed fault ++ codes "\n") result (E.seen err.new) }
{
    match fault {
        BadFeed::Doc { kind, place } => {
            put_numbers(b"document ", u64::from(kind.number()), b" at ", place, err)
        }
        BadFeed::Feed { kind, place } => {
            put_numbers(b"feed ", u64::from(number(kind)), b" at ", place, err)
        }
    }
}

// Three pieces, and a fault.
#[tactic(auto, using(crate::proofs::WritingLemmas::pieces))]
fn put_bad<E: Sink>(
    a: &[u8],
    b: &[u8],
    c: &[u8],
    fault: BadFeed,
    err: &mut E,
) -> Result<(), SinkFault>
    ensures { PutsAll (E.seen err.old) ((a.now ++ b.now ++ c.now) ++ (blamed fault ++ codes "\n")) result (E.seen err.new) }
{
    match put_three(a, b, c, err) {
        Ok(()) => put_fault(fault, err),
        Err(e) => Err(e),
    }
}

// Two pieces, and a number between two more.
#[tactic(auto, using(crate::proofs::WritingLemmas::pieces))]
fn put_five<E: Sink>(
    a: &[u8],
    b: &[u8],
    c: &[u8],
    n: u64,
    d: &[u8],
    err: &mut E,
) -> Result<(), SinkFault>
    ensures { PutsAll (E.seen err.old) ((a.now ++ b.now) ++ (c.now ++ decimal n ++ d.now)) result (E.seen err.new) }
{
    match put_two(a, b, err) {
        Ok(()) => put_around(c, n, d, err),
        Err(e) => Err(e),
    }
}

// The line of a limit that is passed.
fn put_limit<E: Sink>(limit: u64, what: &[u8], err: &mut E) -> Result<(), SinkFault>
    ensures { PutsAll (E.seen err.old) (codes "zi: more than " ++ decimal limit ++ what.now) result (E.seen err.new) }
{
    put_around(b"zi: more than ", limit, what, err)
}

// Two pieces with a name behind each, and the end of the line.
#[tactic(auto, using(crate::proofs::WritingLemmas::pieces))]
fn put_names<E: Sink>(
    a: &[u8],
    name: &Text,
    b: &[u8],
    found: &Text,
    err: &mut E,
) -> Result<(), SinkFault>
    ensures { PutsAll (E.seen err.old) ((a.now ++ name.now) ++ (b.now ++ found.now ++ codes "\n")) result (E.seen err.new) }
{
    match put_two(a, name.as_str().as_bytes(), err) {
        Ok(()) => put_three(b, found.as_str().as_bytes(), b"\n", err),
        Err(e) => Err(e),
    }
}

// The line of a tree that is too large.
fn put_measure<E: Sink>(what: TreeLimit, limit: u64, err: &mut E) -> Result<(), SinkFault>
    ensures { PutsAll (E.seen err.old) ((codes "zi: tree too large: " ++ measure_of what) ++ (codes " past " ++ decimal limit ++ codes "\n")) result (E.seen err.new) }
{
    match what {
        TreeLimit::Size => put_around(b"zi: tree too large: size past ", limit, b"\n", err),
        TreeLimit::Nodes => put_around(b"zi: tree too large: nodes past ", limit, b"\n", err),
        TreeLimit::Depth => put_around(b"zi: tree too large: depth past ", limit, b"\n", err),
    }
}

/// Puts the line of an outcome: `zi: `, its text and LF, and nothing for Done and Child. Failed comes where a put failed, at a front of the
/// line, and Memory where one lacked memory; it takes none of its own.
pub fn tell<E: Sink>(outcome: &Outcome, err: &mut E) -> Result<(), SinkFault>
    ensures { PutsAll (E.seen err.old) (line_of outcome.now) result (E.seen err.new) }
{
    match outcome {
        Outcome::Done => Ok(()),
        Outcome::Usage { index } => put_around(b"zi: usage at word ", *index, b"\n", err),
        Outcome::FeedRead { uri } => put_name(b"zi: cannot read ", uri, b"\n", err),
        Outcome::NoRootFeed => put_piece(b"zi: no feed for the root\n", err),
        Outcome::BadFeed { uri, fault } => {
            let uri = uri.as_str().as_bytes();
            put_bad(b"zi: bad feed ", uri, b": ", *fault, err)
        }
        Outcome::FeedTooLong { uri, limit } => {
            let uri = uri.as_str().as_bytes();
            put_five(b"zi: ", uri, b" is longer than ", *limit, b" bytes\n", err)
        }
        Outcome::TooManyFeeds { limit } => put_limit(*limit, b" feeds\n", err),
        Outcome::TooManyInterfaces { limit } => put_limit(*limit, b" interfaces\n", err),
        Outcome::TooManyCandidates { limit } => put_limit(*limit, b" candidates\n", err),
        Outcome::TooLarge { limit } => put_limit(*limit, b" literals\n", err),
        Outcome::NoSolution { proof: _ } => put_piece(b"zi: no solution\n", err),
        Outcome::Spent { proof: _, count } => {
            put_around(b"zi: search spent after ", *count, b" lemmas\n", err)
        }
        Outcome::NoFile { name } => put_name(b"zi: no file ", name, b"\n", err),
        Outcome::BadSels { fault } => {
            let number = u64::from(number_of_sels(fault));
            put_around(b"zi: bad selections: fault ", number, b"\n", err)
        }
        Outcome::BadProof { line } => put_around(b"zi: bad proof at line ", *line, b"\n", err),
        Outcome::Rejected => put_piece(b"zi: rejected\n", err),
        Outcome::Plan(fault) => {
            let number = u64::from(number_of_plan(fault));
            put_around(b"zi: cannot launch: fault ", number, b"\n", err)
        }
        Outcome::FetchRead { href } => put_name(b"zi: cannot fetch ", href, b"\n", err),
        Outcome::NoRemote { href } => put_name(b"zi: nothing at ", href, b"\n", err),
        Outcome::WrongSize { href, said, got } => put_sizes(href, *got, *said, err),
        Outcome::Overlap { path } => put_name(b"zi: ", path, b" is already there\n", err),
        Outcome::NoPath { path } => put_name(b"zi: no ", path, b"\n", err),
        Outcome::Mismatch { name, found } => {
            put_names(b"zi: expected ", name, b", found ", found, err)
        }
        Outcome::MissingTree { name } => put_name(b"zi: ", name, b" is not stored\n", err),
        Outcome::DamagedTree { name, found } => {
            put_names(b"zi: ", name, b" is damaged: ", found, err)
        }
        Outcome::BadName { path } => put_name(b"zi: bad name ", path, b"\n", err),
        Outcome::TreeTooLarge { what, limit } => put_measure(*what, *limit, err),
        Outcome::StoreFault { name } => put_name(b"zi: store fault at ", name, b"\n", err),
        Outcome::Crowded { tried } => {
            put_around(b"zi: ", u64::from(*tried), b" temporary names taken\n", err)
        }
        Outcome::SpawnFault => put_piece(b"zi: cannot start the program\n", err),
        Outcome::SinkFault => put_piece(b"zi: cannot write\n", err),
        Outcome::Memory => put_piece(b"zi: out of memory\n", err),
        Outcome::BadPackages { line } => {
            put_around(b"zi: bad package table at line ", *line, b"\n", err)
        }
        Outcome::NotInstalled { package } => put_name(
            b"zi: ",
            package,
            b" is not installed\n",
            err,
        ),
        Outcome::Child { .. } => Ok(()),
    }
}
