//! The hints of a call.
ghost use Rattle.std.specs.Prelude.{◌≡◌, ◌++◌, OnOk};
ghost use Rattle.std.specs.Option.{option_map};
ghost use Rattle.std.specs.Io.KnownBytes.{Appends};
ghost use Rattle.zi_hints.specs.Saying.{hint};
ghost use Rattle.zi_hints.specs.Hints.{cause, hints_at, hints_of_words, hints_of};
ghost use Rattle.zi_hints.specs.Remedies.{remedy};

use crate::causes::{say_bad, say_plan, say_sels};
use crate::remedies::remedy;
use crate::saying::{say_some, say_three, say_told};
use crate::wrong_words::{say_advice, say_former, say_wrong};
use std::io::{self, Write};
use zi_outcome::Outcome;
use zi_text::Text;
use zi_usage::{Place, wrong_at};

/// What the program knows beside an outcome and the words. Each is empty where it isn't known.
#[derive(Clone, Copy)]
pub struct Known<'a> {
    /// The path at which the feed of ROOT was looked for.
    pub path: &'a str,
    /// The path, and the system's reason, of the first call that failed.
    pub failure: &'a str,
    /// The bytes of the feed or of the selections that the outcome is about.
    pub document: &'a [u8],
}

// What is wrong, but of wrong words.
#[tactic(auto, using(zi_shown::proofs::ShownLemmas::nothing_more))]
fn say_cause<W: Write>(outcome: &Outcome, known: Known<'_>, writer: &mut W) -> io::Result<()>
    ensures { OnOk result (Appends (W.contents writer.old) (W.contents writer.new) (hint (cause outcome.now known.entry.path.now known.entry.failure.now known.entry.document.now))) }
{
    match outcome {
        Outcome::FeedRead { .. }
        | Outcome::FetchRead { .. }
        | Outcome::StoreFault { .. }
        | Outcome::SpawnFault
        | Outcome::SinkFault => say_told(known.failure, writer),
        Outcome::NoRootFeed => say_three("nothing is at ", known.path, "", writer),
        Outcome::BadFeed { fault, .. } => say_bad(known.document, *fault, writer),
        Outcome::BadSels { fault } => say_sels(known.document, fault, writer),
        Outcome::Plan(fault) => say_plan(fault, writer),
        _ => Ok(()),
    }
}

// The hints on a word that can't stand at its place, or is missing there.
fn say_at_place<W: Write>(place: Place, word: Option<&Text>, writer: &mut W) -> io::Result<()>
    ensures { OnOk result (Appends (W.contents writer.old) (W.contents writer.new) (hints_at (place, option_map (λ w. w.now) word.entry))) }
{
    say_wrong(place, word, writer)?;
    say_advice(place, word, writer)?;
    say_former(place, word, writer)
}

// The hints on words of which the one with this index is wrong.
fn say_words<W: Write>(words: &[Text], index: u64, writer: &mut W) -> io::Result<()>
    ensures { OnOk result (Appends (W.contents writer.old) (W.contents writer.new) (hints_of_words words.now index)) }
{
    let (place, word) = wrong_at(words, index);
    say_at_place(place, word, writer)
}

// The hints on another outcome.
#[tactic(auto, using(zi_shown::proofs::ShownLemmas::both))]
fn say_others<W: Write>(outcome: &Outcome, known: Known<'_>, writer: &mut W) -> io::Result<()>
    ensures { OnOk result (Appends (W.contents writer.old) (W.contents writer.new) (hint (cause outcome.now known.entry.path.now known.entry.failure.now known.entry.document.now) ++ hint (remedy outcome.now))) }
{
    say_cause(outcome, known, writer)?;
    say_some(remedy(outcome), writer)
}

/// Writes the hints of a call that ended so with these words, each on a line of its own: at most three. The system's error is its one
/// refusal; a front of them may have been written then. It takes no memory.
pub fn hints<W: Write>(
    outcome: &Outcome,
    words: &[Text],
    known: Known<'_>,
    writer: &mut W,
) -> io::Result<()>
    ensures { OnOk result (Appends (W.contents writer.old) (W.contents writer.new) (hints_of outcome.now words.now known.entry.path.now known.entry.failure.now known.entry.document.now)) }
{
    match outcome {
        Outcome::Usage { index } => say_words(words, *index, writer),
        _ => say_others(outcome, known, writer),
    }
}
