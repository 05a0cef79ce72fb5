//! How many interfaces and candidates a universe has, and how many of them a choice selects, as lines.
ghost use Rattle.std.specs.Prelude.{◌≡◌, ◌≤◌, ◌++◌, length, filter, is_some, IfOk, OnOk};
ghost use Rattle.zi_universe.specs.Whole.{candidates_in, most_candidates};
ghost use Rattle.zi_choosing.specs.Demo.{is_first, counts_of, count_line, lines};

use std::alloc::Global;
use zi_choice::Choice;
use zi_text::{Memory, Text};
use zi_universe::{Interface, Universe};

/// How many interfaces and candidates a universe has, how many interfaces have a candidate chosen, and how many their first.
#[derive(Clone, Copy)]
pub struct Counts {
    pub interfaces: usize,
    pub candidates: usize,
    pub selections: usize,
    pub first: usize,
}

// How many candidates interfaces have.
fn candidates_in(interfaces: &[Interface]) -> usize
    requires { candidates_in interfaces.now ≤ most_candidates }
    ensures { result ≡ candidates_in interfaces.now }
{
    let mut count = 0;
    for interface in interfaces {
        count += interface.candidates.len();
    }
    count
}

// Whether the first candidate is chosen.
fn is_first(pick: &Option<u32>) -> bool
    ensures { result ≡ is_first pick.now }
{
    match pick {
        Some(c) => *c == 0,
        None => false,
    }
}

// How many interfaces have a candidate chosen.
fn selections(picks: &[Option<u32>]) -> usize
    ensures { result ≡ length (filter is_some picks.now) }
{
    picks.iter().filter(|pick| pick.is_some()).count()
}

// How many interfaces have their first candidate chosen.
fn first(picks: &[Option<u32>]) -> usize
    ensures { result ≡ length (filter is_first picks.now) }
{
    picks.iter().filter(|pick| is_first(pick)).count()
}

/// The counts of a universe and a choice from it.
pub fn counts_of(universe: &Universe, choice: &Choice) -> Counts
    ensures { result ≡ counts_of universe.now choice.now.picks }
{
    let interfaces = universe.interfaces();
    let picks = choice.picks.as_slice();
    Counts {
        interfaces: interfaces.len(),
        candidates: candidates_in(interfaces),
        selections: selections(picks),
        first: first(picks),
    }
}

// Adds a line: a word, a space, a number.
fn put_count(alloc: Global, text: &mut Text, word: &str, number: usize) -> Result<(), Memory>
    ensures { OnOk result (text.new ≡ text.old ++ count_line word.now number) }
{
    let line = format!(in alloc; "{word} {number}\n")?;
    text.push_str(line.as_str())
}

/// The five lines of counts: each of the four behind its word, and that the certificate was checked. Memory is its one refusal.
#[tactic(auto, unfolding(crate::specs::Demo::lines))]
pub fn lines(alloc: Global, counts: &Counts) -> Result<Text, Memory>
    ensures { IfOk result (λ text. text ≡ lines counts.now) }
{
    let mut text = Text::new(alloc);
    put_count(alloc, &mut text, "interfaces", counts.interfaces)?;
    put_count(alloc, &mut text, "candidates", counts.candidates)?;
    put_count(alloc, &mut text, "selections", counts.selections)?;
    put_count(alloc, &mut text, "first", counts.first)?;
    text.push_str("checked yes\n")?;
    Ok(text)
}
