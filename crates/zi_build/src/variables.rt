//! The variables of a formula, and their numbers as a table.
ghost use Rattle.std.specs.Prelude.{◌≡◌, ◌≤◌, ◌<◌, ◌+◌, ◌*◌, ◌^◌, IfOk, MatchOption};
ghost use Rattle.zi_choice.specs.Vars.{total, own_candidates, own_commands, all_commands};
ghost use Rattle.zi_build.specs.Clauses.{most_literals};
ghost use Rattle.zi_build.specs.Writing.{starts, command_starts, IsTable};

use std::alloc::Global;
use zi_text::{List, Memory};
use zi_universe::{Candidate, Universe};

/// The most commands that a formula may speak of: each has a clause of two literals.
const MOST_COMMANDS: u32 = 4_000_000;

/// A variable, by what it says.
#[derive(Clone, Copy, PartialEq, Eq)]
pub(crate) enum Variable {
    /// A candidate of an interface is chosen.
    Choosing(u32, u32),
    /// The command at a place of a candidate is used.
    Using(u32, u32, u32),
    /// What is chosen is 64-bit.
    SixtyFour,
}

/// The numbers of the variables of a universe: for each interface that of its first candidate, for each of its candidates
/// that of the first command, and the last one.
#[derive(Drop)]
pub(crate) struct VariableTable {
    pub candidates: List<u32>,
    pub commands: List<List<u32>>,
    pub last: u32,
}

// So many commands and those of some candidates, or none where these are too many.
fn count_with(candidates: &[Candidate], before: u32) -> Option<u32>
    requires { before ≤ 4000000 }
    ensures { MatchOption result (4000000 < before + total own_commands candidates.now) (λ n. (n ≡ before + total own_commands candidates.now) × (n ≤ 4000000)) }
{
    let mut n = before;
    for k in candidates {
        let more = k.imp.commands.len();
        if more > (MOST_COMMANDS - n) as usize {
            return None;
        }
        n += more as u32;
    }
    Some(n)
}

// The commands of all candidates, or none where these are too many.
fn count_commands(u: &Universe) -> Option<u32>
    ensures { MatchOption result (4000000 < total all_commands u.now) (λ n. (n ≡ total all_commands u.now) × (n ≤ 4000000)) }
{
    let mut n = 0;
    for x in u.interfaces() {
        n = count_with(x.candidates.as_slice(), n)?;
    }
    Some(n)
}

// The numbers of the interfaces' first candidates, and the one behind the last candidate.
fn candidate_numbers(alloc: Global, u: &Universe) -> Result<(List<u32>, u32), Memory>
    ensures are { IfOk result (λ r. (r.0 ≡ starts own_candidates 1 u.now) × (r.1 ≡ 1 + total own_candidates u.now)) }
    ensures few { IfOk result (λ r. r.1 ≤ 65537) }
{
    let mut numbers = List::new(alloc);
    let mut next: u32 = 1;
    for x in u.interfaces() {
        numbers.push(next)?;
        next += x.candidates.len() as u32;
    }
    Ok((numbers, next))
}

// The numbers of the first commands of some candidates, from one on, and the one behind the last command.
fn numbers_from(
    alloc: Global,
    candidates: &[Candidate],
    first: u32,
) -> Result<(List<u32>, u32), Memory>
    requires { first + total own_commands candidates.now < 2 ^ 32 }
    ensures { IfOk result (λ r. (r.0 ≡ starts own_commands first candidates.now) × (r.1 ≡ first + total own_commands candidates.now)) }
{
    let mut numbers = List::new(alloc);
    let mut next = first;
    for k in candidates {
        numbers.push(next)?;
        next += k.imp.commands.len() as u32;
    }
    Ok((numbers, next))
}

// The numbers of the first commands of all candidates, from one on, and the one behind the last command.
fn command_numbers(
    alloc: Global,
    u: &Universe,
    first: u32,
) -> Result<(List<List<u32>>, u32), Memory>
    requires { first + total all_commands u.now < 2 ^ 32 }
    ensures { IfOk result (λ r. (r.0 ≡ command_starts first u.now) × (r.1 ≡ first + total all_commands u.now)) }
{
    let mut rows = List::new(alloc);
    let mut next = first;
    for x in u.interfaces() {
        let (row, behind) = numbers_from(alloc, x.candidates.as_slice(), next)?;
        rows.push(row)?;
        next = behind;
    }
    Ok((rows, next))
}

/// The numbers of a universe's variables, or none where its commands alone make too many literals.
pub(crate) fn table_of(alloc: Global, u: &Universe) -> Result<Option<VariableTable>, Memory>
    ensures { IfOk result (λ o. MatchOption o (most_literals < 2 * total all_commands u.now) (IsTable u.now)) }
{
    let Some(_count) = count_commands(u) else {
        return Ok(None);
    };
    let (candidates, first) = candidate_numbers(alloc, u)?;
    let (commands, last) = command_numbers(alloc, u, first)?;
    Ok(Some(VariableTable {
        candidates,
        commands,
        last,
    }))
}
