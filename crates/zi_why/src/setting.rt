//! Over what reasons are looked for.
ghost use Rattle.std.specs.Prelude.{◌≡◌, ◌≤◌, None, Some, length, option_copied, IfOk, MatchOption};
ghost use Rattle.zi_choice.specs.Choice.{pick, candidate_at, chosen, command_of, command_at};
ghost use Rattle.zi_choice.specs.Vars.{candidates_of};
ghost use Rattle.zi_why.specs.Known.{universe_of, picks_of};
ghost use Rattle.zi_why.specs.Reasons.{lacks, uri_of};

use std::alloc::Global;
use zi_choice::{Names, Stop};
use zi_parts::Command;
use zi_proof::Block;
use zi_text::{Memory, Text};
use zi_universe::{Candidate, Requirement};

/// A universe with its names, the requirement, what is picked for each interface and the stops of that, and the blocks of the
/// certificate.
#[derive(Clone, Copy)]
pub(crate) struct Setting<'u> {
    pub alloc: Global,
    pub names: &'u Names<'u>,
    pub req: &'u Requirement,
    pub picks: &'u [Option<u32>],
    pub stops: &'u [Stop],
    pub blocks: &'u [Block],
}

/// A candidate with its interface's number and its own.
#[derive(Clone, Copy)]
pub(crate) struct Numbered<'u> {
    pub interface: u32,
    pub candidate: u32,
    pub is: &'u Candidate,
}

/// What is picked for an interface.
pub(crate) fn picked(on: &Setting, i: u32) -> Option<u32>
    ensures { result ≡ pick (picks_of on.now) i }
{
    match on.picks.get(i as usize) {
        Some(pick) => *pick,
        None => None,
    }
}

/// The candidates of an interface; none where there is no such interface.
pub(crate) fn candidates<'u>(on: &Setting<'u>, i: u32) -> &'u [Candidate]
    ensures is { result.now ≡ candidates_of (universe_of on.now) i }
    ensures few { length result.now ≤ 65536 }
{
    match on.names.universe().interfaces().get(i as usize) {
        None => &[],
        Some(x) => x.candidates.as_slice(),
    }
}

/// The candidate of a number of an interface.
fn candidate<'u>(on: &Setting<'u>, i: u32, c: u32) -> Option<&'u Candidate>
    ensures { option_copied result ≡ candidate_at (universe_of on.now) i c }
{
    let x = on.names.universe().interfaces().get(i as usize)?;
    x.candidates.as_slice().get(c as usize)
}

/// The candidate that is chosen for an interface.
pub(crate) fn chosen<'u>(on: &Setting<'u>, i: u32) -> Option<Numbered<'u>>
    ensures { MatchOption result (chosen (universe_of on.now) (picks_of on.now) i ≡ None) (λ p. (candidate_at (universe_of on.now) p.interface p.candidate ≡ Some p.is.now) × (chosen (universe_of on.now) (picks_of on.now) i ≡ Some p.is.now)) }
{
    let Some(c) = picked(on, i) else {
        return None;
    };
    let Some(k) = candidate(on, i, c) else {
        return None;
    };
    Some(Numbered {
        interface: i,
        candidate: c,
        is: k,
    })
}

// The command of a name that a candidate has.
fn command_of<'u>(on: &Setting<'u>, p: &Numbered<'u>, name: &Text) -> Option<&'u Command>
    requires there { candidate_at (universe_of on.now) p.now.interface p.now.candidate ≡ Some p.now.is.now }
    ensures { option_copied result ≡ command_of p.now.is.now name.now }
{
    let place = on.names.command_place(p.interface, p.candidate, name)?;
    let command = p.is.imp.commands.get(place)?;
    Some(command.as_ref())
}

/// The command of a name of what is chosen for an interface.
pub(crate) fn command_at<'u>(on: &Setting<'u>, i: u32, name: &Text) -> Option<&'u Command>
    ensures { option_copied result ≡ command_at (universe_of on.now) (picks_of on.now) i name.now }
{
    let Some(p) = chosen(on, i) else {
        return None;
    };
    command_of(on, &p, name)
}

/// Whether a candidate has no command of a name.
pub(crate) fn lacks(on: &Setting, p: &Numbered, name: &Text) -> bool
    requires there { candidate_at (universe_of on.now) p.now.interface p.now.candidate ≡ Some p.now.is.now }
    ensures { result ≡ lacks p.now.is.now name.now }
{
    command_of(on, p, name).is_none()
}

/// The address of an interface.
pub(crate) fn uri_of(on: &Setting, i: u32) -> Result<Text, Memory>
    ensures { IfOk result (λ t. t ≡ uri_of (universe_of on.now) i) }
{
    let Some(x) = on.names.universe().interfaces().get(i as usize) else {
        return Ok(Text::new(on.alloc));
    };
    let uri = x.uri.copy(on.alloc)?;
    Ok(uri)
}
