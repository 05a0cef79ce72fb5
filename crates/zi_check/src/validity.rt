//! Whether a choice is valid.
ghost use Rattle.std.specs.Prelude.{◌≡◌, ◌↔◌, ◌≤◌, ◌<◌, IsTrue, IsSome, IfOk, MatchOption, length, map, slice_index_or, true, false};
ghost use Rattle.zi_universe.specs.Whole.{BeginsWith};
ghost use Rattle.zi_choice.specs.Choice.{Fits, pick};
ghost use Rattle.zi_choice.specs.Walk.{Walks};
ghost use Rattle.zi_choice.specs.Valid.{IsValid};
ghost use Rattle.zi_choice.specs.Traces.{as_walk, as_place};
ghost use Rattle.zi_check.specs.Parts.{universe_of, picks_of, Below, IsThere, IsCandidateMet, IsOn, IsRight};

use crate::meeting::{Setting, are_uses_met, is_candidate_met, is_root_right, some_are};
use std::alloc::Global;
use zi_choice::{Choice, Names, Place, Traced, trace_picks};
use zi_numbering::listed;
use zi_policy::Width;
use zi_text::Memory;
use zi_universe::{Interface, Requirement, Universe};

// Whether what is picked for an interface is one of its candidates.
fn is_there(u: &[Interface], picks: &[Option<u32>], i: usize) -> bool
    requires same { length picks.now ≡ length u.now }
    requires within { i < length picks.now }
    ensures { IsTrue result ↔ IsThere u.now picks.now i }
{
    match picks[i] {
        None => true,
        Some(c) => (c as usize) < u[i].candidates.len(),
    }
}

// Whether a choice fits.
fn fits(u: &[Interface], picks: &[Option<u32>]) -> bool
    ensures { IsTrue result ↔ Fits u.now picks.now }
{
    if picks.len() != u.len() {
        return false;
    }
    for i in 0..picks.len() {
        if !is_there(u, picks, i) {
            return false;
        }
    }
    true
}

// Whether what each candidate needs is met that is chosen for one of the first interfaces.
fn are_candidates_met(on: &Setting, interfaces: u32) -> bool
    ensures { IsTrue result ↔ Below interfaces (IsCandidateMet on.now) }
{
    for i in 0..interfaces {
        if !is_candidate_met(on, i) {
            return false;
        }
    }
    true
}

// Whether what is picked for an interface is on the walk.
fn is_on(marks: &[bool], picks: &[Option<u32>], i: usize) -> bool
    requires same { length marks.now ≡ length picks.now }
    requires within { i < length picks.now }
    ensures { IsTrue result ↔ (IsSome (pick picks.now i) → slice_index_or marks.now i false ≡ true) }
{
    match picks[i] {
        None => true,
        Some(_) => marks[i],
    }
}

// Whether all that is picked is on the walk.
fn are_on(alloc: Global, picks: &[Option<u32>], places: &[Place]) -> Result<bool, Memory>
    ensures { IfOk result (λ yes. IsTrue yes ↔ Below (length picks.now) (IsOn (map as_place places.now) picks.now)) }
{
    let marks = listed(alloc, places, picks.len())?;
    for i in 0..picks.len() {
        if !is_on(marks.as_slice(), picks, i) {
            return Ok(false);
        }
    }
    Ok(true)
}

// Whether all is right with a choice that fits, but for its walk.
fn is_right(on: &Setting, req: &Requirement, interfaces: u32) -> bool
    ensures { IsTrue result ↔ IsRight on.now req.now interfaces }
{
    if !is_root_right(on, req) {
        return false;
    }
    if !are_candidates_met(on, interfaces) {
        return false;
    }
    if !some_are(on, interfaces, Width::Bits32) {
        return true;
    }
    !some_are(on, interfaces, Width::Bits64)
}

/// The walk of a choice, where it is valid.
pub(crate) fn valid_walk(
    alloc: Global,
    u: &Universe,
    req: &Requirement,
    c: &Choice,
) -> Result<Option<Traced>, Memory>
    ensures { IfOk result (λ o. MatchOption o (IsValid u.now req.now c.now.picks → ⊥) (λ t. IsValid u.now req.now c.now.picks × Walks u.now req.now c.now.picks (as_walk t))) }
{
    let picks = c.picks.as_slice();
    let interfaces = u.interfaces();
    if !fits(interfaces, picks) {
        return Ok(None);
    }
    let names = Names::of(alloc, u)?;
    let on = Setting {
        names: &names,
        picks,
    };
    if !is_right(&on, req, interfaces.len() as u32) {
        return Ok(None);
    }
    let traced = trace_picks(alloc, &names, req, picks)?;
    if !are_uses_met(&on, traced.used.as_slice()) {
        return Ok(None);
    }
    let is_walked = are_on(alloc, picks, traced.places.as_slice())?;
    if !is_walked {
        return Ok(None);
    }
    Ok(Some(traced))
}

/// Whether a choice is valid: it fits, the root is chosen and has the command that is wanted, what the chosen candidates and
/// the used commands depend on is met, no two candidates are of different bit groups, and nothing is chosen off the walk. One
/// that doesn't fit isn't valid. The work is linear in the universe and in what is followed.
pub fn valid(alloc: Global, u: &Universe, req: &Requirement, c: &Choice) -> Result<bool, Memory>
    requires rooted { BeginsWith u.now req.now.interface }
    ensures { IfOk result (λ yes. IsTrue yes ↔ IsValid u.now req.now c.now.picks) }
{
    let walk = valid_walk(alloc, u, req, c)?;
    Ok(walk.is_some())
}
