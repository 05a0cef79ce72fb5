//! The six reasons, one test each.
ghost use Rattle.std.specs.Prelude.{◌≡◌, ◌<◌, ◌++◌, map, find, length, option_map, option_copied, is_none, Some, not, IfOk};
ghost use Rattle.std.specs.List.{list_any, flat_map};
ghost use Rattle.zi_choice.specs.Choice.{candidate_at, chosen};
ghost use Rattle.zi_choice.specs.Stops.{came_to};
ghost use Rattle.zi_choice.specs.Vars.{candidates_of};
ghost use Rattle.zi_build.specs.Clauses.{is_admitted, named_by};
ghost use Rattle.zi_why.specs.Known.{universe_of, picks_of, before, Knows, as_owned, owner_of};
ghost use Rattle.zi_why.specs.Reasons.{lacks, does_suit, is_essential, refuses, named_of, of_root, isnt_met_by, is_against, is_beyond, reason};

use crate::known::{Known, Owned};
use crate::report::Reason;
use crate::setting::{Numbered, Setting, candidates, chosen, lacks, uri_of};
use zi_choice::group;
use zi_parts::{Dep, DepKind};
use zi_text::{Memory, Text};
use zi_universe::{Candidate, asks};

// Whether a dependency admits a candidate's version.
fn is_admitted(dep: &Dep, k: &Candidate) -> bool
    ensures { result ≡ is_admitted dep.now k.now }
{
    dep.ranges
        .as_slice()
        .iter()
        .all(|r| r.admits(&k.imp.version))
}

// Whether something must be chosen for it.
fn is_essential(dep: &Dep) -> bool
    ensures { result ≡ is_essential dep.now.kind }
{
    match dep.kind {
        DepKind::Essential => true,
        DepKind::Recommended => false,
        DepKind::Restricts => false,
    }
}

// The commands that a dependency names.
fn named_by<'u>(dep: &'u Dep) -> &'u [Text]
    ensures { result.now ≡ named_by dep.now }
{
    if asks(dep) {
        dep.commands.as_slice()
    } else {
        &[]
    }
}

// The first of some commands that a candidate lacks.
fn first_lacked<'u>(on: &Setting, p: &Numbered, names: &'u [Text]) -> Option<&'u Text>
    requires there { candidate_at (universe_of on.now) p.now.interface p.now.candidate ≡ Some p.now.is.now }
    ensures { option_copied result ≡ find (lacks p.now.is.now) names.now }
{
    for name in names {
        if lacks(on, p, name) {
            return Some(name);
        }
    }
    None
}

// Whether a candidate suits a dependency: its version is admitted, and each command named is there.
fn does_suit(on: &Setting, p: &Numbered, dep: &Dep) -> bool
    requires there { candidate_at (universe_of on.now) p.now.interface p.now.candidate ≡ Some p.now.is.now }
    ensures { result ≡ does_suit dep.now p.now.is.now }
{
    if !is_admitted(dep, p.is) {
        return false;
    }
    let lacked = first_lacked(on, p, named_by(dep));
    lacked.is_none()
}

// The owner of the first dependency that doesn't admit a candidate.
fn refusing(bearing: &[Owned], k: &Candidate) -> Option<u32>
    ensures { result ≡ option_map owner_of (find (refuses k.now) (map as_owned bearing.now)) }
{
    for owned in bearing {
        if !is_admitted(owned.dep, k) {
            return Some(owned.owner);
        }
    }
    None
}

// The command that is wanted of the root, where the candidate is one of it and lacks it.
fn lacked_at_root<'u>(on: &Setting<'u>, p: &Numbered) -> Option<&'u Text>
    requires there { candidate_at (universe_of on.now) p.now.interface p.now.candidate ≡ Some p.now.is.now }
    ensures { option_copied result ≡ find (lacks p.now.is.now) (of_root on.now.req.now p.now.interface) }
{
    if p.interface != 0 {
        return None;
    }
    let Some(name) = &on.req.command else {
        return None;
    };
    if lacks(on, p, name) { Some(name) } else { None }
}

// The first command that an owned dependency names and the candidate lacks.
fn lacked_below<'u>(on: &Setting, bearing: &[Owned<'u>], p: &Numbered) -> Option<&'u Text>
    requires there { candidate_at (universe_of on.now) p.now.interface p.now.candidate ≡ Some p.now.is.now }
    ensures { option_copied result ≡ find (lacks p.now.is.now) (flat_map named_of (map as_owned bearing.now)) }
{
    for o in bearing {
        if let Some(name) = first_lacked(on, p, named_by(o.dep)) {
            return Some(name);
        }
    }
    None
}

// The first command that is asked of the candidate and that it lacks.
fn lacking<'u>(on: &Setting<'u>, bearing: &[Owned<'u>], p: &Numbered) -> Option<&'u Text>
    requires there { candidate_at (universe_of on.now) p.now.interface p.now.candidate ≡ Some p.now.is.now }
    ensures { option_copied result ≡ find (lacks p.now.is.now) (of_root on.now.req.now p.now.interface ++ flat_map named_of (map as_owned bearing.now)) }
{
    if let Some(name) = lacked_at_root(on, p) {
        return Some(name);
    }
    lacked_below(on, bearing, p)
}

// Whether what is chosen for an interface doesn't meet a dependency.
fn isnt_met_there(on: &Setting, j: u32, dep: &Dep) -> bool
    ensures { result ≡ isnt_met_by dep.now (chosen (universe_of on.now) (picks_of on.now) j) }
{
    let Some(q) = chosen(on, j) else {
        return is_essential(dep);
    };
    !does_suit(on, &q, dep)
}

// Whether a dependency of the candidate isn't met by itself, or by what is chosen at an earlier place.
fn is_against(on: &Setting, known: &Known, at: usize, p: &Numbered, dep: &Dep) -> bool
    requires knows { Knows on.now at known.now }
    requires there { candidate_at (universe_of on.now) p.now.interface p.now.candidate ≡ Some p.now.is.now }
    ensures { result ≡ is_against (universe_of on.now) (picks_of on.now) (before on.now at) p.now.interface p.now.is.now dep.now }
{
    let Some(j) = on.names.number(&dep.interface) else {
        return false;
    };
    if j == p.interface {
        return !does_suit(on, p, dep);
    }
    if !known.came.contains(&j) {
        return false;
    }
    isnt_met_there(on, j, dep)
}

// The first dependency of the candidate that is against what is chosen.
fn against<'u>(on: &Setting, known: &Known, at: usize, p: &Numbered<'u>) -> Option<&'u Dep>
    requires knows { Knows on.now at known.now }
    requires there { candidate_at (universe_of on.now) p.now.interface p.now.candidate ≡ Some p.now.is.now }
    ensures { option_copied result ≡ find (is_against (universe_of on.now) (picks_of on.now) (before on.now at) p.now.interface p.now.is.now) p.now.is.now.imp.deps }
{
    let deps = &p.is.imp.deps;
    for n in 0..deps.len() {
        let dep = deps.at(n);
        if is_against(on, known, at, p, dep) {
            return Some(dep);
        }
    }
    None
}

// Whether some candidate of an interface suits a dependency.
fn some_suits(on: &Setting, j: u32, dep: &Dep) -> bool
    ensures { result ≡ list_any (does_suit dep.now) (candidates_of (universe_of on.now) j) }
{
    let all = candidates(on, j);
    for c in 0..all.len() {
        let p = Numbered {
            interface: j,
            candidate: c as u32,
            is: &all[c],
        };
        if does_suit(on, &p, dep) {
            return true;
        }
    }
    false
}

// Whether an essential dependency can be met by no candidate.
fn is_beyond(on: &Setting, dep: &Dep) -> bool
    ensures { result ≡ is_beyond (universe_of on.now) dep.now }
{
    if !is_essential(dep) {
        return false;
    }
    let Some(j) = on.names.number(&dep.interface) else {
        return true;
    };
    !some_suits(on, j, dep)
}

// The first dependency of the candidate that can be met by none.
fn missing<'u>(on: &Setting, k: &'u Candidate) -> Option<&'u Dep>
    ensures { option_copied result ≡ find (is_beyond (universe_of on.now)) k.now.imp.deps }
{
    let deps = &k.imp.deps;
    for n in 0..deps.len() {
        let dep = deps.at(n);
        if is_beyond(on, dep) {
            return Some(dep);
        }
    }
    None
}

/// The first reason that holds for a candidate at the place of a stop, with the number of its block's hints.
pub(crate) fn reason(
    on: &Setting,
    known: &Known,
    at: usize,
    p: &Numbered,
    hints: u64,
) -> Result<Reason, Memory>
    requires knows { Knows on.now at known.now }
    requires there { candidate_at (universe_of on.now) p.now.interface p.now.candidate ≡ Some p.now.is.now }
    requires within { p.now.interface < length (universe_of on.now) }
    ensures { IfOk result (λ r. r ≡ reason (universe_of on.now) on.now.req.now (picks_of on.now) (before on.now at) p.now.interface p.now.is.now hints) }
{
    let bearing = known.bearing_on(p.interface);
    if let Some(owner) = refusing(bearing, p.is) {
        let by = uri_of(on, owner)?;
        return Ok(Reason::Version { by });
    }
    if let Some(name) = lacking(on, bearing, p) {
        let command = name.copy(on.alloc)?;
        return Ok(Reason::Lacking { command });
    }
    if let Some(i) = known.other_bits(group(p.is)) {
        let by = uri_of(on, i)?;
        return Ok(Reason::Bits { by });
    }
    if let Some(dep) = against(on, known, at, p) {
        let interface = dep.interface.copy(on.alloc)?;
        return Ok(Reason::Against { interface });
    }
    if let Some(dep) = missing(on, p.is) {
        let interface = dep.interface.copy(on.alloc)?;
        return Ok(Reason::Needs { interface });
    }
    Ok(Reason::Search { hints })
}
