//! Whether dependencies are met.
ghost use Rattle.std.specs.Prelude.{◌≡◌, ◌↔◌, ◌≤◌, ◌<◌, IsTrue, IsSome, IfSome, IsSomeAnd, All, Some, length, option_copied};
ghost use Rattle.std.specs.List.{list_all};
ghost use Rattle.zi_version.specs.Range.{admits};
ghost use Rattle.zi_choice.specs.Choice.{number, pick, chosen, command_at, needs_of};
ghost use Rattle.zi_choice.specs.Valid.{Has, Suits, IsMet, AreMet};
ghost use Rattle.zi_choice.specs.Traces.{as_use};
ghost use Rattle.zi_check.specs.Parts.{universe_of, picks_of, IsEssential, IsUseMet, IsCandidateMet, IsOf, SomeAre};

use zi_choice::{Names, Used, group};
use zi_inherited::Inherited;
use zi_parts::{Command, Dep, DepKind};
use zi_policy::Width;
use zi_text::Text;
use zi_universe::{Candidate, Requirement, asks};

/// Over what a choice is looked at: a universe with its names, and what is picked for each interface.
#[derive(Clone, Copy)]
pub(crate) struct Setting<'u> {
    pub names: &'u Names<'u>,
    pub picks: &'u [Option<u32>],
}

// What is picked for an interface.
fn picked(on: &Setting, i: u32) -> Option<u32>
    ensures { result ≡ pick (picks_of on.now) i }
{
    match on.picks.get(i as usize) {
        Some(pick) => *pick,
        None => None,
    }
}

/// The candidate that is chosen for an interface.
pub(crate) fn chosen<'u>(on: &Setting<'u>, i: u32) -> Option<&'u Candidate>
    ensures { option_copied result ≡ chosen (universe_of on.now) (picks_of on.now) i }
{
    let pick = *on.picks.get(i as usize)?;
    let interface = on.names.universe().interfaces().get(i as usize)?;
    interface.candidates.as_slice().get(pick? as usize)
}

// The command of a name that the candidate has which is chosen for an interface.
fn command_of<'u>(on: &Setting<'u>, i: u32, k: &'u Candidate, name: &Text) -> Option<&'u Command>
    requires chosen { chosen (universe_of on.now) (picks_of on.now) i ≡ Some k.now }
    ensures { option_copied result ≡ command_at (universe_of on.now) (picks_of on.now) i name.now }
{
    let candidate = picked(on, i)?;
    let place = on.names.command_place(i, candidate, name)?;
    let command = k.imp.commands.get(place)?;
    Some(command.as_ref())
}

// The command of a name at an interface.
fn command_at<'u>(on: &Setting<'u>, i: u32, name: &Text) -> Option<&'u Command>
    ensures { option_copied result ≡ command_at (universe_of on.now) (picks_of on.now) i name.now }
{
    match chosen(on, i) {
        None => None,
        Some(k) => command_of(on, i, k, name),
    }
}

// Whether the choice has the command of a name at an interface.
fn has(on: &Setting, i: u32, name: &Text) -> bool
    ensures { IsTrue result ↔ IsSome (command_at (universe_of on.now) (picks_of on.now) i name.now) }
{
    command_at(on, i, name).is_some()
}

// Whether it has each.
fn has_each(on: &Setting, i: u32, names: &[Text]) -> bool
    ensures { IsTrue result ↔ All (λ name. IsSome (command_at (universe_of on.now) (picks_of on.now) i name)) names.now }
{
    names.iter().all(|name| has(on, i, name))
}

// Whether a candidate's version is admitted.
fn is_admitted(dep: &Dep, k: &Candidate) -> bool
    ensures { result ≡ list_all (λ r. admits r k.now.imp.version) dep.now.ranges }
{
    dep.ranges
        .as_slice()
        .iter()
        .all(|r| r.admits(&k.imp.version))
}

// Whether it must be there.
fn is_essential(dep: &Dep) -> bool
    ensures { IsTrue result ↔ IsEssential dep.now }
{
    match dep.kind {
        DepKind::Essential => true,
        DepKind::Recommended => false,
        DepKind::Restricts => false,
    }
}

// Whether the candidate that is chosen for an interface suits a dependency.
fn suits(on: &Setting, i: u32, k: &Candidate, dep: &Dep) -> bool
    requires chosen { chosen (universe_of on.now) (picks_of on.now) i ≡ Some k.now }
    ensures { IsTrue result ↔ Suits dep.now k.now }
{
    if !is_admitted(dep, k) {
        return false;
    }
    if !asks(dep) {
        return true;
    }
    has_each(on, i, dep.commands.as_slice())
}

// Whether a dependency is met at its interface.
fn is_met_at(on: &Setting, i: u32, dep: &Dep) -> bool
    requires there { number (universe_of on.now) dep.now.interface ≡ Some i }
    ensures { IsTrue result ↔ IsMet (universe_of on.now) (picks_of on.now) dep.now }
{
    match chosen(on, i) {
        None => !is_essential(dep),
        Some(k) => suits(on, i, k, dep),
    }
}

// Whether a dependency is met.
fn is_met(on: &Setting, dep: &Dep) -> bool
    ensures { IsTrue result ↔ IsMet (universe_of on.now) (picks_of on.now) dep.now }
{
    match on.names.number(&dep.interface) {
        None => !is_essential(dep),
        Some(i) => is_met_at(on, i, dep),
    }
}

// Whether dependencies are met.
fn are_met(on: &Setting, deps: &[Dep]) -> bool
    ensures { IsTrue result ↔ AreMet (universe_of on.now) (picks_of on.now) deps.now }
{
    deps.iter().all(|dep| is_met(on, dep))
}

// Whether dependencies are met that are inherited or a candidate's own.
fn are_all_met(on: &Setting, deps: &Inherited<Dep>) -> bool
    ensures { IsTrue result ↔ AreMet (universe_of on.now) (picks_of on.now) deps.now }
{
    for n in 0..deps.len() {
        if !is_met(on, deps.at(n)) {
            return false;
        }
    }
    true
}

// Whether what a command needs is met.
fn is_command_met(on: &Setting, m: &Command) -> bool
    ensures { IsTrue result ↔ AreMet (universe_of on.now) (picks_of on.now) (needs_of m.now) }
{
    if !are_met(on, m.deps.as_slice()) {
        return false;
    }
    match &m.runner {
        None => true,
        Some(runner) => is_met(on, &runner.dep),
    }
}

// Whether what a used command needs is met.
fn is_use_met(on: &Setting, x: &Used) -> bool
    ensures { IsTrue result ↔ IsUseMet on.now (as_use x.now) }
{
    match command_at(on, x.interface, &x.command) {
        None => true,
        Some(m) => is_command_met(on, m),
    }
}

/// Whether what the used commands need is met.
pub(crate) fn are_uses_met(on: &Setting, used: &[Used]) -> bool
    ensures { IsTrue result ↔ All (λ x. IsUseMet on.now (as_use x)) used.now }
{
    used.iter().all(|x| is_use_met(on, x))
}

/// Whether what the candidate needs is met that is chosen for an interface.
pub(crate) fn is_candidate_met(on: &Setting, i: u32) -> bool
    ensures { IsTrue result ↔ IsCandidateMet on.now i }
{
    match chosen(on, i) {
        None => true,
        Some(k) => are_all_met(on, &k.imp.deps),
    }
}

/// Whether the root is chosen, and has the command that is wanted.
pub(crate) fn is_root_right(on: &Setting, req: &Requirement) -> bool
    ensures { IsTrue result ↔ IsSomeAnd (chosen (universe_of on.now) (picks_of on.now) 0) (λ c. IfSome req.now.command (λ name. Has c name)) }
{
    match chosen(on, 0) {
        None => false,
        Some(_k) => match &req.command {
            None => true,
            Some(name) => has(on, 0, name),
        },
    }
}

// Whether the candidate that is chosen for an interface is of a bit group.
fn is_of(on: &Setting, i: u32, width: Width) -> bool
    ensures { IsTrue result ↔ IsOf on.now width i }
{
    match chosen(on, i) {
        None => false,
        Some(k) => group(k) == width,
    }
}

/// Whether some candidate that is chosen for one of the first interfaces is of a bit group.
pub(crate) fn some_are(on: &Setting, interfaces: u32, width: Width) -> bool
    ensures { IsTrue result ↔ SomeAre on.now interfaces width }
{
    for i in 0..interfaces {
        if is_of(on, i, width) {
            return true;
        }
    }
    false
}
