//! A walk, task by task, without recursion.
ghost use Rattle.std.specs.Prelude.{◌≡◌, ◌≤◌, ◌<◌, ◌+◌, ◌∷◌, ◌++◌, [], true, false, Some, length, IfOk, IfSome, OnOk, option_copied, map};
ghost use Rattle.zi_choice.specs.Choice.{chosen, command_of, needs_of};
ghost use Rattle.zi_choice.specs.Walk.{leads_to};
ghost use Rattle.zi_choice.specs.Stops.{came_to, needed_at, and_came, and_needed, VisitStops, NeedStops, NeedEachStops, FollowStops};
ghost use Rattle.zi_choice.specs.Tasks.{universe_of, picks_of, stops_of, Does, Runs, Steps, Moves, StopsOn, size, sizes, dep_size, deps_size, IsFurther, IsSame};
ghost use Rattle.zi_choice.specs.declared.walking.Way.{Way as AWay};

use crate::names::Names;
use crate::traced::{Stop, picked};
use indexmap::IndexSet;
use std::alloc::Global;
use zi_inherited::Inherited;
use zi_parts::{Command, Dep};
use zi_text::{Memory, Text};
use zi_universe::{Candidate, Universe, asks};

/// Over what a walk goes: a universe with its names, and what is picked for each interface.
#[derive(Clone, Copy)]
pub(crate) struct Setting<'u> {
    pub alloc: Global,
    pub universe: &'u Universe,
    pub names: &'u Names<'u>,
    pub picks: &'u [Option<u32>],
}

/// What a walk has come to, in order.
#[derive(Drop)]
pub(crate) struct Way {
    pub stops: IndexSet<Stop>,
}

/// What is still to be done.
#[derive(Drop)]
pub(crate) enum Task<'u> {
    /// These dependencies are followed.
    Follow(&'u [Dep]),
    /// This one is followed.
    FollowOne(&'u Dep),
    /// These commands are needed of an interface.
    Need(u32, &'u [Text]),
}

// The candidate that is chosen for an interface.
fn chosen<'u>(on: &Setting<'u>, i: u32) -> Option<&'u Candidate>
    ensures { option_copied result ≡ chosen (universe_of on.now) (picks_of on.now) i }
{
    let pick = *on.picks.get(i as usize)?;
    let interface = on.universe.interfaces().get(i as usize)?;
    interface.candidates.as_slice().get(pick? as usize)
}

// The command of a name that the candidate has which is chosen for an interface.
fn command_of<'u>(on: &Setting<'u>, i: u32, k: &'u Candidate, name: &Text) -> Option<&'u Command>
    requires named { on.now.names.now ≡ universe_of on.now }
    requires chosen { chosen (universe_of on.now) (picks_of on.now) i ≡ Some k.now }
    ensures { option_copied result ≡ command_of k.now name.now }
{
    let candidate = picked(on.picks, i)?;
    let place = on.names.command_place(i, candidate, name)?;
    let command = k.imp.commands.get(place)?;
    Some(command.as_ref())
}

// Where a dependency leads.
fn leads_to(on: &Setting, dep: &Dep) -> Option<u32>
    requires { on.now.names.now ≡ universe_of on.now }
    ensures is { result ≡ leads_to (universe_of on.now) dep.now }
    ensures within { IfSome result (λ i. i < length (universe_of on.now)) }
{
    if !asks(dep) {
        return None;
    }
    on.names.number(&dep.interface)
}

// Inherited dependencies are to be followed, the outer ones first.
fn add_follows<'u>(
    on: &Setting<'u>,
    deps: &'u Inherited<Dep>,
    tasks: &mut Vec<Task<'u>>,
) -> Result<(), Memory>
    ensures { OnOk result ((way : AWay) → Steps on.now (FollowStops (universe_of on.now) (picks_of on.now) deps.now) tasks.old.items way tasks.new.items way) }
{
    let segments = deps.segments(on.alloc)?;
    let pieces = segments.as_slice();
    let mut left = pieces.len();
    while left > 0 {
        left -= 1;
        tasks.push(Task::Follow(pieces[left]))?;
    }
    Ok(())
}

// An interface is one more stop, if it isn't one yet. Says whether it was new.
fn note_interface(way: &mut Way, i: u32) -> Result<bool, Memory>
    ensures new { IfOk result (λ new. new ≡ true → (came_to way.old.stops.keys i ≡ false) × (way.new.stops.keys ≡ and_came way.old.stops.keys i)) }
    ensures old { IfOk result (λ new. new ≡ false → (came_to way.old.stops.keys i ≡ true) × (way.new.stops.keys ≡ way.old.stops.keys)) }
{
    let new = way.stops.insert(Stop::Came(i))?;
    Ok(new)
}

// A command is one more stop, if it isn't one yet. Says whether it was new.
fn note_command(way: &mut Way, i: u32, name: Text) -> Result<bool, Memory>
    ensures new { IfOk result (λ new. new ≡ true → (needed_at way.old.stops.keys i name ≡ false) × (way.new.stops.keys ≡ and_needed way.old.stops.keys i name)) }
    ensures old { IfOk result (λ new. new ≡ false → (needed_at way.old.stops.keys i name ≡ true) × (way.new.stops.keys ≡ way.old.stops.keys)) }
{
    let new = way.stops.insert(Stop::Needed(i, name))?;
    Ok(new)
}

// An interface is visited. Says whether it was new.
fn visit<'u>(
    on: &Setting<'u>,
    i: u32,
    tasks: &mut Vec<Task<'u>>,
    way: &mut Way,
) -> Result<bool, Memory>
    requires { i < length (universe_of on.now) }
    ensures steps { OnOk result (Steps on.now (VisitStops (universe_of on.now) (picks_of on.now) i) tasks.old.items way.old tasks.new.items way.new) }
    ensures new { IfOk result (λ new. new ≡ true → IsFurther on.now way.old way.new) }
    ensures old { IfOk result (λ new. new ≡ false → (tasks.new.items ≡ tasks.old.items) × IsSame way.old way.new) }
{
    if !note_interface(way, i)? {
        return Ok(false);
    }
    let Some(k) = chosen(on, i) else {
        return Ok(true);
    };
    add_follows(on, &k.imp.deps, tasks)?;
    Ok(true)
}

// What a command needs is to be followed.
fn add_needs<'u>(
    on: &Setting<'u>,
    m: &'u Command,
    tasks: &mut Vec<Task<'u>>,
    way: &Way,
) -> Result<(), Memory>
    ensures { OnOk result (Steps on.now (FollowStops (universe_of on.now) (picks_of on.now) (needs_of m.now)) tasks.old.items way.now tasks.new.items way.now) }
{
    if let Some(runner) = &m.runner {
        tasks.push(Task::FollowOne(&runner.dep))?;
    }
    tasks.push(Task::Follow(m.deps.as_slice()))?;
    Ok(())
}

// A command of an interface is needed. Says whether it was new.
fn need<'u>(
    on: &Setting<'u>,
    i: u32,
    name: &Text,
    tasks: &mut Vec<Task<'u>>,
    way: &mut Way,
) -> Result<bool, Memory>
    requires { on.now.names.now ≡ universe_of on.now }
    ensures steps { OnOk result (Steps on.now (NeedStops (universe_of on.now) (picks_of on.now) i name.now) tasks.old.items way.old tasks.new.items way.new) }
    ensures new { IfOk result (λ new. new ≡ true → IsFurther on.now way.old way.new) }
    ensures old { IfOk result (λ new. new ≡ false → (tasks.new.items ≡ tasks.old.items) × IsSame way.old way.new) }
{
    let Some(k) = chosen(on, i) else {
        return Ok(false);
    };
    let Some(m) = command_of(on, i, k, name) else {
        return Ok(false);
    };
    let command = name.copy(on.alloc)?;
    if !note_command(way, i, command)? {
        return Ok(false);
    }
    add_needs(on, m, tasks, way)?;
    Ok(true)
}

// A dependency is followed. Says whether that listed or used something new.
fn along<'u>(
    on: &Setting<'u>,
    dep: &'u Dep,
    tasks: &mut Vec<Task<'u>>,
    way: &mut Way,
) -> Result<bool, Memory>
    requires { on.now.names.now ≡ universe_of on.now }
    ensures steps { OnOk result (Steps on.now (FollowStops (universe_of on.now) (picks_of on.now) (dep.now ∷ [])) tasks.old.items way.old tasks.new.items way.new) }
    ensures new { IfOk result (λ new. new ≡ true → IsFurther on.now way.old way.new) }
    ensures old { IfOk result (λ new. new ≡ false → (sizes tasks.new.items < sizes tasks.old.items + dep_size dep.now) × IsSame way.old way.new) }
{
    let Some(i) = leads_to(on, dep) else {
        return Ok(false);
    };
    tasks.push(Task::Need(i, dep.commands.as_slice()))?;
    let new = visit(on, i, tasks, way)?;
    Ok(new)
}

// The first of some dependencies is followed, and the others are left to be. Says whether that listed or used something new.
fn follow<'u>(
    on: &Setting<'u>,
    deps: &'u [Dep],
    tasks: &mut Vec<Task<'u>>,
    way: &mut Way,
) -> Result<bool, Memory>
    requires { on.now.names.now ≡ universe_of on.now }
    ensures steps { OnOk result (Steps on.now (FollowStops (universe_of on.now) (picks_of on.now) deps.now) tasks.old.items way.old tasks.new.items way.new) }
    ensures new { IfOk result (λ new. new ≡ true → IsFurther on.now way.old way.new) }
    ensures old { IfOk result (λ new. new ≡ false → (sizes tasks.new.items < sizes tasks.old.items + (1 + deps_size deps.now)) × IsSame way.old way.new) }
{
    let [dep, rest @ ..] = deps else {
        return Ok(false);
    };
    tasks.push(Task::Follow(rest))?;
    let new = along(on, dep, tasks, way)?;
    Ok(new)
}

// The first of some commands is needed, and the others are left to be. Says whether that used something new.
fn need_first<'u>(
    on: &Setting<'u>,
    i: u32,
    names: &'u [Text],
    tasks: &mut Vec<Task<'u>>,
    way: &mut Way,
) -> Result<bool, Memory>
    requires { on.now.names.now ≡ universe_of on.now }
    ensures steps { OnOk result (Steps on.now (NeedEachStops (universe_of on.now) (picks_of on.now) i names.now) tasks.old.items way.old tasks.new.items way.new) }
    ensures new { IfOk result (λ new. new ≡ true → IsFurther on.now way.old way.new) }
    ensures old { IfOk result (λ new. new ≡ false → (sizes tasks.new.items < sizes tasks.old.items + (1 + length names.now)) × IsSame way.old way.new) }
{
    let [name, rest @ ..] = names else {
        return Ok(false);
    };
    tasks.push(Task::Need(i, rest))?;
    let new = need(on, i, name, tasks, way)?;
    Ok(new)
}

// One task. Says whether something new was listed or used.
fn step<'u>(
    on: &Setting<'u>,
    task: Task<'u>,
    tasks: &mut Vec<Task<'u>>,
    way: &mut Way,
) -> Result<bool, Memory>
    requires { on.now.names.now ≡ universe_of on.now }
    ensures steps { OnOk result (Steps on.now (Does (universe_of on.now) (picks_of on.now) task.entry) tasks.old.items way.old tasks.new.items way.new) }
    ensures new { IfOk result (λ new. new ≡ true → IsFurther on.now way.old way.new) }
    ensures old { IfOk result (λ new. new ≡ false → (sizes tasks.new.items < sizes tasks.old.items + size task.entry) × IsSame way.old way.new) }
{
    match task {
        Task::Follow(deps) => follow(on, deps, tasks, way),
        Task::FollowOne(dep) => along(on, dep, tasks, way),
        Task::Need(i, names) => need_first(on, i, names, tasks, way),
    }
}

// The tasks up to the first that lists or uses something new. Says whether there was one.
fn advance<'u>(on: &Setting<'u>, tasks: &mut Vec<Task<'u>>, way: &mut Way) -> Result<bool, Memory>
    requires { on.now.names.now ≡ universe_of on.now }
    ensures moves { OnOk result (Moves on.now tasks.old.items way.old tasks.new.items way.new) }
    ensures new { IfOk result (λ new. new ≡ true → IsFurther on.now way.old way.new) }
    ensures done { IfOk result (λ new. new ≡ false → tasks.new.items ≡ []) }
    ensures same { IfOk result (λ new. new ≡ false → IsSame way.old way.new) }
{
    while let Some(task) = tasks.pop() {
        if step(on, task, tasks, way)? {
            return Ok(true);
        }
    }
    Ok(false)
}

// All tasks, to the end.
fn finish<'u>(on: &Setting<'u>, mut tasks: Vec<Task<'u>>, way: &mut Way) -> Result<(), Memory>
    requires { on.now.names.now ≡ universe_of on.now }
    ensures { OnOk result (Runs (universe_of on.now) (picks_of on.now) tasks.entry.items (stops_of way.old) (stops_of way.new)) }
{
    let mut more = true;
    while more {
        more = advance(on, &mut tasks, way)?;
    }
    Ok(())
}

// An interface is visited, and all that follows is done.
fn visit_all(on: &Setting, i: u32, way: &mut Way) -> Result<(), Memory>
    requires numbered { on.now.names.now ≡ universe_of on.now }
    requires there { i < length (universe_of on.now) }
    ensures { OnOk result (VisitStops (universe_of on.now) (picks_of on.now) i (stops_of way.old) (stops_of way.new)) }
{
    let mut tasks = Vec::new(on.alloc);
    visit(on, i, &mut tasks, way)?;
    finish(on, tasks, way)
}

// A command is needed, and all that follows is done.
fn need_all(on: &Setting, i: u32, name: &Text, way: &mut Way) -> Result<(), Memory>
    requires { on.now.names.now ≡ universe_of on.now }
    ensures { OnOk result (NeedStops (universe_of on.now) (picks_of on.now) i name.now (stops_of way.old) (stops_of way.new)) }
{
    let mut tasks = Vec::new(on.alloc);
    need(on, i, name, &mut tasks, way)?;
    finish(on, tasks, way)
}

/// The whole walk, from the root.
pub(crate) fn walk(on: &Setting, command: &Option<Text>) -> Result<Way, Memory>
    requires numbered { on.now.names.now ≡ universe_of on.now }
    ensures { IfOk result (λ way. StopsOn on.now command.now way) }
{
    let mut way = Way {
        stops: IndexSet::new(on.alloc),
    };
    on.universe.root();
    visit_all(on, 0, &mut way)?;
    if let Some(name) = command {
        need_all(on, 0, name, &mut way)?;
    }
    Ok(way)
}
