//! A walk as far as its first place that waits, which can be taken up again from any of its places.
ghost use Rattle.std.specs.Prelude.{◌≡◌, ◌≤◌, ◌<◌, ◌+◌, ◌∷◌, [], true, false, length, take, slice_get, option_copied, option_and_then, Some, None, IfOk, IfSome, OnOk};
ghost use Rattle.zi_choice.specs.Choice.{Choice, pick, candidate_at};
ghost use Rattle.zi_choice.specs.Walk.{Visits, Needs, NeedsEach, Follows, is_listed, leads_to};
ghost use Rattle.zi_choice.specs.Tasks.{dep_size, deps_size};
ghost use Rattle.zi_walk.specs.declared.path.Stop.{Stop as AStop};
ghost use Rattle.zi_walk.specs.Lists.{list_at};
ghost use Rattle.zi_walk.specs.Kept.{Does, size, sizes, stand_of, left_of, walk_to, waiting, back_at, Agrees, PathIs, IsEmpty, IsReady, Grown, Longer, Steps, Stays, Moves, FollowsFirst, NeedsFirst, command_in, IsFollowed, GoesAlong, stop_at};

use crate::tasks::{Task, Tasks};
use indexmap::IndexSet;
use std::alloc::Global;
use zi_choice::{Names, Used};
use zi_inherited::Inherited;
use zi_parts::{Command, Dep, DepKind};
use zi_text::{Memory, Text};
use zi_universe::{Candidate, Requirement};

/// A place that is followed: what is chosen there, how many entries of the trail say so, and how things stood when the walk came
/// there: the list of what was left to be done, how many tasks were added, and how many commands were used.
#[derive(Clone, Copy)]
pub(crate) struct Stop {
    pub interface: u32,
    pub pick: Option<u32>,
    pub known: u32,
    pub left: usize,
    pub tasks: usize,
    pub used: usize,
}

/// A walk up to a place. Every place is followed, but the last one may wait.
pub(crate) struct Path<'u> {
    alloc: Global,
    // the interfaces that the walk has come to
    pub order: IndexSet<u32>,
    // those of them that are followed
    pub stops: Vec<Stop>,
    used: IndexSet<Used>,
    tasks: Tasks<'u>,
    // the list of what is left to be done
    left: usize,
}

// One call wherever one is dropped.
impl<'u> Drop for Path<'u> {
    fn drop(self) {
        let Path {
            alloc: _,
            order: _,
            stops: _,
            used: _,
            tasks: _,
            left: _,
        } = self;
    }
}

impl<'u> Path<'u> {
    /// A walk that has come nowhere.
    pub fn new(alloc: Global) -> Path<'u>
        ensures { IsEmpty (stand_of result) }
    {
        Path {
            alloc,
            order: IndexSet::new(alloc),
            stops: Vec::new(alloc),
            used: IndexSet::new(alloc),
            tasks: Tasks::new(alloc),
            left: 0,
        }
    }

    /// It comes to the root, and waits there.
    pub fn begin(&mut self, names: &Names<'u>, req: &'u Requirement) -> Result<(), Memory>
        requires { IsEmpty (stand_of self.old) }
        ensures is { OnOk result (PathIs names.now req.now (stand_of self.new)) }
        ensures stops { OnOk result (self.new.stops.items ≡ []) }
    {
        names.universe().root();
        self.order.insert(0)?;
        let Some(name) = &req.command else {
            return Ok(());
        };
        self.left = self
            .tasks
            .add(Task::Need(0, std::slice::from_ref(name)), self.left)?;
        Ok(())
    }

    /// The interface that waits to be followed.
    pub fn waits_at(&self) -> Option<u32>
        ensures { result ≡ waiting (stand_of self.now) }
    {
        self.order.get_index(self.stops.len()).copied()
    }

    /// Goes back to a place, and waits there.
    pub fn back_to(&mut self, place: usize)
        requires { place < length self.old.stops.items }
        ensures { (x : AStop) × (slice_get self.old.stops.items place ≡ Some x) × (stand_of self.new ≡ back_at (stand_of self.old) place x) }
    {
        let stop = self.stops[place];
        self.order.truncate(place + 1);
        self.stops.truncate(place);
        self.used.truncate(stop.used);
        self.tasks.truncate(stop.tasks);
        self.left = stop.left;
    }

    /// Follows what is chosen where the walk waits.
    pub fn follow(
        &mut self,
        names: &Names<'u>,
        i: u32,
        pick: Option<u32>,
        known: u32,
    ) -> Result<(), Memory>
        requires waits { waiting (stand_of self.old) ≡ Some i }
        requires last { length self.old.order.keys ≤ length self.old.stops.items + 1 }
        requires inside { self.old.left < length self.old.tasks }
        ensures followed { OnOk result (IsFollowed (stand_of self.old) (stand_of self.new) (stop_at (stand_of self.old) i pick known)) }
        ensures goes { OnOk result (GoesAlong names.now (stand_of self.old) (stand_of self.new) (stop_at (stand_of self.old) i pick known)) }
    {
        self.stops.push(Stop {
            interface: i,
            pick,
            known,
            left: self.left,
            tasks: self.tasks.len(),
            used: self.used.len(),
        })?;
        let Some(k) = candidate(names, i, pick) else {
            return Ok(());
        };
        self.left = add_follows(self.alloc, &mut self.tasks, &k.imp.deps, self.left)?;
        Ok(())
    }

    /// Does tasks up to the first that lists or uses something new. Says whether there was one.
    pub fn advance(&mut self, names: &Names<'u>) -> Result<bool, Memory>
        requires { IsReady (stand_of self.old) }
        ensures grown { OnOk result (Grown (stand_of self.old) (stand_of self.new)) }
        ensures moves { IfOk result (λ more. Moves names.now (stand_of self.old) (stand_of self.new) more) }
        ensures done { IfOk result (λ more. more ≡ false → (left_of (stand_of self.new) ≡ []) × IsReady (stand_of self.new)) }
    {
        while let Some((task, later)) = self.tasks.first(self.left) {
            self.left = later;
            if self.step(names, task)? {
                return Ok(true);
            }
        }
        Ok(false)
    }

    // One task. Says whether something new was listed or used.
    fn step(&mut self, names: &Names<'u>, task: Task<'u>) -> Result<bool, Memory>
        requires { IsReady (stand_of self.old) }
        ensures grown { OnOk result (Grown (stand_of self.old) (stand_of self.new)) }
        ensures steps { IfOk result (λ new. Steps names.now (λ s. Does names.now s task.entry) (stand_of self.old) (stand_of self.new) new) }
        ensures old { IfOk result (λ new. new ≡ false → (sizes (left_of (stand_of self.new)) < sizes (left_of (stand_of self.old)) + size task.entry) × Stays (stand_of self.old) (stand_of self.new)) }
    {
        match task {
            Task::Follow(deps) => self.follow_first(names, deps),
            Task::FollowOne(dep) => self.along(names, dep),
            Task::Need(i, commands) => self.need_first(names, i, commands),
        }
    }

    // The first of some dependencies is followed, and the others are left to be.
    fn follow_first(&mut self, names: &Names<'u>, deps: &'u [Dep]) -> Result<bool, Memory>
        requires { IsReady (stand_of self.old) }
        ensures grown { OnOk result (Grown (stand_of self.old) (stand_of self.new)) }
        ensures steps { IfOk result (λ new. Steps names.now (λ s. Follows names.now s deps.now) (stand_of self.old) (stand_of self.new) new) }
        ensures old { IfOk result (λ new. new ≡ false → (sizes (left_of (stand_of self.new)) < sizes (left_of (stand_of self.old)) + (1 + deps_size deps.now)) × Stays (stand_of self.old) (stand_of self.new)) }
    {
        let [dep, rest @ ..] = deps else {
            return Ok(false);
        };
        self.left = self.tasks.add(Task::Follow(rest), self.left)?;
        let new = self.along(names, dep)?;
        Ok(new)
    }

    // A dependency is followed.
    fn along(&mut self, names: &Names<'u>, dep: &'u Dep) -> Result<bool, Memory>
        requires { IsReady (stand_of self.old) }
        ensures grown { OnOk result (Grown (stand_of self.old) (stand_of self.new)) }
        ensures steps { IfOk result (λ new. Steps names.now (λ s. Follows names.now s (dep.now ∷ [])) (stand_of self.old) (stand_of self.new) new) }
        ensures old { IfOk result (λ new. new ≡ false → (sizes (left_of (stand_of self.new)) < sizes (left_of (stand_of self.old)) + dep_size dep.now) × Stays (stand_of self.old) (stand_of self.new)) }
    {
        let Some(i) = leads_to(names, dep) else {
            return Ok(false);
        };
        self.left = self
            .tasks
            .add(Task::Need(i, dep.commands.as_slice()), self.left)?;
        let new = self.visit(names, i)?;
        Ok(new)
    }

    // An interface is visited. Where it is new the walk waits there.
    fn visit(&mut self, names: &Names<'u>, i: u32) -> Result<bool, Memory>
        requires ready { IsReady (stand_of self.old) }
        requires there { i < length names.now }
        ensures grown { OnOk result (Grown (stand_of self.old) (stand_of self.new)) }
        ensures steps { IfOk result (λ new. Steps names.now (λ s. Visits names.now s i) (stand_of self.old) (stand_of self.new) new) }
        ensures old { IfOk result (λ new. new ≡ false → (left_of (stand_of self.new) ≡ left_of (stand_of self.old)) × Stays (stand_of self.old) (stand_of self.new)) }
    {
        let _interfaces = names.universe();
        let new = self.order.insert(i)?;
        Ok(new)
    }

    // The first of some commands is needed, and the others are left to be.
    fn need_first(
        &mut self,
        names: &Names<'u>,
        i: u32,
        commands: &'u [Text],
    ) -> Result<bool, Memory>
        requires { IsReady (stand_of self.old) }
        ensures grown { OnOk result (Grown (stand_of self.old) (stand_of self.new)) }
        ensures steps { IfOk result (λ new. Steps names.now (λ s a b. (is_listed a i ≡ true) × NeedsEach names.now s i commands.now a b) (stand_of self.old) (stand_of self.new) new) }
        ensures old { IfOk result (λ new. new ≡ false → (sizes (left_of (stand_of self.new)) < sizes (left_of (stand_of self.old)) + (1 + length commands.now)) × Stays (stand_of self.old) (stand_of self.new)) }
    {
        let [name, rest @ ..] = commands else {
            return Ok(false);
        };
        self.left = self.tasks.add(Task::Need(i, rest), self.left)?;
        let new = self.need(names, i, name)?;
        Ok(new)
    }

    // A command of an interface is needed.
    fn need(&mut self, names: &Names<'u>, i: u32, name: &Text) -> Result<bool, Memory>
        requires { IsReady (stand_of self.old) }
        ensures grown { OnOk result (Grown (stand_of self.old) (stand_of self.new)) }
        ensures steps { IfOk result (λ new. Steps names.now (λ s a b. (is_listed a i ≡ true) × Needs names.now s i name.now a b) (stand_of self.old) (stand_of self.new) new) }
        ensures old { IfOk result (λ new. new ≡ false → (left_of (stand_of self.new) ≡ left_of (stand_of self.old)) × Stays (stand_of self.old) (stand_of self.new)) }
    {
        let Some(pick) = self.picked(i) else {
            return Ok(false);
        };
        let Some(m) = command(names, i, pick, name) else {
            return Ok(false);
        };
        let command = name.copy(self.alloc)?;
        let used = Used {
            interface: i,
            command,
        };
        if !self.used.insert(used)? {
            return Ok(false);
        }
        self.left = add_needs(&mut self.tasks, m, self.left)?;
        Ok(true)
    }

    // What is chosen at a place that is followed.
    fn picked(&self, i: u32) -> Option<u32>
        requires { IsReady (stand_of self.now) }
        ensures { (s : Choice) → Agrees s self.now.stops.items → is_listed (walk_to s (stand_of self.now)) i ≡ true → pick s i ≡ result }
    {
        let place = self.order.get_index_of(&i)?;
        self.stops.get(place)?.pick
    }
}

// What a command needs is to be followed before a list of tasks.
fn add_needs<'u>(tasks: &mut Tasks<'u>, m: &'u Command, left: usize) -> Result<usize, Memory>
    requires { left < length tasks.old }
    ensures lists { OnOk result (Longer tasks.old tasks.new) }
    ensures inside { IfOk result (λ n. n < length tasks.new) }
    ensures needs { IfOk result (λ n. NeedsFirst m.now (list_at tasks.old left) (list_at tasks.new n)) }
{
    let later = match &m.runner {
        None => left,
        Some(runner) => tasks.add(Task::FollowOne(&runner.dep), left)?,
    };
    let first = tasks.add(Task::Follow(m.deps.as_slice()), later)?;
    Ok(first)
}

// The candidate of an interface that is chosen.
fn candidate<'u>(names: &Names<'u>, i: u32, pick: Option<u32>) -> Option<&'u Candidate>
    ensures { option_copied result ≡ option_and_then (λ c. candidate_at names.now i c) pick }
{
    let interface = names.universe().interfaces().get(i as usize)?;
    interface.candidates.as_slice().get(pick? as usize)
}

// The command of a name that a candidate of an interface has.
fn command<'u>(names: &Names<'u>, i: u32, pick: u32, name: &Text) -> Option<&'u Command>
    ensures { option_copied result ≡ command_in names.now i name.now (Some pick) }
{
    let place = names.command_place(i, pick, name)?;
    let k = candidate(names, i, Some(pick))?;
    let command = k.imp.commands.get(place)?;
    Some(command.as_ref())
}

// Inherited dependencies are to be followed before a list of tasks, the outer ones first.
fn add_follows<'u>(
    alloc: Global,
    tasks: &mut Tasks<'u>,
    deps: &'u Inherited<Dep>,
    later: usize,
) -> Result<usize, Memory>
    requires { later < length tasks.old }
    ensures lists { OnOk result (Longer tasks.old tasks.new) }
    ensures inside { IfOk result (λ n. n < length tasks.new) }
    ensures follows { IfOk result (λ n. FollowsFirst deps.now (list_at tasks.old later) (list_at tasks.new n)) }
{
    let segments = deps.segments(alloc)?;
    let pieces = segments.as_slice();
    let mut first = later;
    let mut left = pieces.len();
    while left > 0 {
        left -= 1;
        first = tasks.add(Task::Follow(pieces[left]), first)?;
    }
    Ok(first)
}

// Where a dependency leads.
fn leads_to(names: &Names, dep: &Dep) -> Option<u32>
    ensures is { result ≡ leads_to names.now dep.now }
    ensures within { IfSome result (λ i. i < length names.now) }
{
    match dep.kind {
        DepKind::Restricts => None,
        _ => names.number(&dep.interface),
    }
}
