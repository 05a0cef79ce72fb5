//! What groups add to an implementation: dependencies, commands and bindings along a path, each held once for the element that
//! adds it.
ghost use Rattle.std.specs.Prelude.{◌≡◌, ◌++◌, ◌||◌, IfOk, MatchOption, map, length, reverse, option_copied};
ghost use Rattle.std.specs.List.{list_any};
ghost use Rattle.zi_elements.specs.Forest.{element_view};
ghost use Rattle.zi_policy.specs.Platform.{is_active};
ghost use Rattle.zi_reading.specs.Ways.{ways_of};
ghost use Rattle.zi_reading.specs.Words.{latest};
ghost use Rattle.zi_feed.specs.Impls.{are_alike, main_command, is_run, with_main};
ghost use Rattle.zi_feed.specs.Active.{active_deps, active_command, kept_own};
ghost use Rattle.zi_feed.specs.Inward.{own_of, added_nothing, added_with, IsAdded};

use std::alloc::Global;
use std::collections::BTreeSet;
use zi_inherited::{Inherited, Shared};
use zi_parts::{Binding, Command, Dep, bindings_of, commands_of, deps_of};
use zi_policy::{Policy, active};
use zi_reading::{Part, Ways, is_text, parts};
use zi_text::{List, Memory, Text};

/// What a group or an implementation adds to what it takes from the groups around it.
#[derive(Drop)]
pub struct Own {
    pub deps: List<Dep>,
    pub commands: List<Command>,
    pub bindings: List<Binding>,
}

/// What the elements along a path add, outer ones first.
pub struct Added {
    pub deps: Inherited<Dep>,
    /// Those that no later one of their name replaces.
    pub commands: Inherited<Shared<Command>>,
    /// Whether a command `run` is among them.
    pub has_run: bool,
    pub bindings: Inherited<Binding>,
}

// One call wherever one is dropped.
impl Drop for Added {
    fn drop(self) {
        let Added {
            deps: _,
            commands: _,
            has_run: _,
            bindings: _,
        } = self;
    }
}

// The dependencies that are active.
fn active_deps(alloc: Global, policy: &Policy, deps: List<Dep>) -> Result<List<Dep>, Memory>
    ensures { IfOk result (λ ds. ds ≡ active_deps policy.now deps) }
{
    let mut kept = List::new(alloc);
    for dep in deps.into_vec() {
        if active(&dep.condition, policy) {
            kept.push(dep)?;
        }
    }
    Ok(kept)
}

// The commands with their active dependencies alone.
fn active_commands(
    alloc: Global,
    policy: &Policy,
    commands: List<Command>,
) -> Result<List<Command>, Memory>
    ensures { IfOk result (λ cs. cs ≡ map (active_command policy.now) commands) }
{
    let mut kept = List::new(alloc);
    for command in commands.into_vec() {
        let Command {
            name,
            path,
            words,
            runner,
            deps,
            bindings,
            unbuilt,
        } = command;
        let deps = active_deps(alloc, policy, deps)?;
        kept.push(Command {
            name,
            path,
            words,
            runner,
            deps,
            bindings,
            unbuilt,
        })?;
    }
    Ok(kept)
}

// What of it is active under a policy; all of it where there is none.
fn kept_own(alloc: Global, policy: Option<&Policy>, own: Own) -> Result<Own, Memory>
    ensures { IfOk result (λ o. o ≡ kept_own (option_copied policy.entry) own) }
{
    let Some(policy) = policy else {
        return Ok(own);
    };
    let Own {
        deps,
        commands,
        bindings,
    } = own;
    Ok(Own {
        deps: active_deps(alloc, policy, deps)?,
        commands: active_commands(alloc, policy, commands)?,
        bindings,
    })
}

// What an element adds.
fn all_of(alloc: Global, ways: Ways, e: &Part) -> Result<Own, Memory>
    ensures { IfOk result (λ o. o ≡ own_of (ways_of ways.entry) (element_view e.now)) }
{
    let parts = parts(alloc, ways, e)?;
    let deps = deps_of(alloc, ways, parts.as_slice())?;
    let commands = commands_of(alloc, ways, parts.as_slice())?;
    let bindings = bindings_of(alloc, parts.as_slice())?;
    Ok(Own {
        deps,
        commands,
        bindings,
    })
}

/// What an element adds that is active under a policy; all of it where there is none.
pub fn own_of(alloc: Global, ways: Ways, policy: Option<&Policy>, e: &Part) -> Result<Own, Memory>
    ensures { IfOk result (λ o. o ≡ kept_own (option_copied policy.entry) (own_of (ways_of ways.entry) (element_view e.now))) }
{
    let own = all_of(alloc, ways, e)?;
    kept_own(alloc, policy, own)
}

// Each of some commands, to be shared.
fn shared(alloc: Global, commands: List<Command>) -> Result<List<Shared<Command>>, Memory>
    ensures { IfOk result (λ cs. cs ≡ commands) }
{
    let mut out = List::new(alloc);
    for command in commands.into_vec() {
        out.push(Shared::new(alloc, command)?)?;
    }
    Ok(out)
}

// Adds commands, lent.
fn add_lent<'a>(
    commands: &'a [Shared<Command>],
    lent: &mut Vec<&'a Shared<Command>>,
) -> Result<(), Memory>
    ensures { IfOk result (λ _. map (λ r. r.now) lent.new.items ≡ map (λ r. r.now) lent.old.items ++ commands.now) }
{
    for command in commands {
        lent.push(command)?;
    }
    Ok(())
}

// Those that no later one of their name replaces, the last first.
fn latest_back<'a>(
    alloc: Global,
    commands: &[&'a Shared<Command>],
) -> Result<Vec<&'a Shared<Command>>, Memory>
    ensures { IfOk result (λ v. reverse (map (λ r. r.now) v.items) ≡ latest are_alike (map (λ r. r.now) commands.now)) }
{
    let mut names: BTreeSet<&str> = BTreeSet::new(alloc);
    let mut kept = Vec::new(alloc);
    let mut left = commands.len();
    while left > 0 {
        left -= 1;
        let command = commands[left];
        if names.insert(command.name.as_str())? {
            kept.push(command)?;
        }
    }
    Ok(kept)
}

// Commands once more, the last first.
fn shared_back(
    alloc: Global,
    commands: &[&Shared<Command>],
) -> Result<List<Shared<Command>>, Memory>
    ensures { IfOk result (λ cs. cs ≡ reverse (map (λ r. r.now) commands.now)) }
{
    let mut out = List::new(alloc);
    let mut left = commands.len();
    while left > 0 {
        left -= 1;
        out.push(commands[left].share()?)?;
    }
    Ok(out)
}

// Outer commands, and own ones behind them, where one of these replaces one before it: those that are left.
fn replaced<'a>(
    alloc: Global,
    outer: &'a Inherited<Shared<Command>>,
    own: &'a [Shared<Command>],
) -> Result<Option<List<Shared<Command>>>, Memory>
    ensures { IfOk result (λ r. MatchOption r (latest are_alike (outer.now ++ own.now) ≡ outer.now ++ own.now)
        (λ cs. cs ≡ latest are_alike (outer.now ++ own.now))) }
{
    let mut lent = Vec::new(alloc);
    let pieces = outer.segments(alloc)?;
    for piece in pieces.as_slice() {
        add_lent(piece, &mut lent)?;
    }
    add_lent(own, &mut lent)?;
    let kept = latest_back(alloc, lent.as_slice())?;
    if kept.len() == lent.len() {
        return Ok(None);
    }
    Ok(Some(shared_back(alloc, kept.as_slice())?))
}

// The commands of a path with own ones at its end, which replace outer ones of their names.
fn commands_with(
    alloc: Global,
    outer: &Inherited<Shared<Command>>,
    own: List<Command>,
) -> Result<Inherited<Shared<Command>>, Memory>
    requires { latest are_alike outer.now ≡ outer.now }
    ensures { IfOk result (λ cs. cs ≡ latest are_alike (outer.now ++ own)) }
{
    if own.is_empty() {
        return outer.share();
    }
    let own = shared(alloc, own)?;
    match replaced(alloc, outer, own.as_slice())? {
        None => outer.within(alloc, own),
        Some(left) => Inherited::new().within(alloc, left),
    }
}

// Whether a command `run` is among these.
fn has_run(commands: &[Command]) -> bool
    ensures { result ≡ list_any is_run commands.now }
{
    for command in commands {
        if is_text(command.name.as_str(), "run") {
            return true;
        }
    }
    false
}

// Whether a command `run` is among these or was before.
fn has_run_with(before: bool, commands: &[Command]) -> bool
    ensures { result ≡ (before || list_any is_run commands.now) }
{
    before || has_run(commands)
}

/// Nothing is added.
pub fn added_nothing() -> Added
    ensures { result ≡ added_nothing }
{
    Added {
        deps: Inherited::new(),
        commands: Inherited::new(),
        has_run: false,
        bindings: Inherited::new(),
    }
}

/// What is added along a path with one element more, which adds this.
pub fn added_with(alloc: Global, outer: &Added, own: Own) -> Result<Added, Memory>
    requires { IsAdded outer.now }
    ensures { IfOk result (λ a. (a ≡ added_with outer.now own) × IsAdded a) }
{
    let Own {
        deps,
        commands,
        bindings,
    } = own;
    let has_run = has_run_with(outer.has_run, commands.as_slice());
    let deps = outer.deps.within(alloc, deps)?;
    let commands = commands_with(alloc, &outer.commands, commands)?;
    let bindings = outer.bindings.within(alloc, bindings)?;
    Ok(Added {
        deps,
        commands,
        has_run,
        bindings,
    })
}

// The command that `main` means.
fn main_command(alloc: Global, path: &Text) -> Result<Command, Memory>
    ensures { IfOk result (λ c. c ≡ main_command path.now) }
{
    let name = Text::from_str(alloc, "run")?;
    let path = path.copy(alloc)?;
    Ok(Command {
        name,
        path: Some(path),
        words: List::new(alloc),
        runner: None,
        deps: List::new(alloc),
        bindings: List::new(alloc),
        unbuilt: None,
    })
}

// The commands that are added along a path, with what `main` means.
fn commands_and_main(
    alloc: Global,
    main: Option<&Text>,
    added: &Added,
) -> Result<Inherited<Shared<Command>>, Memory>
    requires { added.now.has_run ≡ list_any is_run added.now.commands }
    ensures { IfOk result (λ cs. cs ≡ with_main (option_copied main.entry) added.now.commands) }
{
    let Some(path) = main else {
        return added.commands.share();
    };
    if added.has_run {
        return added.commands.share();
    }
    let mut own = List::new(alloc);
    own.push(Shared::new(alloc, main_command(alloc, path)?)?)?;
    added.commands.within(alloc, own)
}

/// The commands along a path, with what `main` means.
pub fn commands_along(
    alloc: Global,
    main: Option<&Text>,
    added: &Added,
) -> Result<Inherited<Shared<Command>>, Memory>
    requires { IsAdded added.now }
    ensures { IfOk result (λ cs. cs ≡ with_main (option_copied main.entry) (latest are_alike added.now.commands)) }
{
    commands_and_main(alloc, main, added)
}
