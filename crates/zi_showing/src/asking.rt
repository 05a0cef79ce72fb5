//! What is asked for, the next first: addresses, each with the level at which what is selected for it is shown.
ghost use Rattle.std.specs.Prelude.{◌≡◌, ◌++◌, ◌∷◌, [], map, drop, IfOk, OnOk};
ghost use Rattle.std.specs.List.{flat_map};
ghost use Rattle.zi_universe.specs.Candidates.{asked, asked_by_runner, asked_by_command};
ghost use Rattle.zi_showing.specs.Tree.{needs, all_asked};
ghost use Rattle.zi_showing.specs.Steps.{at_level, asked_in};

use std::alloc::Global;
use std::collections::VecDeque;
use zi_parts::{Command, Dep, DepKind, Runner};
use zi_sels::{Selection, Selections};
use zi_text::Memory;

/// An address that is asked for, and the level at which what is selected for it is shown.
#[derive(Clone, Copy)]
pub(crate) struct Asked<'a> {
    pub(crate) interface: &'a str,
    pub(crate) level: u8,
}

// An address is asked for next.
fn ask_next<'a>(
    interface: &'a str,
    level: u8,
    pending: &mut VecDeque<Asked<'a>>,
) -> Result<(), Memory>
    ensures { OnOk result (asked_in pending.new.items ≡ at_level level (interface.entry.now ∷ []) ++ asked_in pending.old.items) }
{
    pending.push_front(Asked { interface, level })?;
    Ok(())
}

// What a dependency asks for.
fn ask_dep<'a>(dep: &'a Dep, level: u8, pending: &mut VecDeque<Asked<'a>>) -> Result<(), Memory>
    ensures { OnOk result (asked_in pending.new.items ≡ at_level level (asked (dep.entry.now ∷ [])) ++ asked_in pending.old.items) }
{
    match dep.kind {
        DepKind::Restricts => Ok(()),
        DepKind::Essential | DepKind::Recommended => {
            ask_next(dep.interface.as_str(), level, pending)
        }
    }
}

// What dependencies ask for, in their order.
fn ask_deps<'a>(deps: &'a [Dep], level: u8, pending: &mut VecDeque<Asked<'a>>) -> Result<(), Memory>
    ensures { OnOk result (asked_in pending.new.items ≡ at_level level (asked deps.entry.now) ++ asked_in pending.old.items) }
{
    let mut n = deps.len();
    while n > 0 {
        n -= 1;
        ask_dep(&deps[n], level, pending)?;
    }
    Ok(())
}

// What a runner asks for.
fn ask_runner<'a>(
    runner: &'a Option<Runner>,
    level: u8,
    pending: &mut VecDeque<Asked<'a>>,
) -> Result<(), Memory>
    ensures { OnOk result (asked_in pending.new.items ≡ at_level level (asked_by_runner runner.entry.now) ++ asked_in pending.old.items) }
{
    match runner {
        None => Ok(()),
        Some(runner) => ask_next(runner.dep.interface.as_str(), level, pending),
    }
}

// What a command asks for.
fn ask_command<'a>(
    command: &'a Command,
    level: u8,
    pending: &mut VecDeque<Asked<'a>>,
) -> Result<(), Memory>
    ensures { OnOk result (asked_in pending.new.items ≡ at_level level (asked_by_command command.entry.now) ++ asked_in pending.old.items) }
{
    ask_runner(&command.runner, level, pending)?;
    ask_deps(command.deps.as_slice(), level, pending)
}

// What commands ask for, in their order.
fn ask_commands<'a>(
    commands: &'a [Command],
    level: u8,
    pending: &mut VecDeque<Asked<'a>>,
) -> Result<(), Memory>
    ensures { OnOk result (asked_in pending.new.items ≡ at_level level (flat_map asked_by_command commands.entry.now) ++ asked_in pending.old.items) }
{
    let mut n = commands.len();
    while n > 0 {
        n -= 1;
        ask_command(&commands[n], level, pending)?;
    }
    Ok(())
}

/// What a selection needs is asked for next, in its order.
pub(crate) fn ask_needs<'a>(
    item: &'a Selection,
    level: u8,
    pending: &mut VecDeque<Asked<'a>>,
) -> Result<(), Memory>
    ensures { OnOk result (asked_in pending.new.items ≡ at_level level (needs item.entry.now) ++ asked_in pending.old.items) }
{
    ask_commands(item.commands.as_slice(), level, pending)?;
    ask_deps(item.deps.as_slice(), level, pending)
}

// The address of each selection is asked for.
fn ask_all<'a>(items: &'a [Selection], pending: &mut VecDeque<Asked<'a>>) -> Result<(), Memory>
    ensures { OnOk result (asked_in pending.new.items ≡ at_level 0 (map (λ x. x.interface) items.entry.now) ++ asked_in pending.old.items) }
{
    let mut n = items.len();
    while n > 0 {
        n -= 1;
        ask_next(items[n].interface.as_str(), 0, pending)?;
    }
    Ok(())
}

/// What is asked for at first: the root's address, and then that of each selection.
pub(crate) fn first_asked<'a>(
    alloc: Global,
    sels: &'a Selections,
) -> Result<VecDeque<Asked<'a>>, Memory>
    ensures { IfOk result (λ pending. asked_in pending.items ≡ at_level 0 (all_asked sels.entry.now)) }
{
    let mut pending = VecDeque::new(alloc);
    ask_all(sels.items.as_slice(), &mut pending)?;
    ask_next(sels.interface.as_str(), 0, &mut pending)?;
    Ok(pending)
}
