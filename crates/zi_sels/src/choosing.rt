//! The selections of a choice.
ghost use Rattle.std.specs.Prelude.{◌≡◌, ◌++◌, option_copied, is_some, IfOk, OnOk};
ghost use Rattle.zi_choice.specs.Choice.{chosen};
ghost use Rattle.zi_choice.specs.Valid.{target};
ghost use Rattle.zi_sels.specs.Chosen.{met, used_command, used_of, selection_by, selected_at, selected, AreSelected};
ghost use Rattle.zi_sels.specs.Settings.{universe_of, picks_of, walk_of};
ghost use Rattle.zi_sels.specs.Using.{walk_with};

use crate::copies::{arch_text, copy_inherited, package_name, plain_copy, plain_runner};
use crate::sorting::sort;
use crate::types::{Selection, Selections};
use crate::used::UsedTable;
use std::alloc::Global;
use zi_choice::{Choice, Names, Used, trace_picks};
use zi_inherited::{Inherited, Shared};
use zi_parts::{Command, Dep, copy_bindings, copy_digests, copy_text, copy_words};
use zi_text::{List, Memory, Text};
use zi_universe::{Candidate, Interface, Requirement, Universe, asks};

// From what selections are made: a universe with its names, what is picked for each interface, and the commands that are used.
#[derive(Drop)]
struct Setting<'u> {
    alloc: Global,
    names: &'u Names<'u>,
    picks: &'u [Option<u32>],
    used: UsedTable<'u>,
}

// The candidate that is chosen for the interface of a number.
fn chosen<'u>(on: &Setting<'u>, i: u32) -> Option<&'u Candidate>
    ensures { option_copied result ≡ chosen (universe_of on.now) (picks_of on.now) i }
{
    let pick = *on.picks.get(i as usize)?;
    let interface = on.names.universe().interfaces().get(i as usize)?;
    interface.candidates.as_slice().get(pick? as usize)
}

// Whether something is chosen for the interface that a dependency is on.
fn is_there(on: &Setting, dep: &Dep) -> bool
    ensures { result ≡ is_some (target (universe_of on.now) (picks_of on.now) dep.now) }
{
    match on.names.number(&dep.interface) {
        Some(i) => chosen(on, i).is_some(),
        None => false,
    }
}

// Adds the dependencies that ask for an interface for which something is chosen.
fn add_met(on: &Setting, deps: &[Dep], copy: &mut List<Dep>) -> Result<(), Memory>
    ensures { OnOk result (copy.new ≡ copy.old ++ met (universe_of on.now) (picks_of on.now) deps.now) }
{
    for dep in deps {
        if asks(dep) && is_there(on, dep) {
            copy.push(plain_copy(on.alloc, dep)?)?;
        }
    }
    Ok(())
}

// Those of a command.
fn met(on: &Setting, deps: &List<Dep>) -> Result<List<Dep>, Memory>
    ensures { IfOk result (λ ds. ds ≡ met (universe_of on.now) (picks_of on.now) deps.now) }
{
    let mut copy = List::new(on.alloc);
    add_met(on, deps.as_slice(), &mut copy)?;
    Ok(copy)
}

// Those of an implementation, which are inherited.
fn met_of(on: &Setting, deps: &Inherited<Dep>) -> Result<List<Dep>, Memory>
    ensures { IfOk result (λ ds. ds ≡ met (universe_of on.now) (picks_of on.now) deps.now) }
{
    let mut copy = List::new(on.alloc);
    let pieces = deps.segments(on.alloc)?;
    for piece in pieces.as_slice() {
        add_met(on, piece, &mut copy)?;
    }
    Ok(copy)
}

// A command that is used, with its met dependencies.
fn used_command(on: &Setting, command: &Command) -> Result<Command, Memory>
    ensures { IfOk result (λ k. k ≡ used_command (universe_of on.now) (picks_of on.now) command.now) }
{
    let name = command.name.copy(on.alloc)?;
    let words = copy_words(on.alloc, &command.words)?;
    let deps = met(on, &command.deps)?;
    let bindings = copy_bindings(on.alloc, &command.bindings)?;
    let path = copy_text(on.alloc, &command.path)?;
    let unbuilt = copy_text(on.alloc, &command.unbuilt)?;
    let runner = plain_runner(on.alloc, &command.runner)?;
    Ok(Command {
        name,
        path,
        words,
        runner,
        deps,
        bindings,
        unbuilt,
    })
}

// Adds the commands of the interface of a number that are used, in their order.
fn add_used(
    on: &Setting,
    i: u32,
    commands: &[Shared<Command>],
    copy: &mut List<Command>,
) -> Result<(), Memory>
    ensures { OnOk result (copy.new ≡ copy.old ++ used_of (universe_of on.now) (picks_of on.now) (walk_of on.now) i commands.now) }
{
    for command in commands {
        if on.used.has(i, command.name.as_str()) {
            copy.push(used_command(on, command.as_ref())?)?;
        }
    }
    Ok(())
}

// Those of an implementation, of which some are inherited.
fn used_of(
    on: &Setting,
    i: u32,
    commands: &Inherited<Shared<Command>>,
) -> Result<List<Command>, Memory>
    ensures { IfOk result (λ ks. ks ≡ used_of (universe_of on.now) (picks_of on.now) (walk_of on.now) i commands.now) }
{
    let mut copy = List::new(on.alloc);
    let pieces = commands.segments(on.alloc)?;
    for piece in pieces.as_slice() {
        add_used(on, i, piece, &mut copy)?;
    }
    Ok(copy)
}

// What is selected for the interface of a number and an address: this candidate.
#[tactic(auto, unfolding(crate::specs::Chosen::selection_by))]
fn selection_by(
    on: &Setting,
    i: u32,
    uri: &Text,
    candidate: &Candidate,
) -> Result<Selection, Memory>
    ensures { IfOk result (λ x. x ≡ selection_by (universe_of on.now) (picks_of on.now) (walk_of on.now) i uri.now candidate.now) }
{
    let imp = &candidate.imp;
    let interface = uri.copy(on.alloc)?;
    let id = imp.id.copy(on.alloc)?;
    let version = Text::from_str(on.alloc, imp.version.text())?;
    let from_feed = candidate.standing.feed.copy(on.alloc)?;
    let stability = Text::from_str(on.alloc, candidate.standing.stability.word())?;
    let digests = copy_digests(on.alloc, &imp.digests)?;
    let deps = met_of(on, &imp.deps)?;
    let commands = used_of(on, i, &imp.commands)?;
    let bindings = copy_inherited(on.alloc, &imp.bindings)?;
    let package = package_name(on.alloc, &imp.package)?;
    let local = copy_text(on.alloc, &imp.local)?;
    let arch = arch_text(on.alloc, &imp.arch)?;
    let released = copy_text(on.alloc, &imp.released)?;
    Ok(Selection {
        interface,
        id,
        version,
        from_feed,
        package,
        local,
        arch,
        released,
        stability: Some(stability),
        digests,
        deps,
        commands,
        bindings,
    })
}

// Adds what is selected for the interface of a number, where something is.
fn put_selected(
    on: &Setting,
    i: u32,
    interface: &Interface,
    items: &mut Vec<Selection>,
) -> Result<(), Memory>
    ensures { OnOk result (items.new.items ≡ items.old.items ++ selected_at (universe_of on.now) (picks_of on.now) (walk_of on.now) i interface.now) }
{
    if let Some(candidate) = chosen(on, i) {
        items.push(selection_by(on, i, &interface.uri, candidate)?)?;
    }
    Ok(())
}

// What is selected, interface by interface.
fn selected(on: &Setting) -> Result<Vec<Selection>, Memory>
    ensures { IfOk result (λ v. v.items ≡ selected (universe_of on.now) (picks_of on.now) (walk_of on.now)) }
{
    let mut items = Vec::new(on.alloc);
    let mut i: u32 = 0;
    let interfaces = on.names.universe().interfaces();
    for interface in interfaces {
        put_selected(on, i, interface, &mut items)?;
        i += 1;
    }
    Ok(items)
}

// What is selected, interface by interface, where these commands are used.
fn selected_with(
    alloc: Global,
    names: &Names,
    picks: &[Option<u32>],
    used: &[Used],
) -> Result<Vec<Selection>, Memory>
    ensures { IfOk result (λ v. v.items ≡ selected names.now picks.now (walk_with used.now)) }
{
    let on = Setting {
        alloc,
        names,
        picks,
        used: UsedTable::of(alloc, used)?,
    };
    selected(&on)
}

/// The selections of a choice: one for each interface for which a candidate is chosen, in byte order of the addresses, with the
/// implementation's data as its feed gives them and its stability after the user's overrides. Of its dependencies and those of
/// its commands the ones stand there that ask for an interface which is chosen, without version expressions and conditions; of
/// its commands those that the walk of the choice uses. The choice may be any; of a valid one these are the program's. The work
/// is linear in the names of the universe, in what the walk follows and in what is selected, but for the sort by address.
/// Memory is the one refusal.
pub fn from_choice(
    alloc: Global,
    u: &Universe,
    req: &Requirement,
    choice: &Choice,
) -> Result<Selections, Memory>
    ensures { IfOk result (AreSelected u.now req.now choice.now.picks) }
{
    let _whole = u.interfaces();
    let picks = choice.picks.as_slice();
    let names = Names::of(alloc, u)?;
    let traced = trace_picks(alloc, &names, req, picks)?;
    let mut items = selected_with(alloc, &names, picks, traced.used.as_slice())?;
    sort(&mut items);
    let interface = req.interface.copy(alloc)?;
    let command = copy_text(alloc, &req.command)?;
    Ok(Selections {
        interface,
        command,
        items: List::from_vec(items),
    })
}
