//! The chain of runners is followed.
ghost use Rattle.std.specs.Prelude.{◌≡◌, [], ◌∷◌, ◌++◌, map, IfOk, OnOk, unwrap_or, option_copied, nat_eq, codes};
ghost use Rattle.std.specs.List.{starts_with};
ghost use Rattle.zi_reading.specs.Words.{first};
ghost use Rattle.zi_reading.specs.Forms.{is_path};
ghost use Rattle.zi_plan.specs.Placed.{placed_for};
ghost use Rattle.zi_plan.specs.Chain.{Leads, is_path_in, path_fault, command_fault, asked_by, last_fault, link_at, link_of};
ghost use Rattle.zi_plan.specs.Plans.{Tells};
ghost use Rattle.zi_plan.specs.Steps.{Checks, Says, seen_ok, wanted_seen, link_seen, has, IsMetToo};

use crate::PlanFault;
use crate::table::{Table, Wanted};
use std::alloc::Global;
use std::collections::HashSet;
use zi_parts::{Command, Runner};
use zi_text::{Memory, Text};
use zi_tree::RelPath;

/// A command of the chain, with the interface that it is of and the folder of what is selected for that, which a package doesn't have.
#[derive(Clone, Copy)]
pub struct Linked<'a> {
    pub interface: &'a str,
    pub folder: Option<&'a Text>,
    pub command: &'a Command,
}

// The name of the command that a runner asks for.
fn name_wanted(runner: &Runner) -> &str
    ensures { result.now ≡ unwrap_or (first runner.now.dep.commands) (codes "run") }
{
    match runner.dep.commands.as_slice().first() {
        Some(name) => name.as_str(),
        None => "run",
    }
}

// The command that a runner asks for.
fn asked_by(runner: &Runner) -> Wanted<'_>
    ensures { wanted_seen result ≡ asked_by runner.now }
{
    Wanted {
        interface: runner.dep.interface.as_str(),
        command: name_wanted(runner),
    }
}

// Whether a text is a relative path with a part.
#[tactic(auto, unfolding(zi_reading::specs::Forms::is_path))]
fn is_path(alloc: Global, text: &str) -> Result<bool, Memory>
    ensures { IfOk result (λ is. is ≡ is_path text.now) }
{
    match RelPath::parse(alloc, text)? {
        Some(path) => Ok(!path.parts().is_empty()),
        None => Ok(false),
    }
}

// Whether a text begins with `/`.
#[tactic(auto, using(std::proofs::lemmas::Str::Pattern::starts_text))]
fn is_whole_path(text: &str) -> bool
    ensures { result ≡ starts_with nat_eq text.now (codes "/") }
{
    text.starts_with("/")
}

// Whether a path is right: in a folder, or, where there is none, as it is.
fn is_path_in(alloc: Global, folder: Option<&Text>, text: &str) -> Result<bool, Memory>
    ensures { IfOk result (λ is. is ≡ is_path_in (option_copied folder.entry) text.now) }
{
    match folder {
        Some(_) => is_path(alloc, text),
        None => Ok(is_whole_path(text)),
    }
}

// A path is right.
fn check_path(alloc: Global, folder: Option<&Text>, path: &Option<Text>) -> Result<(), PlanFault>
    ensures { Checks (path_fault (option_copied folder.entry) path.now) result }
{
    let Some(text) = path else {
        return Ok(());
    };
    if is_path_in(alloc, folder, text.as_str())? {
        Ok(())
    } else {
        Err(PlanFault::BadPath {
            text: text.copy(alloc)?,
        })
    }
}

// A command can stand in the chain.
fn check_command(alloc: Global, folder: Option<&Text>, command: &Command) -> Result<(), PlanFault>
    ensures { Checks (command_fault (option_copied folder.entry) command.now) result }
{
    match &command.unbuilt {
        Some(element) => Err(PlanFault::Unbuilt {
            element: element.copy(alloc)?,
        }),
        None => check_path(alloc, folder, &command.path),
    }
}

// The command that is wanted, by its checks behind that of a loop.
fn link<'a>(alloc: Global, table: &Table<'a>, wanted: Wanted<'a>) -> Result<Linked<'a>, PlanFault>
    ensures { Says (link_of (wanted_seen wanted.entry) (placed_for table.now wanted.entry.interface.now)) (seen_ok link_seen result) }
{
    let Some(x) = table.find(wanted.interface) else {
        return Err(PlanFault::NoSelection {
            interface: Text::from_str(alloc, wanted.interface)?,
        });
    };
    let Some(command) = table.command(wanted) else {
        return Err(PlanFault::NoCommand {
            interface: Text::from_str(alloc, wanted.interface)?,
            command: Text::from_str(alloc, wanted.command)?,
        });
    };
    check_command(alloc, x.folder, command)?;
    Ok(Linked {
        interface: wanted.interface,
        folder: x.folder,
        command,
    })
}

// It is met from then on.
fn meet<'a>(wanted: Wanted<'a>, met: &mut HashSet<Wanted<'a>>) -> Result<(), Memory>
    ensures { OnOk result (IsMetToo met.old.keys (wanted_seen wanted.entry) met.new.keys) }
{
    met.insert(wanted)?;
    Ok(())
}

// Adds a command to the chain.
fn add_link<'a>(link: Linked<'a>, links: &mut Vec<Linked<'a>>) -> Result<(), Memory>
    ensures { OnOk result (map link_seen links.new.items ≡ map link_seen links.old.items ++ link_seen link.entry ∷ []) }
{
    links.push(link)?;
    Ok(())
}

// Goes to a command that is wanted, which is met from then on.
fn visit<'a>(
    alloc: Global,
    table: &Table<'a>,
    wanted: Wanted<'a>,
    met: &mut HashSet<Wanted<'a>>,
) -> Result<Linked<'a>, PlanFault>
    ensures says { Says (link_at table.now (has met.old.keys (wanted_seen wanted.entry)) (wanted_seen wanted.entry)) (seen_ok link_seen result) }
    ensures met { OnOk result (IsMetToo met.old.keys (wanted_seen wanted.entry) met.new.keys) }
{
    if met.contains(&wanted) {
        return Err(PlanFault::Loop {
            interface: Text::from_str(alloc, wanted.interface)?,
            command: Text::from_str(alloc, wanted.command)?,
        });
    }
    meet(wanted, met)?;
    link(alloc, table, wanted)
}

/// The chain from a command on, up to the one that nothing runs.
pub fn follow<'a>(
    alloc: Global,
    table: &Table<'a>,
    from: Wanted<'a>,
) -> Result<Vec<Linked<'a>>, PlanFault>
    ensures { Tells (Leads table.now [] (wanted_seen from.entry)) (seen_ok (λ v. map link_seen v.items) result) }
{
    let mut met = HashSet::new(alloc);
    let mut links = Vec::new(alloc);
    let mut wanted = from;
    loop {
        let link = match visit(alloc, table, wanted, &mut met) {
            Ok(link) => link,
            Err(fault) => return Err(fault),
        };
        add_link(link, &mut links)?;
        match &link.command.runner {
            None => return Ok(links),
            Some(runner) => wanted = asked_by(runner),
        }
    }
}

/// The last command of a chain has a path.
#[tactic(auto, using(crate::proofs::ChainLaws::last_none))]
pub fn check_last(alloc: Global, links: &[Linked<'_>]) -> Result<(), PlanFault>
    ensures { Checks (last_fault (map link_seen links.now)) result }
{
    let Some(link) = links.last() else {
        return Ok(());
    };
    if link.command.path.is_some() {
        return Ok(());
    }
    Err(PlanFault::NoPath {
        interface: Text::from_str(alloc, link.interface)?,
        command: link.command.name.copy(alloc)?,
    })
}
