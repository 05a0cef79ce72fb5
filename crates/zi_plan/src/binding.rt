//! The one list of bindings.
ghost use Rattle.std.specs.Prelude.{◌≡◌, [], ◌∷◌, ◌++◌, map, option_map, option_copied, IfOk, OnOk};
ghost use Rattle.std.specs.List.{flat_map};
ghost use Rattle.zi_plan.specs.Launches.{is_insert, folder_of, bound_to, in_folder, of_dep, of_runner, of_command, of_placed, all_bindings};
ghost use Rattle.zi_plan.specs.Steps.{placed_seen, bound_seen};

use crate::placing::InFolder;
use crate::table::Table;
use std::alloc::Global;
use zi_parts::{Binding, Command, Dep, Extra};
use zi_text::{Memory, Text};

/// A binding, the interface that it speaks of, and the folder of what is selected for that, which for a package is the empty text.
#[derive(Clone, Copy)]
pub struct BoundTo<'a> {
    pub interface: &'a Text,
    pub folder: &'a str,
    pub binding: &'a Binding,
}

// Whether what a binding adds is a path in a folder.
fn is_insert(binding: &Binding) -> bool
    ensures { result ≡ is_insert binding.now }
{
    match binding {
        Binding::Env { extra, .. } => matches!(extra, Extra::Insert(_)),
        _ => false,
    }
}

// The folder with which a binding is applied, by that of what is selected; a path in the folder of what has none isn't applied.
fn folder_of<'a>(folder: Option<&'a Text>, binding: &Binding) -> Option<&'a str>
    ensures { option_copied result ≡ folder_of (option_copied folder.entry) binding.now }
{
    if let Some(folder) = folder {
        return Some(folder.as_str());
    }
    if is_insert(binding) { None } else { Some("") }
}

// A binding of what is selected.
fn bound_to<'a>(x: InFolder<'a>, binding: &'a Binding) -> Option<BoundTo<'a>>
    ensures { option_map bound_seen result ≡ bound_to (placed_seen x.entry) binding.entry.now }
{
    match folder_of(x.folder, binding) {
        Some(folder) => Some(BoundTo {
            interface: &x.selection.interface,
            folder,
            binding,
        }),
        None => None,
    }
}

// Adds one to the list.
fn add<'a>(bound: BoundTo<'a>, out: &mut Vec<BoundTo<'a>>) -> Result<(), Memory>
    ensures { OnOk result (map bound_seen out.new.items ≡ map bound_seen out.old.items ++ bound_seen bound.entry ∷ []) }
{
    out.push(bound)?;
    Ok(())
}

// Adds a binding of what is selected.
fn put_one<'a>(
    x: InFolder<'a>,
    binding: &'a Binding,
    out: &mut Vec<BoundTo<'a>>,
) -> Result<(), Memory>
    ensures { OnOk result (map bound_seen out.new.items ≡ map bound_seen out.old.items ++ in_folder (placed_seen x.entry) (binding.entry.now ∷ [])) }
{
    match bound_to(x, binding) {
        Some(bound) => add(bound, out),
        None => Ok(()),
    }
}

// Adds bindings of what is selected.
fn put_all<'a>(
    x: InFolder<'a>,
    bindings: &'a [Binding],
    out: &mut Vec<BoundTo<'a>>,
) -> Result<(), Memory>
    ensures { OnOk result (map bound_seen out.new.items ≡ map bound_seen out.old.items ++ in_folder (placed_seen x.entry) bindings.entry.now) }
{
    for binding in bindings {
        put_one(x, binding, out)?;
    }
    Ok(())
}

// Adds those of a dependency, where its interface is selected.
fn put_dep<'a>(table: &Table<'a>, dep: &'a Dep, out: &mut Vec<BoundTo<'a>>) -> Result<(), Memory>
    ensures { OnOk result (map bound_seen out.new.items ≡ map bound_seen out.old.items ++ of_dep table.now dep.entry.now) }
{
    match table.find(dep.interface.as_str()) {
        Some(x) => put_all(x, dep.bindings.as_slice(), out),
        None => Ok(()),
    }
}

// Adds those of dependencies, one after another.
fn put_deps<'a>(
    table: &Table<'a>,
    deps: &'a [Dep],
    out: &mut Vec<BoundTo<'a>>,
) -> Result<(), Memory>
    ensures { OnOk result (map bound_seen out.new.items ≡ map bound_seen out.old.items ++ flat_map (of_dep table.now) deps.entry.now) }
{
    for dep in deps {
        put_dep(table, dep, out)?;
    }
    Ok(())
}

// Adds those of what runs a command.
fn put_runner<'a>(
    table: &Table<'a>,
    command: &'a Command,
    out: &mut Vec<BoundTo<'a>>,
) -> Result<(), Memory>
    ensures { OnOk result (map bound_seen out.new.items ≡ map bound_seen out.old.items ++ of_runner table.now command.entry.now.runner) }
{
    match &command.runner {
        Some(runner) => put_dep(table, &runner.dep, out),
        None => Ok(()),
    }
}

// Adds those of a command.
fn put_command<'a>(
    table: &Table<'a>,
    x: InFolder<'a>,
    command: &'a Command,
    out: &mut Vec<BoundTo<'a>>,
) -> Result<(), Memory>
    ensures { OnOk result (map bound_seen out.new.items ≡ map bound_seen out.old.items ++ of_command table.now (placed_seen x.entry) command.entry.now) }
{
    put_all(x, command.bindings.as_slice(), out)?;
    put_deps(table, command.deps.as_slice(), out)?;
    put_runner(table, command, out)
}

// Adds those of commands, one after another.
fn put_commands<'a>(
    table: &Table<'a>,
    x: InFolder<'a>,
    commands: &'a [Command],
    out: &mut Vec<BoundTo<'a>>,
) -> Result<(), Memory>
    ensures { OnOk result (map bound_seen out.new.items ≡ map bound_seen out.old.items ++ flat_map (of_command table.now (placed_seen x.entry)) commands.entry.now) }
{
    for command in commands {
        put_command(table, x, command, out)?;
    }
    Ok(())
}

// Adds those of a selection.
fn put_placed<'a>(
    table: &Table<'a>,
    x: InFolder<'a>,
    out: &mut Vec<BoundTo<'a>>,
) -> Result<(), Memory>
    ensures { OnOk result (map bound_seen out.new.items ≡ map bound_seen out.old.items ++ of_placed table.now (placed_seen x.entry)) }
{
    put_all(x, x.selection.bindings.as_slice(), out)?;
    put_deps(table, x.selection.deps.as_slice(), out)?;
    put_commands(table, x, x.selection.commands.as_slice(), out)
}

/// All bindings, in their one order.
pub fn all_bindings<'a>(alloc: Global, table: &Table<'a>) -> Result<Vec<BoundTo<'a>>, Memory>
    ensures { IfOk result (λ bounds. map bound_seen bounds.items ≡ all_bindings table.now) }
{
    let mut out = Vec::new(alloc);
    let placed = table.all();
    for x in placed {
        put_placed(table, *x, &mut out)?;
    }
    Ok(out)
}
