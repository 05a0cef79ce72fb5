//! The bindings of a dependency that make a command of it known as a program, and the commands that are asked of it for that.
ghost use Rattle.std.specs.Prelude.{◌≡◌, IfOk, OnOk, map, option_copied, fold};
ghost use Rattle.std.specs.List.{filter_map};
ghost use Rattle.zi_elements.specs.Forest.{element_view};
ghost use Rattle.zi_reading.specs.Reading.{binding_names, those};
ghost use Rattle.zi_reading.specs.Words.{optional};
ghost use Rattle.zi_reading.specs.Views.{part_views};
ghost use Rattle.zi_parts.specs.Values.{dep_binding_of, command_named, command_by, with_name, commands_by};

use crate::parts::{binding_of, text_or, value_text};
use crate::types::Binding;
use indexmap::IndexSet;
use std::alloc::Global;
use zi_elements::Element;
use zi_reading::{BINDINGS, Kind, Part, those};
use zi_text::{List, Memory, Text};

// The command that an element names.
fn command_named(alloc: Global, e: &Element) -> Result<Text, Memory>
    ensures { IfOk result (λ t. t ≡ command_named (element_view e.now)) }
{
    text_or(alloc, e, "command", "run")
}

/// The binding that an element in a dependency means. Memory is the one refusal.
#[tactic(auto, unfolding(crate::specs::Values::dep_binding_of))]
pub fn dep_binding_of(alloc: Global, part: &Part) -> Result<Binding, Memory>
    ensures { IfOk result (λ b. b ≡ dep_binding_of (element_view part.now)) }
{
    let e = part.element();
    if part.is(Kind::ExecutableInVar) {
        let name = value_text(alloc, e, "name")?;
        let command = command_named(alloc, e)?;
        return Ok(Binding::ExecVar { name, command });
    }
    if part.is(Kind::ExecutableInPath) {
        let name = value_text(alloc, e, "name")?;
        let command = command_named(alloc, e)?;
        return Ok(Binding::ExecPath { name, command });
    }
    binding_of(alloc, part)
}

// The bindings that elements in a dependency mean.
fn all_dep_bindings(alloc: Global, elements: &[Part]) -> Result<List<Binding>, Memory>
    ensures { IfOk result (λ bs. bs ≡ map dep_binding_of (part_views elements.now)) }
{
    let mut bindings = List::new(alloc);
    for e in elements {
        bindings.push(dep_binding_of(alloc, e)?)?;
    }
    Ok(bindings)
}

/// The bindings among the parts of a dependency, in order. Memory is the one refusal.
pub fn dep_bindings_of(alloc: Global, parts: &[Part]) -> Result<List<Binding>, Memory>
    ensures { IfOk result (λ bs. bs ≡ map dep_binding_of (those binding_names (part_views parts.now))) }
{
    let elements = those(alloc, BINDINGS.as_slice(), parts)?;
    all_dep_bindings(alloc, elements.as_slice())
}

// The command that a binding makes known, where it makes one known.
fn command_by(binding: &Binding) -> Option<&Text>
    ensures { option_copied result ≡ command_by binding.now }
{
    match binding {
        Binding::ExecVar { command, .. } | Binding::ExecPath { command, .. } => Some(command),
        Binding::Env { .. } | Binding::Unbuilt { .. } => None,
    }
}

// Adds the command that a binding makes known, unless it is there.
fn add_command(alloc: Global, binding: &Binding, names: &mut IndexSet<Text>) -> Result<(), Memory>
    ensures { OnOk result (names.new.keys ≡ fold with_name names.old.keys (optional (command_by binding.now))) }
{
    if let Some(command) = command_by(binding) {
        let name = command.copy(alloc)?;
        names.insert(name)?;
    }
    Ok(())
}

// Names as a list.
fn listed(alloc: Global, names: &IndexSet<Text>) -> Result<List<Text>, Memory>
    ensures { IfOk result (λ ts. ts ≡ names.now.keys) }
{
    let mut texts = List::new(alloc);
    for name in names.as_slice() {
        texts.push(name.copy(alloc)?)?;
    }
    Ok(texts)
}

// The first of the names, where there is one.
fn first_names(alloc: Global, first: Option<Text>) -> Result<IndexSet<Text>, Memory>
    ensures { IfOk result (λ names. names.keys ≡ optional first) }
{
    let mut names = IndexSet::new(alloc);
    if let Some(name) = first {
        names.insert(name)?;
    }
    Ok(names)
}

/// The commands that are asked of a dependency: the first, where there is one, and behind it those that its bindings make known,
/// each once. Memory is the one refusal.
#[tactic(auto, unfolding(crate::specs::Values::commands_by))]
pub fn commands_by(
    alloc: Global,
    first: Option<Text>,
    bindings: &[Binding],
) -> Result<List<Text>, Memory>
    ensures { IfOk result (λ cs. cs ≡ commands_by (optional first) bindings.now) }
{
    let mut names = first_names(alloc, first)?;
    for binding in bindings {
        add_command(alloc, binding, &mut names)?;
    }
    listed(alloc, &names)
}
