//! What stands in a selection, kind by kind: each part is read as a part of a feed is, by `zi_feed`'s readers of single elements.
ghost use Rattle.std.specs.Prelude.{◌≡◌, [], ◌∷◌, filter, codes, None, IfOk, OnOk};
ghost use Rattle.zi_elements.specs.Forest.{element_view, elements};
ghost use Rattle.zi_reading.specs.Ways.{AsWritten};
ghost use Rattle.zi_feed.specs.Feeds.{part_fault};
ghost use Rattle.zi_parts.specs.Digests.{said_digests};
ghost use Rattle.zi_parts.specs.Values.{binding_of, dep_of, command_of};
ghost use Rattle.zi_feed.specs.Means.{counts_as, counts_as_binding};
ghost use Rattle.zi_reading.specs.Views.{views};
ghost use Rattle.zi_sels.specs.Notes.{AreRead};

use crate::faults::note;
use std::alloc::Global;
use zi_digest::DigestName;
use zi_elements::{Element, Node};
use zi_faults::Fault;
use zi_feed::{binding_of, command_of, counts_as, counts_as_binding, dep_of, digests_of};
use zi_parts::{Binding, Command, Dep};
use zi_text::{List, Memory};

/// The elements in an element.
pub fn children<'a>(alloc: Global, e: &'a Element) -> Result<Vec<&'a Element>, Memory>
    ensures { IfOk result (λ v. views v.items ≡ elements (element_view e.now).inside) }
{
    let mut found = Vec::new(alloc);
    for node in e.children.as_slice() {
        if let Node::Child(c) = node {
            found.push(c)?;
        }
    }
    Ok(found)
}

// Takes an element where it is a binding that counts.
fn take_binding(
    alloc: Global,
    e: &Element,
    bindings: &mut List<Binding>,
    fault: &mut Option<Fault>,
) -> Result<(), Memory>
    ensures { OnOk result (AreRead part_fault binding_of (filter counts_as_binding (element_view e.now ∷ [])) bindings.old fault.old bindings.new fault.new) }
{
    if !counts_as_binding(alloc, e)? {
        return Ok(());
    }
    note(binding_of(alloc, e), bindings, fault)
}

/// The bindings among the elements of a selection.
pub fn bindings_in(
    alloc: Global,
    parts: &[&Element],
    fault: &mut Option<Fault>,
) -> Result<List<Binding>, Memory>
    ensures { IfOk result (λ bs. AreRead part_fault binding_of (filter counts_as_binding (views parts.now)) [] fault.old bs fault.new) }
{
    let mut bindings = List::new(alloc);
    for e in parts {
        take_binding(alloc, e, &mut bindings, fault)?;
    }
    Ok(bindings)
}

// Takes an element where it is a `requires` that counts.
fn take_dep(
    alloc: Global,
    e: &Element,
    deps: &mut List<Dep>,
    fault: &mut Option<Fault>,
) -> Result<(), Memory>
    ensures { OnOk result (AreRead part_fault (dep_of AsWritten) (filter (counts_as (codes "requires")) (element_view e.now ∷ [])) deps.old fault.old deps.new fault.new) }
{
    if !counts_as(alloc, e, "requires")? {
        return Ok(());
    }
    note(dep_of(alloc, e), deps, fault)
}

/// What a selection with these elements asks for.
pub fn deps_in(
    alloc: Global,
    parts: &[&Element],
    fault: &mut Option<Fault>,
) -> Result<List<Dep>, Memory>
    ensures { IfOk result (λ ds. AreRead part_fault (dep_of AsWritten) (filter (counts_as (codes "requires")) (views parts.now)) [] fault.old ds fault.new) }
{
    let mut deps = List::new(alloc);
    for e in parts {
        take_dep(alloc, e, &mut deps, fault)?;
    }
    Ok(deps)
}

// Takes an element where it is a `command` that counts.
fn take_command(
    alloc: Global,
    e: &Element,
    commands: &mut List<Command>,
    fault: &mut Option<Fault>,
) -> Result<(), Memory>
    ensures { OnOk result (AreRead part_fault (command_of AsWritten) (filter (counts_as (codes "command")) (element_view e.now ∷ [])) commands.old fault.old commands.new fault.new) }
{
    if !counts_as(alloc, e, "command")? {
        return Ok(());
    }
    note(command_of(alloc, e), commands, fault)
}

/// The commands among them.
pub fn commands_in(
    alloc: Global,
    parts: &[&Element],
    fault: &mut Option<Fault>,
) -> Result<List<Command>, Memory>
    ensures { IfOk result (λ ks. AreRead part_fault (command_of AsWritten) (filter (counts_as (codes "command")) (views parts.now)) [] fault.old ks fault.new) }
{
    let mut commands = List::new(alloc);
    for e in parts {
        take_command(alloc, e, &mut commands, fault)?;
    }
    Ok(commands)
}

// Takes an element where it is a `manifest-digest` that counts.
fn take_digests(
    alloc: Global,
    e: &Element,
    said: &mut List<List<DigestName>>,
    fault: &mut Option<Fault>,
) -> Result<(), Memory>
    ensures { OnOk result (AreRead part_fault said_digests (filter (counts_as (codes "manifest-digest")) (element_view e.now ∷ [])) said.old fault.old said.new fault.new) }
{
    if !counts_as(alloc, e, "manifest-digest")? {
        return Ok(());
    }
    note(digests_of(alloc, e), said, fault)
}

/// What each `manifest-digest` among them says.
pub fn said_in(
    alloc: Global,
    parts: &[&Element],
    fault: &mut Option<Fault>,
) -> Result<List<List<DigestName>>, Memory>
    ensures { IfOk result (λ said. AreRead part_fault said_digests (filter (counts_as (codes "manifest-digest")) (views parts.now)) [] fault.old said fault.new) }
{
    let mut said = List::new(alloc);
    for e in parts {
        take_digests(alloc, e, &mut said, fault)?;
    }
    Ok(said)
}
