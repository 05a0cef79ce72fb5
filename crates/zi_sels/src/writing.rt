//! The document of selections: its tree, and its text.
ghost use Rattle.std.specs.Prelude.{◌≡◌, ◌++◌, map, IfOk, OnOk, OnErr};
ghost use Rattle.zi_elements.specs.Forest.{element_view};
ghost use Rattle.zi_docout.specs.Amiss.{first_amiss};
ghost use Rattle.zi_docout.specs.Answers.{IsFirst};
ghost use Rattle.zi_docout.specs.Elements.{Adds};
ghost use Rattle.zi_sels.specs.Written.{selection_attrs, selection_elem, tree, document};

use crate::bindings::{put_bindings, put_deps};
use crate::commands::put_commands;
use crate::digests::put_digests;
use crate::elements::{put_unless, put_where_there};
use crate::types::{Selection, Selections};
use std::alloc::Global;
use zi_docout::{Attr, Element, Node, WriteFault, element, put_attr, put_child};
use zi_text::{List, Memory};

// What is said of a selection: which implementation it is, and what else is known of it.
#[tactic(auto, unfolding(crate::specs::Written::selection_attrs))]
fn selection_attrs(alloc: Global, item: &Selection) -> Result<List<Attr>, Memory>
    ensures { IfOk result (λ attrs. attrs ≡ selection_attrs item.now) }
{
    let mut attrs = List::new(alloc);
    let interface = item.interface.as_str();
    let feed = item.from_feed.as_str();
    put_attr(alloc, &mut attrs, "interface", interface)?;
    put_attr(alloc, &mut attrs, "id", item.id.as_str())?;
    put_attr(alloc, &mut attrs, "version", item.version.as_str())?;
    put_unless(alloc, &mut attrs, interface, "from-feed", feed)?;
    put_where_there(alloc, &mut attrs, "package", &item.package)?;
    put_where_there(alloc, &mut attrs, "local-path", &item.local)?;
    put_where_there(alloc, &mut attrs, "arch", &item.arch)?;
    put_where_there(alloc, &mut attrs, "released", &item.released)?;
    put_where_there(alloc, &mut attrs, "stability", &item.stability)?;
    Ok(attrs)
}

// A selection as an element.
#[tactic(auto, unfolding(crate::specs::Written::selection_elem))]
fn selection_element(alloc: Global, item: &Selection) -> Result<Element, Memory>
    ensures { IfOk result (λ e. element_view e ≡ selection_elem item.now) }
{
    let attrs = selection_attrs(alloc, item)?;
    let mut children = List::new(alloc);
    put_digests(alloc, &mut children, &item.digests)?;
    put_bindings(alloc, &mut children, item.bindings.as_slice())?;
    put_deps(alloc, &mut children, item.deps.as_slice())?;
    put_commands(alloc, &mut children, item.commands.as_slice())?;
    element(alloc, "selection", attrs, children)
}

// Adds selections.
fn put_selections(
    alloc: Global,
    children: &mut List<Node>,
    items: &[Selection],
) -> Result<(), Memory>
    ensures { OnOk result (Adds children.old children.new (map selection_elem items.now)) }
{
    for item in items {
        put_child(children, selection_element(alloc, item)?)?;
    }
    Ok(())
}

// The tree of the document.
#[tactic(auto, unfolding(crate::specs::Written::tree))]
fn tree(alloc: Global, sels: &Selections) -> Result<Element, Memory>
    ensures { IfOk result (λ e. element_view e ≡ tree sels.now) }
{
    let mut attrs = List::new(alloc);
    put_attr(alloc, &mut attrs, "interface", sels.interface.as_str())?;
    put_where_there(alloc, &mut attrs, "command", &sels.command)?;
    let mut children = List::new(alloc);
    put_selections(alloc, &mut children, sels.items.as_slice())?;
    element(alloc, "selections", attrs, children)
}

/// Adds the selections document of a value to `into`, in its canonical text: the root with the program's interface and command,
/// and one `selection` for each item, in the order of the items.
///
/// `Unwritable` is answered exactly where an element of the document can't be written, as where a value has a character that
/// XML can't carry; its place is the number of the first such element in the order of start tags, from 0, as `zi_docout::write`
/// counts them. `Memory` is answered where memory was refused. `into` gains the document, and stays as it was where a fault is
/// answered.
#[tactic(auto, unfolding(crate::specs::Written::document))]
pub fn write(alloc: Global, sels: &Selections, into: &mut Vec<u8>) -> Result<(), WriteFault>
    ensures written { OnOk result (into.new.items ≡ into.old.items ++ document sels.now) }
    ensures first { IsFirst (first_amiss (tree sels.now)) result }
    ensures unchanged { OnErr result (into.new.items ≡ into.old.items) }
{
    let tree = tree(alloc, sels)?;
    zi_docout::write(alloc, &tree, into)
}
