//! Selections documents, read.
ghost use Rattle.std.specs.Prelude.{◌≡◌, ◌∷◌, [], map, filter, codes, IfOk, IfErr, OnOk};
ghost use Rattle.zi_elements.specs.Forest.{element_view};
ghost use Rattle.zi_faults.specs.Faults.{least};
ghost use Rattle.zi_feed.specs.Means.{counts_as};
ghost use Rattle.zi_sels.specs.declared.types.Selections.{Selections as Value};
ghost use Rattle.zi_sels.specs.declared.fault.SelsFault.{SelsFault as Refusal};
ghost use Rattle.zi_sels.specs.Read.{selection_of, selections_of, selections_in};
ghost use Rattle.zi_sels.specs.Notes.{AreRead};
ghost use Rattle.zi_sels.specs.Refused.{selection_fault, root_faults, is_selections, closed_fault, tree_fault};
ghost use Rattle.zi_sels.specs.Reading.{Says, HasFault, FaultMeans, Gives, ReadsTree, Passes};

use crate::closed::{Selected, first_twice, first_unclosed};
use crate::copies::copied;
use crate::fault::SelsFault;
use crate::faults::note;
use crate::laws::one_reading;
use crate::parts::children;
use crate::selecting::selection_of;
use crate::types::{Selection, Selections};
use std::alloc::Global;
use zi_elements::{Document, Element};
use zi_faults::{Fault, FeedKind, fault_at};
use zi_feed::counts_as;
use zi_reading::{attribute, is, is_unclear, value};
use zi_text::{List, Memory, Text};

// Whether a root is that of a selections document.
fn is_selections(root: &Element) -> bool
    ensures { result ≡ is_selections (element_view root.now) }
{
    is(root, "selections") && attribute(root, "interface").is_some()
}

// Takes an element where it is a `selection` that counts.
fn take_selection(
    alloc: Global,
    e: &Element,
    items: &mut List<Selection>,
    fault: &mut Option<Fault>,
) -> Result<(), Memory>
    ensures { OnOk result (AreRead selection_fault selection_of (filter (counts_as (codes "selection")) (element_view e.now ∷ [])) items.old fault.old items.new fault.new) }
{
    if !counts_as(alloc, e, "selection")? {
        return Ok(());
    }
    note(selection_of(alloc, e), items, fault)
}

// The selections of a document.
fn items_in(
    alloc: Global,
    root: &Element,
    fault: &mut Option<Fault>,
) -> Result<List<Selection>, Memory>
    ensures { IfOk result (λ items. AreRead selection_fault selection_of (selections_in (element_view root.now)) [] fault.old items fault.new) }
{
    let inside = children(alloc, root)?;
    let mut items = List::new(alloc);
    for e in inside.as_slice() {
        take_selection(alloc, e, &mut items, fault)?;
    }
    Ok(items)
}

// The fault of the root's condition.
fn root_fault(alloc: Global, root: &Element) -> Result<Option<Fault>, Memory>
    ensures { IfOk result (λ f. f ≡ least (root_faults (element_view root.now))) }
{
    if is_unclear(alloc, root)? {
        Ok(Some(fault_at(root, FeedKind::BadRange)))
    } else {
        Ok(None)
    }
}

// Each interface has one selection, the root's among them, and so has each that is asked for.
fn check_closed<'a>(
    alloc: Global,
    root: &'a Element,
    items: &'a [Selection],
) -> Result<(), SelsFault>
    ensures { Passes (closed_fault (map (λ x. x.interface) items.now) (element_view root.now)) result }
{
    if let Some(interface) = first_twice(alloc, items)? {
        let interface = Text::from_str(alloc, interface)?;
        return Err(SelsFault::Twice { interface });
    }
    let selected = Selected::of(alloc, items)?;
    if !selected.has(value(root, "interface")) {
        return Err(SelsFault::NoRoot);
    }
    if let Some(interface) = first_unclosed(alloc, &selected, root)? {
        let interface = Text::from_str(alloc, interface)?;
        return Err(SelsFault::Unclosed { interface });
    }
    Ok(())
}

// What a root says as a selections document, or its fault.
fn read_root(alloc: Global, root: &Element) -> Result<Selections, SelsFault>
    ensures { ReadsTree (tree_fault (element_view root.now)) (selections_of (element_view root.now)) result }
{
    if !is_selections(root) {
        return Err(SelsFault::NotSelections);
    }
    let mut fault = root_fault(alloc, root)?;
    let items = items_in(alloc, root, &mut fault)?;
    if let Some(fault) = fault {
        return Err(SelsFault::Feed {
            kind: fault.kind,
            place: fault.place,
        });
    }
    check_closed(alloc, root, items.as_slice())?;
    let interface = Text::from_str(alloc, value(root, "interface"))?;
    let command = copied(alloc, root, "command")?;
    Ok(Selections {
        interface,
        command,
        items,
    })
}

// What a document says as selections, or its fault.
fn read_tree(alloc: Global, tree: &Document) -> Result<Selections, SelsFault>
    ensures { ReadsTree (tree_fault (element_view tree.now)) (selections_of (element_view tree.now)) result }
{
    read_root(alloc, tree.root())
}

// The selections that bytes say, or their fault.
fn read_bytes(alloc: Global, bytes: &[u8]) -> Result<Selections, SelsFault>
    ensures found { IfOk result (λ s. Says bytes.now s) }
    ensures fault { IfErr result (λ f. FaultMeans bytes.now f) }
{
    let tree = zi_doc::read(alloc, bytes)?;
    read_tree(alloc, &tree)
}

/// The selections that a document says, in any layout, with elements and attributes passed over that the format doesn't have.
///
/// The fault of the bytes is answered, of several the first in this order: `Doc` where they are no document (`zi_doc::read`);
/// `NotSelections` where the root isn't `selections` in the namespace of feeds, or has no interface; `Feed` where a selection, a part
/// of one or a condition isn't of the form, the one of least place and there of least kind; `Twice` with the first interface that is
/// repeated; `NoRoot` where nothing is selected for the root's interface; `Unclosed` with the first interface, in the order of the
/// document, that an essential `requires` or a `runner` asks for and that has no selection. `Memory` is answered where memory was
/// refused, and says nothing of the bytes. The work is linear in the bytes, but for sets of names.
pub fn read(alloc: Global, bytes: &[u8]) -> Result<Selections, SelsFault>
    // What is read is what the bytes say.
    ensures found { IfOk result (λ s. Says bytes.now s) }
    // What they say is read, unless memory is refused.
    ensures only { (s : Value) → Says bytes.now s → Gives result (Ok s) }
    // A fault is the one that the bytes have.
    ensures fault { IfErr result (λ f. FaultMeans bytes.now f) }
    // A fault that they have is answered, unless memory is refused.
    ensures faulty { (f : Refusal) → HasFault bytes.now f → Gives result (Err f) }
{
    one_reading();
    read_bytes(alloc, bytes)
}
