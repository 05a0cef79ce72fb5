//! One selection, read.
ghost use Rattle.std.specs.Prelude.{◌≡◌, IfOk, option_map, unwrap_or};
ghost use Rattle.zi_elements.specs.Forest.{element_view, elements, attribute, value};
ghost use Rattle.zi_faults.specs.Faults.{fault_at};
ghost use Rattle.zi_feed.specs.Means.{Reads};
ghost use Rattle.zi_faults.specs.declared.fault.FeedFault.TheVariants.{Bad};
ghost use Rattle.zi_reading.specs.Views.{views};
ghost use Rattle.zi_sels.specs.Read.{package_in, local_in, selection_of};
ghost use Rattle.zi_sels.specs.Refused.{own_kind, selection_fault};
ghost use Rattle.zi_sels.specs.Parts.{selection_with, AreDigestsOf, ArePartsOf};

use crate::copies::copied;
use crate::own::{is_package, own_kind, second_command};
use crate::parts::{bindings_in, children, commands_in, deps_in, said_in};
use crate::said::in_order_of_use;
use crate::types::Selection;
use std::alloc::Global;
use zi_digest::DigestName;
use zi_elements::Element;
use zi_faults::{Fault, FeedFault, FeedKind, fault_at, lesser_of};
use zi_parts::{Binding, Command, Dep};
use zi_reading::{attribute, is_unclear, value};
use zi_text::{List, Memory, Text};

/// What stands in a selection.
#[derive(Drop)]
pub struct Parts {
    pub digests: List<DigestName>,
    pub deps: List<Dep>,
    pub commands: List<Command>,
    pub bindings: List<Binding>,
}

// The answer of a fault.
fn bad(fault: Fault) -> FeedFault
    ensures { result ≡ Bad fault.kind fault.place }
{
    FeedFault::Bad {
        kind: fault.kind,
        place: fault.place,
    }
}

// The fault at a selection itself.
fn own_fault(alloc: Global, e: &Element) -> Result<Option<Fault>, Memory>
    ensures { IfOk result (λ f. f ≡ option_map (fault_at (element_view e.now)) (own_kind (element_view e.now))) }
{
    match own_kind(alloc, e)? {
        Some(kind) => Ok(Some(fault_at(e, kind))),
        None => Ok(None),
    }
}

// The text of an attribute, or another one where it lacks.
fn text_or(alloc: Global, e: &Element, name: &str, other: &str) -> Result<Text, Memory>
    ensures { IfOk result (λ t. t ≡ unwrap_or (attribute name.now (element_view e.now)) other.now) }
{
    match attribute(e, name) {
        Some(text) => Text::from_str(alloc, text),
        None => Text::from_str(alloc, other),
    }
}

// The text of an attribute, or the empty one.
fn text_of(alloc: Global, e: &Element, name: &str) -> Result<Text, Memory>
    ensures { IfOk result (λ t. t ≡ value name.now (element_view e.now)) }
{
    Text::from_str(alloc, value(e, name))
}

// The package that it is a selection of, where it is one of a package.
fn package_in(alloc: Global, e: &Element) -> Result<Option<Text>, Memory>
    ensures { IfOk result (λ t. t ≡ package_in (element_view e.now)) }
{
    if is_package(e) {
        copied(alloc, e, "package")
    } else {
        Ok(None)
    }
}

// The path of its folder, where it has one.
fn local_in(alloc: Global, e: &Element) -> Result<Option<Text>, Memory>
    ensures { IfOk result (λ t. t ≡ local_in (element_view e.now)) }
{
    if is_package(e) {
        Ok(None)
    } else {
        copied(alloc, e, "local-path")
    }
}

// A selection of these parts.
fn with_parts(alloc: Global, e: &Element, parts: Parts) -> Result<Selection, Memory>
    ensures { IfOk result (λ s. s ≡ selection_with (element_view e.now) parts) }
{
    let interface = text_of(alloc, e, "interface")?;
    let id = text_of(alloc, e, "id")?;
    let version = text_of(alloc, e, "version")?;
    let from_feed = text_or(alloc, e, "from-feed", value(e, "interface"))?;
    let package = package_in(alloc, e)?;
    let local = local_in(alloc, e)?;
    let arch = copied(alloc, e, "arch")?;
    let released = copied(alloc, e, "released")?;
    let stability = copied(alloc, e, "stability")?;
    Ok(Selection {
        interface,
        id,
        version,
        from_feed,
        package,
        local,
        arch,
        released,
        stability,
        digests: parts.digests,
        deps: parts.deps,
        commands: parts.commands,
        bindings: parts.bindings,
    })
}

// The digests of a selection with these elements, of those without a fault, and of all their faults the first one counts.
fn digests_in(
    alloc: Global,
    e: &Element,
    inside: &[&Element],
    fault: &mut Option<Fault>,
) -> Result<List<DigestName>, Memory>
    requires { views inside.now ≡ elements (element_view e.now).inside }
    ensures { IfOk result (λ ds. AreDigestsOf (element_view e.now) fault.old ds fault.new) }
{
    if is_package(e) {
        return Ok(List::new(alloc));
    }
    let said = said_in(alloc, inside, fault)?;
    in_order_of_use(alloc, said.as_slice(), value(e, "id"))
}

// The parts of a selection, those without a fault, and of all their faults the first one counts.
fn parts_in(alloc: Global, e: &Element, fault: &mut Option<Fault>) -> Result<Parts, Memory>
    ensures { IfOk result (λ parts. ArePartsOf (element_view e.now) fault.old parts fault.new) }
{
    let found = children(alloc, e)?;
    let inside = found.as_slice();
    let bindings = bindings_in(alloc, inside, fault)?;
    let deps = deps_in(alloc, inside, fault)?;
    let commands = commands_in(alloc, inside, fault)?;
    let digests = digests_in(alloc, e, inside, fault)?;
    Ok(Parts {
        digests,
        deps,
        commands,
        bindings,
    })
}

/// What an element says as a selection, or its fault: of its own, of its parts and of repeated commands the one of least place, and
/// there of least kind. Memory is the other refusal.
#[tactic(auto, unfolding(crate::specs::Refused::selection_fault))]
pub fn selection_of(alloc: Global, e: &Element) -> Result<Selection, FeedFault>
    ensures { Reads (selection_fault (element_view e.now)) (selection_of (element_view e.now)) result }
{
    if is_unclear(alloc, e)? {
        return Err(bad(fault_at(e, FeedKind::BadRange)));
    }
    let own = own_fault(alloc, e)?;
    let mut fault = lesser_of(own, second_command(alloc, e)?);
    let parts = parts_in(alloc, e, &mut fault)?;
    match fault {
        Some(fault) => Err(bad(fault)),
        None => Ok(with_parts(alloc, e, parts)?),
    }
}
