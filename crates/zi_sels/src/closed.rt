//! Whether each interface has one selection, and each that is asked for has one.
ghost use Rattle.std.specs.Prelude.{◌≡◌, [], ◌∷◌, IfOk, map, filter, codes, option_copied};
ghost use Rattle.zi_elements.specs.Forest.{element_view, elements};
ghost use Rattle.std.specs.List.{flat_map};
ghost use Rattle.zi_reading.specs.Words.{first, is_among};
ghost use Rattle.zi_feed.specs.Means.{counts_as};
ghost use Rattle.zi_sels.specs.Refused.{first_twice, asks, asks_within, asking_at, asking_in, asking, unmet};

use crate::parts::children;
use crate::types::Selection;
use std::alloc::Global;
use std::collections::BTreeSet;
use std::marker::Model;
use zi_elements::Element;
use zi_feed::counts_as;
use zi_reading::{is_text, value};
use zi_text::Memory;

/// The interfaces that are selected for, by which each is found. Contracts see the list of them.
#[derive(Drop)]
pub struct Selected<'a> {
    items: &'a [Selection],
    interfaces: BTreeSet<&'a str>,
}

impl<'a> Model for Selected<'a> {
    ghost use Rattle.std.specs.Prelude.{◌≡◌, ℕ, List, map};
    ghost use Rattle.std.proofs.Common.{Bor};
    ghost use Rattle.std.specs.BTreeSet as tree;
    ghost use Rattle.std.specs.Ordering.{nat_cmp};
    ghost use Rattle.std.specs.Cmp.Lexicographic.{slice_cmp};
    ghost use Rattle.zi_reading.specs.Words.{is_among};

    ghost Value = { List (List ℕ) };

    ghost view = { λ s. map (λ x. x.interface) s.items.now };

    ghost invariant = { λ s. (q : Bor (List ℕ)) → tree.contains (λ x y. slice_cmp nat_cmp x.now y.now) s.interfaces q ≡ is_among (map (λ x. x.interface) s.items.now) q.now };
}

impl<'a> Selected<'a> {
    /// Those of these selections.
    pub fn of(alloc: Global, items: &'a [Selection]) -> Result<Selected<'a>, Memory>
        ensures { IfOk result (λ s. s ≡ map (λ x. x.interface) items.now) }
    {
        let mut interfaces = BTreeSet::new(alloc);
        for item in items {
            interfaces.insert(item.interface.as_str())?;
        }
        Ok(Selected { items, interfaces })
    }

    /// Whether something is selected for an interface.
    pub fn has(&self, interface: &'a str) -> bool
        ensures { result ≡ is_among self.now interface.now }
    {
        self.interfaces.contains(&interface)
    }
}

/// The first interface that a selection has and an earlier one has too.
pub fn first_twice<'a>(alloc: Global, items: &'a [Selection]) -> Result<Option<&'a str>, Memory>
    ensures { IfOk result (λ i. option_copied i ≡ first_twice (map (λ x. x.interface) items.now)) }
{
    let mut seen: BTreeSet<&str> = BTreeSet::new(alloc);
    for item in items {
        let interface = item.interface.as_str();
        if !seen.insert(interface)? {
            return Ok(Some(interface));
        }
    }
    Ok(None)
}

// An essential `requires`.
fn asks(alloc: Global, e: &Element) -> Result<bool, Memory>
    ensures { IfOk result (λ b. b ≡ asks (element_view e.now)) }
{
    Ok(counts_as(alloc, e, "requires")? && !is_text(value(e, "importance"), "recommended"))
}

// What stands in a command asks for an interface.
fn asks_within(alloc: Global, e: &Element) -> Result<bool, Memory>
    ensures { IfOk result (λ b. b ≡ asks_within (element_view e.now)) }
{
    Ok(asks(alloc, e)? || counts_as(alloc, e, "runner")?)
}

// The interface of an element, where nothing is selected for it.
fn unmet<'a>(selected: &Selected<'a>, e: &'a Element) -> Option<&'a str>
    ensures { option_copied result ≡ first (unmet selected.now (element_view e.now ∷ [])) }
{
    let interface = value(e, "interface");
    if selected.has(interface) {
        None
    } else {
        Some(interface)
    }
}

// The same of what stands in a command, where that asks for one.
fn unmet_asked<'a>(
    alloc: Global,
    selected: &Selected<'a>,
    e: &'a Element,
) -> Result<Option<&'a str>, Memory>
    ensures { IfOk result (λ i. option_copied i ≡ first (unmet selected.now (filter asks_within (element_view e.now ∷ [])))) }
{
    if !asks_within(alloc, e)? {
        return Ok(None);
    }
    Ok(unmet(selected, e))
}

// The first interface that is asked for in a command and has no selection.
fn unmet_within<'a>(
    alloc: Global,
    selected: &Selected<'a>,
    e: &'a Element,
) -> Result<Option<&'a str>, Memory>
    ensures { IfOk result (λ i. option_copied i ≡ first (unmet selected.now (filter asks_within (elements (element_view e.now).inside)))) }
{
    let inside = children(alloc, e)?;
    for part in inside.as_slice() {
        if let Some(interface) = unmet_asked(alloc, selected, part)? {
            return Ok(Some(interface));
        }
    }
    Ok(None)
}

// The first such interface at an element of a selection.
fn unmet_at<'a>(
    alloc: Global,
    selected: &Selected<'a>,
    e: &'a Element,
) -> Result<Option<&'a str>, Memory>
    ensures { IfOk result (λ i. option_copied i ≡ first (unmet selected.now (asking_at (element_view e.now)))) }
{
    if counts_as(alloc, e, "command")? {
        return unmet_within(alloc, selected, e);
    }
    if asks(alloc, e)? {
        return Ok(unmet(selected, e));
    }
    Ok(None)
}

// The first such interface in a selection.
fn unmet_in<'a>(
    alloc: Global,
    selected: &Selected<'a>,
    e: &'a Element,
) -> Result<Option<&'a str>, Memory>
    ensures { IfOk result (λ i. option_copied i ≡ first (unmet selected.now (asking_in (element_view e.now)))) }
{
    let inside = children(alloc, e)?;
    for part in inside.as_slice() {
        if let Some(interface) = unmet_at(alloc, selected, part)? {
            return Ok(Some(interface));
        }
    }
    Ok(None)
}

// The same, where an element is a selection that counts.
fn unmet_selected<'a>(
    alloc: Global,
    selected: &Selected<'a>,
    e: &'a Element,
) -> Result<Option<&'a str>, Memory>
    ensures { IfOk result (λ i. option_copied i ≡ first (unmet selected.now (flat_map asking_in (filter (counts_as (codes "selection")) (element_view e.now ∷ []))))) }
{
    if !counts_as(alloc, e, "selection")? {
        return Ok(None);
    }
    unmet_in(alloc, selected, e)
}

/// The first interface, in the order of the document, that is asked for and has no selection.
pub fn first_unclosed<'a>(
    alloc: Global,
    selected: &Selected<'a>,
    root: &'a Element,
) -> Result<Option<&'a str>, Memory>
    ensures { IfOk result (λ i. option_copied i ≡ first (unmet selected.now (asking (element_view root.now)))) }
{
    let inside = children(alloc, root)?;
    for part in inside.as_slice() {
        if let Some(interface) = unmet_selected(alloc, selected, part)? {
            return Ok(Some(interface));
        }
    }
    Ok(None)
}
