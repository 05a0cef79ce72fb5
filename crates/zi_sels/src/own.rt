//! The faults of a selection itself, and of its repeated commands.
ghost use Rattle.std.specs.Prelude.{◌≡◌, ◌++◌, ◌∷◌, [], IfOk, OnOk, codes, map, not, ◌&&◌};
ghost use Rattle.zi_elements.specs.Forest.{element_view, attribute};
ghost use Rattle.zi_reading.specs.Words.{is_amiss};
ghost use Rattle.zi_reading.specs.Forms.{is_version};
ghost use Rattle.zi_reading.specs.Reading.{is_unclear};
ghost use Rattle.zi_faults.specs.Faults.{fault_at, least};
ghost use Rattle.zi_feed.specs.Means.{counts_as};
ghost use Rattle.zi_reading.specs.Views.{views};
ghost use Rattle.zi_faults.specs.declared.fault.FeedKind.TheVariants.{BadPart};
ghost use Rattle.zi_sels.specs.Refused.{has_bad_local, own_kind, clear_among, second_commands};
ghost use Rattle.zi_sels.specs.Read.{is_package};

use crate::parts::children;
use std::alloc::Global;
use zi_elements::Element;
use zi_faults::{Fault, FeedKind, least_shared};
use zi_feed::counts_as;
use zi_reading::{attribute, is_unclear, is_version, value};
use zi_text::Memory;

// A selection has no version.
fn has_no_version(alloc: Global, e: &Element) -> Result<bool, Memory>
    ensures { IfOk result (λ b. b ≡ is_amiss is_version (attribute (codes "version") (element_view e.now))) }
{
    match attribute(e, "version") {
        Some(text) => Ok(!is_version(alloc, text)?),
        None => Ok(true),
    }
}

/// Whether it is a selection of a package of the operating system.
pub fn is_package(e: &Element) -> bool
    ensures { result ≡ is_package (element_view e.now) }
{
    !value(e, "package").is_empty()
}

// The local path of a selection doesn't begin at the top folder; that of a package is passed over.
fn has_bad_local(e: &Element) -> bool
    ensures { result ≡ has_bad_local (element_view e.now) }
{
    if is_package(e) {
        return false;
    }
    match attribute(e, "local-path") {
        Some(path) => !path.as_bytes().starts_with(b"/"),
        None => false,
    }
}

/// The least kind of fault that stands at a selection itself.
#[tactic(auto, unfolding(crate::specs::Refused::own_kind))]
pub fn own_kind(alloc: Global, e: &Element) -> Result<Option<FeedKind>, Memory>
    ensures { IfOk result (λ k. k ≡ own_kind (element_view e.now)) }
{
    if value(e, "id").is_empty() {
        return Ok(Some(FeedKind::NoId));
    }
    if has_no_version(alloc, e)? {
        return Ok(Some(FeedKind::BadVersion));
    }
    if attribute(e, "interface").is_none() {
        return Ok(Some(FeedKind::NoInterface));
    }
    if has_bad_local(e) {
        return Ok(Some(FeedKind::BadAddress));
    }
    Ok(None)
}

// Whether it is a command that counts, and whose condition is an expression.
fn is_clear_command(alloc: Global, e: &Element) -> Result<bool, Memory>
    ensures { IfOk result (λ b. b ≡ (counts_as (codes "command") (element_view e.now) && not (is_unclear (element_view e.now)))) }
{
    Ok(counts_as(alloc, e, "command")? && !is_unclear(alloc, e)?)
}

// Takes an element where it is such a command.
fn take_clear<'a>(alloc: Global, e: &'a Element, found: &mut Vec<&'a Element>) -> Result<(), Memory>
    ensures { OnOk result (views found.new.items ≡ views found.old.items ++ clear_among (element_view e.now ∷ [])) }
{
    if !is_clear_command(alloc, e)? {
        return Ok(());
    }
    found.push(e)?;
    Ok(())
}

// The commands among elements whose conditions are expressions.
fn clear_commands<'a>(alloc: Global, parts: &[&'a Element]) -> Result<Vec<&'a Element>, Memory>
    ensures { IfOk result (λ v. views v.items ≡ clear_among (views parts.now)) }
{
    let mut found = Vec::new(alloc);
    for e in parts {
        take_clear(alloc, e, &mut found)?;
    }
    Ok(found)
}

/// The least fault of commands whose names earlier ones have.
pub fn second_command(alloc: Global, e: &Element) -> Result<Option<Fault>, Memory>
    ensures { IfOk result (λ f. f ≡ least (map (λ c. fault_at c BadPart) (second_commands (element_view e.now)))) }
{
    let inside = children(alloc, e)?;
    let commands = clear_commands(alloc, inside.as_slice())?;
    least_shared(alloc, "name", commands.as_slice(), FeedKind::BadPart)
}
