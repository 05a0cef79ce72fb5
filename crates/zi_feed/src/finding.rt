//! The fault of a whole feed, and its imports, out of the elements that were seen in it.
ghost use Rattle.std.specs.Prelude.{◌≡◌, ◌&&◌, not, IfOk, codes, map};
ghost use Rattle.std.specs.List.{filter, flat_map};
ghost use Rattle.zi_elements.specs.Forest.{element_view, attribute};
ghost use Rattle.zi_address.specs.Texts.{same};
ghost use Rattle.zi_address.specs.Address.{is_local as is_local_text};
ghost use Rattle.zi_reading.specs.Ways.{InFeed, ways_of};
ghost use Rattle.zi_reading.specs.Words.{is_wrong};
ghost use Rattle.zi_reading.specs.Views.{views};
ghost use Rattle.zi_faults.specs.Faults.{least, same_ids, root_faults, counts};
ghost use Rattle.zi_faults.specs.Carrying.{seen_view, faults_seen, AreChecked, seen_within};
ghost use Rattle.zi_feed.specs.Feeds.{feed_fault, feed_of, part_fault};

use crate::impls::import_of;
use std::alloc::Global;
use zi_address::is_local;
use zi_elements::Element;
use zi_faults::{
    Fault, FeedKind, Seen, checked, fault_at, fault_with, least_shared, lesser_of, nothing, walk,
};
use zi_parts::Import;
use zi_reading::{Kind, Part, Ways, attribute, is_text, is_unclear};
use zi_text::{List, Memory};

// The least fault at elements that were seen.
fn least_seen(alloc: Global, ways: Ways, seen: &[Seen]) -> Result<Option<Fault>, Memory>
    requires { AreChecked (ways_of ways) seen.now }
    ensures { IfOk result (λ f. f ≡ least (flat_map (faults_seen (ways_of ways.entry)) (map seen_view seen.now))) }
{
    let mut found = None;
    for site in seen {
        let fault = fault_with(alloc, ways, &site.said, &site.element)?;
        found = lesser_of(found, fault);
    }
    Ok(found)
}

// Whether it is an implementation that counts.
fn counts(alloc: Global, e: &Part) -> Result<bool, Memory>
    ensures { IfOk result (λ b. b ≡ counts (element_view e.now)) }
{
    Ok(e.is(Kind::Implementation) && !is_unclear(alloc, e.element())?)
}

// The implementations that count among elements that were seen.
fn counting<'a>(alloc: Global, seen: &[Seen<'a>]) -> Result<Vec<&'a Element>, Memory>
    ensures { IfOk result (λ v. views v.items ≡ filter counts (map (λ x. x.0) (map seen_view seen.now))) }
{
    let mut found = Vec::new(alloc);
    for site in seen {
        if counts(alloc, &site.element)? {
            found.push(site.element.element())?;
        }
    }
    Ok(found)
}

// The least fault of two implementations of one id.
#[tactic(auto, unfolding(zi_faults::specs::Faults::same_ids))]
fn same_id(alloc: Global, seen: &[Seen]) -> Result<Option<Fault>, Memory>
    ensures { IfOk result (λ f. f ≡ least (same_ids (map (λ x. x.0) (map seen_view seen.now)))) }
{
    let elements = counting(alloc, seen)?;
    least_shared(alloc, "id", elements.as_slice(), FeedKind::SameId)
}

// Whether a feed of the web says another address than it was read under.
fn has_wrong_uri(root: &Element, uri: &str) -> bool
    ensures { result ≡ (not (is_local_text uri.now) && is_wrong (same uri.now) (attribute (codes "uri") (element_view root.now))) }
{
    if is_local(uri) {
        return false;
    }
    match attribute(root, "uri") {
        Some(text) => !is_text(uri, text),
        None => false,
    }
}

// The least fault of the root itself.
#[tactic(auto, unfolding(zi_faults::specs::Faults::root_faults))]
fn root_fault(alloc: Global, root: &Element, uri: &str) -> Result<Option<Fault>, Memory>
    ensures { IfOk result (λ f. f ≡ least (root_faults uri.now (element_view root.now))) }
{
    let unclear = if is_unclear(alloc, root)? {
        Some(fault_at(root, FeedKind::BadRange))
    } else {
        None
    };
    let wrong = if has_wrong_uri(root, uri) {
        Some(fault_at(root, FeedKind::WrongUri))
    } else {
        None
    };
    Ok(lesser_of(unclear, wrong))
}

// The elements that are read inside one, where nothing is said around it.
fn seen_in<'a>(alloc: Global, ways: Ways, e: &Part<'a>) -> Result<Vec<Seen<'a>>, Memory>
    ensures seen { IfOk result (λ v. map seen_view v.items ≡ seen_within (ways_of ways.entry) (element_view e.now)) }
    ensures checked { IfOk result (λ v. AreChecked (ways_of ways.entry) v.items) }
{
    let mut seen = Vec::new(alloc);
    walk(alloc, ways, e, nothing(), &mut seen)?;
    Ok(seen)
}

/// The fault of a feed of which these elements are read, where it has one.
#[tactic(auto, unfolding(crate::specs::Feeds::feed_fault))]
pub fn feed_fault(
    alloc: Global,
    root: &Part,
    uri: &str,
    seen: &[Seen],
) -> Result<Option<Fault>, Memory>
    requires seen { map seen_view seen.now ≡ seen_within (InFeed uri.now) (element_view root.now) }
    requires checked { AreChecked (InFeed uri.now) seen.now }
    ensures { IfOk result (λ f. f ≡ feed_fault (element_view root.now) uri.now) }
{
    let e = root.element();
    if !root.is(Kind::Interface) {
        return Ok(Some(fault_at(e, FeedKind::NotInterface)));
    }
    let own = root_fault(alloc, e, uri)?;
    let inner = least_seen(alloc, Ways::InFeed(uri), seen)?;
    let shared = same_id(alloc, seen)?;
    Ok(lesser_of(own, lesser_of(inner, shared)))
}

/// The fault of an element of a selections document and all in it, where there is one.
#[tactic(auto, unfolding(crate::specs::Feeds::part_fault))]
pub fn part_fault(alloc: Global, part: &Part) -> Result<Option<Fault>, Memory>
    ensures { IfOk result (λ f. f ≡ part_fault (element_view part.now)) }
{
    let e = part.element();
    let said = checked(alloc, Ways::AsWritten, nothing(), e)?;
    let own = fault_with(alloc, Ways::AsWritten, &said, part)?;
    if is_unclear(alloc, e)? {
        return Ok(own);
    }
    let seen = seen_in(alloc, Ways::AsWritten, part)?;
    let inner = least_seen(alloc, Ways::AsWritten, seen.as_slice())?;
    Ok(lesser_of(own, inner))
}

/// The imports among the elements that were seen in a feed.
pub fn imports_of(
    alloc: Global,
    root: &Part,
    uri: &str,
    seen: &[Seen],
) -> Result<List<Import>, Memory>
    requires { map seen_view seen.now ≡ seen_within (InFeed uri.now) (element_view root.now) }
    ensures { IfOk result (λ is. is ≡ (feed_of (element_view root.now) uri.now).imports) }
{
    let mut imports = List::new(alloc);
    for site in seen {
        if site.element.is(Kind::Feed) {
            imports.push(import_of(alloc, Ways::InFeed(uri), site.element.element())?)?;
        }
    }
    Ok(imports)
}
