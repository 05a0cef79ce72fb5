//! One selection is fetched, if it isn't there; a package of the operating system isn't.
ghost use Rattle.std.specs.Prelude.{◌≡◌, option_copied, MatchOption};
ghost use Rattle.zi_choice.specs.Choice.{chosen};
ghost use Rattle.zi_fetching.specs.Fetching.{candidate_of, lacking, uninstalled, first_uninstalled, method_of, HasWay, HasNoWay, IsFetchable, FetchesTree, FetchesItem};

use crate::stored::{Stored, is_there};
use crate::unmade::{unadded, unmade};
use std::alloc::Global;
use zi_adding::add_tree;
use zi_choice::Names;
use zi_digest::DigestName;
use zi_outcome::Outcome;
use zi_outside::Web;
use zi_parts::{Method, Package};
use zi_recipe::make_tree;
use zi_sels::Selection;
use zi_shelf::Shelf;
use zi_text::Text;
use zi_universe::Candidate;

// The candidate that is chosen for the interface of a number.
fn chosen<'u>(names: &Names<'u>, picks: &[Option<u32>], i: u32) -> Option<&'u Candidate>
    ensures { option_copied result ≡ chosen names.now picks.now i }
{
    let pick = *picks.get(i as usize)?;
    let interface = names.universe().interfaces().get(i as usize)?;
    interface.candidates.as_slice().get(pick? as usize)
}

// The candidate that is chosen for an interface.
fn candidate_of<'u>(
    names: &Names<'u>,
    picks: &[Option<u32>],
    interface: &Text,
) -> Option<&'u Candidate>
    ensures { option_copied result ≡ candidate_of (record { universe = names.now; picks = picks.now }) interface.now }
{
    let i = names.number(interface)?;
    chosen(names, picks, i)
}

// How it can be fetched: the first of its methods.
fn method_of<'u>(names: &Names<'u>, picks: &[Option<u32>], interface: &Text) -> Option<&'u Method>
    ensures { option_copied result ≡ method_of (record { universe = names.now; picks = picks.now }) interface.now }
{
    let candidate = candidate_of(names, picks, interface)?;
    candidate.imp.methods.as_slice().first()
}

// The name of a package, unless it is installed.
fn lacking(package: &Package) -> Option<&Text>
    ensures { option_copied result ≡ lacking «package».now }
{
    if package.installed {
        return None;
    }
    Some(&package.name)
}

// The name of what is selected, where it is a package that isn't installed.
fn uninstalled<'u>(names: &Names<'u>, picks: &[Option<u32>], item: &Selection) -> Option<&'u Text>
    ensures { option_copied result ≡ uninstalled (record { universe = names.now; picks = picks.now }) item.now }
{
    let candidate = candidate_of(names, picks, &item.interface)?;
    let package = candidate.imp.package.as_ref()?;
    lacking(package)
}

/// The name of the first that is a package that isn't installed.
pub(crate) fn first_uninstalled<'u>(
    names: &Names<'u>,
    picks: &[Option<u32>],
    items: &[Selection],
) -> Option<&'u Text>
    ensures { option_copied result ≡ first_uninstalled (record { universe = names.now; picks = picks.now }) items.now }
{
    for item in items {
        if let Some(name) = uninstalled(names, picks, item) {
            return Some(name);
        }
    }
    None
}

// How what is selected can be fetched, and the name that its tree gets.
fn way_of<'u>(
    names: &Names<'u>,
    picks: &[Option<u32>],
    item: &Selection,
) -> Option<(&'u Method, DigestName)>
    ensures { MatchOption result
        (HasNoWay (record { universe = names.now; picks = picks.now }) item.now)
        (λ way. HasWay (record { universe = names.now; picks = picks.now }) item.now way.0.now way.1) }
{
    let method = method_of(names, picks, &item.interface)?;
    let name = item.digests.as_slice().first()?;
    Some((method, *name))
}

// Makes a tree of what the web has, and adds it.
fn fetch_tree<W: Web, K: Shelf>(
    alloc: Global,
    method: &Method,
    name: &DigestName,
    web: &mut W,
    shelf: &mut K,
) -> Result<(), Outcome>
    ensures { FetchesTree method.now name.now (record { web = W.seen web.old; shelf = K.seen shelf.old }) result (record { web = W.seen web.new; shelf = K.seen shelf.new }) }
{
    let tree = match make_tree(alloc, method, web) {
        Ok(tree) => tree,
        Err(fault) => return Err(unmade(fault)),
    };
    match add_tree(alloc, *name, tree, shelf) {
        Ok(_) => Ok(()),
        Err(fault) => Err(unadded(fault)),
    }
}

/// Fetches what is selected, if it isn't there, and then its digest is among those stored. The room for that is taken first.
pub(crate) fn fetch_item<W: Web, K: Shelf>(
    alloc: Global,
    names: &Names<'_>,
    picks: &[Option<u32>],
    item: &Selection,
    stored: &mut Stored,
    web: &mut W,
    shelf: &mut K,
) -> Result<(), Outcome>
    requires { IsFetchable (record { universe = names.now; picks = picks.now }) stored.old item.now }
    ensures { FetchesItem (record { universe = names.now; picks = picks.now }) stored.old item.now (record { web = W.seen web.old; shelf = K.seen shelf.old }) result stored.new (record { web = W.seen web.new; shelf = K.seen shelf.new }) }
{
    let there = is_there(alloc, stored, item)?;
    if there {
        return Ok(());
    }
    let Some((method, name)) = way_of(names, picks, item) else {
        unreachable!()
    };
    stored.add(alloc, &name)?;
    fetch_tree(alloc, method, &name, web, shelf)
}
