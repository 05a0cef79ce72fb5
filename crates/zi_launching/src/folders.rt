//! The folders of what is selected.
ghost use Rattle.std.specs.Prelude.{◌≡◌, ◌∷◌, None, IfOk, MatchResult, find, map};
ghost use Rattle.zi_reading.specs.Words.{first};
ghost use Rattle.zi_world.specs.Places.{root_at};
ghost use Rattle.zi_fetching.specs.Known.{is_known};
ghost use Rattle.zi_launching.specs.Folders.{tree_of, trees_of, stored_folder, stored_at, place_in, LacksFolder, FindsFolder, FindsFolders};

use crate::places::Places;
use std::alloc::Global;
use zi_digest::DigestName;
use zi_fetching::Stored;
use zi_outcome::Outcome;
use zi_sels::Selection;
use zi_shelf::Shelf;
use zi_text::{List, Memory, Text};

// The path of the store of a number.
fn root_at<'s, K: Shelf, R: Shelf>(store: usize, shelf: &'s K, others: &'s [R]) -> &'s str
    ensures { result.now ≡ root_at (K.seen shelf.now ∷ map R.seen others.now) store }
{
    if store == 0 {
        return shelf.root();
    }
    match others.get(store - 1) {
        Some(other) => other.root(),
        None => "",
    }
}

// The folder of a stored tree: the store's, `/` and the name.
fn stored_folder(alloc: Global, root: &str, name: &DigestName) -> Result<Text, Memory>
    ensures { IfOk result (λ t. t ≡ stored_folder root.now name.now) }
{
    let name = name.text(alloc)?;
    let mut folder = Text::from_str(alloc, root)?;
    folder.push_str("/")?;
    folder.push_str(name.as_str())?;
    Ok(folder)
}

/// The folder of a stored tree, in the store where it stands.
pub(crate) fn stored_place<K: Shelf, R: Shelf>(
    alloc: Global,
    name: &DigestName,
    places: &Places,
    shelf: &K,
    others: &[R],
) -> Result<Text, Memory>
    ensures { IfOk result (λ t. t ≡ stored_at (K.seen shelf.now ∷ map R.seen others.now) (place_in places.now.stores.entries) name.now) }
{
    let store = places.place(alloc, name)?;
    stored_folder(alloc, root_at(store, shelf, others), name)
}

// What has no path and none of whose digests is stored: a tree is missing, if it has a digest.
fn without_tree(alloc: Global, item: &Selection) -> Result<Option<Text>, Outcome>
    ensures { MatchResult result (λ path. (path ≡ None) × (first item.now.digests ≡ None)) (LacksFolder (first item.now.digests)) }
{
    match item.digests.as_slice().first() {
        Some(name) => Err(Outcome::MissingTree {
            name: name.text(alloc)?,
        }),
        None => Ok(None),
    }
}

// The first of these digests, which stand in the order of use, that is stored.
fn first_stored(
    alloc: Global,
    digests: &[DigestName],
    stored: &Stored,
) -> Result<Option<DigestName>, Memory>
    ensures { IfOk result (λ name. name ≡ find (is_known stored.now) digests.now) }
{
    for digest in digests {
        if stored.has_any(alloc, [*digest].as_slice())? {
            return Ok(Some(*digest));
        }
    }
    Ok(None)
}

// The folder of what is selected: its path where it is local, or that of the first of its digests that is stored, in the store
// in which it stands.
#[tactic(auto, using(crate::proofs::FolderLaws::finding))]
fn folder<K: Shelf, R: Shelf>(
    alloc: Global,
    item: &Selection,
    stored: &Stored,
    places: &Places,
    shelf: &K,
    others: &[R],
) -> Result<Option<Text>, Outcome>
    ensures { FindsFolder (stored_at (K.seen shelf.now ∷ map R.seen others.now) (place_in places.now.stores.entries)) stored.now item.now result }
{
    if let Some(path) = &item.local {
        return Ok(Some(path.copy(alloc)?));
    }
    let Some(name) = first_stored(alloc, item.digests.as_slice(), stored)? else {
        return without_tree(alloc, item);
    };
    Ok(Some(stored_place(alloc, &name, places, shelf, others)?))
}

/// The folders of what is selected, in its order. `MissingTree` names the first digest of the first that has digests and none of
/// them stored; what has neither a path nor a digest has no folder.
pub(crate) fn folders_of<K: Shelf, R: Shelf>(
    alloc: Global,
    items: &[Selection],
    stored: &Stored,
    places: &Places,
    shelf: &K,
    others: &[R],
) -> Result<List<Option<Text>>, Outcome>
    ensures { FindsFolders (stored_at (K.seen shelf.now ∷ map R.seen others.now) (place_in places.now.stores.entries)) stored.now items.now result }
{
    let mut folders = List::new(alloc);
    for item in items {
        folders.push(folder(alloc, item, stored, places, shelf, others)?)?;
    }
    Ok(folders)
}

// The stored tree whose folder what is selected has, where it isn't local.
fn tree_of(alloc: Global, item: &Selection, stored: &Stored) -> Result<Option<DigestName>, Memory>
    ensures { IfOk result (λ name. name ≡ tree_of stored.now item.now) }
{
    if item.local.is_some() {
        return Ok(None);
    }
    first_stored(alloc, item.digests.as_slice(), stored)
}

/// The stored trees whose folders are exposed, in the order of what is selected.
pub(crate) fn trees_of(
    alloc: Global,
    items: &[Selection],
    stored: &Stored,
) -> Result<List<DigestName>, Memory>
    ensures { IfOk result (λ names. names ≡ trees_of stored.now items.now) }
{
    let mut names = List::new(alloc);
    for item in items {
        if let Some(name) = tree_of(alloc, item, stored)? {
            names.push(name)?;
        }
    }
    Ok(names)
}
