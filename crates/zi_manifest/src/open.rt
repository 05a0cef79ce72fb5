//! The folders that are open while a manifest is read, the innermost last.

ghost use Rattle.std.specs.Prelude.{◌≡◌, ◌++◌, ◌∷◌, [], ℕ, List, true, reverse, MatchOption, IfOk, OnOk, Option, Some, None, option_map};
ghost use Rattle.std.specs.List.{list_any};
ghost use Rattle.std.specs.Prelude.{bytes_eq};
ghost use Rattle.zi_manifest.specs.Sketch.{joined};
ghost use Rattle.zi_manifest.specs.Reading.{Takes, TakesLeaf, TakesFolder, all_rise, rises, all_before, is_above, fresh, back};

use crate::at_place::joined;
use crate::entries::Entry;
use std::alloc::Global;
use zi_text::{List, Memory, Text};

/// An open folder: its path, the names of its files and links, and that of its last subfolder.
#[derive(Drop)]
pub(crate) struct Open {
    path: Text,
    leaves: List<Text>,
    folder: Option<Text>,
}

/// The folders at the start: the top one alone.
pub(crate) fn top(alloc: Global) -> Result<Vec<Open>, Memory>
    ensures { IfOk result (λ folders. folders.items ≡ fresh [] ∷ []) }
{
    let mut folders = Vec::new(alloc);
    push(&mut folders, opened(alloc, Text::new(alloc)))?;
    Ok(folders)
}

/// The folder at this path, whose lines are still to come.
fn opened(alloc: Global, path: Text) -> Open
    ensures { result ≡ fresh path }
{
    Open {
        path,
        leaves: List::new(alloc),
        folder: None,
    }
}

/// Goes on by one entry. Answers its whole path, or None where it may not stand here.
pub(crate) fn step(
    alloc: Global,
    folders: &mut Vec<Open>,
    entry: &Entry,
) -> Result<Option<Text>, Memory>
    requires { all_rise (reverse folders.old.items) ≡ true }
    ensures { IfOk result (λ path. Takes entry.now (reverse folders.old.items) path (reverse folders.new.items)) }
{
    match entry {
        Entry::File { name, .. } => add_leaf(alloc, folders, name.as_str()),
        Entry::Link { name, .. } => add_leaf(alloc, folders, name.as_str()),
        Entry::Folder { parent, name } => enter(alloc, folders, parent.as_slice(), name.as_str()),
    }
}

/// One more file or link of the innermost folder.
fn add_leaf(alloc: Global, folders: &mut Vec<Open>, name: &str) -> Result<Option<Text>, Memory>
    requires { all_rise (reverse folders.old.items) ≡ true }
    ensures { IfOk result (λ path. TakesLeaf name.now (reverse folders.old.items) path (reverse folders.new.items)) }
{
    let Some(here) = folders.pop() else {
        return Ok(None);
    };
    if here.folder.is_some() || !comes_last(here.leaves.as_slice(), name) {
        return Ok(None);
    }
    let path = joined(alloc, here.path.as_str(), name)?;
    let Open {
        path: outer,
        mut leaves,
        folder,
    } = here;
    leaves.push(Text::from_str(alloc, name)?)?;
    push(
        folders,
        Open {
            path: outer,
            leaves,
            folder,
        },
    )?;
    Ok(Some(path))
}

/// A subfolder of the open folder at this path; those in that one are closed.
fn enter(
    alloc: Global,
    folders: &mut Vec<Open>,
    parent: &[u8],
    name: &str,
) -> Result<Option<Text>, Memory>
    requires { all_rise (reverse folders.old.items) ≡ true }
    ensures { IfOk result (λ path. TakesFolder parent.now name.now (reverse folders.old.items) path (reverse folders.new.items)) }
{
    let Some(here) = back(folders, parent) else {
        return Ok(None);
    };
    if !is_above(&here.folder, name) || has_name(here.leaves.as_slice(), name) {
        return Ok(None);
    }
    let path = joined(alloc, here.path.as_str(), name)?;
    let Open {
        path: outer,
        leaves,
        ..
    } = here;
    let folder = Some(Text::from_str(alloc, name)?);
    push(
        folders,
        Open {
            path: outer,
            leaves,
            folder,
        },
    )?;
    push(folders, opened(alloc, path.copy(alloc)?))?;
    Ok(Some(path))
}

/// Takes out the open folder at this path, and those in it.
fn back(folders: &mut Vec<Open>, path: &[u8]) -> Option<Open>
    ensures { back path.now (reverse folders.old.items) ≡ option_map (λ c. (c, reverse folders.new.items)) result }
{
    while let Some(here) = folders.pop() {
        if here.path.as_str().as_bytes() == path {
            return Some(here);
        }
    }
    None
}

/// Whether a name stands behind all of these, which rise.
fn comes_last(names: &[Text], name: &str) -> bool
    requires { rises names.now ≡ true }
    ensures { result ≡ all_before names.now name.now }
{
    match names {
        [] => true,
        [.., last] => last.as_str() < name,
    }
}

/// Whether a name stands behind that of the last subfolder.
fn is_above(folder: &Option<Text>, name: &str) -> bool
    ensures { result ≡ is_above folder.now name.now }
{
    match folder {
        None => true,
        Some(last) => last.as_str() < name,
    }
}

/// Whether a name is one of these, which rise.
fn has_name(names: &[Text], name: &str) -> bool
    requires { rises names.now ≡ true }
    ensures { result ≡ list_any (λ m. bytes_eq m name.now) names.now }
{
    names.binary_search_by(|one| one.as_str().cmp(name)).is_ok()
}

/// Opens a folder.
fn push(folders: &mut Vec<Open>, folder: Open) -> Result<(), Memory>
    ensures { OnOk result (folders.new.items ≡ folders.old.items ++ folder ∷ []) }
{
    folders.push(folder)?;
    Ok(())
}
