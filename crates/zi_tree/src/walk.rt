//! All nodes of a tree in the order of its manifest, found with the folders that are to be entered in a list.

ghost use Rattle.std.specs.Prelude.{◌≡◌, ◌<◌, ◌+◌, ◌++◌, length, IfOk, OnOk};
ghost use Rattle.zi_tree.specs.Views.{entry_of};
ghost use Rattle.zi_tree.specs.Paths.{items, after};
ghost use Rattle.zi_tree.specs.Walk.{leaf_places, folder_places, places, spot_of, spots};
ghost use Rattle.zi_tree.specs.Waiting.{leaf_at, folder_at, waiting_places};

use crate::path::RelPath;
use crate::place::Place;
use crate::tree::{Tree, TreeNode};
use std::alloc::Global;
use zi_inherited::Shared;
use zi_text::Memory;

/// A folder that is to be entered: its place, its own path, and the tree in it.
#[derive(Drop)]
struct Waiting<'a> {
    place: Place<'a>,
    path: Shared<RelPath>,
    inside: &'a Tree,
}

/// All nodes of a tree, at every depth, in the order of its manifest: in byte order of names a folder's files and links,
/// then each subfolder followed by all in it. Memory is the one refusal. It is taken in proportion to the nodes, and for one
/// path a folder.
pub fn places<'a>(alloc: Global, tree: &'a Tree) -> Result<Vec<Place<'a>>, Memory>
    ensures { IfOk result (λ found. spots found.items ≡ places tree.now) }
{
    let top = Shared::new(alloc, RelPath::root(alloc))?;
    let mut found = Vec::new(alloc);
    let mut waiting = Vec::new(alloc);
    enter(alloc, &top, tree, &mut found, &mut waiting)?;
    while let Some(folder) = waiting.pop() {
        let Waiting {
            place,
            path,
            inside,
        } = folder;
        found.push(place)?;
        enter(alloc, &path, inside, &mut found, &mut waiting)?;
    }
    Ok(found)
}

/// Enters the folder at this path: its files and links are found, its subfolders wait.
fn enter<'a>(
    alloc: Global,
    path: &Shared<RelPath>,
    tree: &'a Tree,
    found: &mut Vec<Place<'a>>,
    waiting: &mut Vec<Waiting<'a>>,
) -> Result<(), Memory>
    ensures found { OnOk result (spots found.new.items ≡ spots found.old.items ++ leaf_places path.now tree.now) }
    ensures waiting { OnOk result (waiting_places waiting.new.items ≡ folder_places path.now tree.now ++ waiting_places waiting.old.items) }
{
    find_leaves(path, tree, found)?;
    leave_folders(alloc, path, tree, waiting)?;
    Ok(())
}

/// Finds the files and links of the folder at this path.
fn find_leaves<'a>(
    path: &Shared<RelPath>,
    tree: &'a Tree,
    found: &mut Vec<Place<'a>>,
) -> Result<(), Memory>
    ensures { OnOk result (spots found.new.items ≡ spots found.old.items ++ leaf_places path.now tree.now) }
{
    for i in 0..tree.len() {
        find_leaf(found, place_at(path, tree, i)?)?;
    }
    Ok(())
}

/// Finds what stands at a place, if it is a file or a link.
fn find_leaf<'a>(found: &mut Vec<Place<'a>>, place: Place<'a>) -> Result<(), Memory>
    ensures { OnOk result (spots found.new.items ≡ spots found.old.items ++ leaf_at (spot_of place.entry)) }
{
    if let TreeNode::Folder(_) = place.node {
        return Ok(());
    }
    found.push(place)?;
    Ok(())
}

/// Lets the subfolders of the folder at this path wait, the first one last.
fn leave_folders<'a>(
    alloc: Global,
    path: &Shared<RelPath>,
    tree: &'a Tree,
    waiting: &mut Vec<Waiting<'a>>,
) -> Result<(), Memory>
    ensures { OnOk result (waiting_places waiting.new.items ≡ folder_places path.now tree.now ++ waiting_places waiting.old.items) }
{
    let mut left = tree.len();
    while left > 0 {
        left -= 1;
        leave_folder(alloc, waiting, place_at(path, tree, left)?)?;
    }
    Ok(())
}

/// Lets what stands at a place wait, if it is a folder.
fn leave_folder<'a>(
    alloc: Global,
    waiting: &mut Vec<Waiting<'a>>,
    place: Place<'a>,
) -> Result<(), Memory>
    ensures { OnOk result (waiting_places waiting.new.items ≡ folder_at (spot_of place.entry) ++ waiting_places waiting.old.items) }
{
    if let TreeNode::Folder(inside) = place.node {
        let path = Shared::new(alloc, place.path(alloc)?)?;
        waiting.push(Waiting {
            place,
            path,
            inside,
        })?;
    }
    Ok(())
}

/// The place of an entry of the folder at this path.
fn place_at<'a>(path: &Shared<RelPath>, tree: &'a Tree, i: usize) -> Result<Place<'a>, Memory>
    requires { i < length (items tree.now) }
    ensures folder { IfOk result (λ p. p.folder ≡ path.now) }
    ensures entry { IfOk result (λ p. after i tree.now ≡ entry_of p.name.now p.node.now (after (i + 1) tree.now)) }
{
    tree.is_whole();
    let folder = path.share()?;
    let name = tree.name_at(i);
    let node = tree.node_at(i);
    Ok(Place { folder, name, node })
}
