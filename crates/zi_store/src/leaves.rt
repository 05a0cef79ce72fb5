//! The files and links of a folder on a shelf, read into a tree whose folders are empty as yet.

ghost use Rattle.std.specs.Prelude.{◌≡◌, ◌<◌, ◌++◌, ◌∷◌, [], ◌&&◌, Err, true, Bool, ℕ, ℤ, List, length, OnOk, IfOk, None, Some, is_none, if◌then◌else◌};
ghost use Rattle.zi_tree.specs.Dir.{Dir};
ghost use Rattle.zi_tree.specs.Order.{is_tree, is_plain};
ghost use Rattle.zi_tree.specs.Paths.{items, node_in, placed};
ghost use Rattle.zi_tree.specs.Views.{dir};
ghost use Rattle.zi_tree.specs.declared.tree.TreeNode.{TreeNode as Node};
ghost use Rattle.zi_tree.specs.declared.tree.TreeNode.TheVariants.{File};
ghost use Rattle.zi_text.specs.Count.{Rose};
ghost use Rattle.zi_shelf.specs.Reading.{kind_of};
ghost use Rattle.zi_manifest.specs.Walk.{shown};
ghost use Rattle.zi_store.specs.Keeping.{Keeps, is_reading};
ghost use Rattle.zi_store.specs.Standing.{Stands, StandsNode, IsListed};
ghost use Rattle.zi_store.specs.Walking.{leaves_met};
ghost use Rattle.zi_store.specs.Entries.{entries_of, emptied, bare, leaf_met, Walks};

use crate::bytes::read_bytes;
use crate::calls::ask_target;
use crate::counts::Counts;
use crate::stop::Stop;
use std::alloc::Global;
use zi_shelf::{Entry, EntryKind, Shelf, ShelfFault};
use zi_text::{Bytes, Memory};
use zi_tree::{InsertFault, RelPath, SIZE_LIMIT, Tree, TreeLimit, TreeNode};

/// The tree of a folder's entries with its files and links, each counted, and with its subfolders empty.
pub(crate) fn read_leaves<K: Shelf>(
    alloc: Global,
    top: &str,
    path: &RelPath,
    entries: &[Entry],
    counts: &mut Counts,
    k: &mut K,
) -> Result<Tree, Stop>
    ensures walks { (whole : Bool) (d : Dir) → Stands ((K.seen k.old).honest) ((K.seen k.old).told) top.now path.now d → is_tree d ≡ true → entries.now ≡ entries_of (shown whole d) → Walks (emptied (shown whole d)) (leaves_met (shown whole d)) counts.old.nodes counts.old.bytes result counts.new.nodes counts.new.bytes }
    ensures keeps { Keeps is_reading (K.seen k.old) (K.seen k.new) }
    ensures cause { result ≡ Err (Stop.Fault ShelfFault.Failed) → Rose ((K.seen k.old).faults) ((K.seen k.new).faults) }
    ensures count { (result ≡ Err (Stop.Fault ShelfFault.Failed) → ⊥) → (K.seen k.new).faults ≡ (K.seen k.old).faults }
    ensures sure { (K.seen k.old).sure → (whole : Bool) (d : Dir) → Stands ((K.seen k.old).honest) ((K.seen k.old).told) top.now path.now d → is_tree d ≡ true → entries.now ≡ entries_of (shown whole d) → result ≡ Err (Stop.Fault ShelfFault.Failed) → ⊥ }
{
    let mut tree = Tree::new(alloc);
    for entry in entries {
        add_leaf(alloc, top, path, entry, counts, &mut tree, k)?;
    }
    Ok(tree)
}

/// Puts an entry into the tree of its folder: a file or link, counted, or an empty folder in the place of a folder.
/// An entry whose text is no name or whose name is taken, which no honest shelf gives, is passed over.
fn add_leaf<K: Shelf>(
    alloc: Global,
    top: &str,
    path: &RelPath,
    entry: &Entry,
    counts: &mut Counts,
    tree: &mut Tree,
    k: &mut K,
) -> Result<(), Stop>
    ensures walks { (x : Node) → IsListed ((K.seen k.old).honest) ((K.seen k.old).told) top.now path.now entry.now x → node_in entry.now.name (items tree.old) ≡ None → Walks tt (leaf_met x) counts.old.nodes counts.old.bytes result counts.new.nodes counts.new.bytes }
    ensures tree { (x : Node) → IsListed ((K.seen k.old).honest) ((K.seen k.old).told) top.now path.now entry.now x → node_in entry.now.name (items tree.old) ≡ None → OnOk result (tree.new ≡ dir (placed entry.now.name (bare x) (items tree.old))) }
    ensures keeps { Keeps is_reading (K.seen k.old) (K.seen k.new) }
    ensures cause { result ≡ Err (Stop.Fault ShelfFault.Failed) → Rose ((K.seen k.old).faults) ((K.seen k.new).faults) }
    ensures count { (result ≡ Err (Stop.Fault ShelfFault.Failed) → ⊥) → (K.seen k.new).faults ≡ (K.seen k.old).faults }
    ensures sure { (K.seen k.old).sure → (x : Node) → IsListed ((K.seen k.old).honest) ((K.seen k.old).told) top.now path.now entry.now x → result ≡ Err (Stop.Fault ShelfFault.Failed) → ⊥ }
{
    let Some(within) = free_place(alloc, tree, entry.name.as_str())? else {
        return Ok(());
    };
    let Some(place) = path.child(alloc, entry.name.as_str())? else {
        return Ok(());
    };
    let node = read_leaf(alloc, top, &place, entry.kind, counts, k)?;
    put(alloc, tree, &within, node)?;
    Ok(())
}

/// The path of a name in the top folder of a tree. None where the text is no name, and where something stands there.
fn free_place(alloc: Global, tree: &Tree, name: &str) -> Result<Option<RelPath>, Memory>
    ensures { IfOk result (λ place. place ≡ (if is_plain name.now && is_none (node_in name.now (items tree.now)) then Some (name.now ∷ []) else None)) }
{
    match RelPath::root(alloc).child(alloc, name)? {
        Some(place) if tree.has_room(&place) => Ok(Some(place)),
        _ => Ok(None),
    }
}

/// A file or link, counted, or an empty folder in the place of a folder.
fn read_leaf<K: Shelf>(
    alloc: Global,
    top: &str,
    place: &RelPath,
    kind: EntryKind,
    counts: &mut Counts,
    k: &mut K,
) -> Result<TreeNode, Stop>
    ensures walks { (x : Node) → StandsNode ((K.seen k.old).honest) ((K.seen k.old).told) top.now place.now x → kind ≡ kind_of x → Walks (bare x) (leaf_met x) counts.old.nodes counts.old.bytes result counts.new.nodes counts.new.bytes }
    ensures keeps { Keeps is_reading (K.seen k.old) (K.seen k.new) }
    ensures cause { result ≡ Err (Stop.Fault ShelfFault.Failed) → Rose ((K.seen k.old).faults) ((K.seen k.new).faults) }
    ensures count { (result ≡ Err (Stop.Fault ShelfFault.Failed) → ⊥) → (K.seen k.new).faults ≡ (K.seen k.old).faults }
    ensures sure { (K.seen k.old).sure → (x : Node) → StandsNode ((K.seen k.old).honest) ((K.seen k.old).told) top.now place.now x → kind ≡ kind_of x → result ≡ Err (Stop.Fault ShelfFault.Failed) → ⊥ }
{
    match kind {
        EntryKind::Folder => Ok(TreeNode::Folder(Tree::new(alloc))),
        EntryKind::Link => {
            counts.leaf(0)?;
            let target = ask_target(top, place, k)?;
            Ok(TreeNode::Link { target })
        }
        EntryKind::File { exec, mtime, .. } => {
            counts.room()?;
            let bytes = read_counted(alloc, top, place, counts, k)?;
            Ok(TreeNode::File { bytes, exec, mtime })
        }
    }
}

/// The bytes of a file, counted.
fn read_counted<K: Shelf>(
    alloc: Global,
    top: &str,
    path: &RelPath,
    counts: &mut Counts,
    k: &mut K,
) -> Result<Bytes, Stop>
    requires { counts.old.nodes < 100000 }
    ensures walks { (bytes : List ℕ) (exec : Bool) (mtime : ℤ) → StandsNode ((K.seen k.old).honest) ((K.seen k.old).told) top.now path.now (File bytes exec mtime) → Walks bytes (record { depth = 0; size = length bytes } ∷ []) counts.old.nodes counts.old.bytes result counts.new.nodes counts.new.bytes }
    ensures keeps { Keeps is_reading (K.seen k.old) (K.seen k.new) }
    ensures cause { result ≡ Err (Stop.Fault ShelfFault.Failed) → Rose ((K.seen k.old).faults) ((K.seen k.new).faults) }
    ensures count { (result ≡ Err (Stop.Fault ShelfFault.Failed) → ⊥) → (K.seen k.new).faults ≡ (K.seen k.old).faults }
    ensures sure { (K.seen k.old).sure → (bytes : List ℕ) (exec : Bool) (mtime : ℤ) → StandsNode ((K.seen k.old).honest) ((K.seen k.old).told) top.now path.now (File bytes exec mtime) → result ≡ Err (Stop.Fault ShelfFault.Failed) → ⊥ }
{
    let limit = SIZE_LIMIT - counts.bytes;
    match read_bytes(alloc, top, path, limit, k)? {
        None => Err(Stop::TooLarge(TreeLimit::Size)),
        Some(bytes) => {
            counts.leaf(bytes.len() as u64)?;
            Ok(bytes)
        }
    }
}

/// Puts a node at a path. Where something stands there, nothing is put.
fn put(alloc: Global, tree: &mut Tree, place: &RelPath, node: TreeNode) -> Result<(), Memory>
    ensures { (n : List ℕ) → place.now ≡ n ∷ [] → node_in n (items tree.old) ≡ None → OnOk result (tree.new ≡ dir (placed n node (items tree.old))) }
{
    match tree.insert(alloc, place, node) {
        Ok(()) => Ok(()),
        Err(InsertFault::Overlap) => Ok(()),
        Err(InsertFault::Memory) => Err(Memory),
    }
}
