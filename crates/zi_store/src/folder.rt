//! A folder on a shelf, read with all in it.

ghost use Rattle.std.specs.Prelude.{◌≡◌, ◌≤◌, ◌+◌, ◌++◌, ◌∷◌, [], ◌&&◌, Err, true, Bool, OnOk, IfOk, Some, None, if◌then◌else◌};
ghost use Rattle.zi_tree.specs.Dir.{Dir};
ghost use Rattle.zi_tree.specs.Order.{is_tree, is_plain};
ghost use Rattle.zi_tree.specs.Paths.{items, node_in, replaced, changed, found};
ghost use Rattle.zi_tree.specs.Views.{dir, node_is_tree};
ghost use Rattle.zi_tree.specs.declared.tree.TreeNode.{TreeNode as Node};
ghost use Rattle.zi_tree.specs.declared.tree.TreeNode.TheVariants.{Folder};
ghost use Rattle.zi_text.specs.Count.{Rose};
ghost use Rattle.zi_manifest.specs.Walk.{shown};
ghost use Rattle.zi_store.specs.Keeping.{Keeps, is_reading};
ghost use Rattle.zi_store.specs.Standing.{Stands, IsListed};
ghost use Rattle.zi_store.specs.Walking.{met};
ghost use Rattle.zi_store.specs.Entries.{entries_of, bare, inner_met, is_empty_folder, Walks};

use crate::counts::Counts;
use crate::leaves::read_leaves;
use crate::listings::{is_folder, listing};
use crate::stop::Stop;
use std::alloc::Global;
use zi_shelf::{Entry, Shelf, ShelfFault};
use zi_text::Memory;
use zi_tree::{RelPath, Tree, TreeNode};

/// The tree of a folder that is so deep and has these entries, with all in it, each counted.
#[cycle(folders)]
pub(crate) fn read_folder<K: Shelf>(
    alloc: Global,
    top: &str,
    path: &RelPath,
    depth: u64,
    entries: &[Entry],
    counts: &mut Counts,
    k: &mut K,
) -> Result<Tree, Stop>
    requires { depth ≤ 64 }
    ensures walks { (whole : Bool) (d : Dir) → Stands ((K.seen k.old).honest) ((K.seen k.old).told) top.now path.now d → is_tree d ≡ true → entries.now ≡ entries_of (shown whole d) → Walks (shown whole d) (met depth (shown whole d)) counts.old.nodes counts.old.bytes result counts.new.nodes counts.new.bytes }
    ensures keeps { Keeps is_reading (K.seen k.old) (K.seen k.new) }
    ensures cause { result ≡ Err (Stop.Fault ShelfFault.Failed) → Rose ((K.seen k.old).faults) ((K.seen k.new).faults) }
    ensures count { (result ≡ Err (Stop.Fault ShelfFault.Failed) → ⊥) → (K.seen k.new).faults ≡ (K.seen k.old).faults }
    ensures sure { (K.seen k.old).sure → (whole : Bool) (d : Dir) → Stands ((K.seen k.old).honest) ((K.seen k.old).told) top.now path.now d → is_tree d ≡ true → entries.now ≡ entries_of (shown whole d) → result ≡ Err (Stop.Fault ShelfFault.Failed) → ⊥ }
{
    let mut tree = read_leaves(alloc, top, path, entries, counts, k)?;
    for entry in entries {
        read_inner(alloc, top, path, depth, entry, counts, &mut tree, k)?;
    }
    Ok(tree)
}

/// Reads a subfolder into the tree of the folder that it lies in, in the place of an empty one. A file or link is in that
/// tree already. An entry whose text is no name or whose name was taken, which no honest shelf gives, is passed over.
#[cycle(folders)]
fn read_inner<K: Shelf>(
    alloc: Global,
    top: &str,
    path: &RelPath,
    depth: u64,
    entry: &Entry,
    counts: &mut Counts,
    tree: &mut Tree,
    k: &mut K,
) -> Result<(), Stop>
    requires { depth ≤ 64 }
    ensures walks { (x : Node) → IsListed ((K.seen k.old).honest) ((K.seen k.old).told) top.now path.now entry.now x → node_is_tree x ≡ true → node_in entry.now.name (items tree.old) ≡ Some (bare x) → Walks tt (inner_met depth x) counts.old.nodes counts.old.bytes result counts.new.nodes counts.new.bytes }
    ensures tree { (x : Node) → IsListed ((K.seen k.old).honest) ((K.seen k.old).told) top.now path.now entry.now x → node_is_tree x ≡ true → node_in entry.now.name (items tree.old) ≡ Some (bare x) → OnOk result (tree.new ≡ dir (replaced entry.now.name x (items tree.old))) }
    ensures keeps { Keeps is_reading (K.seen k.old) (K.seen k.new) }
    ensures cause { result ≡ Err (Stop.Fault ShelfFault.Failed) → Rose ((K.seen k.old).faults) ((K.seen k.new).faults) }
    ensures count { (result ≡ Err (Stop.Fault ShelfFault.Failed) → ⊥) → (K.seen k.new).faults ≡ (K.seen k.old).faults }
    ensures sure { (K.seen k.old).sure → (x : Node) → IsListed ((K.seen k.old).honest) ((K.seen k.old).told) top.now path.now entry.now x → node_is_tree x ≡ true → result ≡ Err (Stop.Fault ShelfFault.Failed) → ⊥ }
{
    if !is_folder(entry) {
        return Ok(());
    }
    let name = entry.name.as_str();
    let Some(within) = empty_place(alloc, tree, name)? else {
        return Ok(());
    };
    let Some(place) = path.child(alloc, name)? else {
        return Ok(());
    };
    let inside = read_deeper(alloc, top, &place, depth + 1, counts, k)?;
    put_folder(tree, &within, inside);
    Ok(())
}

/// The tree of a folder that is so deep, with all in it, each counted; the folder itself is counted first.
#[cycle(folders)]
fn read_deeper<K: Shelf>(
    alloc: Global,
    top: &str,
    path: &RelPath,
    depth: u64,
    counts: &mut Counts,
    k: &mut K,
) -> Result<Tree, Stop>
    requires { depth ≤ 65 }
    ensures walks { (inside : Dir) → Stands ((K.seen k.old).honest) ((K.seen k.old).told) top.now path.now inside → is_tree inside ≡ true → Walks inside (record { depth = depth; size = 0 } ∷ met depth inside) counts.old.nodes counts.old.bytes result counts.new.nodes counts.new.bytes }
    ensures keeps { Keeps is_reading (K.seen k.old) (K.seen k.new) }
    ensures cause { result ≡ Err (Stop.Fault ShelfFault.Failed) → Rose ((K.seen k.old).faults) ((K.seen k.new).faults) }
    ensures count { (result ≡ Err (Stop.Fault ShelfFault.Failed) → ⊥) → (K.seen k.new).faults ≡ (K.seen k.old).faults }
    ensures sure { (K.seen k.old).sure → (inside : Dir) → Stands ((K.seen k.old).honest) ((K.seen k.old).told) top.now path.now inside → is_tree inside ≡ true → result ≡ Err (Stop.Fault ShelfFault.Failed) → ⊥ }
{
    counts.folder(depth)?;
    let entries = listing(top, path, false, k)?;
    read_folder(alloc, top, path, depth, entries.as_slice(), counts, k)
}

/// The path of a name in the top folder of a tree. None where the text is no name, and where no empty folder stands there.
fn empty_place(alloc: Global, tree: &Tree, name: &str) -> Result<Option<RelPath>, Memory>
    ensures { IfOk result (λ place. place ≡ (if is_plain name.now && is_empty_folder (node_in name.now (items tree.now)) then Some (name.now ∷ []) else None)) }
{
    match RelPath::root(alloc).child(alloc, name)? {
        Some(place) if is_empty_folder(tree, &place) => Ok(Some(place)),
        _ => Ok(None),
    }
}

/// Whether an empty folder stands at a path.
fn is_empty_folder(tree: &Tree, place: &RelPath) -> bool
    ensures { result ≡ is_empty_folder (found place.now tree.now) }
{
    match tree.find(place) {
        Some(TreeNode::Folder(inside)) => inside.len() == 0,
        _ => false,
    }
}

/// Puts a folder in the place of what stands at a path.
fn put_folder(tree: &mut Tree, place: &RelPath, inside: Tree)
    ensures { tree.new ≡ changed place.now (Folder inside) tree.old }
{
    let mut node = TreeNode::Folder(inside);
    tree.exchange(place, &mut node);
}
