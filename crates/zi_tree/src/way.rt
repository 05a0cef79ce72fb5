//! The way down a tree and back up, without memory and without a call for each level of folders.
//!
//! To enter a folder, what was above it goes into its place; on the way back each folder gets its own again.

ghost use Rattle.std.specs.Prelude.{◌≡◌, ℕ, [], ◌∷◌, ◌≤◌, List, Some, drop, reverse};
ghost use Rattle.zi_tree.specs.Dir.{Dir, Nothing};
ghost use Rattle.zi_tree.specs.declared.tree.TreeNode.TheVariants.{Folder};
ghost use Rattle.zi_tree.specs.Views.{dir};
ghost use Rattle.zi_tree.specs.Paths.{items, node_in, replaced};
ghost use Rattle.zi_tree.specs.Ways.{joined, folder_at, IsWay, Leads, IsStopped, Enters, Exchanges, Swaps};

use crate::search::find_entry;
use crate::tree::{Tree, TreeNode};
use std::mem;
use zi_text::Text;

/// Goes down the path as far as its folders are there, up to the last part but one; how many parts it went.
pub(crate) fn go_down(above: &mut Tree, here: &mut Tree, parts: &[Text]) -> usize
    requires { above.old ≡ Nothing }
    ensures leads { Leads parts.now here.old result above.new here.new }
    ensures stopped { IsStopped (drop result parts.now) here.new }
{
    let mut depth = 0;
    while depth + 1 < parts.len() {
        if !enter(above, here, parts[depth].as_str()) {
            return depth;
        }
        depth += 1;
    }
    depth
}

/// Goes back to the top.
pub(crate) fn go_up(above: &mut Tree, here: &mut Tree, way: &[Text])
    requires { IsWay (reverse way.now) above.old }
    ensures { here.new ≡ joined (reverse way.now) above.old here.old }
{
    let mut depth = way.len();
    while depth > 0 {
        depth -= 1;
        leave(above, here, way[depth].as_str());
    }
}

/// Enters the folder of this name, if there is one; whether it did.
fn enter(above: &mut Tree, here: &mut Tree, name: &str) -> bool
    ensures { Enters name.now above.old here.old result above.new here.new }
{
    let entered = exchange(here, name, above);
    if entered {
        mem::swap(above, here);
    }
    entered
}

/// Leaves the folder of this name: the folder above gets it back.
fn leave(above: &mut Tree, here: &mut Tree, name: &str)
    requires { node_in name.now (items above.old) ≡ Some (Folder (folder_at name.now above.old)) }
    ensures above { above.new ≡ folder_at name.now above.old }
    ensures here { here.new ≡ dir (replaced name.now (Folder here.old) (items above.old)) }
{
    mem::swap(above, here);
    exchange(here, name, above);
}

/// Exchanges the folder of this name with another tree; whether there is one.
fn exchange(tree: &mut Tree, name: &str, other: &mut Tree) -> bool
    ensures { Exchanges name.now other.old tree.old result tree.new other.new }
{
    match find_entry(tree.entries.as_slice(), name) {
        Ok(i) => {
            other.is_whole();
            exchange_inside(&mut tree.entries[i].node, other)
        }
        Err(_) => false,
    }
}

/// Exchanges what is in a folder with another tree; whether the node is a folder.
fn exchange_inside(node: &mut TreeNode, other: &mut Tree) -> bool
    ensures { Swaps node.old other.old result node.new other.new }
{
    match node {
        TreeNode::Folder(inside) => {
            mem::swap(inside, other);
            true
        }
        _ => false,
    }
}
