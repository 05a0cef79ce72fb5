//! A tree taken apart without a call for each level of folders, and without memory.
//!
//! A folder that is entered leaves its place in the list free: what is left above goes there, so the folders on the way
//! hang one in another, each at the last place of the one below.

ghost use Rattle.std.specs.Prelude.{◌≡◌, ◌≤◌, ◌+◌, true, option_map};
ghost use Rattle.zi_tree.specs.Dir.{size_of};
ghost use Rattle.zi_tree.specs.Views.{dir_of, inside_of};
ghost use Rattle.zi_tree.specs.Order.{is_tree};

use crate::tree::{Entry, Tree, TreeNode};

/// Drops all entries of a tree.
pub(crate) fn drop_entries(entries: Vec<Entry>)
    requires { is_tree (dir_of entries.items) ≡ true }
{
    let none = Vec::new(*entries.allocator());
    let mut left = down(none, entries);
    while let Some(Entry { name, node }) = left.pop() {
        drop(name);
        match folder(node) {
            None => {}
            Some(above) => left = down(above, left),
        }
    }
    left.destroy_empty();
}

/// Goes down the last folder of the last folder and so on, dropping the files, links and empty folders that come after it,
/// and hangs what is left of each folder, and at the top `above`, into the one below. What is left of the lowest one.
fn down(mut above: Vec<Entry>, mut here: Vec<Entry>) -> Vec<Entry>
    requires above { is_tree (dir_of above.items) ≡ true }
    requires here { is_tree (dir_of here.items) ≡ true }
    ensures whole { is_tree (dir_of result.items) ≡ true }
    ensures size { size_of (dir_of result.items) ≤ size_of (dir_of above.items) + size_of (dir_of here.items) }
{
    while let Some(Entry { name, node }) = here.pop() {
        match folder(node) {
            None => drop(name),
            Some(inside) => {
                let node = TreeNode::Folder(Tree { entries: above });
                match here.push(Entry { name, node }) {
                    Ok(()) => {}
                    Err(_) => unreachable!(),
                }
                above = here;
                here = inside;
            }
        }
    }
    here.destroy_empty();
    above
}

/// The entries of a folder; a file or a link is dropped.
fn folder(node: TreeNode) -> Option<Vec<Entry>>
    ensures { option_map (λ v. dir_of v.items) result ≡ inside_of node }
{
    match node {
        TreeNode::Folder(tree) => Some(tree.into_entries()),
        TreeNode::File { bytes, .. } => {
            drop(bytes);
            None
        }
        TreeNode::Link { target } => {
            drop(target);
            None
        }
    }
}
