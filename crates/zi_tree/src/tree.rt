//! A tree, what stands in it, and how it is dropped.

ghost use Rattle.std.specs.Prelude.{◌≡◌, ◌<◌, ◌≤◌, ◌+◌, true, length, option_copied, IfSome};
ghost use Rattle.zi_tree.specs.Dir.{Nothing};
ghost use Rattle.zi_tree.specs.Views.{node_is_tree, dir_of};
ghost use Rattle.zi_tree.specs.Paths.{items, name_in, node_of, node_in, found, holder, has_room};
ghost use Rattle.zi_tree.specs.Order.{is_tree};

use crate::apart::drop_entries;
use crate::path::RelPath;
use crate::search::find_entry;
use std::alloc::Global;
use std::marker::Model;
use zi_text::{Bytes, Text};

/// What stands under a name.
#[cycle(tree)]
#[derive(Drop)]
pub enum TreeNode {
    /// A file: its bytes, whether it is executable, and its time of last change in whole seconds since 1970.
    File {
        bytes: Bytes,
        exec: bool,
        mtime: i64,
    },
    /// A symbolic link, and the text that it holds.
    Link {
        target: Text,
    },
    /// A folder with all in it.
    Folder(Tree),
}

/// A name with what stands under it.
#[cycle(tree)]
#[derive(Drop)]
pub(crate) struct Entry {
    pub(crate) name: Text,
    pub(crate) node: TreeNode,
}

/// A folder tree: a finite map from names to files, links and trees. Each name is a text that isn't empty, `.` or `..`
/// and has no `/` and no NUL.
#[cycle(tree)]
pub struct Tree {
    pub(crate) entries: Vec<Entry>,
}

impl Model for Tree {
    ghost use Rattle.zi_tree.specs.Dir.{Dir, dir_code, size_of};

    ghost Value = { Dir };

    ghost coded = { dir_code };

    ghost use Rattle.zi_tree.specs.Views.{dir_of};

    ghost view = { λ t. dir_of t.entries.items };

    ghost use Rattle.std.specs.Prelude.{◌≡◌, true};
    ghost use Rattle.zi_tree.specs.Order.{is_tree};

    ghost invariant = { λ t. is_tree (dir_of t.entries.items) ≡ true };

    ghost size = { size_of };

    ghost use Rattle.std.proofs.Common.{arith};
    ghost use Rattle.zi_tree.specs.Falls.{most_le-size_of};

    ghost size_decreases = { λ a h. omega (arith, most_le-size_of a.entries.items) };
}

impl Drop for Tree {
    fn drop(self) {
        let Tree { entries } = self;
        drop_entries(entries);
    }
}

impl Tree {
    /// The empty tree, which grows by this allocator.
    pub fn new(alloc: Global) -> Tree
        ensures { result ≡ Nothing }
    {
        Tree {
            entries: Vec::new(alloc),
        }
    }

    /// The number of names in the top folder.
    pub fn len(&self) -> usize
        ensures { result ≡ length (items self.now) }
    {
        self.entries.as_slice().len()
    }

    /// The name at a place below the length, in byte order.
    pub fn name_at(&self, i: usize) -> &Text
        requires { i < length (items self.now) }
        ensures { name_in (items self.now) i ≡ Some result.now }
    {
        let entries = self.entries.as_slice();
        &entries[i].name
    }

    /// What stands under the name at a place below the length.
    pub fn node_at(&self, i: usize) -> &TreeNode
        requires { i < length (items self.now) }
        ensures { node_of (items self.now) i ≡ Some result.now }
    {
        let entries = self.entries.as_slice();
        &entries[i].node
    }

    /// What every tree keeps, for a caller's proof: its names are names, and rise strictly in each folder.
    pub fn is_whole(&self)
        ensures { is_tree self.now ≡ true }
    {
        let _entries = self.entries.as_slice();
    }

    /// Its entries, moved out.
    pub(crate) fn into_entries(self) -> Vec<Entry>
        ensures { dir_of result.items ≡ self }
    {
        let Tree { entries } = self;
        entries
    }

    /// What stands at a path. None exactly where nothing does; the empty path leads to nothing. It takes no memory.
    pub fn find(&self, path: &RelPath) -> Option<&TreeNode>
        ensures { option_copied result ≡ found path.now self.now }
    {
        let parts = path.parts().as_slice();
        let [.., name] = parts else {
            return None;
        };
        match self.holder(parts) {
            Some(folder) => folder.node(name.as_str()),
            None => None,
        }
    }

    /// Whether a new entry has room at a path: the folder that is to hold it is there, and the name in it is free. There is
    /// none at the empty path. It takes no memory.
    pub fn has_room(&self, path: &RelPath) -> bool
        ensures { result ≡ has_room path.now self.now }
    {
        let parts = path.parts().as_slice();
        let [.., name] = parts else {
            return false;
        };
        match self.holder(parts) {
            Some(folder) => folder.node(name.as_str()).is_none(),
            None => false,
        }
    }

    /// The folder that is to hold the entry at a path, if it is there.
    fn holder(&self, parts: &[Text]) -> Option<&Tree>
        requires { 1 ≤ length parts.now }
        ensures { option_copied result ≡ holder parts.now self.now }
    {
        let mut here = self;
        let mut depth = 0;
        while depth + 1 < parts.len() {
            match here.node(parts[depth].as_str()) {
                Some(TreeNode::Folder(inside)) => here = inside,
                _ => return None,
            }
            depth += 1;
        }
        Some(here)
    }

    /// What stands under a name of the top folder.
    pub(crate) fn node(&self, name: &str) -> Option<&TreeNode>
        ensures { option_copied result ≡ node_in name.now (items self.now) }
    {
        match find_entry(self.entries.as_slice(), name) {
            Ok(i) => Some(&self.entries[i].node),
            Err(_) => None,
        }
    }
}
