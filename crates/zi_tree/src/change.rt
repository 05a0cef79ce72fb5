//! Putting a node into a tree, and taking one out.

ghost use Rattle.std.specs.Prelude.{◌≡◌, ◌∷◌, [], true, false, Some, None, Err, OnOk, OnErr, IfOk, is_some};
ghost use Rattle.std.specs.List.{list_all};
ghost use Rattle.zi_tree.specs.Dir.{Nothing};
ghost use Rattle.zi_tree.specs.Views.{dir, node_is_tree};
ghost use Rattle.zi_tree.specs.Paths.{items, node_in, placed, found, inserted, removed, changed, nested};
ghost use Rattle.zi_tree.specs.Order.{is_name};
ghost use Rattle.zi_tree.specs.Ways.{IsStopped};

use crate::path::RelPath;
use crate::search::find_entry;
use crate::tree::{Entry, Tree, TreeNode};
use crate::way::{go_down, go_up};
use std::alloc::Global;
use std::mem;
use thiserror::Error;
use zi_text::{Memory, Text};

/// Why nothing was put into a tree.
#[derive(Clone, Copy, Debug, PartialEq, Eq, Error)]
pub enum InsertFault {
    /// Something stands at the path already, a part of the way is no folder, or the path is empty.
    #[error("something stands there already")]
    Overlap,
    /// Memory was refused.
    #[error("out of memory")]
    Memory,
}

/// What a tree has too much of, where trees are limited.
#[derive(Clone, Copy, Debug, PartialEq, Eq)]
pub enum TreeLimit {
    /// The bytes of its files.
    Size,
    /// The files, links and folders in it.
    Nodes,
    /// Folders one in another.
    Depth,
}

impl Tree {
    /// Puts a node at a path, in folders that are made where they are missing.
    ///
    /// Overlap comes where something stands there already, where a part of the way is no folder, and for the empty path.
    /// A refused call leaves the tree as it was, and drops the node.
    pub fn insert(
        &mut self,
        alloc: Global,
        path: &RelPath,
        node: TreeNode,
    ) -> Result<(), InsertFault>
        ensures ok { OnOk result (inserted path.now node self.old ≡ Some self.new) }
        ensures overlap { result ≡ Err InsertFault.Overlap → inserted path.now node self.old ≡ None }
        ensures err { OnErr result (self.new ≡ self.old) }
    {
        let parts = path.parts().as_slice();
        let mut above = Tree::new(alloc);
        let depth = go_down(&mut above, self, parts);
        let (way, rest) = parts.split_at(depth);
        let done = put(alloc, self, rest, node);
        go_up(&mut above, self, way);
        done
    }

    /// Takes out what stands at a path. None exactly where nothing does, and then the tree is as before; folders that it
    /// leaves empty stay. It takes no memory.
    pub fn take(&mut self, path: &RelPath) -> Option<TreeNode>
        ensures taken { result ≡ found path.now self.old }
        ensures rest { self.new ≡ removed path.now self.old }
        ensures none { result ≡ None → self.new ≡ self.old }
    {
        let parts = path.parts().as_slice();
        let mut above = empty_like(self);
        let depth = go_down(&mut above, self, parts);
        let (way, rest) = parts.split_at(depth);
        let taken = take_out(self, rest);
        go_up(&mut above, self, way);
        taken
    }

    /// Exchanges what stands at a path with a node. False exactly where nothing stands there, and then both are as before.
    /// It takes no memory.
    pub fn exchange(&mut self, path: &RelPath, node: &mut TreeNode) -> bool
        ensures there { result ≡ true → found path.now self.old ≡ Some node.new }
        ensures after { self.new ≡ changed path.now node.old self.old }
        ensures none { result ≡ false → found path.now self.old ≡ None }
        ensures same { result ≡ false → (self.new ≡ self.old) × (node.new ≡ node.old) }
    {
        let parts = path.parts().as_slice();
        let mut above = empty_like(self);
        let depth = go_down(&mut above, self, parts);
        let (way, rest) = parts.split_at(depth);
        let exchanged = exchange_at(self, rest, node);
        go_up(&mut above, self, way);
        exchanged
    }

    /// Whether something stands under a name of the top folder.
    fn has(&self, name: &str) -> bool
        ensures { result ≡ is_some (node_in name.now (items self.now)) }
    {
        self.node(name).is_some()
    }
}

/// An empty tree with the allocator of this one.
fn empty_like(tree: &Tree) -> Tree
    ensures { result ≡ Nothing }
{
    Tree {
        entries: Vec::new(*tree.entries.allocator()),
    }
}

/// Puts a node at the rest of a path, whose first part leads to no folder unless it is the last.
fn put(alloc: Global, tree: &mut Tree, rest: &[Text], node: TreeNode) -> Result<(), InsertFault>
    requires stopped { IsStopped rest.now tree.old }
    requires names { list_all is_name rest.now ≡ true }
    ensures ok { OnOk result (inserted rest.now node tree.old ≡ Some tree.new) }
    ensures overlap { result ≡ Err InsertFault.Overlap → inserted rest.now node tree.old ≡ None }
    ensures err { OnErr result (tree.new ≡ tree.old) }
{
    let [name, more @ ..] = rest else {
        return Err(InsertFault::Overlap);
    };
    if tree.has(name.as_str()) {
        return Err(InsertFault::Overlap);
    }
    let Ok(made) = nest(alloc, more, node) else {
        return Err(InsertFault::Memory);
    };
    let Ok(copy) = name.copy(alloc) else {
        return Err(InsertFault::Memory);
    };
    match put_under(tree, copy, made) {
        Ok(()) => Ok(()),
        Err(_) => Err(InsertFault::Memory),
    }
}

/// Puts a node under a name that is free.
fn put_under(tree: &mut Tree, name: Text, node: TreeNode) -> Result<(), Memory>
    requires free { node_in name (items tree.old) ≡ None }
    requires name { is_name name ≡ true }
    ensures ok { OnOk result (tree.new ≡ dir (placed name node (items tree.old))) }
    ensures err { OnErr result (tree.new ≡ tree.old) }
{
    whole_node(&node);
    let Err(i) = find_entry(tree.entries.as_slice(), name.as_str()) else {
        return Err(Memory);
    };
    let Ok(()) = tree.entries.insert(i, Entry { name, node }) else {
        return Err(Memory);
    };
    Ok(())
}

/// The node in new folders of these names, one in another.
fn nest(alloc: Global, names: &[Text], node: TreeNode) -> Result<TreeNode, Memory>
    requires { list_all is_name names.now ≡ true }
    ensures { IfOk result (λ x. x ≡ nested names.now node) }
{
    let mut made = node;
    let mut left = names.len();
    while left > 0 {
        left -= 1;
        let name = names[left].copy(alloc)?;
        let mut folder = Tree::new(alloc);
        put_under(&mut folder, name, made)?;
        made = TreeNode::Folder(folder);
    }
    Ok(made)
}

/// Takes out what stands at the rest of a path, whose first part leads to no folder unless it is the last.
fn take_out(tree: &mut Tree, rest: &[Text]) -> Option<TreeNode>
    requires { IsStopped rest.now tree.old }
    ensures taken { result ≡ found rest.now tree.old }
    ensures left { tree.new ≡ removed rest.now tree.old }
{
    let [name] = rest else {
        return None;
    };
    match find_entry(tree.entries.as_slice(), name.as_str()) {
        Ok(i) => {
            let Entry { name, node } = tree.entries.remove(i);
            drop(name);
            Some(node)
        }
        Err(_) => None,
    }
}

/// Exchanges what stands at the rest of a path with a node; the rest's first part leads to no folder unless it is the last.
fn exchange_at(tree: &mut Tree, rest: &[Text], node: &mut TreeNode) -> bool
    requires { IsStopped rest.now tree.old }
    ensures there { result ≡ true → found rest.now tree.old ≡ Some node.new }
    ensures after { tree.new ≡ changed rest.now node.old tree.old }
    ensures none { result ≡ false → found rest.now tree.old ≡ None }
    ensures same { result ≡ false → (tree.new ≡ tree.old) × (node.new ≡ node.old) }
{
    let [name] = rest else {
        return false;
    };
    match find_entry(tree.entries.as_slice(), name.as_str()) {
        Ok(i) => {
            whole_node(node);
            mem::swap(&mut tree.entries[i].node, node);
            true
        }
        Err(_) => false,
    }
}

/// What every node keeps, for a caller's proof.
fn whole_node(node: &TreeNode)
    ensures { node_is_tree node.now ≡ true }
{
    if let TreeNode::Folder(inside) = node {
        inside.is_whole();
    }
}
