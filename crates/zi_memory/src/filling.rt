//! The calls that fill a top entry: what each does to its tree, and the one way in which they are recorded and answered.
//! A call that doesn't fit changes nothing and is a fault. One that fits takes memory alone.
//! Where memory is refused the tree is as before, and the call is taken out of the record again.

ghost use Rattle.std.specs.Prelude.{◌≡◌, ◌-◌, [], true, false, pos, Some, OnOk, OnErr, is_some, option_copied, length, take};
ghost use Rattle.zi_tree.specs.Order.{is_tree};
ghost use Rattle.zi_tree.specs.Paths.{inserted};
ghost use Rattle.zi_shelf.specs.Shelved.{Fill};
ghost use Rattle.zi_shelf.specs.Filling.{filled, Append, FinishFile};
ghost use Rattle.zi_memory.specs.Fillings.{work_at};
ghost use Rattle.zi_shelf.specs.Fillings.{is_file, grown_file, finished_file};
ghost use Rattle.zi_memory.specs.InMemory.{held_seen};
ghost use Rattle.zi_shelf.specs.Shelving.{Does};
ghost use Rattle.zi_shelf.specs.Told.{plain_reply, work_call};

use crate::held::{Held, fail, is_to_fail};
use crate::top_entry::{TopEntry, find_top};
use std::alloc::Global;
use std::mem;
use zi_shelf::{ShelfCall, ShelfFault};
use zi_text::{Bytes, List, Memory, Text};
use zi_tree::{RelPath, Tree, TreeNode};

/// What a call that fills an entry does at its path.
#[derive(Clone, Copy, Drop)]
pub enum Filling<'a> {
    /// An empty folder is made.
    MakeFolder,
    /// Bytes are added to a file, which is made where it isn't there.
    Append(&'a [u8]),
    /// A file gets its executable bit and its time of last change.
    FinishFile { exec: bool, mtime: i64 },
    /// A link with this text is made.
    MakeLink(&'a str),
}

impl Held {
    /// Does a call that fills a top entry. It is recorded as `call`.
    pub(crate) fn fill(
        &mut self,
        call: ShelfCall,
        top: &str,
        path: &RelPath,
        filling: Filling,
    ) -> Result<(), ShelfFault>
        requires { call ≡ work_call top.now (work_at path.now filling) }
        ensures { Does (held_seen self.old) (Fill top.now (work_at path.now filling.entry)) (plain_reply result) (held_seen self.new) }
    {
        if is_to_fail(self.fail.as_slice(), self.calls.as_slice().len() + 1) {
            return Err(fail(&mut self.calls, &mut self.faults, self.sure, call));
        }
        let Some(i) = find_top(self.entries.as_slice(), top) else {
            return Err(fail(&mut self.calls, &mut self.faults, self.sure, call));
        };
        if !fits(&self.entries[i].tree, path, filling) {
            return Err(fail(&mut self.calls, &mut self.faults, self.sure, call));
        }
        self.calls.push(call)?;
        if fill_entry(self.alloc, &mut self.entries[i], path, filling).is_err() {
            forget_last(self.alloc, &mut self.calls);
            return Err(ShelfFault::Memory);
        }
        Ok(())
    }
}

/// Takes the newest call out of the record, which takes no memory.
fn forget_last(alloc: Global, calls: &mut List<ShelfCall>)
    ensures { calls.new ≡ take (length calls.old - 1) calls.old }
{
    let mut left = mem::replace(calls, List::new(alloc)).into_vec();
    let _ = left.pop();
    *calls = List::from_vec(left);
}

/// Does such a call to a top entry that it fits, and takes the mark away.
fn fill_entry(
    alloc: Global,
    entry: &mut TopEntry,
    path: &RelPath,
    filling: Filling,
) -> Result<(), Memory>
    requires { is_some (filled (work_at path.now filling) entry.old.tree) ≡ true }
    ensures ok { OnOk result (filled (work_at path.now filling.entry) entry.old.tree ≡ Some entry.new.tree) }
    ensures unsettled { OnOk result (entry.new.settled ≡ false) }
    ensures name { entry.new.name ≡ entry.old.name }
    ensures err { OnErr result (entry.new ≡ entry.old) }
    ensures whole { OnOk result (is_tree entry.new.tree ≡ true) }
{
    fill_tree(alloc, &mut entry.tree, path, filling)?;
    entry.tree.is_whole();
    entry.settled = false;
    Ok(())
}

/// Whether such a call fits a tree.
fn fits(tree: &Tree, path: &RelPath, filling: Filling) -> bool
    ensures { result ≡ is_some (filled (work_at path.now filling.entry) tree.now) }
{
    match filling {
        Filling::MakeFolder => tree.has_room(path),
        Filling::MakeLink(_) => tree.has_room(path),
        Filling::Append(_) => tree.has_room(path) || is_file(tree.find(path)),
        Filling::FinishFile { .. } => is_file(tree.find(path)),
    }
}

/// Whether a file stands there.
fn is_file(node: Option<&TreeNode>) -> bool
    ensures { result ≡ is_file (option_copied node.entry) }
{
    matches!(node, Some(TreeNode::File { .. }))
}

/// Does such a call, which fits.
fn fill_tree(alloc: Global, tree: &mut Tree, path: &RelPath, filling: Filling) -> Result<(), Memory>
    requires { is_some (filled (work_at path.now filling) tree.old) ≡ true }
    ensures ok { OnOk result (filled (work_at path.now filling.entry) tree.old ≡ Some tree.new) }
    ensures err { OnErr result (tree.new ≡ tree.old) }
{
    match filling {
        Filling::MakeFolder => make(alloc, tree, path, TreeNode::Folder(Tree::new(alloc))),
        Filling::MakeLink(target) => {
            let target = Text::from_str(alloc, target)?;
            make(alloc, tree, path, TreeNode::Link { target })
        }
        Filling::Append(bytes) => append(alloc, tree, path, bytes),
        Filling::FinishFile { exec, mtime } => {
            finish(alloc, tree, path, exec, mtime);
            Ok(())
        }
    }
}

/// Makes a new entry of a tree.
fn make(alloc: Global, tree: &mut Tree, path: &RelPath, node: TreeNode) -> Result<(), Memory>
    ensures ok { OnOk result (inserted path.now node tree.old ≡ Some tree.new) }
    ensures err { OnErr result (tree.new ≡ tree.old) }
{
    match tree.insert(alloc, path, node) {
        Ok(()) => Ok(()),
        Err(_) => Err(Memory),
    }
}

/// Adds bytes to the file at a path, or makes it where there is room.
fn append(alloc: Global, tree: &mut Tree, path: &RelPath, bytes: &[u8]) -> Result<(), Memory>
    requires { is_some (filled (Append path.now bytes.now) tree.old) ≡ true }
    ensures ok { OnOk result (filled (Append path.now bytes.now) tree.old ≡ Some tree.new) }
    ensures err { OnErr result (tree.new ≡ tree.old) }
{
    let mut file = empty_file(alloc);
    let is_there = tree.exchange(path, &mut file);
    let grown = grow(&mut file, bytes);
    if is_there {
        tree.exchange(path, &mut file);
        return grown;
    }
    match grown {
        Ok(()) => make(alloc, tree, path, file),
        Err(_) => Err(Memory),
    }
}

/// Sets the executable bit and the time of last change of the file at a path.
fn finish(alloc: Global, tree: &mut Tree, path: &RelPath, exec: bool, mtime: i64)
    requires { is_some (filled (FinishFile path.now exec mtime) tree.old) ≡ true }
    ensures { filled (FinishFile path.now exec mtime) tree.old ≡ Some tree.new }
{
    let mut place = empty_file(alloc);
    if !tree.exchange(path, &mut place) {
        return;
    }
    let mut file = stamped(place, exec, mtime);
    tree.exchange(path, &mut file);
}

/// A file of no bytes, not executable and with the time 0.
fn empty_file(alloc: Global) -> TreeNode
    ensures { result ≡ TreeNode.File [] false (pos 0) }
{
    TreeNode::File {
        bytes: Bytes::new(alloc),
        exec: false,
        mtime: 0,
    }
}

/// Adds bytes to a file.
fn grow(node: &mut TreeNode, more: &[u8]) -> Result<(), Memory>
    ensures ok { OnOk result (node.new ≡ grown_file more.now node.old) }
    ensures err { OnErr result (node.new ≡ node.old) }
{
    if let TreeNode::File { bytes, .. } = node {
        bytes.extend(more)?;
    }
    Ok(())
}

/// The same node, where a file has this executable bit and this time of last change.
fn stamped(node: TreeNode, exec: bool, mtime: i64) -> TreeNode
    ensures { result ≡ finished_file exec mtime node }
{
    match node {
        TreeNode::File { bytes, .. } => TreeNode::File { bytes, exec, mtime },
        other => other,
    }
}
