//! What the calls that read find in a shelf in memory.

ghost use Rattle.std.specs.Prelude.{◌≡◌, ◌<◌, ◌≤◌, ◌+◌, ◌++◌, [], Some, map, take, drop, length, option_copied, vec_len, vec_capacity, IfOk, OnOk, MatchOption, ℤ, Bool};
ghost use Rattle.zi_shelf.specs.Reading.{folder_at, kind_of, ListsAll, IsFile, IsLink};
ghost use Rattle.zi_shelf.specs.Told.{spelled};
ghost use Rattle.zi_tree.specs.Paths.{found};
ghost use Rattle.zi_tree.specs.declared.tree.TreeNode.TheVariants.{File, Link};

use crate::top_entry::TopEntry;
use std::alloc::Global;
use zi_shelf::{Entry, EntryKind, ShelfFault};
use zi_text::{Bytes, List, Memory, Text};
use zi_tree::{RelPath, Tree, TreeNode};

/// A path as a text: its parts with `/` between them.
pub fn spelled_path(alloc: Global, path: &RelPath) -> Result<Text, Memory>
    ensures { IfOk result (λ t. t ≡ spelled path.now) }
{
    let mut text = Text::new(alloc);
    for (i, part) in path.parts().as_slice().iter().enumerate() {
        if i > 0 {
            text.push_str("/")?;
        }
        text.push_str(part.as_str())?;
    }
    Ok(text)
}

/// The names of the entries, in their order.
pub fn names_of(alloc: Global, entries: &[TopEntry]) -> Result<List<Text>, Memory>
    ensures { IfOk result (λ l. l ≡ map (λ e. e.name) entries.now) }
{
    let mut names = List::new(alloc);
    for entry in entries {
        names.push(entry.name.copy(alloc)?)?;
    }
    Ok(names)
}

/// The folder at a path; the empty path leads to the whole tree.
pub fn folder_in<'a>(tree: &'a Tree, path: &RelPath) -> Option<&'a Tree>
    ensures { option_copied result ≡ folder_at path.now tree.now }
{
    if path.parts().is_empty() {
        return Some(tree);
    }
    match tree.find(path) {
        Some(TreeNode::Folder(inside)) => Some(inside),
        _ => None,
    }
}

/// The bytes of the file at a path.
pub fn file_in<'a>(tree: &'a Tree, path: &RelPath) -> Option<&'a Bytes>
    ensures { MatchOption (option_copied result) (¬ (IsFile (found path.now tree.now)))
        (λ bytes. (exec : Bool) × (mtime : ℤ) × (found path.now tree.now ≡ Some (File bytes exec mtime))) }
{
    match tree.find(path) {
        Some(TreeNode::File { bytes, .. }) => Some(bytes),
        _ => None,
    }
}

/// The text of the link at a path.
pub fn link_in<'a>(tree: &'a Tree, path: &RelPath) -> Option<&'a Text>
    ensures { MatchOption (option_copied result) (¬ (IsLink (found path.now tree.now))) (λ t. found path.now tree.now ≡ Some (Link t)) }
{
    match tree.find(path) {
        Some(TreeNode::Link { target }) => Some(target),
        _ => None,
    }
}

/// All entries of a folder, in its order.
pub fn listing_of(alloc: Global, folder: &Tree) -> Result<List<Entry>, Memory>
    ensures { IfOk result (λ l. ListsAll l folder.now) }
{
    folder.is_whole();
    let mut entries = List::new(alloc);
    for i in 0..folder.len() {
        let name = folder.name_at(i).copy(alloc)?;
        let kind = kind_in(folder.node_at(i));
        entries.push(Entry { name, kind })?;
    }
    Ok(entries)
}

/// What a listing says of an entry.
fn kind_in(node: &TreeNode) -> EntryKind
    ensures { result ≡ kind_of node.now }
{
    match node {
        TreeNode::File { bytes, exec, mtime } => EntryKind::File {
            exec: *exec,
            mtime: *mtime,
            size: bytes.len() as u64,
        },
        TreeNode::Link { .. } => EntryKind::Link,
        TreeNode::Folder(_) => EntryKind::Folder,
    }
}

/// Every byte from the offset on, up to so many.
pub fn piece_of(bytes: &[u8], offset: u64, max: u32) -> &[u8]
    ensures { result.now ≡ take max (drop offset bytes.now) }
{
    let start = bytes.len().min(offset as usize);
    let rest = &bytes[start..];
    let number = rest.len().min(max as usize);
    &rest[..number]
}

/// Makes room for so many bytes more.
pub fn room_in(into: &mut Vec<u8>, number: usize) -> Result<(), Memory>
    ensures ok { OnOk result (vec_len into.new + number ≤ vec_capacity into.new) }
    ensures same { into.new.items ≡ into.old.items }
{
    into.reserve(number)?;
    Ok(())
}

/// Adds a piece at the end, where there is room.
pub fn put_piece(into: &mut Vec<u8>, piece: &[u8])
    requires { vec_len into.old + length piece.now ≤ vec_capacity into.old }
    ensures { into.new.items ≡ into.old.items ++ piece.now }
{
    match into.extend_from_slice(piece) {
        Ok(()) => (),
        Err(_) => unreachable!(),
    }
}
