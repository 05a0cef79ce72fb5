//! Trees at depths that no stack holds, and with many names.
use std::alloc::Global;
use std::test::Fail;
use zi_text::{Bytes, Memory, Text};
use zi_tree::{RelPath, Tree, TreeNode};

/// How many parts the deep path has.
const DEEP: usize = 2_000_000;

/// An empty file.
fn file(alloc: Global) -> TreeNode {
    TreeNode::File {
        bytes: Bytes::new(alloc),
        exec: false,
        mtime: -1,
    }
}

/// Adds an empty file at a path, and says whether it could.
fn is_inserted(alloc: Global, tree: &mut Tree, at: &RelPath) -> bool {
    tree.insert(alloc, at, file(alloc)).is_ok()
}

/// Adds so many parts.
fn take_parts(text: &mut Text, parts: usize) -> Result<(), Memory> {
    for _ in 0..parts {
        text.push_str("a/")?;
    }
    Ok(())
}

/// A path of so many parts.
fn deep(alloc: Global, parts: usize) -> Result<Option<RelPath>, Memory> {
    let mut text = Text::new(alloc);
    take_parts(&mut text, parts)?;
    RelPath::parse(alloc, text.as_str())
}

/// Whether a file that is put at a path is found, exchanged and taken there, and there is room behind it.
fn is_held(alloc: Global, tree: &mut Tree, at: &RelPath) -> bool {
    let mut other = file(alloc);
    is_inserted(alloc, tree, at)
        && tree.find(at).is_some()
        && tree.exchange(at, &mut other)
        && !tree.has_room(at)
        && tree.take(at).is_some()
        && tree.find(at).is_none()
        && tree.has_room(at)
}

#[test]
fn two_million_folders(rt: HostRuntime) -> Result<(), Fail> {
    let mut tree = Tree::new(rt.alloc());
    let at = deep(rt.alloc(), DEEP)?.ok_or("no path")?;
    assert!(rt; at.parts().len() == DEEP && is_held(rt.alloc(), &mut tree, &at));
    assert!(rt; is_inserted(rt.alloc(), &mut tree, &at));
    Ok(())
}

/// Adds an empty file under the name of a number.
fn take_number(alloc: Global, tree: &mut Tree, number: u32) -> Result<bool, Memory> {
    let name = format!(in alloc; "{number}")?;
    match RelPath::parse(alloc, name.as_str())? {
        Some(at) => Ok(is_inserted(alloc, tree, &at)),
        None => Ok(false),
    }
}

#[test]
fn ten_thousand_names(rt: HostRuntime) -> Result<(), Fail> {
    let mut tree = Tree::new(rt.alloc());
    for i in 0..10_000u32 {
        assert!(rt; take_number(rt.alloc(), &mut tree, i.reverse_bits())?);
    }
    assert_eq!(rt; tree.len(), 10_000);
    Ok(())
}
