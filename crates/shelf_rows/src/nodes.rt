//! Paths, bytes and nodes as texts.
use std::alloc::Global;
use zi_lines::Sheet;
use zi_text::Memory;
use zi_tree::{RelPath, Tree, TreeNode};

/// The byte that the text behind a backslash begins with, and what comes behind it; none where no byte is spelled so.
fn spelled(text: &str) -> Option<(u8, &str)> {
    if let Some(rest) = text.strip_prefix('n') {
        return Some((b'\n', rest));
    }
    if let Some(rest) = text.strip_prefix('0') {
        return Some((0, rest));
    }
    Some((0xff, text.strip_prefix("xff")?))
}

/// Adds the byte that stands behind a backslash, and what comes behind it; the text itself where no byte is spelled so.
fn put_byte(bytes: &mut Vec<u8>, text: &str) -> Result<(), Memory> {
    match spelled(text) {
        Some((byte, rest)) => {
            bytes.push(byte)?;
            Ok(bytes.extend_from_slice(rest.as_bytes())?)
        }
        None => Ok(bytes.extend_from_slice(text.as_bytes())?),
    }
}

/// Adds the bytes of a text, in which `\n`, `\0` and `\xff` stand for one each.
pub(crate) fn put_bytes(bytes: &mut Vec<u8>, text: &str) -> Result<(), Memory> {
    for (i, piece) in text.split('\\').enumerate() {
        if i == 0 {
            bytes.extend_from_slice(piece.as_bytes())?;
        } else {
            put_byte(bytes, piece)?;
        }
    }
    Ok(())
}

/// The path that a text spells, where it spells one.
pub(crate) fn path_of(alloc: Global, text: &str) -> Result<Option<RelPath>, Memory> {
    let mut bytes = Vec::new(alloc);
    put_bytes(&mut bytes, text)?;
    match std::str::from_utf8(bytes.as_slice()) {
        Ok(text) => RelPath::parse(alloc, text),
        Err(_fault) => Ok(None),
    }
}

/// Adds a node.
fn put_found(out: &mut Sheet, node: &TreeNode) {
    match node {
        TreeNode::Folder(_) => out.put("folder"),
        TreeNode::Link { target } => {
            out.put("link ");
            out.put(target.as_str());
        }
        TreeNode::File { bytes, exec, mtime } => {
            out.put("file ");
            out.value(&bytes.as_slice());
            out.put(if *exec { " true " } else { " false " });
            out.value(mtime);
        }
    }
}

/// Adds what stands at a path.
fn put_node_at(out: &mut Sheet, tree: &Tree, at: &RelPath) {
    match tree.find(at) {
        Some(node) => put_found(out, node),
        None => out.put("none"),
    }
}

/// Adds what stands at a path of a tree.
pub(crate) fn put_node(alloc: Global, out: &mut Sheet, tree: &Tree, path: &str) {
    match path_of(alloc, path) {
        Ok(Some(at)) => put_node_at(out, tree, &at),
        Ok(None) => out.put("no path"),
        Err(Memory) => out.lose(),
    }
}
