//! Prints the digest of a tree that it makes in memory: `one` is one file of 100 MB, `many` are 20,000 files of 1,000
//! bytes in 200 folders, `few` are two files in one folder. All bytes are `a`, all times 0.
//! `bench/manifest.py` holds it against `0install digest` on the same tree in a folder.

use crate::line;
use std::alloc::Global;
use std::io;
use zi_digest::Algorithm;
use zi_manifest::digest;
use zi_text::{Bytes, Memory, Text};
use zi_tree::{InsertFault, RelPath, Tree, TreeNode};

/// How many folders a tree has, how many files each has, and how many bytes each file.
#[derive(Clone, Copy)]
struct Shape {
    folders: u32,
    files: u32,
    size: usize,
}

/// The shape that a word names.
fn shape_of(word: &str) -> Option<Shape> {
    let (folders, files, size) = if word == "one" {
        (1, 1, 100_000_000)
    } else if word == "many" {
        (200, 100, 1_000)
    } else if word == "few" {
        (1, 2, 3)
    } else {
        return None;
    };
    Some(Shape {
        folders,
        files,
        size,
    })
}

/// Puts one file into the tree. Every path here is one, and stands for itself: a refusal is want of memory.
fn put(alloc: Global, tree: &mut Tree, path: &str, size: usize) -> Result<(), Memory> {
    let Some(path) = RelPath::parse(alloc, path)? else {
        return Err(Memory);
    };
    let Ok(bytes) = vec![in alloc; b'a'; size] else {
        return Err(Memory);
    };
    let node = TreeNode::File {
        bytes: Bytes::from_vec(bytes),
        exec: false,
        mtime: 0,
    };
    match tree.insert(alloc, &path, node) {
        Ok(()) => Ok(()),
        Err(InsertFault::Overlap | InsertFault::Memory) => Err(Memory),
    }
}

/// The tree of a shape.
fn tree_of(alloc: Global, shape: &Shape) -> Result<Tree, Memory> {
    let mut tree = Tree::new(alloc);
    for folder in 0..shape.folders {
        for file in 0..shape.files {
            let Ok(path) = format!(in alloc; "{folder}/{file}") else {
                return Err(Memory);
            };
            put(alloc, &mut tree, path.as_str(), shape.size)?;
        }
    }
    Ok(tree)
}

/// The digest of the tree of a shape.
fn digest_of(alloc: Global, shape: &Shape) -> Result<Text, Memory> {
    let tree = tree_of(alloc, shape)?;
    match digest(alloc, &tree, Algorithm::Sha256new) {
        Ok(name) => name.text(alloc),
        Err(_) => Err(Memory),
    }
}

pub fn named(rt: &HostRuntime, word: &str) -> io::Result<Option<Vec<u8>>> {
    let Some(shape) = shape_of(word) else {
        return Ok(None);
    };
    let told = match digest_of(rt.alloc(), &shape) {
        Ok(name) => line(rt.alloc(), name.as_str())?,
        Err(Memory) => line(rt.alloc(), "out of memory")?,
    };
    Ok(Some(told))
}
