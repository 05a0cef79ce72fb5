//! The calls that fill for one node of a tree, added to a list.

ghost use Rattle.std.specs.Prelude.{◌≡◌, [], ◌∷◌, ◌++◌, map, OnOk};
ghost use Rattle.zi_shelf.specs.Filling.{Append};
ghost use Rattle.zi_session.specs.Works.{work_of, pieces, file_works};
ghost use Rattle.zi_session.specs.AtPlace.{calls, node_calls};

use crate::work::Work;
use std::alloc::Global;
use zi_text::{Bytes, Memory};
use zi_tree::{RelPath, TreeNode};

/// The most bytes of one piece.
const PIECE: usize = 65_536;

/// Lists the calls for a node at a path, for a folder without what is in it.
pub(crate) fn put_node(
    alloc: Global,
    works: &mut Vec<Work>,
    path: &RelPath,
    node: &TreeNode,
) -> Result<(), Memory>
    ensures { OnOk result (calls works.new.items ≡ calls works.old.items ++ node_calls path.now node.now) }
{
    match node {
        TreeNode::File { bytes, exec, mtime } => {
            put_file(alloc, works, path, bytes.as_slice(), *exec, *mtime)
        }
        TreeNode::Link { target } => {
            let path = path.copy(alloc)?;
            let target = target.copy(alloc)?;
            push(works, Work::MakeLink { path, target })
        }
        TreeNode::Folder(_) => {
            let path = path.copy(alloc)?;
            push(works, Work::MakeFolder { path })
        }
    }
}

/// Lists the calls for a file at a path: its pieces, then what it is beside its bytes.
pub(crate) fn put_file(
    alloc: Global,
    works: &mut Vec<Work>,
    path: &RelPath,
    bytes: &[u8],
    exec: bool,
    mtime: i64,
) -> Result<(), Memory>
    ensures { OnOk result (calls works.new.items ≡ calls works.old.items ++ file_works path.now bytes.now exec mtime) }
{
    put_pieces(alloc, works, path, bytes)?;
    let path = path.copy(alloc)?;
    push(works, Work::FinishFile { path, exec, mtime })
}

/// Lists the calls that add the pieces of a file.
fn put_pieces(
    alloc: Global,
    works: &mut Vec<Work>,
    path: &RelPath,
    bytes: &[u8],
) -> Result<(), Memory>
    ensures { OnOk result (calls works.new.items ≡ calls works.old.items ++ map (Append path.now) (pieces bytes.now)) }
{
    let mut rest = bytes;
    while rest.len() > PIECE {
        let (piece, more) = rest.split_at(PIECE);
        put_piece(alloc, works, path, piece)?;
        rest = more;
    }
    put_piece(alloc, works, path, rest)
}

/// Lists the call that adds a piece.
fn put_piece(
    alloc: Global,
    works: &mut Vec<Work>,
    path: &RelPath,
    piece: &[u8],
) -> Result<(), Memory>
    ensures { OnOk result (calls works.new.items ≡ calls works.old.items ++ Append path.now piece.now ∷ []) }
{
    let path = path.copy(alloc)?;
    let bytes = Bytes::from_slice(alloc, piece)?;
    push(works, Work::Append { path, bytes })
}

/// Lists a call.
fn push(works: &mut Vec<Work>, work: Work) -> Result<(), Memory>
    ensures { OnOk result (calls works.new.items ≡ calls works.old.items ++ work_of work ∷ []) }
{
    works.push(work)?;
    Ok(())
}
