//! The tree that holds a shim.

ghost use Rattle.std.specs.Prelude.{◌≡◌, true, IfOk};
ghost use Rattle.zi_manifest.specs.Manifest.{as_read, HasManifest};
ghost use Rattle.zi_shim.specs.Trees.{is_shim_name, shim_dir};

use crate::writing::shim_text;
use std::alloc::Global;
use zi_text::{Bytes, Memory, Text};
use zi_tree::{InsertFault, RelPath, Tree, TreeNode};

/// The tree with one file: the shim that runs these words, executable, of the time 0, under this name. It has a manifest, in which
/// that file is told. Memory is its one refusal.
pub fn shim_tree(alloc: Global, name: &Text, words: &[Text]) -> Result<Tree, Memory>
    requires { is_shim_name name.now ≡ true }
    ensures tree { IfOk result (λ t. t ≡ shim_dir name.now words.now) }
    ensures whole { IfOk result (λ t. as_read t ≡ t) }
    ensures right { IfOk result HasManifest }
{
    let text = shim_text(alloc, words)?;
    let root = RelPath::root(alloc);
    let Some(path) = root.child(alloc, name.as_str())? else {
        unreachable!()
    };
    let node = TreeNode::File {
        bytes: Bytes::from_vec(text),
        exec: true,
        mtime: 0,
    };
    let mut tree = Tree::new(alloc);
    match tree.insert(alloc, &path, node) {
        Ok(()) => Ok(tree),
        Err(InsertFault::Overlap) => unreachable!(),
        Err(InsertFault::Memory) => Err(Memory),
    }
}
