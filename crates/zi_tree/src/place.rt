//! A node of a tree, its name, and the path of the folder that holds it.

ghost use Rattle.std.specs.Prelude.{◌≡◌, [], ◌∷◌, ◌++◌, true, IfOk};
ghost use Rattle.zi_tree.specs.Order.{is_name};

use crate::path::RelPath;
use crate::tree::TreeNode;
use std::alloc::Global;
use zi_inherited::Shared;
use zi_text::{Memory, Text};

/// A node of a tree: the path of the folder that holds it, held once for all nodes of that folder, and its name there.
#[derive(Drop)]
pub struct Place<'a> {
    pub folder: Shared<RelPath>,
    pub name: &'a Text,
    pub node: &'a TreeNode,
    ghost named: { is_name name.now ≡ true },
}

impl<'a> Place<'a> {
    /// The path of the node itself. Memory is the one refusal.
    pub fn path(&self, alloc: Global) -> Result<RelPath, Memory>
        ensures { IfOk result (λ p. p ≡ self.now.folder ++ self.now.name.now ∷ []) }
    {
        let name = self.name;
        match self.folder.as_ref().child(alloc, name.as_str())? {
            Some(path) => Ok(path),
            None => unreachable!(),
        }
    }
}
