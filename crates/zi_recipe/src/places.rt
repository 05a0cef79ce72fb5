//! What stands at a path of the tree: put there, moved, or taken out.

ghost use Rattle.std.specs.Prelude.{◌≡◌, Some, IsSome, IfOk, MatchResult};
ghost use Rattle.zi_tree.specs.Paths.{found, inserted, removed};
ghost use Rattle.zi_recipe.specs.Steps.{path_text, Moves, FailsToMove, Overlaps, Lacks};

use crate::fault::RecipeFault;
use std::alloc::Global;
use zi_text::{Memory, Text};
use zi_tree::{InsertFault, RelPath, Tree, TreeNode};

/// A path as it is told: its parts, joined by slashes.
fn path_text(alloc: Global, path: &RelPath) -> Result<Text, Memory>
    ensures { IfOk result (λ t. t ≡ path_text path.now) }
{
    let [first, more @ ..] = path.parts().as_slice() else {
        return Ok(Text::new(alloc));
    };
    let mut text = first.copy(alloc)?;
    for part in more {
        text.push_str("/")?;
        text.push_str(part.as_str())?;
    }
    Ok(text)
}

/// Puts a node at a path, in folders that are made where they are missing.
pub(crate) fn place(
    alloc: Global,
    tree: &mut Tree,
    dest: &RelPath,
    node: TreeNode,
) -> Result<(), RecipeFault>
    ensures { MatchResult result
        (λ _. inserted dest.now node tree.old ≡ Some tree.new)
        (Overlaps dest.now (inserted dest.now node tree.old)) }
{
    match tree.insert(alloc, dest, node) {
        Ok(()) => Ok(()),
        Err(InsertFault::Overlap) => {
            let path = path_text(alloc, dest)?;
            Err(RecipeFault::Overlap { path })
        }
        Err(InsertFault::Memory) => Err(RecipeFault::Memory),
    }
}

/// Takes out what stands at a path, whole with all in it.
fn take_out(alloc: Global, tree: &mut Tree, path: &RelPath) -> Result<TreeNode, RecipeFault>
    ensures { MatchResult result
        (λ x. (found path.now tree.old ≡ Some x) × (tree.new ≡ removed path.now tree.old))
        (Lacks path.now tree.old) }
{
    match tree.take(path) {
        Some(node) => Ok(node),
        None => {
            let path = path_text(alloc, path)?;
            Err(RecipeFault::NoPath { path })
        }
    }
}

/// Takes out what stands at a path, and puts it at another: one exchange, whatever is in it.
pub(crate) fn rename(
    alloc: Global,
    tree: &mut Tree,
    source: &RelPath,
    dest: &RelPath,
) -> Result<(), RecipeFault>
    ensures { MatchResult result
        (λ _. Moves source.now dest.now tree.old tree.new)
        (FailsToMove source.now dest.now tree.old) }
{
    let node = take_out(alloc, tree, source)?;
    place(alloc, tree, dest, node)
}

/// Removes what stands at a path.
pub(crate) fn remove(alloc: Global, tree: &mut Tree, path: &RelPath) -> Result<(), RecipeFault>
    ensures { MatchResult result
        (λ _. IsSome (found path.now tree.old) × (tree.new ≡ removed path.now tree.old))
        (Lacks path.now tree.old) }
{
    take_out(alloc, tree, path)?;
    Ok(())
}
