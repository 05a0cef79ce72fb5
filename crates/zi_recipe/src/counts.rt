//! The entries of a tree counted, folder by folder and level by level: a tree may be too deep for a call for each level.

ghost use Rattle.std.specs.Prelude.{◌≡◌, ◌≤◌, ◌++◌, None, OnOk, MatchResult};
ghost use Rattle.zi_tree.specs.Limits.{nodes_limit};
ghost use Rattle.zi_recipe.specs.Limits.{passed, Passes};
ghost use Rattle.zi_recipe.specs.Levels.{folder_of, folders_in, trees, CountsLevel, StopsCounting};

use crate::fault::RecipeFault;
use crate::limits::too_large;
use std::alloc::Global;
use zi_text::Memory;
use zi_tree::{DEPTH_LIMIT, NODES_LIMIT, Tree, TreeLimit, TreeNode};

/// Puts what is in a node behind other folders, where the node is a folder.
fn add_folder<'a>(node: &'a TreeNode, into: &mut Vec<&'a Tree>) -> Result<(), Memory>
    ensures { OnOk result (trees into.new.items ≡ trees into.old.items ++ folder_of node.now) }
{
    match node {
        TreeNode::File { .. } | TreeNode::Link { .. } => Ok(()),
        TreeNode::Folder(inside) => {
            into.push(inside)?;
            Ok(())
        }
    }
}

/// Puts the folders in a folder behind others.
fn add_folders<'a>(folder: &'a Tree, into: &mut Vec<&'a Tree>) -> Result<(), Memory>
    ensures { OnOk result (trees into.new.items ≡ trees into.old.items ++ folders_in folder.now) }
{
    for i in 0..folder.len() {
        add_folder(folder.node_at(i), into)?;
    }
    Ok(())
}

/// Counts the entries of the folders of one level to others, and gives the folders in them: those of the next level.
fn count_level<'a>(
    alloc: Global,
    level: &[&'a Tree],
    nodes: &mut u64,
) -> Result<Vec<&'a Tree>, RecipeFault>
    requires { nodes.old ≤ nodes_limit }
    ensures { MatchResult result
        (λ next. CountsLevel (trees level.now) nodes.old (trees next.items) nodes.new)
        (StopsCounting (trees level.now) nodes.old) }
{
    let mut next = Vec::new(alloc);
    for folder in level {
        let more = folder.len() as u64;
        if more > NODES_LIMIT - *nodes {
            return Err(too_large(TreeLimit::Nodes));
        }
        *nodes += more;
        add_folders(folder, &mut next)?;
    }
    Ok(next)
}

/// Whether a tree is within the limits on its entries and its depth: the entries are counted first.
pub(crate) fn check_counts(alloc: Global, tree: &Tree) -> Result<(), RecipeFault>
    ensures { MatchResult result (λ _. passed tree.now ≡ None) (Passes tree.now) }
{
    let mut level = Vec::new(alloc);
    level.push(tree)?;
    let mut nodes = 0;
    let mut levels = 0;
    while level.len() > 0 {
        let next = count_level(alloc, level.as_slice(), &mut nodes)?;
        level = next;
        levels += 1;
    }
    if levels > DEPTH_LIMIT + 1 {
        return Err(too_large(TreeLimit::Depth));
    }
    Ok(())
}
