//! The calls that fill an entry of a shelf with a tree and its manifest.

ghost use Rattle.std.specs.Prelude.{◌≡◌, [], ◌∷◌, ◌++◌, IfOk, OnOk};
ghost use Rattle.zi_manifest.specs.Manifest.{own_name};
ghost use Rattle.zi_session.specs.Works.{node_works, works_of};
ghost use Rattle.zi_session.specs.AtPlace.{calls};

use crate::files::{put_file, put_node};
use crate::work::Work;
use std::alloc::Global;
use zi_text::Memory;
use zi_tree::{RelPath, Tree, places};

/// The calls that fill an entry with a tree and the file `.manifest` with this text.
pub(crate) fn put_works(alloc: Global, tree: &Tree, text: &[u8]) -> Result<Vec<Work>, Memory>
    ensures { IfOk result (λ works. calls works.items ≡ works_of tree.now text.now) }
{
    let mut works = Vec::new(alloc);
    put_nodes(alloc, &mut works, tree)?;
    let path = own_path(alloc)?;
    put_file(alloc, &mut works, &path, text, false, 0)?;
    Ok(works)
}

/// Lists the calls that make the nodes of a tree.
fn put_nodes(alloc: Global, works: &mut Vec<Work>, tree: &Tree) -> Result<(), Memory>
    ensures { OnOk result (calls works.new.items ≡ calls works.old.items ++ node_works tree.now) }
{
    let places = places(alloc, tree)?;
    for place in &places {
        let path = place.path(alloc)?;
        put_node(alloc, works, &path, place.node)?;
    }
    Ok(())
}

/// The path of the manifest.
fn own_path(alloc: Global) -> Result<RelPath, Memory>
    ensures { IfOk result (λ p. p ≡ own_name ∷ []) }
{
    let root = RelPath::root(alloc);
    match root.child(alloc, ".manifest")? {
        Some(path) => Ok(path),
        None => unreachable!(),
    }
}
