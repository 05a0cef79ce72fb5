//! What stands at a place of a tree: its line, and whether its name is bad.

ghost use Rattle.std.specs.Prelude.{◌≡◌, ℕ, List, None, Some, Err, IfOk, OnOk};
ghost use Rattle.zi_tree.specs.Walk.{spot_of};
ghost use Rattle.zi_manifest.specs.Sketch.{joined};
ghost use Rattle.zi_manifest.specs.Manifest.{is_bad};
ghost use Rattle.zi_manifest.specs.AtPlace.{path_text, is_top, is_own_at, node_line, line_at, bad_at};
ghost use Rattle.zi_manifest.specs.declared.writing.ManifestOutFault.TheVariants.{BadName};

use crate::lines::{file_line, folder_line, link_line};
use crate::writing::ManifestOutFault;
use std::alloc::Global;
use zi_digest::Algorithm;
use zi_text::{Memory, Text};
use zi_tree::{Place, RelPath, TreeNode};

/// The line of what stands at a place, and nothing for the manifest of the tree itself.
pub(crate) fn place_line(
    alloc: Global,
    a: Algorithm,
    place: &Place,
) -> Result<Vec<u8>, ManifestOutFault>
    ensures line { IfOk result (λ line. (bad_at (spot_of place.now) ≡ None) × (line.items ≡ line_at a (spot_of place.now))) }
    ensures bad { (p : List ℕ) → result ≡ Err (BadName p) → bad_at (spot_of place.now) ≡ Some p }
{
    if is_own(place) {
        return Ok(Vec::new(alloc));
    }
    if is_bad(place.name.as_str()) {
        return Err(bad_name(alloc, place));
    }
    match node_line(alloc, a, place) {
        Ok(line) => Ok(line),
        Err(_) => Err(ManifestOutFault::Memory),
    }
}

/// Whether it is the manifest of the tree itself: the regular file `.manifest` in the top folder.
fn is_own(place: &Place) -> bool
    ensures { result ≡ is_own_at (spot_of place.now) }
{
    match place.node {
        TreeNode::File { .. } => is_top(place.folder.as_ref())
            && place.name.as_str() == ".manifest",
        _ => false,
    }
}

/// Whether it is the path of the top folder.
fn is_top(path: &RelPath) -> bool
    ensures { result ≡ is_top path.now }
{
    path.parts().len() == 0
}

/// The line of a file, a link or a folder.
fn node_line(alloc: Global, a: Algorithm, place: &Place) -> Result<Vec<u8>, Memory>
    ensures { IfOk result (λ line. line.items ≡ node_line a (spot_of place.now)) }
{
    let name = place.name.as_str();
    match place.node {
        TreeNode::File { bytes, exec, mtime } => {
            file_line(alloc, a, name, bytes.as_slice(), *exec, *mtime)
        }
        TreeNode::Link { target } => link_line(alloc, a, name, target.as_str()),
        TreeNode::Folder(_) => folder_line(alloc, place_text(alloc, place)?.as_str()),
    }
}

/// The path of what stands at a place, its parts joined by `/`.
fn place_text(alloc: Global, place: &Place) -> Result<Text, Memory>
    ensures { IfOk result (λ t. t ≡ joined (path_text place.now.folder) place.now.name.now) }
{
    let mut text = path_text(alloc, place.folder.as_ref())?;
    join(&mut text, place.name.as_str())?;
    Ok(text)
}

/// The parts of a path joined by `/`.
fn path_text(alloc: Global, path: &RelPath) -> Result<Text, Memory>
    ensures { IfOk result (λ t. t ≡ path_text path.now) }
{
    let mut text = Text::new(alloc);
    for part in path.parts().as_slice() {
        join(&mut text, part.as_str())?;
    }
    Ok(text)
}

/// Adds a name in the folder at this path.
fn join(path: &mut Text, name: &str) -> Result<(), Memory>
    ensures { OnOk result (path.new ≡ joined path.old name.now) }
{
    if !path.is_empty() {
        path.push_str("/")?;
    }
    path.push_str(name)?;
    Ok(())
}

/// The path of a name in the folder at this path.
pub fn joined(alloc: Global, path: &str, name: &str) -> Result<Text, Memory>
    ensures { IfOk result (λ t. t ≡ joined path.now name.now) }
{
    let mut text = Text::from_str(alloc, path)?;
    join(&mut text, name)?;
    Ok(text)
}

/// Whether no manifest has this name.
pub fn is_bad(name: &str) -> bool
    ensures { result ≡ is_bad name.now }
{
    name.as_bytes().contains(&b'\n') || name == ".manifest"
}

/// The fault of a bad name.
fn bad_name(alloc: Global, place: &Place) -> ManifestOutFault
    ensures { (p : List ℕ) → result ≡ BadName p → p ≡ joined (path_text place.now.folder) place.now.name.now }
{
    match place_text(alloc, place) {
        Ok(path) => ManifestOutFault::BadName { path },
        Err(_) => ManifestOutFault::Memory,
    }
}
