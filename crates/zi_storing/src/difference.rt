//! How the manifest that stands in a stored tree differs from the computed one.
ghost use Rattle.std.specs.Prelude.{◌≡◌, ◌∷◌, [], List, ℕ, Err, Some, IfOk, MatchOption};
ghost use Rattle.zi_manifest.specs.Manifest.{own_name};
ghost use Rattle.zi_manifest.specs.Listing.{IsManifest};
ghost use Rattle.zi_text.specs.Count.{Rose};
ghost use Rattle.zi_store.specs.Keeping.{Keeps, is_reading};
ghost use Rattle.zi_world.specs.Shelves.{Held};
ghost use Rattle.zi_storing.specs.StoreVerify.{HasOwnManifest, HasDigest, HasComputed, Compares, DiffersBy};

use std::alloc::Global;
use zi_digest::Algorithm;
use zi_manifest::{ManifestFault, read};
use zi_shelf::{Shelf, ShelfFault};
use zi_store::{FileRead, ManifestRead, first_difference, manifest_of, read_file};
use zi_text::{Bytes, Memory};
use zi_tree::RelPath;

// The most bytes of a file `.manifest` that is read: 64 MiB.
const MANIFEST_LIMIT: u64 = 64 * 1024 * 1024;

/// How the manifest that stands in a stored tree differs from the computed one.
#[derive(Clone, Copy, PartialEq, Eq)]
pub enum Difference {
    /// No manifest stands there.
    NoManifest,
    /// They are the same.
    Agrees,
    /// This line, from 1, is the first that isn't the same.
    FirstIn(u64),
}

// The path of the file in which a stored tree's manifest stands.
fn own_path(alloc: Global) -> Result<RelPath, Memory>
    ensures { IfOk result (λ path. path ≡ own_name ∷ []) }
{
    match RelPath::root(alloc).child(alloc, ".manifest") {
        Ok(Some(path)) => Ok(path),
        Ok(None) => Err(Memory),
        Err(fault) => Err(fault),
    }
}

// The bytes, where they are a manifest.
fn where_manifest(alloc: Global, a: Algorithm, bytes: Bytes) -> Result<Option<Bytes>, ShelfFault>
    ensures own { IfOk result (λ own. MatchOption own (IsManifest a bytes → ⊥) (λ kept. (kept ≡ bytes) × IsManifest a bytes)) }
    ensures memory { result ≡ Err ShelfFault.Failed → ⊥ }
{
    match read(alloc, bytes.as_slice(), a) {
        Ok(_) => Ok(Some(bytes)),
        Err(ManifestFault::Bad { .. }) => Ok(None),
        Err(ManifestFault::Memory) => Err(ShelfFault::Memory),
    }
}

// The manifest that stands in a tree of the store, where one stands there.
fn own_manifest<K: Shelf>(
    alloc: Global,
    a: Algorithm,
    top: &str,
    shelf: &mut K,
) -> Result<Option<Bytes>, ShelfFault>
    ensures own { Held (K.seen shelf.old) (λ s. IfOk result (λ own. MatchOption own ((bytes : List ℕ) → HasOwnManifest a top.now s bytes → ⊥) (λ bytes. HasOwnManifest a top.now s bytes))) }
    ensures keeps { Keeps is_reading (K.seen shelf.old) (K.seen shelf.new) }
    ensures cause { result ≡ Err ShelfFault.Failed → Rose (K.seen shelf.old).faults (K.seen shelf.new).faults }
    ensures count { (result ≡ Err ShelfFault.Failed → ⊥) → (K.seen shelf.new).faults ≡ (K.seen shelf.old).faults }
    ensures sure { (K.seen shelf.old).sure → result ≡ Err ShelfFault.Failed → ⊥ }
{
    let Ok(path) = own_path(alloc) else {
        return Err(ShelfFault::Memory);
    };
    match read_file(alloc, top, &path, MANIFEST_LIMIT, shelf) {
        Ok(FileRead::Read(bytes)) => where_manifest(alloc, a, bytes),
        Ok(FileRead::Missing) => Ok(None),
        Ok(FileRead::TooLong) => Ok(None),
        Err(fault) => Err(fault),
    }
}

// The manifest of a stored tree, which is read for it. None where there is no such tree, it passes a limit, or it has a name that
// no manifest has.
fn computed<K: Shelf>(
    alloc: Global,
    a: Algorithm,
    top: &str,
    shelf: &mut K,
) -> Result<Option<Bytes>, ShelfFault>
    ensures text { Held (K.seen shelf.old) (λ s. HasDigest top.now s → IfOk result (λ text. MatchOption text ⊥ (λ text. HasComputed a top.now s text))) }
    ensures keeps { Keeps is_reading (K.seen shelf.old) (K.seen shelf.new) }
    ensures cause { result ≡ Err ShelfFault.Failed → Rose (K.seen shelf.old).faults (K.seen shelf.new).faults }
    ensures count { (result ≡ Err ShelfFault.Failed → ⊥) → (K.seen shelf.new).faults ≡ (K.seen shelf.old).faults }
    ensures sure { (K.seen shelf.old).sure → result ≡ Err ShelfFault.Failed → ⊥ }
{
    match manifest_of(alloc, top, a, shelf) {
        Ok(ManifestRead::Read(text)) => Ok(Some(text)),
        Ok(ManifestRead::Missing) => Ok(None),
        Ok(ManifestRead::BadName { .. }) => Ok(None),
        Ok(ManifestRead::TooLarge { .. }) => Ok(None),
        Err(fault) => Err(fault),
    }
}

// How two texts differ.
fn compared(own: &[u8], text: &[u8]) -> Difference
    ensures { Compares own.now text.now result }
{
    match first_difference(own, text) {
        None => Difference::Agrees,
        Some(line) => Difference::FirstIn(line),
    }
}

// How the manifest that stands in a tree differs from the computed one.
fn against<K: Shelf>(
    alloc: Global,
    a: Algorithm,
    top: &str,
    own: &[u8],
    shelf: &mut K,
) -> Result<Difference, ShelfFault>
    ensures differs { Held (K.seen shelf.old) (λ s. HasDigest top.now s → HasOwnManifest a top.now s own.now → IfOk result (λ d. DiffersBy a top.now d s)) }
    ensures keeps { Keeps is_reading (K.seen shelf.old) (K.seen shelf.new) }
    ensures cause { result ≡ Err ShelfFault.Failed → Rose (K.seen shelf.old).faults (K.seen shelf.new).faults }
    ensures count { (result ≡ Err ShelfFault.Failed → ⊥) → (K.seen shelf.new).faults ≡ (K.seen shelf.old).faults }
    ensures sure { (K.seen shelf.old).sure → result ≡ Err ShelfFault.Failed → ⊥ }
{
    match computed(alloc, a, top, shelf) {
        Ok(Some(text)) => Ok(compared(own, text.as_slice())),
        Ok(None) => Ok(Difference::NoManifest),
        Err(fault) => Err(fault),
    }
}

/// How the manifest that stands in a stored tree differs from the computed one, where one stands there that is no longer than
/// 64 MiB. The tree is read for it, by calls that read alone. Where nothing can be computed, which comes only where the tree is
/// another than one that has a digest, it is as if none stood there.
///
/// Failed comes only where the shelf's count of faults rose, Memory where memory is refused.
pub fn difference_of<K: Shelf>(
    alloc: Global,
    a: Algorithm,
    top: &str,
    shelf: &mut K,
) -> Result<Difference, ShelfFault>
    ensures differs { Held (K.seen shelf.old) (λ s. HasDigest top.now s → IfOk result (λ d. DiffersBy a top.now d s)) }
    ensures keeps { Keeps is_reading (K.seen shelf.old) (K.seen shelf.new) }
    ensures cause { result ≡ Err ShelfFault.Failed → Rose (K.seen shelf.old).faults (K.seen shelf.new).faults }
    ensures count { (result ≡ Err ShelfFault.Failed → ⊥) → (K.seen shelf.new).faults ≡ (K.seen shelf.old).faults }
    ensures sure { (K.seen shelf.old).sure → result ≡ Err ShelfFault.Failed → ⊥ }
{
    match own_manifest(alloc, a, top, shelf) {
        Ok(Some(own)) => against(alloc, a, top, own.as_slice(), shelf),
        Ok(None) => Ok(Difference::NoManifest),
        Err(fault) => Err(fault),
    }
}
