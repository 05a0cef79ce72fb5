//! The manifest of a tree on a shelf.

ghost use Rattle.std.specs.Prelude.{◌≡◌, Err, Some, IfOk};
ghost use Rattle.zi_digest.specs.declared.Algorithm.{Algorithm as Alg};
ghost use Rattle.zi_text.specs.Count.{Rose};
ghost use Rattle.zi_shelf.specs.Told.{Told};
ghost use Rattle.zi_store.specs.Keeping.{Keeps, is_reading};
ghost use Rattle.zi_store.specs.ManifestAnswers.{Ends, IsOfSomeTree, ReadsManifest, WritesWhole};
ghost use Rattle.zi_store.specs.Written.{IsOfTree};

use crate::listings::listing;
use crate::stop::Stop;
use crate::written::{Place, Written, write_folder};
use std::alloc::Global;
use zi_digest::Algorithm;
use zi_shelf::{Shelf, ShelfFault};
use zi_text::{Bytes, Text};
use zi_tree::{RelPath, TreeLimit};

/// What reading a manifest came to.
#[derive(Drop)]
pub enum ManifestRead {
    /// The manifest of the tree.
    Read(Bytes),
    /// There is no such top entry.
    Missing,
    /// It has none: the first bad name in the order of the manifest stands at this path, the parts joined by `/`.
    BadName { path: Text },
    /// The tree has more than this limit of what it names: bytes, entries, or folders one in another.
    TooLarge { what: TreeLimit, limit: u64 },
}

/// The manifest of a top entry, by this algorithm, of the tree as it is read: a regular file `.manifest` in the top folder is
/// left out, and its bytes aren't read. A file is read in pieces of 65,536 bytes, at rising offsets until a read gives none, and
/// hashed piece by piece: no more than one piece is held.
///
/// Missing comes exactly where there is no such entry, TooLarge exactly where the tree passes a limit, as `read_tree` says, with
/// the first one; else BadName exactly where a name is bad, with the first one. Whatever the shelf is, a text is the manifest of
/// some tree. Failed comes only where the shelf's count of faults rose, Memory where memory is refused.
pub fn manifest_of<K: Shelf>(
    alloc: Global,
    top: &str,
    a: Algorithm,
    k: &mut K,
) -> Result<ManifestRead, ShelfFault>
    ensures manifest { (s : Told) → (K.seen k.old).honest → (K.seen k.old).told ≡ Some s → ReadsManifest a top.now result s.shelf }
    ensures tree { IsOfSomeTree a result }
    ensures keeps { Keeps is_reading (K.seen k.old) (K.seen k.new) }
    ensures cause { result ≡ Err ShelfFault.Failed → Rose ((K.seen k.old).faults) ((K.seen k.new).faults) }
    ensures count { (result ≡ Err ShelfFault.Failed → ⊥) → (K.seen k.new).faults ≡ (K.seen k.old).faults }
    ensures sure { (K.seen k.old).sure → result ≡ Err ShelfFault.Failed → ⊥ }
{
    match whole_manifest(alloc, top, a, k) {
        Ok(written) => Ok(read_of(written)),
        Err(Stop::Missing) => Ok(ManifestRead::Missing),
        Err(Stop::TooLarge(what)) => Ok(ManifestRead::TooLarge {
            what,
            limit: what.most(),
        }),
        Err(Stop::Fault(fault)) => Err(fault),
    }
}

/// What a manifest that was written to its end came to.
fn read_of(written: Written) -> ManifestRead
    ensures { Ends written result }
{
    let Written { text, bad, .. } = written;
    match bad {
        Some(path) => ManifestRead::BadName { path },
        None => ManifestRead::Read(Bytes::from_vec(text)),
    }
}

/// The manifest of a top entry to its end, or why there is none.
fn whole_manifest<K: Shelf>(
    alloc: Global,
    top: &str,
    a: Algorithm,
    k: &mut K,
) -> Result<Written, Stop>
    ensures manifest { (s : Told) → (K.seen k.old).honest → (K.seen k.old).told ≡ Some s → WritesWhole a top.now result s.shelf }
    ensures tree { IfOk result (λ written. IsOfTree a written) }
    ensures keeps { Keeps is_reading (K.seen k.old) (K.seen k.new) }
    ensures cause { result ≡ Err (Stop.Fault ShelfFault.Failed) → Rose ((K.seen k.old).faults) ((K.seen k.new).faults) }
    ensures count { (result ≡ Err (Stop.Fault ShelfFault.Failed) → ⊥) → (K.seen k.new).faults ≡ (K.seen k.old).faults }
    ensures sure { (K.seen k.old).sure → result ≡ Err (Stop.Fault ShelfFault.Failed) → ⊥ }
{
    let path = RelPath::root(alloc);
    let entries = listing(top, &path, true, k)?;
    let mut written = Written::new(alloc);
    let at = Place {
        top,
        path: &path,
        text: "",
        depth: 0,
    };
    write_folder(alloc, a, at, entries.as_slice(), &mut written, k)?;
    Ok(written)
}
