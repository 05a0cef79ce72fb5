//! Whether a stored tree is what its name says.

ghost use Rattle.std.specs.Prelude.{◌≡◌, Err, Some};
ghost use Rattle.zi_digest.specs.Name.{name_of, algorithm_of};
ghost use Rattle.zi_text.specs.Count.{Rose};
ghost use Rattle.zi_shelf.specs.Told.{Told};
ghost use Rattle.zi_store.specs.Keeping.{Keeps, is_reading};
ghost use Rattle.zi_store.specs.Verdicts.{Verifies, Compares};

use crate::manifests::{ManifestRead, manifest_of};
use std::alloc::Global;
use zi_digest::{DigestName, Hasher};
use zi_shelf::{Shelf, ShelfFault};
use zi_text::Text;
use zi_tree::TreeLimit;

/// What is said of a stored tree.
#[derive(Drop)]
pub enum Verdict {
    /// Its digest by the name's algorithm is the name.
    Sound,
    /// No tree is stored under the name.
    Missing,
    /// Its digest by the name's algorithm is another.
    Damaged { found: DigestName },
    /// It has no digest: the first bad name in the order of the manifest stands at this path, the parts joined by `/`.
    BadName { path: Text },
    /// The tree has more than this limit of what it names: bytes, entries, or folders one in another.
    TooLarge { what: TreeLimit, limit: u64 },
}

/// Reads the tree that is stored under a name, and says whether it is what the name says. A regular file `.manifest` in its
/// top folder isn't read.
///
/// Failed comes only where the shelf's count of faults rose, Memory where memory is refused.
pub fn verify<K: Shelf>(alloc: Global, name: &DigestName, k: &mut K) -> Result<Verdict, ShelfFault>
    ensures verdict { (s : Told) → (K.seen k.old).honest → (K.seen k.old).told ≡ Some s → Verifies name.now result s.shelf }
    ensures keeps { Keeps is_reading (K.seen k.old) (K.seen k.new) }
    ensures cause { result ≡ Err ShelfFault.Failed → Rose ((K.seen k.old).faults) ((K.seen k.new).faults) }
    ensures count { (result ≡ Err ShelfFault.Failed → ⊥) → (K.seen k.new).faults ≡ (K.seen k.old).faults }
    ensures sure { (K.seen k.old).sure → result ≡ Err ShelfFault.Failed → ⊥ }
{
    let spelled = name.text(alloc)?;
    match manifest_of(alloc, spelled.as_str(), name.algorithm(), k)? {
        ManifestRead::Missing => Ok(Verdict::Missing),
        ManifestRead::TooLarge { what, limit } => Ok(Verdict::TooLarge { what, limit }),
        ManifestRead::BadName { path } => Ok(Verdict::BadName { path }),
        ManifestRead::Read(text) => Ok(judge(name, text.as_slice())),
    }
}

/// What is said of a tree that has this manifest, by the name's algorithm.
fn judge(name: &DigestName, manifest: &[u8]) -> Verdict
    ensures { Compares name.now (name_of (algorithm_of name.now) manifest.now) result }
{
    let mut hasher = Hasher::new(name.algorithm());
    hasher.update(manifest);
    compared(name, hasher.finish())
}

/// What is said of a tree with this digest.
fn compared(name: &DigestName, found: DigestName) -> Verdict
    ensures { Compares name.now found result }
{
    if found == *name {
        Verdict::Sound
    } else {
        Verdict::Damaged { found }
    }
}
