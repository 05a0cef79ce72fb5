//! The digest names among the names of a shelf.

ghost use Rattle.std.specs.Prelude.{◌≡◌, true, ◌↔◌, map, IfOk, Ok, Err, Some, IsSorted};
ghost use Rattle.std.specs.Ordering.{nat_cmp};
ghost use Rattle.std.specs.Cmp.Lexicographic.{slice_cmp};
ghost use Rattle.zi_digest.specs.Name.{spelling, IsDigest};
ghost use Rattle.zi_digest.specs.declared.DigestName.{DigestName as Name};
ghost use Rattle.zi_text.specs.Count.{Rose};
ghost use Rattle.zi_shelf.specs.Names.{IsIn};
ghost use Rattle.zi_shelf.specs.Told.{Told};
ghost use Rattle.zi_shelf.specs.Reading.{NamesAnswer};
ghost use Rattle.zi_store.specs.Keeping.{Keeps, is_names};
ghost use Rattle.zi_store.specs.Rising.{rises};
ghost use Rattle.zi_store.specs.Stored.{NamesStored, is_of};

use crate::calls::ask_names;
use std::alloc::Global;
use zi_digest::laws::spelling_is_one_to_one;
use zi_digest::{Algorithm, DigestName};
use zi_shelf::{Shelf, ShelfFault};
use zi_text::{List, Memory, Text};

/// The digest names among the top names of a shelf, each once, in byte order of their spellings. It calls `names` alone.
///
/// Failed comes only where the shelf's count of faults rose, Memory where memory is refused.
pub fn stored_names<K: Shelf>(alloc: Global, k: &mut K) -> Result<List<DigestName>, ShelfFault>
    ensures names { (s : Told) → (K.seen k.old).honest → (K.seen k.old).told ≡ Some s → NamesStored result s.shelf }
    ensures keeps { Keeps is_names (K.seen k.old) (K.seen k.new) }
    ensures cause { result ≡ Err ShelfFault.Failed → Rose ((K.seen k.old).faults) ((K.seen k.new).faults) }
    ensures count { (result ≡ Err ShelfFault.Failed → ⊥) → (K.seen k.new).faults ≡ (K.seen k.old).faults }
    ensures sure { (K.seen k.old).sure → result ≡ Err ShelfFault.Failed → ⊥ }
{
    let names = sorted_names(k)?;
    let stored = digests_of(alloc, names.as_slice())?;
    Ok(stored)
}

/// The digests that are spelled by these names, in their order.
pub(crate) fn digests_of(alloc: Global, names: &[Text]) -> Result<List<DigestName>, Memory>
    ensures rising { IfOk result (λ ds. rises names.now ≡ true → rises (map spelling ds) ≡ true) }
    ensures all { IfOk result (λ ds. (n : Name) → IsIn n ds ↔ (IsDigest n × IsIn (spelling n) names.now)) }
{
    spelling_is_one_to_one();
    let mut digests = List::new(alloc);
    for name in names {
        if let Some(digest) = DigestName::parse(name.as_str()) {
            digests.push(digest)?;
        }
    }
    Ok(digests)
}

/// Whether a digest is of this algorithm.
pub(crate) fn is_of(digest: &DigestName, algorithm: Algorithm) -> bool
    ensures { result ≡ is_of algorithm digest.now }
{
    match (algorithm, digest) {
        (Algorithm::Sha1new, DigestName::Sha1new(_)) => true,
        (Algorithm::Sha256, DigestName::Sha256(_)) => true,
        (Algorithm::Sha256new, DigestName::Sha256new(_)) => true,
        _ => false,
    }
}

/// The names of all top entries, in byte order.
fn sorted_names<K: Shelf>(k: &mut K) -> Result<Vec<Text>, ShelfFault>
    ensures names { (s : Told) → (K.seen k.old).honest → (K.seen k.old).told ≡ Some s → IfOk result (λ v. NamesAnswer (Ok v.items) s.shelf) }
    ensures sorted { IfOk result (λ v. IsSorted (slice_cmp nat_cmp) v.items) }
    ensures keeps { Keeps is_names (K.seen k.old) (K.seen k.new) }
    ensures cause { result ≡ Err ShelfFault.Failed → Rose ((K.seen k.old).faults) ((K.seen k.new).faults) }
    ensures count { (result ≡ Err ShelfFault.Failed → ⊥) → (K.seen k.new).faults ≡ (K.seen k.old).faults }
    ensures sure { (K.seen k.old).sure → result ≡ Err ShelfFault.Failed → ⊥ }
{
    let mut names = ask_names(k)?.into_vec();
    names.sort_unstable();
    Ok(names)
}
