//! The work of `manifest`.
ghost use Rattle.std.specs.Prelude.{◌≡◌, ◌↔◌, ◌∷◌, ◌++◌, map, IsTrue, IfOk, Err};
ghost use Rattle.zi_digest.specs.Name.{name_of};
ghost use Rattle.zi_outside.specs.Views.{Feeding};
ghost use Rattle.zi_store.specs.Keeping.{Keeps, is_reading};
ghost use Rattle.zi_store.specs.Stores.{Each, IsCalm, SomeFails};
ghost use Rattle.zi_store.specs.declared.manifests.ManifestRead.TheVariants.{Missing};
ghost use Rattle.zi_outcome.specs.Writing.{Prints};
ghost use Rattle.zi_storing.specs.StoreList.{name_line};
ghost use Rattle.zi_storing.specs.ManifestCommand.{FirstReads, Manifests};

use crate::names::put_name;
use std::alloc::Global;
use zi_digest::{Algorithm, DigestName, Hasher};
use zi_outcome::{Outcome, put_text};
use zi_outside::Sink;
use zi_shelf::{Shelf, ShelfFault};
use zi_store::{ManifestRead, manifest_of};
use zi_text::{Bytes, Memory, Text};

// The digest of a manifest.
fn digest_of_text(a: Algorithm, text: &[u8]) -> DigestName
    ensures { result ≡ name_of a text.now }
{
    let mut hasher = Hasher::new(a);
    hasher.update(text);
    hasher.finish()
}

// The text and the line of its digest.
fn with_digest(alloc: Global, a: Algorithm, text: Vec<u8>) -> Result<Bytes, Memory>
    ensures { IfOk result (λ all. all ≡ text.items ++ name_line (name_of a text.items)) }
{
    let digest = digest_of_text(a, text.as_slice());
    let mut text = text;
    put_name(alloc, &digest, &mut text)?;
    Ok(Bytes::from_vec(text))
}

// Writes a text and the line of its digest.
#[tactic(auto, using(zi_outcome::proofs::WritingLemmas::printing))]
fn put_digested<O: Sink>(alloc: Global, a: Algorithm, text: Vec<u8>, out: &mut O) -> Outcome
    ensures { Prints (text.items ++ name_line (name_of a text.items)) (O.seen out.old) (O.seen out.new) result }
{
    match with_digest(alloc, a, text) {
        Ok(all) => put_text(all.as_slice(), out),
        Err(Memory) => Outcome::Memory,
    }
}

// Whether no tree was there to be read.
fn is_missing(read: &ManifestRead) -> bool
    ensures { IsTrue result ↔ (read.now ≡ Missing) }
{
    match read {
        ManifestRead::Missing => true,
        _ => false,
    }
}

// What the tree of a name reads as in the first store that has it. The stores behind that one aren't asked.
fn first_manifest<K: Shelf, R: Shelf>(
    alloc: Global,
    algorithm: Algorithm,
    name: &str,
    shelf: &mut K,
    others: &mut [R],
) -> Result<ManifestRead, ShelfFault>
    ensures reads { IfOk result (λ read. FirstReads algorithm (K.seen shelf.old ∷ map R.seen others.old) name.now read) }
    ensures keeps { Each (Keeps is_reading) (K.seen shelf.old ∷ map R.seen others.old) (K.seen shelf.new ∷ map R.seen others.new) }
    ensures cause { result ≡ Err ShelfFault.Failed → SomeFails (K.seen shelf.old ∷ map R.seen others.old) (K.seen shelf.new ∷ map R.seen others.new) }
    ensures calm { (result ≡ Err ShelfFault.Failed → ⊥) → Each IsCalm (K.seen shelf.old ∷ map R.seen others.old) (K.seen shelf.new ∷ map R.seen others.new) }
{
    let mut read = manifest_of(alloc, name, algorithm, shelf)?;
    for other in others.iter_mut() {
        if !is_missing(&read) {
            return Ok(read);
        }
        read = manifest_of(alloc, name, algorithm, other)?;
    }
    Ok(read)
}

/// Writes the manifest of a stored tree by an algorithm, the name of its digest and LF. It is that of the first store that has
/// the tree; those behind it aren't asked.
pub fn manifest<K: Shelf, R: Shelf, O: Sink>(
    alloc: Global,
    algorithm: Algorithm,
    name: Text,
    shelf: &mut K,
    others: &mut [R],
    out: &mut O,
) -> Outcome
    ensures { (feeds : Feeding) → Manifests algorithm name
        (record { feeds = feeds; shelf = K.seen shelf.old; others = map R.seen others.old; out = O.seen out.old })
        (record { feeds = feeds; shelf = K.seen shelf.new; others = map R.seen others.new; out = O.seen out.new })
        result }
{
    match first_manifest(alloc, algorithm, name.as_str(), shelf, others) {
        Ok(ManifestRead::Read(text)) => put_digested(alloc, algorithm, text.into_vec(), out),
        Ok(ManifestRead::Missing) => Outcome::MissingTree { name },
        Ok(ManifestRead::BadName { path }) => Outcome::BadName { path },
        Ok(ManifestRead::TooLarge { what, limit }) => Outcome::TreeTooLarge { what, limit },
        Err(ShelfFault::Failed) => Outcome::StoreFault { name },
        Err(ShelfFault::Memory) => Outcome::Memory,
    }
}
