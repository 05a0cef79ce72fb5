//! The work of `store verify`.
ghost use Rattle.std.specs.Prelude.{◌≡◌, ◌↔◌, ◌∷◌, map, Ok, Err, IsTrue, IfOk};
ghost use Rattle.zi_digest.specs.Name.{spelling};
ghost use Rattle.zi_outside.specs.Views.{Feeding};
ghost use Rattle.zi_text.specs.Count.{Rose};
ghost use Rattle.zi_store.specs.Keeping.{Keeps, is_reading};
ghost use Rattle.zi_store.specs.Stores.{Each, IsCalm, SomeFails};
ghost use Rattle.zi_store.specs.declared.verdicts.Verdict.TheVariants.{Damaged};
ghost use Rattle.zi_store.specs.Verdicts.{Verifies};
ghost use Rattle.zi_outcome.specs.declared.outcome.Outcome.TheVariants.{DamagedTree};
ghost use Rattle.zi_outcome.specs.Writing.{PutsAll, PrintsThen};
ghost use Rattle.zi_world.specs.Shelves.{Held};
ghost use Rattle.zi_storing.specs.StoreVerify.{ChecksAs, TellsCheck, FirstChecks, VerifiesTree, difference_text};
ghost use Rattle.zi_storing.specs.declared.checked.Checked.TheVariants.{Missing};

use crate::difference::{Difference, difference_of};
use std::alloc::Global;
use zi_digest::DigestName;
use zi_outcome::{Outcome, put_around, put_piece, put_text};
use zi_outside::{Sink, SinkFault};
use zi_shelf::{Shelf, ShelfFault};
use zi_store::{Verdict, verify};
use zi_text::Text;
use zi_tree::TreeLimit;

/// What is said of a stored tree.
#[derive(Drop)]
pub enum Checked {
    /// Its digest is its name.
    Sound,
    /// Its digest is another, and the manifest that stands in it differs so from the computed one.
    Damaged {
        found: DigestName,
        difference: Difference,
    },
    /// No tree is stored under the name.
    Missing,
    /// It has a name that no manifest has.
    BadName {
        path: Text,
    },
    /// It passes this limit.
    TooLarge {
        what: TreeLimit,
        limit: u64,
    },
}

// What is said of a damaged tree.
fn damaged<K: Shelf>(
    alloc: Global,
    name: &DigestName,
    found: DigestName,
    top: &str,
    shelf: &mut K,
) -> Result<Checked, ShelfFault>
    requires { top.now ≡ spelling name.now }
    ensures checks { Held (K.seen shelf.old) (λ s. Verifies name.now (Ok (Damaged found)) s → IfOk result (λ c. ChecksAs name.now c s)) }
    ensures keeps { Keeps is_reading (K.seen shelf.old) (K.seen shelf.new) }
    ensures cause { result ≡ Err ShelfFault.Failed → Rose (K.seen shelf.old).faults (K.seen shelf.new).faults }
    ensures count { (result ≡ Err ShelfFault.Failed → ⊥) → (K.seen shelf.new).faults ≡ (K.seen shelf.old).faults }
    ensures sure { (K.seen shelf.old).sure → result ≡ Err ShelfFault.Failed → ⊥ }
{
    match difference_of(alloc, name.algorithm(), top, shelf) {
        Ok(difference) => Ok(Checked::Damaged { found, difference }),
        Err(fault) => Err(fault),
    }
}

// What is said of the tree under a name.
fn check<K: Shelf>(
    alloc: Global,
    name: &DigestName,
    top: &str,
    shelf: &mut K,
) -> Result<Checked, ShelfFault>
    requires { top.now ≡ spelling name.now }
    ensures checks { Held (K.seen shelf.old) (λ s. IfOk result (λ c. ChecksAs name.now c s)) }
    ensures keeps { Keeps is_reading (K.seen shelf.old) (K.seen shelf.new) }
    ensures cause { result ≡ Err ShelfFault.Failed → Rose (K.seen shelf.old).faults (K.seen shelf.new).faults }
    ensures count { (result ≡ Err ShelfFault.Failed → ⊥) → (K.seen shelf.new).faults ≡ (K.seen shelf.old).faults }
    ensures sure { (K.seen shelf.old).sure → result ≡ Err ShelfFault.Failed → ⊥ }
{
    match verify(alloc, name, shelf) {
        Ok(Verdict::Damaged { found }) => damaged(alloc, name, found, top, shelf),
        Ok(Verdict::Sound) => Ok(Checked::Sound),
        Ok(Verdict::Missing) => Ok(Checked::Missing),
        Ok(Verdict::BadName { path }) => Ok(Checked::BadName { path }),
        Ok(Verdict::TooLarge { what, limit }) => Ok(Checked::TooLarge { what, limit }),
        Err(fault) => Err(fault),
    }
}

// The line of a difference.
fn put_difference<O: Sink>(difference: Difference, out: &mut O) -> Result<(), SinkFault>
    ensures { PutsAll (O.seen out.old) (difference_text difference) result (O.seen out.new) }
{
    match difference {
        Difference::NoManifest => put_piece(b"no manifest\n", out),
        Difference::Agrees => put_piece(b"manifest agrees\n", out),
        Difference::FirstIn(line) => put_around(b"manifest line ", line, b"\n", out),
    }
}

// The line of a difference, and then the outcome of a damaged tree.
#[tactic(auto, using(zi_outcome::proofs::WritingLemmas::printing))]
fn blame<O: Sink>(
    alloc: Global,
    name: Text,
    found: &DigestName,
    difference: Difference,
    out: &mut O,
) -> Outcome
    ensures { PrintsThen (difference_text difference) (DamagedTree name (spelling found.now)) (O.seen out.old) (O.seen out.new) result }
{
    let Ok(found) = found.text(alloc) else {
        return Outcome::Memory;
    };
    match put_difference(difference, out) {
        Ok(()) => Outcome::DamagedTree { name, found },
        Err(SinkFault::Failed) => Outcome::SinkFault,
        Err(SinkFault::Memory) => Outcome::Memory,
    }
}

// Tells what is said of the tree under a name.
fn tell_check<O: Sink>(
    alloc: Global,
    name: &DigestName,
    top: Text,
    c: Checked,
    out: &mut O,
) -> Outcome
    requires { top ≡ spelling name.now }
    ensures { TellsCheck name.now c (O.seen out.old) (O.seen out.new) result }
{
    match c {
        Checked::Sound => put_text(b"sound\n", out),
        Checked::Damaged { found, difference } => blame(alloc, top, &found, difference, out),
        Checked::Missing => Outcome::MissingTree { name: top },
        Checked::BadName { path } => Outcome::BadName { path },
        Checked::TooLarge { what, limit } => Outcome::TreeTooLarge { what, limit },
    }
}

// Whether no tree is there.
fn is_missing(c: &Checked) -> bool
    ensures { IsTrue result ↔ (c.now ≡ Missing) }
{
    match c {
        Checked::Missing => true,
        _ => false,
    }
}

// What is said of the tree under a name in the first store that has one. The stores behind that one aren't asked.
fn first_check<K: Shelf, R: Shelf>(
    alloc: Global,
    name: &DigestName,
    top: &str,
    shelf: &mut K,
    others: &mut [R],
) -> Result<Checked, ShelfFault>
    requires { top.now ≡ spelling name.now }
    ensures checks { IfOk result (λ c. FirstChecks name.now (K.seen shelf.old ∷ map R.seen others.old) c) }
    ensures keeps { Each (Keeps is_reading) (K.seen shelf.old ∷ map R.seen others.old) (K.seen shelf.new ∷ map R.seen others.new) }
    ensures cause { result ≡ Err ShelfFault.Failed → SomeFails (K.seen shelf.old ∷ map R.seen others.old) (K.seen shelf.new ∷ map R.seen others.new) }
    ensures calm { (result ≡ Err ShelfFault.Failed → ⊥) → Each IsCalm (K.seen shelf.old ∷ map R.seen others.old) (K.seen shelf.new ∷ map R.seen others.new) }
{
    let mut said = check(alloc, name, top, shelf)?;
    for other in others.iter_mut() {
        if !is_missing(&said) {
            return Ok(said);
        }
        said = check(alloc, name, top, other)?;
    }
    Ok(said)
}

/// Says whether a tree has the digest that its name says, in the first store that has it, and where it hasn't, how the manifest
/// that stands in it differs from the computed one. The tree is read for the digest and once more for the difference: who changes
/// it in between gets the difference of the later one, or none.
pub fn verify_tree<K: Shelf, R: Shelf, O: Sink>(
    alloc: Global,
    name: DigestName,
    shelf: &mut K,
    others: &mut [R],
    out: &mut O,
) -> Outcome
    ensures { (feeds : Feeding) → VerifiesTree name
        (record { feeds = feeds; shelf = K.seen shelf.old; others = map R.seen others.old; out = O.seen out.old })
        (record { feeds = feeds; shelf = K.seen shelf.new; others = map R.seen others.new; out = O.seen out.new })
        result }
{
    let Ok(top) = name.text(alloc) else {
        return Outcome::Memory;
    };
    match first_check(alloc, &name, top.as_str(), shelf, others) {
        Ok(c) => tell_check(alloc, &name, top, c, out),
        Err(ShelfFault::Failed) => Outcome::StoreFault { name: top },
        Err(ShelfFault::Memory) => Outcome::Memory,
    }
}
