//! Whether the trees that are to be exposed are what their names say.
ghost use Rattle.std.specs.Prelude.{◌≡◌, ◌≤◌, ◌⊎◌, ◌∷◌, map, length, Ok};
ghost use Rattle.zi_digest.specs.declared.DigestName.{DigestName as Name};
ghost use Rattle.zi_store.specs.Keeping.{Keeps, is_reading};
ghost use Rattle.zi_store.specs.Stores.{Each};
ghost use Rattle.zi_store.specs.KeptNames.{IsKept};
ghost use Rattle.zi_world.specs.Places.{InStore};
ghost use Rattle.zi_launching.specs.Folders.{place_in};
ghost use Rattle.zi_launching.specs.Verifying.{IsDamaged, VerifiesKept, IsCalmBut, VerifiesAll};

use crate::places::Places;
use std::alloc::Global;
use zi_digest::DigestName;
use zi_outcome::Outcome;
use zi_shelf::{Shelf, ShelfFault};
use zi_store::{Checked, Verdict};
use zi_text::Text;

// The outcome of a tree with another digest.
fn damaged(alloc: Global, name: Text, found: &DigestName) -> Outcome
    ensures { IsDamaged name found.now result }
{
    match found.text(alloc) {
        Ok(found) => Outcome::DamagedTree { name, found },
        Err(_) => Outcome::Memory,
    }
}

// Whether a stored tree is what its name says; a name that was found so is kept, and its tree isn't read again. The text of the
// name is made before the tree is read.
#[tactic(auto, using(crate::proofs::LaunchLaws::verifying))]
fn verify_one<K: Shelf>(
    alloc: Global,
    name: &DigestName,
    checked: &mut Checked,
    shelf: &mut K,
) -> Result<(), Outcome>
    ensures verifies { VerifiesKept (IsKept checked.old name.now) name.now (K.seen shelf.old) result (K.seen shelf.new) }
    ensures only { (n : Name) → IsKept checked.new n → IsKept checked.old n ⊎ ((n ≡ name.now) × (result ≡ Ok tt)) }
    ensures keeps { Keeps is_reading (K.seen shelf.old) (K.seen shelf.new) }
{
    let top = name.text(alloc)?;
    match checked.verify(alloc, name, shelf) {
        Ok(Verdict::Sound) => Ok(()),
        Ok(Verdict::Missing) => Err(Outcome::MissingTree { name: top }),
        Ok(Verdict::Damaged { found }) => Err(damaged(alloc, top, &found)),
        Ok(Verdict::BadName { path }) => Err(Outcome::BadName { path }),
        Ok(Verdict::TooLarge { what, limit }) => Err(Outcome::TreeTooLarge { what, limit }),
        Err(ShelfFault::Failed) => Err(Outcome::StoreFault { name: top }),
        Err(ShelfFault::Memory) => Err(Outcome::Memory),
    }
}

// The same of a tree in the store of a number.
fn verify_at<K: Shelf, R: Shelf>(
    alloc: Global,
    name: &DigestName,
    store: usize,
    checked: &mut Checked,
    shelf: &mut K,
    others: &mut [R],
) -> Result<(), Outcome>
    requires { store ≤ length others.old }
    ensures verifies { InStore store (K.seen shelf.old ∷ map R.seen others.old) (K.seen shelf.new ∷ map R.seen others.new) (λ b a. VerifiesKept (IsKept checked.old name.now) name.now b result a) }
    ensures only { (n : Name) → IsKept checked.new n → IsKept checked.old n ⊎ ((n ≡ name.now) × (result ≡ Ok tt)) }
    ensures keeps { Each (Keeps is_reading) (K.seen shelf.old ∷ map R.seen others.old) (K.seen shelf.new ∷ map R.seen others.new) }
    ensures calm { IsCalmBut name.now result (K.seen shelf.old ∷ map R.seen others.old) (K.seen shelf.new ∷ map R.seen others.new) }
{
    if store == 0 {
        return verify_one(alloc, name, checked, shelf);
    }
    verify_one(alloc, name, checked, &mut others[store - 1])
}

/// Reads each of these trees in the store where it stands, in their order and each once, and answers whether all are what their
/// names say, or the first that isn't.
pub(crate) fn verify_all<K: Shelf, R: Shelf>(
    alloc: Global,
    names: &[DigestName],
    places: &Places,
    shelf: &mut K,
    others: &mut [R],
) -> Result<(), Outcome>
    requires { (d : Name) → place_in places.now.stores.entries d ≤ length others.old }
    ensures verifies { VerifiesAll (place_in places.now.stores.entries) names.now (K.seen shelf.old ∷ map R.seen others.old) result (K.seen shelf.new ∷ map R.seen others.new) }
    ensures keeps { Each (Keeps is_reading) (K.seen shelf.old ∷ map R.seen others.old) (K.seen shelf.new ∷ map R.seen others.new) }
{
    let mut checked = Checked::new(alloc);
    for name in names {
        let store = places.place(alloc, name)?;
        verify_at(alloc, name, store, &mut checked, shelf, others)?;
    }
    Ok(())
}
