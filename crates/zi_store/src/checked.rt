//! Trees that were verified once.

ghost use Rattle.std.specs.Prelude.{◌≡◌, ◌⊎◌, true, false, Ok, Err, Some, OnOk};
ghost use Rattle.std.specs.Option.{option_copied};
ghost use Rattle.zi_digest.specs.Name.{spelling, IsDigest};
ghost use Rattle.zi_digest.specs.declared.DigestName.{DigestName as Name};
ghost use Rattle.zi_text.specs.Count.{Rose};
ghost use Rattle.zi_shelf.specs.Told.{Told};
ghost use Rattle.zi_store.specs.Keeping.{Keeps, is_reading};
ghost use Rattle.zi_store.specs.Kept.{HoldsSound};
ghost use Rattle.zi_store.specs.KeptNames.{IsKept};
ghost use Rattle.zi_store.specs.Verdicts.{Verifies};

use crate::verdicts::{Verdict, verify};
use std::alloc::Global;
use std::collections::BTreeMap;
use zi_digest::DigestName;
use zi_digest::laws::spelling_is_one_to_one;
use zi_shelf::{Shelf, ShelfFault};
use zi_text::{Memory, Text};

/// The names of trees that were found sound: a tree is verified once, and its name is then answered without a call on the shelf.
/// What is answered of a kept name holds as long as its tree stays as it was.
#[derive(Drop)]
pub struct Checked {
    /// By their spellings.
    sound: BTreeMap<Text, DigestName>,
}

impl Checked {
    /// No name. It takes no memory; it grows by this allocator.
    pub fn new(alloc: Global) -> Checked
        ensures { (name : Name) → IsKept result name → ⊥ }
    {
        Checked {
            sound: BTreeMap::new(alloc),
        }
    }

    /// Whether a stored tree is what its name says, as `verify` says it. The name is kept where the answer is Sound, and a kept
    /// name is answered without a call on the shelf: by what was found before, so that is its answer as long as the tree is still
    /// there, of this digest, and within the limits as read.
    ///
    /// Failed comes only where the shelf's count of faults rose, Memory where memory is refused.
    pub fn verify<K: Shelf>(
        &mut self,
        alloc: Global,
        name: &DigestName,
        k: &mut K,
    ) -> Result<Verdict, ShelfFault>
        ensures verdict { (s : Told) → (K.seen k.old).honest → (K.seen k.old).told ≡ Some s → (IsKept self.old name.now → HoldsSound name.now s.shelf) → Verifies name.now result s.shelf }
        ensures only { (n : Name) → IsKept self.new n → IsKept self.old n ⊎ ((n ≡ name.now) × (result ≡ Ok Verdict.Sound)) }
        ensures still { (n : Name) → IsDigest n → IsKept self.old n → IsKept self.new n }
        ensures sound { result ≡ Ok Verdict.Sound → IsKept self.new name.now }
        ensures once { IsKept self.old name.now → k.new ≡ k.old }
        ensures keeps { Keeps is_reading (K.seen k.old) (K.seen k.new) }
        ensures cause { result ≡ Err ShelfFault.Failed → Rose ((K.seen k.old).faults) ((K.seen k.new).faults) }
        ensures count { (result ≡ Err ShelfFault.Failed → ⊥) → (K.seen k.new).faults ≡ (K.seen k.old).faults }
        ensures sure { (K.seen k.old).sure → result ≡ Err ShelfFault.Failed → ⊥ }
    {
        let spelled = name.text(alloc)?;
        if is_one(self.sound.get(&spelled), name) {
            return Ok(Verdict::Sound);
        }
        let verdict = verify(alloc, name, k)?;
        if !is_sound(&verdict) {
            return Ok(verdict);
        }
        self.keep(spelled, name)?;
        Ok(Verdict::Sound)
    }

    /// Keeps a name, under its spelling.
    fn keep(&mut self, spelled: Text, name: &DigestName) -> Result<(), Memory>
        requires { spelled ≡ spelling name.now }
        ensures only { (n : Name) → IsKept self.new n → IsKept self.old n ⊎ ((n ≡ name.now) × (result ≡ Ok tt)) }
        ensures still { (n : Name) → IsDigest n → IsKept self.old n → IsKept self.new n }
        ensures there { OnOk result (IsKept self.new name.now) }
    {
        spelling_is_one_to_one();
        whole_digest(*name);
        self.sound.insert(spelled, *name)?;
        Ok(())
    }
}

/// Whether this is the name.
fn is_one(kept: Option<&DigestName>, name: &DigestName) -> bool
    ensures yes { result ≡ true → option_copied kept.entry ≡ Some name.now }
    ensures no { result ≡ false → option_copied kept.entry ≡ Some name.now → ⊥ }
{
    match kept {
        Some(kept) => *kept == *name,
        None => false,
    }
}

/// Whether the tree is what its name says.
fn is_sound(verdict: &Verdict) -> bool
    ensures yes { result ≡ true → verdict.now ≡ Verdict.Sound }
    ensures no { result ≡ false → verdict.now ≡ Verdict.Sound → ⊥ }
{
    matches!(verdict, Verdict::Sound)
}

/// What every digest keeps, for a proof: it has its algorithm's number of bytes.
fn whole_digest(name: DigestName)
    ensures { IsDigest name }
{
    match name {
        DigestName::Sha1new(bytes) => {
            let _bytes = bytes.as_slice();
        }
        DigestName::Sha256(bytes) => {
            let _bytes = bytes.as_slice();
        }
        DigestName::Sha256new(bytes) => {
            let _bytes = bytes.as_slice();
        }
    }
}
