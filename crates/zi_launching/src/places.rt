//! In which store the tree of a digest stands.
ghost use Rattle.std.specs.Prelude.{◌≡◌, IfOk, OnOk};
ghost use Rattle.zi_digest.specs.Name.{spelling};
ghost use Rattle.zi_choice.specs.Tables.{IsAdded};
ghost use Rattle.zi_launching.specs.Folders.{place_in};
ghost use Rattle.zi_launching.specs.Placing.{ArePlaces, IsPlaced, ArePlaced};

use indexmap::IndexMap;
use std::alloc::Global;
use zi_digest::DigestName;
use zi_text::{List, Memory, Text};

/// For each digest the number of the store in which its tree stands: the first that had it when the call began; of one that none
/// had, which the call then added, the one that is written, number 0. A digest is found in constant time.
pub(crate) struct Places {
    // Where there is one store alone, nothing is kept.
    stores: IndexMap<Text, usize>,
}

// One call wherever one is dropped.
impl Drop for Places {
    fn drop(self) {
        let Places { stores: _ } = self;
    }
}

impl Places {
    /// Where the digests of each of some stores stand.
    pub(crate) fn of(alloc: Global, each: &[List<DigestName>]) -> Result<Places, Memory>
        ensures { IfOk result (λ p. ArePlaces each.now p.stores.entries) }
    {
        if each.len() > 1 {
            return place_all(alloc, each);
        }
        Ok(Places {
            stores: IndexMap::new(alloc),
        })
    }

    /// The number of the store in which a digest stands.
    pub(crate) fn place(&self, alloc: Global, digest: &DigestName) -> Result<usize, Memory>
        ensures { IfOk result (λ store. store ≡ place_in self.now.stores.entries digest.now) }
    {
        let name = digest.text(alloc)?;
        Ok(self.stores.get(&name).copied().unwrap_or(0))
    }
}

// One digest more, unless it is there.
fn add(
    alloc: Global,
    stores: &mut IndexMap<Text, usize>,
    digest: &DigestName,
    store: usize,
) -> Result<(), Memory>
    ensures { OnOk result (IsAdded stores.old.entries (spelling digest.now) store stores.new.entries) }
{
    let name = digest.text(alloc)?;
    if stores.contains_key(&name) {
        return Ok(());
    }
    stores.insert(name, store)?;
    Ok(())
}

// Adds the digests of a store, each that isn't there yet.
fn place_store(
    alloc: Global,
    digests: &[DigestName],
    store: usize,
    stores: &mut IndexMap<Text, usize>,
) -> Result<(), Memory>
    ensures { OnOk result (IsPlaced digests.now store stores.old.entries stores.new.entries) }
{
    for digest in digests {
        add(alloc, stores, digest, store)?;
    }
    Ok(())
}

// The first store of each digest, in time linear in their number.
fn place_all(alloc: Global, each: &[List<DigestName>]) -> Result<Places, Memory>
    ensures { IfOk result (λ p. ArePlaced each.now p.stores.entries) }
{
    let mut stores = IndexMap::new(alloc);
    for (store, digests) in each.iter().enumerate() {
        place_store(alloc, digests.as_slice(), store, &mut stores)?;
    }
    Ok(Places { stores })
}
