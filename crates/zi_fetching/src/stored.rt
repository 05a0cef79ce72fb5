//! The digest names that are known to be stored.
ghost use Rattle.std.specs.Prelude.{◌≡◌, map, IfOk, OnOk, OnErr};
ghost use Rattle.std.specs.List.{list_any};
ghost use Rattle.zi_digest.specs.Name.{spelling};
ghost use Rattle.zi_universe.specs.Naming.{with_one, joined};
ghost use Rattle.zi_choosing.specs.Knowing.{all_names};
ghost use Rattle.zi_fetching.specs.Known.{names_of, is_known, is_there};

use indexmap::IndexSet;
use std::alloc::Global;
use std::marker::Model;
use zi_digest::DigestName;
use zi_sels::Selection;
use zi_text::{List, Memory, Text};

/// Names of trees that are stored: those that were when a call began, and those that it added. Contracts see the list of their
/// spellings; a name is found in constant time.
pub struct Stored {
    names: IndexSet<Text>,
}

// One call wherever one is dropped.
impl Drop for Stored {
    fn drop(self) {
        let Stored { names: _ } = self;
    }
}

impl Model for Stored {
    ghost use Rattle.zi_fetching.specs.Known.{Names};

    ghost Value = { Names };

    ghost view = { λ s. s.names.keys };
}

impl Stored {
    /// The names of the digests in each of some stores. Memory is the one refusal.
    pub fn of(alloc: Global, each: &[List<DigestName>]) -> Result<Stored, Memory>
        ensures { IfOk result (λ s. s ≡ names_of (all_names each.now)) }
    {
        let mut stored = Stored {
            names: IndexSet::new(alloc),
        };
        for digests in each {
            stored.add_all(alloc, digests.as_slice())?;
        }
        Ok(stored)
    }

    /// The names of more digests.
    fn add_all(&mut self, alloc: Global, digests: &[DigestName]) -> Result<(), Memory>
        ensures { OnOk result (self.new ≡ joined self.old (map spelling digests.now)) }
    {
        for digest in digests {
            self.add(alloc, digest)?;
        }
        Ok(())
    }

    /// One more. Where memory is refused nothing changes.
    pub fn add(&mut self, alloc: Global, digest: &DigestName) -> Result<(), Memory>
        ensures ok { OnOk result (self.new ≡ with_one self.old (spelling digest.now)) }
        ensures err { OnErr result (self.new ≡ self.old) }
    {
        let name = digest.text(alloc)?;
        self.names.insert(name)?;
        Ok(())
    }

    /// Whether one of these is among them.
    pub fn has_any(&self, alloc: Global, digests: &[DigestName]) -> Result<bool, Memory>
        ensures { IfOk result (λ b. b ≡ list_any (is_known self.now) digests.now) }
    {
        let any = holds_any(alloc, &self.names, digests)?;
        Ok(any)
    }
}

// Whether one of the digests has a name among these.
fn holds_any(alloc: Global, names: &IndexSet<Text>, digests: &[DigestName]) -> Result<bool, Memory>
    ensures { IfOk result (λ b. b ≡ list_any (is_known names.now.keys) digests.now) }
{
    for digest in digests {
        let name = digest.text(alloc)?;
        if names.contains(&name) {
            return Ok(true);
        }
    }
    Ok(false)
}

/// Whether what is selected isn't to be fetched: it is local, or a package of the operating system, or one of its digests is among those stored.
pub(crate) fn is_there(alloc: Global, stored: &Stored, item: &Selection) -> Result<bool, Memory>
    ensures { IfOk result (λ b. b ≡ is_there stored.now item.now) }
{
    if item.local.is_some() || item.package.is_some() {
        return Ok(true);
    }
    let any = stored.has_any(alloc, item.digests.as_slice())?;
    Ok(any)
}
