//! A store is purged: its names are asked for, and a purger begins and has its steps.
ghost use Rattle.std.specs.Prelude.{◌≡◌, false, map};
ghost use Rattle.zi_digest.specs.Name.{spelling};
ghost use Rattle.zi_purge.specs.Blaming.{blamed, Blames};
ghost use Rattle.zi_purge.specs.Progress.{has_ended};
ghost use Rattle.zi_purge.specs.Stepping.{standing};
ghost use Rattle.zi_purging.specs.Running.{IsEnd, IsRun};
ghost use Rattle.zi_purging.specs.Purging.{Closes, TakesAway, PurgesStore};

use std::alloc::Global;
use zi_digest::DigestName;
use zi_purge::{Purge, PurgeStep};
use zi_shelf::{Shelf, ShelfFault};
use zi_store::stored_names;
use zi_text::{List, Text};

/// Why a purge came to no end.
#[derive(Drop)]
pub enum PurgeFault {
    /// So many temporary names were found taken for one name.
    Crowded { tried: u32 },
    /// The shelf failed at a call that named this temporary name, or none, where the text is empty.
    Failed { blamed: Text },
    /// Memory was refused.
    Memory,
}

/// Steps a purger that hasn't ended until the answer isn't More. Its answer is that of the last step.
fn run<K: Shelf>(alloc: Global, purge: &mut Purge, shelf: &mut K) -> PurgeStep
    requires { has_ended (standing purge.old).phase ≡ false }
    ensures runs { IsRun (standing purge.old) (K.seen shelf.old) result (standing purge.new) (K.seen shelf.new) }
    ensures blames { Blames result (blamed purge.new) }
{
    loop {
        let step = purge.step(alloc, shelf);
        match step {
            PurgeStep::More => {}
            _ => return step,
        }
    }
}

/// What the last step of a purger comes to.
fn close(alloc: Global, purge: Purge, step: PurgeStep) -> Result<Purge, PurgeFault>
    requires { IsEnd step (standing purge) }
    ensures { Closes purge step result }
{
    match step {
        PurgeStep::Done => Ok(purge),
        PurgeStep::Crowded { tried } => Err(PurgeFault::Crowded { tried }),
        PurgeStep::Fault { .. } => Err(PurgeFault::Failed {
            blamed: purge.into_blamed(alloc),
        }),
        PurgeStep::Memory => Err(PurgeFault::Memory),
        PurgeStep::More | PurgeStep::Over => unreachable!(),
    }
}

/// Takes away those of the names that were there that aren't kept.
fn take_away<K: Shelf>(
    alloc: Global,
    kept: List<DigestName>,
    there: List<DigestName>,
    shelf: &mut K,
) -> Result<Purge, PurgeFault>
    ensures { TakesAway (map spelling kept) (map spelling there) (K.seen shelf.old) result (K.seen shelf.new) }
{
    let Ok(purge) = Purge::begin(alloc, kept, there) else {
        return Err(PurgeFault::Memory);
    };
    let mut purge = purge;
    let step = run(alloc, &mut purge, shelf);
    close(alloc, purge, step)
}

/// Takes away the stored trees of a shelf but for those under a kept name. The purger that is given back has ended, and its `gone` are
/// the names that were taken away, in byte order.
///
/// Failed comes only where the shelf's count of faults rose, and Crowded where each of 10,000 temporary names was there. Whatever
/// it comes to, each kept name has what it had, and each other digest name has it or nothing.
pub fn purge_store<K: Shelf>(
    alloc: Global,
    kept: List<DigestName>,
    shelf: &mut K,
) -> Result<Purge, PurgeFault>
    ensures { PurgesStore (map spelling kept) (K.seen shelf.old) result (K.seen shelf.new) }
{
    match stored_names(alloc, shelf) {
        Ok(there) => take_away(alloc, kept, there, shelf),
        Err(ShelfFault::Failed) => Err(PurgeFault::Failed {
            blamed: Text::new(alloc),
        }),
        Err(ShelfFault::Memory) => Err(PurgeFault::Memory),
    }
}
