//! The work of `store purge`: the files are read, the trees that no selection in them has are taken away, and their names written.
ghost use Rattle.std.specs.Prelude.{◌≡◌, []};
ghost use Rattle.zi_storing.specs.StorePurge.{PurgesFiles, purge_outcome};

use crate::names::put_names;
use std::alloc::Global;
use zi_opening::digests_of_files;
use zi_outcome::Outcome;
use zi_outside::{Feeds, Sink};
use zi_purging::{PurgeFault, purge_store};
use zi_shelf::Shelf;
use zi_text::{List, Text};

// The outcome of a purge that came to no end.
fn failed(fault: PurgeFault) -> Outcome
    ensures { result ≡ purge_outcome fault }
{
    match fault {
        PurgeFault::Crowded { tried } => Outcome::Crowded { tried },
        PurgeFault::Failed { blamed } => Outcome::StoreFault { name: blamed },
        PurgeFault::Memory => Outcome::Memory,
    }
}

/// Reads these files, takes away each tree of the store that is written whose digest no selection in them has, and writes the names
/// of those that are gone. Nothing is taken away where a file isn't got or isn't right. The other stores aren't asked.
pub fn purge<F: Feeds, K: Shelf, O: Sink>(
    alloc: Global,
    files: List<Text>,
    feeds: &mut F,
    shelf: &mut K,
    out: &mut O,
) -> Outcome
    ensures { PurgesFiles files
        (record { feeds = F.seen feeds.old; shelf = K.seen shelf.old; others = []; out = O.seen out.old })
        (record { feeds = F.seen feeds.new; shelf = K.seen shelf.new; others = []; out = O.seen out.new })
        result }
{
    let kept = match digests_of_files(alloc, files.as_slice(), feeds) {
        Ok(kept) => kept,
        Err(outcome) => return outcome,
    };
    match purge_store(alloc, kept, shelf) {
        Ok(purge) => put_names(alloc, purge.gone().as_slice(), out),
        Err(fault) => failed(fault),
    }
}
