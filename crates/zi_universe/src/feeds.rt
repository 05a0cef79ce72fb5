//! The feeds of an interface: its own, and what these import, each got once.
ghost use Rattle.std.specs.Prelude.{◌≡◌, ◌<◌, ◌≤◌, ◌∷◌, [], false, length, MatchResult, OnOk};
ghost use Rattle.zi_policy.specs.Platform.{listed};
ghost use Rattle.zi_outside.specs.Views.{holding};
ghost use Rattle.zi_universe.specs.Naming.{joined};
ghost use Rattle.zi_universe.specs.Whole.{most_feeds};
ghost use Rattle.zi_universe.specs.Loading.{AreAsked};
ghost use Rattle.zi_universe.specs.Tables.{addresses, imports_at};
ghost use Rattle.zi_universe.specs.Stages.{GetsOnce, RefusesNext, StopsOnce, HasListed};
ghost use Rattle.zi_universe.specs.Listing.{ListsNext};
ghost use Rattle.zi_universe.specs.Asked.{unless_there, StopsAt, GetsMore, LeavesNext, LeavesListing};

use crate::fault::LoadFault;
use crate::limits::MOST_FEEDS;
use crate::naming::{add_imports, copy_at, single};
use crate::reading::fetch;
use crate::table::FeedTable;
use indexmap::IndexSet;
use std::alloc::Global;
use zi_outside::Feeds;
use zi_policy::Policy;
use zi_text::{Memory, Text};

// Gets the feed at an address that the table doesn't have.
fn get_new<F: Feeds>(
    alloc: Global,
    root: &Text,
    policy: &Policy,
    uri: &Text,
    table: &mut FeedTable,
    feeds: &mut F,
) -> Result<(), LoadFault>
    requires few { length table.old ≤ most_feeds }
    requires new { listed uri.now (addresses table.old) ≡ false }
    ensures got { MatchResult result (λ _. GetsOnce (holding (F.seen feeds.old)) root.now policy.now uri.now table.old table.new)
        (RefusesNext (holding (F.seen feeds.old)) root.now (length table.old) uri.now) }
    ensures asks { MatchResult result (λ _. AreAsked (uri.now ∷ []) (F.seen feeds.old) (F.seen feeds.new)) (λ e. StopsAt uri.now (F.seen feeds.old) e (F.seen feeds.new)) }
{
    if table.len() == MOST_FEEDS {
        let limit = MOST_FEEDS as u64;
        return Err(LoadFault::TooManyFeeds { limit });
    }
    let read = fetch(alloc, root, policy, uri, feeds)?;
    table.push(alloc, read)?;
    Ok(())
}

// Gets the feed at an address, unless the table has it.
fn get_once<F: Feeds>(
    alloc: Global,
    root: &Text,
    policy: &Policy,
    uri: &Text,
    table: &mut FeedTable,
    feeds: &mut F,
) -> Result<(), LoadFault>
    requires { length table.old ≤ most_feeds }
    ensures got { MatchResult result (λ _. GetsOnce (holding (F.seen feeds.old)) root.now policy.now uri.now table.old table.new)
        (StopsOnce (holding (F.seen feeds.old)) root.now uri.now table.old) }
    ensures asks { MatchResult result (λ _. AreAsked (unless_there uri.now (addresses table.old)) (F.seen feeds.old) (F.seen feeds.new)) (λ e. StopsAt uri.now (F.seen feeds.old) e (F.seen feeds.new)) }
{
    if table.has(uri) {
        return Ok(());
    }
    get_new(alloc, root, policy, uri, table, feeds)
}

// Adds what the feed at an address imports.
fn follow(
    alloc: Global,
    policy: &Policy,
    table: &FeedTable,
    uri: &Text,
    here: &mut IndexSet<Text>,
) -> Result<(), Memory>
    ensures { OnOk result (here.new.keys ≡ joined here.old.keys (imports_at policy.now table.now uri.now)) }
{
    match table.find(uri) {
        None => Ok(()),
        Some(read) => add_imports(alloc, policy, &read.feed, here),
    }
}

// Looks at the member of a list at a place: its feed is got, and what it imports is added.
fn list_next<F: Feeds>(
    alloc: Global,
    root: &Text,
    policy: &Policy,
    place: usize,
    here: &mut IndexSet<Text>,
    table: &mut FeedTable,
    feeds: &mut F,
) -> Result<(), LoadFault>
    requires there { place < length here.old.keys }
    requires few { length table.old ≤ most_feeds }
    ensures next { MatchResult result
        (λ _. ListsNext (holding (F.seen feeds.old)) root.now policy.now place here.old.keys here.new.keys table.old table.new)
        (λ e. LeavesNext (holding (F.seen feeds.old)) root.now place here.old.keys table.old (F.seen feeds.old) e (F.seen feeds.new)) }
    ensures asks { OnOk result (GetsMore (addresses table.old) (addresses table.new) (F.seen feeds.old) (F.seen feeds.new)) }
{
    let uri = copy_at(alloc, here, place)?;
    get_once(alloc, root, policy, &uri, table, feeds)?;
    follow(alloc, policy, table, &uri, here)?;
    Ok(())
}

/// The addresses of the feeds of an interface; the table has each of them then.
pub fn list_feeds<F: Feeds>(
    alloc: Global,
    root: &Text,
    policy: &Policy,
    interface: &Text,
    table: &mut FeedTable,
    feeds: &mut F,
) -> Result<IndexSet<Text>, LoadFault>
    requires { length table.old ≤ most_feeds }
    ensures listed { MatchResult result
        (λ here. HasListed (holding (F.seen feeds.old)) root.now policy.now interface.now table.old here.keys (length here.keys) table.new)
        (λ e. LeavesListing (holding (F.seen feeds.old)) root.now policy.now interface.now table.old (F.seen feeds.old) e (F.seen feeds.new)) }
    ensures asks { OnOk result (GetsMore (addresses table.old) (addresses table.new) (F.seen feeds.old) (F.seen feeds.new)) }
{
    let mut here = single(alloc, interface)?;
    let mut n = 0;
    while n < here.len() {
        list_next(alloc, root, policy, n, &mut here, table, feeds)?;
        n += 1;
    }
    Ok(here)
}
