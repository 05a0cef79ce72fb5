//! What is known before loading.
ghost use Rattle.std.specs.Prelude.{◌≡◌, ◌∷◌, ◌++◌, map, IfOk, IfErr, IfSome, OnOk};
ghost use Rattle.zi_store.specs.Keeping.{Keeps, is_names};
ghost use Rattle.zi_store.specs.Stores.{Each};
ghost use Rattle.zi_universe.specs.Loading.{names_of, LoadsAsking, RefusesAsking};
ghost use Rattle.zi_universe.specs.Whole.{BeginsWith};
ghost use Rattle.zi_sels_laws.specs.Rows.{HasRightRows};
ghost use Rattle.zi_world.specs.Asking.{FeedsStay};
ghost use Rattle.zi_choosing.specs.Knowing.{all_names, AreNamed, IsKnown};

use crate::table::packages_in;
use crate::wanted::Job;
use std::alloc::Global;
use zi_digest::DigestName;
use zi_outcome::Outcome;
use zi_outside::Feeds;
use zi_packages::Packages;
use zi_shelf::{Shelf, ShelfFault};
use zi_store::names_of_each;
use zi_text::{List, Memory, Text};
use zi_universe::{LoadFault, Universe, load};

/// What is known before loading.
#[derive(Drop)]
pub struct Known {
    /// The digest names in each store, in byte order of their spellings: those in the store that is written, then those in each
    /// of the others, in the order in which they are searched.
    pub each: List<List<DigestName>>,
    /// The packages of the operating system, of which those that feeds name are candidates.
    pub packages: Packages,
}

/// The digest names in each store. Each store is asked for its names once.
///
/// `StoreFault` with the empty name comes only where a store failed, `Memory` where memory is refused.
pub fn find_names<K: Shelf, R: Shelf>(
    alloc: Global,
    shelf: &mut K,
    others: &mut [R],
) -> Result<List<List<DigestName>>, Outcome>
    ensures named { AreNamed (K.seen shelf.old ∷ map R.seen others.old) (K.seen shelf.new ∷ map R.seen others.new) result }
    ensures keeps { Each (Keeps is_names) (K.seen shelf.old ∷ map R.seen others.old) (K.seen shelf.new ∷ map R.seen others.new) }
{
    match names_of_each(alloc, shelf, others) {
        Ok(each) => Ok(each),
        Err(ShelfFault::Failed) => Err(Outcome::StoreFault {
            name: Text::new(alloc),
        }),
        Err(ShelfFault::Memory) => Err(Outcome::Memory),
    }
}

/// What is known before loading: the digest names in each store, and then, by the table in a file, the packages of the operating system.
///
/// Where a store failed, or memory was refused before, the feeds aren't asked. `FeedRead`, `NoFile`, `FeedTooLong` and `BadPackages` are
/// those of the table.
pub(crate) fn known_of<F: Feeds, K: Shelf, R: Shelf>(
    alloc: Global,
    table: Option<Text>,
    feeds: &mut F,
    shelf: &mut K,
    others: &mut [R],
) -> Result<Known, Outcome>
    ensures known { IsKnown table
        (record { feeds = F.seen feeds.old; stores = K.seen shelf.old ∷ map R.seen others.old })
        (record { feeds = F.seen feeds.new; stores = K.seen shelf.new ∷ map R.seen others.new })
        result }
    ensures rows { IfOk result (λ known. HasRightRows known.packages) }
    ensures keeps { Each (Keeps is_names) (K.seen shelf.old ∷ map R.seen others.old) (K.seen shelf.new ∷ map R.seen others.new) }
    ensures stays { FeedsStay (F.seen feeds.old) (F.seen feeds.new) }
{
    let each = find_names(alloc, shelf, others)?;
    let packages = packages_in(alloc, table, feeds)?;
    Ok(Known { each, packages })
}

// Adds digest names.
fn add_names(digests: &[DigestName], names: &mut List<DigestName>) -> Result<(), Memory>
    ensures { OnOk result (names.new ≡ names.old ++ digests.now) }
{
    for digest in digests {
        names.push(*digest)?;
    }
    Ok(())
}

// The digest names in all stores.
fn all_names(alloc: Global, each: &[List<DigestName>]) -> Result<List<DigestName>, Memory>
    ensures { IfOk result (λ names. names ≡ all_names each.now) }
{
    let mut names = List::new(alloc);
    for digests in each {
        add_names(digests.as_slice(), &mut names)?;
    }
    Ok(names)
}

// The digest names where there is one store alone.
fn lone(each: &[List<DigestName>]) -> Option<&[DigestName]>
    ensures { IfSome result (λ names. names.now ≡ all_names each.now) }
{
    if each.len() == 1 {
        return Some(each[0].as_slice());
    }
    None
}

/// Loads what is asked for over what is known. The names of one store alone are handed on as they are.
pub(crate) fn load_over<F: Feeds>(
    alloc: Global,
    job: &Job,
    known: &Known,
    feeds: &mut F,
) -> Result<Universe, LoadFault>
    ensures loads { IfOk result (λ u. LoadsAsking (record { req = job.now.req; policy = job.now.policy; stored = names_of (all_names known.now.each) known.now.packages }) (F.seen feeds.old) u (F.seen feeds.new)) }
    ensures refuses { IfErr result (λ e. RefusesAsking (record { req = job.now.req; policy = job.now.policy; stored = names_of (all_names known.now.each) known.now.packages }) (F.seen feeds.old) e (F.seen feeds.new)) }
    ensures rooted { IfOk result (λ u. BeginsWith u job.now.req.interface) }
{
    let each = known.each.as_slice();
    if let Some(names) = lone(each) {
        return load(alloc, &job.req, &job.policy, names, &known.packages, feeds);
    }
    let Ok(names) = all_names(alloc, each) else {
        return Err(LoadFault::Memory);
    };
    load(
        alloc,
        &job.req,
        &job.policy,
        names.as_slice(),
        &known.packages,
        feeds,
    )
}
