//! What feeds offer for an interface, and what of it is admitted: their implementations, and behind them those that rows of the
//! packages make which they name. Each candidate keeps the numbers of what it shares with others.
ghost use Rattle.std.specs.Prelude.{◌≡◌, ◌<◌, ◌∷◌, [], ◌++◌, length, slice_get, filter, Some, is_some, IfOk, OnOk, MatchResult};
ghost use Rattle.std.specs.List.{cons_option};
ghost use Rattle.zi_policy.specs.Platform.{is_run, holds_where_asked};
ghost use Rattle.zi_universe.specs.Candidates.{suits, is_followed, has_items, origin_of, standing_of, is_admitted};
ghost use Rattle.zi_universe.specs.Loading.{store_of};
ghost use Rattle.zi_parts.specs.declared.types.Impl.{Impl as AnImpl};
ghost use Rattle.zi_packages.specs.Picks.{AreAt, picked, all_picked};
ghost use Rattle.zi_universe.specs.Stages.{StopsGathering};
ghost use Rattle.zi_universe.specs.Tables.{HasShares, find_feed, feeds_at, as_it_is, held_from, held_by, held};
ghost use Rattle.zi_universe.specs.Offering.{given, candidates_of, IsNumbered, AreNumbered};

use crate::fault::LoadFault;
use crate::limits::MOST_CANDIDATES;
use crate::table::FeedTable;
use crate::types::Candidate;
use crate::wanted::Wanted;
use std::alloc::Global;
use zi_feed::{ReadFeed, Shares};
use zi_inherited::Shared;
use zi_packages::Pick;
use zi_parts::{Impl, Import, Package};
use zi_policy::{Arch, Policy, machine_rank, os_rank};
use zi_rank::{Origin, Standing, place_among, usable};
use zi_text::{List, Memory, Text};

/// A candidate, with what its feed knows of it.
#[derive(Drop)]
pub struct Offered {
    /// The candidate.
    pub candidate: Candidate,
    /// The place of its feed among those of the interface.
    pub feed: usize,
    /// The number of its version there; none for a package, whose version the feed doesn't say.
    pub version: Option<usize>,
    /// That of its languages.
    pub langs: usize,
    /// That of the level whose dependencies it has.
    pub level: usize,
}

/// What feeds offer for an interface.
#[derive(Drop)]
pub struct Offers {
    /// The candidates.
    pub offered: Vec<Offered>,
    /// What the implementations and packages of each feed share.
    pub feeds: List<Shared<Shares>>,
}

/// What a feed of an interface has under a number.
#[derive(Clone, Copy, PartialEq, Eq, Hash)]
pub struct Key {
    /// The place of the feed among those of the interface.
    pub feed: usize,
    /// The number.
    pub number: usize,
}

// Whether languages suit the user: there are none, or one is spoken.
#[tactic(auto, unfolding(crate::specs::Candidates::suits))]
fn suits(wanted: &[Text], langs: &[Text]) -> bool
    ensures { result ≡ suits wanted.now langs.now }
{
    langs.is_empty() || place_among(false, wanted, langs) < wanted.len()
}

// Whether the platform that is asked for is run.
fn is_run(arch: &Option<Arch>, policy: &Policy) -> bool
    ensures { result ≡ holds_where_asked (is_run policy.now) arch.now }
{
    match arch {
        None => true,
        Some(arch) => os_rank(policy, arch).is_some() && machine_rank(policy, arch).is_some(),
    }
}

/// Whether an import isn't skipped.
#[tactic(auto, unfolding(crate::specs::Candidates::is_followed))]
pub fn is_followed(import: &Import, policy: &Policy) -> bool
    ensures { result ≡ is_followed policy.now import.now }
{
    is_run(&import.arch, policy) && suits(policy.langs.as_slice(), import.langs.as_slice())
}

// The same platform once more, where there is one.
fn copy_arch(alloc: Global, arch: &Option<Arch>) -> Result<Option<Arch>, Memory>
    ensures { IfOk result (λ a. a ≡ arch.now) }
{
    match arch {
        None => Ok(None),
        Some(arch) => Ok(Some(arch.copy(alloc)?)),
    }
}

// Whether it is a feed's alone, or a package's.
fn origin_of(package: &Option<Package>) -> Origin
    ensures { result ≡ origin_of «package».now }
{
    match package {
        None => Origin::Feed,
        Some(package) => {
            if package.installed {
                Origin::Installed
            } else {
                Origin::Available
            }
        }
    }
}

// An implementation's standing for an interface.
#[tactic(auto, unfolding(crate::specs::Candidates::standing_of))]
fn standing(
    alloc: Global,
    wanted: &Wanted,
    interface: &Text,
    feed: &Text,
    place: u64,
    imp: &Impl,
) -> Result<Standing, Memory>
    ensures { IfOk result (λ s. s ≡ standing_of wanted.now.policy (store_of wanted.now) interface.now feed.now place imp.now) }
{
    let version = imp.version.copy(alloc)?;
    let id = imp.id.copy(alloc)?;
    let feed = feed.copy(alloc)?;
    let langs = imp.langs.share()?;
    let stored = wanted.is_stored(alloc, imp)?;
    let arch = copy_arch(alloc, &imp.arch)?;
    Ok(Standing {
        version,
        id,
        feed,
        place,
        arch,
        langs,
        stability: wanted.stability(interface, imp),
        local: imp.local.is_some(),
        stored,
        retrievable: !imp.digests.is_empty() && !imp.methods.is_empty(),
        origin: origin_of(&imp.package),
    })
}

// An implementation of a feed as a candidate, if it is admitted.
fn admitted(
    alloc: Global,
    wanted: &Wanted,
    interface: &Text,
    feed: &Text,
    place: u64,
    imp: &Impl,
) -> Result<Option<Candidate>, Memory>
    ensures { IfOk result (λ c. c ≡ given (is_admitted wanted.now.req wanted.now.policy interface.now)
        (as_it_is wanted.now.policy (store_of wanted.now) interface.now feed.now place imp.now)) }
{
    let standing = standing(alloc, wanted, interface, feed, place, imp)?;
    if usable(&standing, wanted.policy()).is_some()
        || !wanted.is_within_limits(interface, &standing.version)
    {
        return Ok(None);
    }
    let imp = imp.copy(alloc)?;
    Ok(Some(Candidate { standing, imp }))
}

impl Offers {
    // Adds a candidate.
    fn push(&mut self, one: Offered) -> Result<(), Memory>
        requires { IsNumbered self.old.feeds one }
        ensures feeds { OnOk result (self.new.feeds ≡ self.old.feeds) }
        ensures held { OnOk result (candidates_of self.new.offered.items ≡ candidates_of self.old.offered.items ++ one.candidate ∷ []) }
        ensures numbered { OnOk result (AreNumbered self.old.feeds self.old.offered.items → AreNumbered self.new.feeds self.new.offered.items) }
    {
        self.offered.push(one)?;
        Ok(())
    }
}

// Adds the implementation at a place of a feed, if it is admitted. The feed stands at a place among those of the interface.
fn offer_at(
    alloc: Global,
    wanted: &Wanted,
    interface: &Text,
    read: &ReadFeed,
    place: usize,
    feed: usize,
    offers: &mut Offers,
) -> Result<(), Memory>
    requires shared { HasShares read.now }
    requires within { place < length read.now.feed.impls }
    requires there { slice_get offers.old.feeds feed ≡ Some read.now.shares }
    ensures feeds { OnOk result (offers.new.feeds ≡ offers.old.feeds) }
    ensures held { OnOk result ((i : AnImpl) → slice_get read.now.feed.impls place ≡ Some i
        → candidates_of offers.new.offered.items ≡ candidates_of offers.old.offered.items
        ++ cons_option (given (is_admitted wanted.now.req wanted.now.policy interface.now)
        (as_it_is wanted.now.policy (store_of wanted.now) interface.now read.now.feed.uri place i)) []) }
    ensures numbered { OnOk result (AreNumbered offers.old.feeds offers.old.offered.items → AreNumbered offers.new.feeds offers.new.offered.items) }
{
    let imp = read.feed.impls.at(place);
    let shares = read.shares.as_ref();
    let numbers = *shares.of.at(place);
    let uri = &read.feed.uri;
    let found = admitted(alloc, wanted, interface, uri, place as u64, imp)?;
    match found {
        None => Ok(()),
        Some(candidate) => offers.push(Offered {
            candidate,
            feed,
            version: Some(numbers.version),
            langs: numbers.langs,
            level: numbers.level,
        }),
    }
}

// Adds the implementation of a row that was picked for a feed, if it is admitted, at a place among those of the feed.
fn offer_row(
    alloc: Global,
    wanted: &Wanted,
    interface: &Text,
    read: &ReadFeed,
    pick: &Pick,
    place: u64,
    feed: usize,
    offers: &mut Offers,
) -> Result<(), Memory>
    requires shared { HasShares read.now }
    requires at { slice_get read.now.feed.natives pick.now.at ≡ Some pick.now.native.now }
    requires there { slice_get offers.old.feeds feed ≡ Some read.now.shares }
    ensures feeds { OnOk result (offers.new.feeds ≡ offers.old.feeds) }
    ensures held { OnOk result (candidates_of offers.new.offered.items ≡ candidates_of offers.old.offered.items
        ++ cons_option (given (is_admitted wanted.now.req wanted.now.policy interface.now)
        (as_it_is wanted.now.policy (store_of wanted.now) interface.now read.now.feed.uri place (picked pick.now))) []) }
    ensures numbered { OnOk result (AreNumbered offers.old.feeds offers.old.offered.items → AreNumbered offers.new.feeds offers.new.offered.items) }
{
    let imp = pick.row.implementation(alloc, pick.native)?;
    let shares = read.shares.as_ref();
    let numbers = *shares.of_natives.at(pick.at);
    let uri = &read.feed.uri;
    let found = admitted(alloc, wanted, interface, uri, place, &imp)?;
    match found {
        None => Ok(()),
        Some(candidate) => offers.push(Offered {
            candidate,
            feed,
            version: None,
            langs: numbers.langs,
            level: numbers.level,
        }),
    }
}

// Adds what the implementations of a feed are for an interface.
fn offer_impls(
    alloc: Global,
    wanted: &Wanted,
    interface: &Text,
    read: &ReadFeed,
    feed: usize,
    offers: &mut Offers,
) -> Result<(), Memory>
    requires shared { HasShares read.now }
    requires there { slice_get offers.old.feeds feed ≡ Some read.now.shares }
    ensures feeds { OnOk result (offers.new.feeds ≡ offers.old.feeds) }
    ensures held { OnOk result (candidates_of offers.new.offered.items ≡ candidates_of offers.old.offered.items
        ++ filter (is_admitted wanted.now.req wanted.now.policy interface.now) (held_from wanted.now.policy (store_of wanted.now) interface.now read.now.feed.uri 0 read.now.feed.impls)) }
    ensures numbered { OnOk result (AreNumbered offers.old.feeds offers.old.offered.items → AreNumbered offers.new.feeds offers.new.offered.items) }
{
    for place in 0..read.feed.impls.len() {
        offer_at(alloc, wanted, interface, read, place, feed, offers)?;
    }
    Ok(())
}

// Adds what the rows that were picked for a feed are for an interface, behind its implementations.
fn offer_rows(
    alloc: Global,
    wanted: &Wanted,
    interface: &Text,
    read: &ReadFeed,
    picks: &[Pick],
    feed: usize,
    offers: &mut Offers,
) -> Result<(), Memory>
    requires shared { HasShares read.now }
    requires at { AreAt read.now.feed.natives picks.now }
    requires there { slice_get offers.old.feeds feed ≡ Some read.now.shares }
    ensures held { OnOk result (candidates_of offers.new.offered.items ≡ candidates_of offers.old.offered.items
        ++ filter (is_admitted wanted.now.req wanted.now.policy interface.now) (held_from wanted.now.policy (store_of wanted.now) interface.now read.now.feed.uri (length read.now.feed.impls) (all_picked picks.now))) }
    ensures numbered { OnOk result (AreNumbered offers.old.feeds offers.old.offered.items → AreNumbered offers.new.feeds offers.new.offered.items) }
{
    let front = read.feed.impls.len();
    // No memory holds more places than numbers tell apart.
    if picks.len() > usize::MAX - front {
        return Err(Memory);
    }
    for n in 0..picks.len() {
        let place = (front + n) as u64;
        offer_row(
            alloc, wanted, interface, read, &picks[n], place, feed, offers,
        )?;
    }
    Ok(())
}

// Adds what a feed has for an interface.
fn offer(
    alloc: Global,
    wanted: &Wanted,
    interface: &Text,
    read: &ReadFeed,
    offers: &mut Offers,
) -> Result<(), Memory>
    requires { HasShares read.now }
    ensures held { OnOk result (candidates_of offers.new.offered.items ≡ candidates_of offers.old.offered.items
        ++ held_by wanted.now.req wanted.now.policy (store_of wanted.now) interface.now read.now.feed) }
    ensures numbered { OnOk result (AreNumbered offers.old.feeds offers.old.offered.items → AreNumbered offers.new.feeds offers.new.offered.items) }
{
    let feed = offers.feeds.len();
    let shares = read.shares.share()?;
    offers.feeds.push(shares)?;
    offer_impls(alloc, wanted, interface, read, feed, offers)?;
    let impls = read.feed.impls.as_slice();
    let natives = read.feed.natives.as_slice();
    let picks = wanted.rows().picks(alloc, impls, natives)?;
    offer_rows(
        alloc,
        wanted,
        interface,
        read,
        picks.as_slice(),
        feed,
        offers,
    )
}

// Adds what the feed of an address has for an interface, where it is there.
fn offer_from(
    alloc: Global,
    wanted: &Wanted,
    interface: &Text,
    table: &FeedTable,
    uri: &Text,
    offers: &mut Offers,
) -> Result<(), Memory>
    ensures held { OnOk result (candidates_of offers.new.offered.items ≡ candidates_of offers.old.offered.items
        ++ held wanted.now.req wanted.now.policy (store_of wanted.now) interface.now (cons_option (find_feed table.now uri.now) [])) }
    ensures numbered { OnOk result (AreNumbered offers.old.feeds offers.old.offered.items → AreNumbered offers.new.feeds offers.new.offered.items) }
{
    match table.find(uri) {
        None => Ok(()),
        Some(read) => offer(alloc, wanted, interface, read, offers),
    }
}

/// The candidates of an interface, in the order of its feeds, which have these addresses. Where a front of the feeds has more than a
/// loading may have, that is refused at once, since feeds may name many packages.
pub fn gather(
    alloc: Global,
    wanted: &Wanted,
    interface: &Text,
    table: &FeedTable,
    here: &[Text],
) -> Result<Offers, LoadFault>
    ensures held { MatchResult result (λ os. candidates_of os.offered.items ≡ held wanted.now.req wanted.now.policy (store_of wanted.now) interface.now (feeds_at table.now here.now))
        (StopsGathering (held wanted.now.req wanted.now.policy (store_of wanted.now) interface.now (feeds_at table.now here.now))) }
    ensures numbered { IfOk result (λ os. AreNumbered os.feeds os.offered.items) }
{
    let offered = Vec::new(alloc);
    let feeds = List::new(alloc);
    let mut offers = Offers { offered, feeds };
    for uri in here {
        offer_from(alloc, wanted, interface, table, uri, &mut offers)?;
        if offers.offered.len() > MOST_CANDIDATES {
            let limit = MOST_CANDIDATES as u64;
            return Err(LoadFault::TooManyCandidates { limit });
        }
    }
    Ok(offers)
}
