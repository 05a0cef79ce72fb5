//! One feed: its bytes are got and read.
ghost use Rattle.std.specs.Prelude.{◌≡◌, ◌≢◌, ◌∷◌, [], IfOk, MatchResult};
ghost use Rattle.zi_outside.specs.Views.{holding};
ghost use Rattle.zi_universe.specs.Loading.{no_feed, AreAsked};
ghost use Rattle.zi_feed.specs.Shares.{AreShared, NativesAreShared};
ghost use Rattle.zi_universe.specs.Tables.{HasShares};
ghost use Rattle.zi_universe.specs.Stages.{SaysActive, Fetches, RefusesBytes, feed_got};
ghost use Rattle.zi_universe.specs.Asked.{StopsAt};

use crate::fault::{BadFeed, LoadFault};
use crate::limits::FEED_LIMIT;
use std::alloc::Global;
use zi_doc::DocFault;
use zi_faults::FeedFault;
use zi_feed::{Feed, ReadFeed, Shares};
use zi_inherited::Shared;
use zi_outside::{Feeds, FeedsFault, Got};
use zi_policy::Policy;
use zi_text::{List, Memory, Text};

// What is active under a policy of the feed that bytes say, read under an address.
fn read_bytes(
    alloc: Global,
    policy: &Policy,
    uri: Text,
    bytes: &[u8],
) -> Result<ReadFeed, LoadFault>
    ensures reads { MatchResult (feed_got result) (SaysActive policy.now uri bytes.now) (RefusesBytes uri bytes.now) }
    ensures shares { IfOk result (λ r. HasShares r) }
{
    let tree = match zi_doc::read(alloc, bytes) {
        Ok(tree) => tree,
        Err(DocFault::Bad { kind, place }) => {
            let fault = BadFeed::Doc { kind, place };
            return Err(LoadFault::BadFeed { uri, fault });
        }
        Err(DocFault::Memory) => return Err(LoadFault::Memory),
    };
    match Feed::active_from_tree(alloc, &tree, uri.as_str(), policy) {
        Ok(read) => Ok(read),
        Err(FeedFault::Bad { kind, place }) => {
            let fault = BadFeed::Feed { kind, place };
            Err(LoadFault::BadFeed { uri, fault })
        }
        Err(FeedFault::Memory) => Err(LoadFault::Memory),
    }
}

// What no implementation and no package shares.
fn no_shares(alloc: Global) -> Result<Shared<Shares>, Memory>
    ensures { IfOk result (λ s. AreShared s [] × NativesAreShared s []) }
{
    let shares = Shares::nothing(alloc)?;
    let held = Shared::new(alloc, shares)?;
    Ok(held)
}

// The feed of an address that is absent: the root's is needed.
fn absent(
    alloc: Global,
    root: &Text,
    uri: Text,
    shares: Shared<Shares>,
) -> Result<ReadFeed, LoadFault>
    requires { AreShared shares [] × NativesAreShared shares [] }
    ensures reads { MatchResult (feed_got result) (λ feed. (uri ≢ root.now) × (feed ≡ no_feed uri)) (λ e. (uri ≡ root.now) × (e ≡ LoadFault.NoRootFeed)) }
    ensures shares { IfOk result (λ r. HasShares r) }
{
    if &uri == root {
        return Err(LoadFault::NoRootFeed);
    }
    let imports = List::new(alloc);
    let impls = List::new(alloc);
    let natives = List::new(alloc);
    let feed = Feed {
        uri,
        imports,
        impls,
        natives,
    };
    Ok(ReadFeed { feed, shares })
}

/// What is active under a policy of the feed at an address; an absent one says nothing, unless it is the root's. What a fault says is made before the call, so
/// that a failed call is never told as want of memory.
pub fn fetch<F: Feeds>(
    alloc: Global,
    root: &Text,
    policy: &Policy,
    uri: &Text,
    feeds: &mut F,
) -> Result<ReadFeed, LoadFault>
    ensures fetched { Fetches (holding (F.seen feeds.old)) root.now policy.now uri.now (feed_got result) }
    ensures shares { IfOk result (λ r. HasShares r) }
    ensures asks { MatchResult result (λ _. AreAsked (uri.now ∷ []) (F.seen feeds.old) (F.seen feeds.new)) (λ e. StopsAt uri.now (F.seen feeds.old) e (F.seen feeds.new)) }
{
    let named = uri.copy(alloc)?;
    let mut bytes = Vec::new(alloc);
    match feeds.get(uri.as_str(), FEED_LIMIT, &mut bytes) {
        Ok(Got::Held) => read_bytes(alloc, policy, named, bytes.as_slice()),
        Ok(Got::Absent) => {
            let none = no_shares(alloc)?;
            absent(alloc, root, named, none)
        }
        Ok(Got::TooLong) => {
            let limit = FEED_LIMIT;
            Err(LoadFault::FeedTooLong { uri: named, limit })
        }
        Err(FeedsFault::Failed) => Err(LoadFault::FeedRead { uri: named }),
        Err(FeedsFault::Memory) => Err(LoadFault::Memory),
    }
}
