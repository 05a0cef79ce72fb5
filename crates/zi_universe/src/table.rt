//! The feeds got so far, by their addresses, each with what its implementations and packages share.
ghost use Rattle.std.specs.Prelude.{◌≡◌, ◌∷◌, [], ◌++◌, false, OnOk, IfSome, option_copied, option_map, length};
ghost use Rattle.zi_policy.specs.Platform.{listed};
ghost use Rattle.zi_universe.specs.Tables.{HasShares, addresses, find_feed};

use indexmap::IndexMap;
use std::alloc::Global;
use std::marker::Model;
use zi_feed::ReadFeed;
use zi_text::{Memory, Text};

/// Feeds of distinct addresses, in the order in which they were got. Contracts see the list of them.
pub struct FeedTable {
    feeds: IndexMap<Text, ReadFeed>,
}

// One call wherever one is dropped.
impl Drop for FeedTable {
    fn drop(self) {
        let FeedTable { feeds: _ } = self;
    }
}

impl Model for FeedTable {
    ghost use Rattle.std.specs.Prelude.{List, map, All, ◌≡◌};
    ghost use Rattle.zi_feed.specs.declared.feed.Feed.{Feed as AFeed};
    ghost use Rattle.zi_universe.specs.Tables.{HasShares};

    ghost Value = { List AFeed };

    ghost view = { λ t. map (λ e. e.1.feed) t.feeds.entries };

    // each stands under its address, and the shares are those of what it says
    ghost invariant = { λ t. All (λ e. (e.0 ≡ e.1.feed.uri) × HasShares e.1) t.feeds.entries };
}

impl FeedTable {
    /// No feed.
    pub fn new(alloc: Global) -> FeedTable
        ensures { result ≡ [] }
    {
        FeedTable {
            feeds: IndexMap::new(alloc),
        }
    }

    /// The number of feeds.
    pub fn len(&self) -> usize
        ensures { result ≡ length self.now }
    {
        self.feeds.len()
    }

    /// The feed of an address, where it is there, with what its implementations and packages share.
    pub fn find(&self, uri: &Text) -> Option<&ReadFeed>
        ensures feed { option_map (λ r. r.feed) (option_copied result) ≡ find_feed self.now uri.now }
        ensures shared { IfSome result (λ r. HasShares r.now) }
    {
        self.feeds.get(uri)
    }

    /// Whether there is a feed of an address.
    pub fn has(&self, uri: &Text) -> bool
        ensures { result ≡ listed uri.now (addresses self.now) }
    {
        self.find(uri).is_some()
    }

    /// Adds a feed whose address isn't there yet.
    pub fn push(&mut self, alloc: Global, read: ReadFeed) -> Result<(), Memory>
        requires new { listed read.feed.uri (addresses self.old) ≡ false }
        requires shared { HasShares read }
        ensures { OnOk result (self.new ≡ self.old ++ read.feed ∷ []) }
    {
        let uri = read.feed.uri.copy(alloc)?;
        self.feeds.insert(uri, read)?;
        Ok(())
    }
}
