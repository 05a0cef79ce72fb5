//! Feeds of one form or another.
use crate::limited::{LimitedFeeds, Most};
use std::alloc::Global;
use zi_demo::universe_of;
use zi_outside::{Feeds, FeedsFault, Got, MemoryFeeds, SureFeeds};
use zi_text::Memory;

/// Feeds of which every file is too long.
#[derive(Drop)]
pub(crate) struct LongFeeds;

impl Feeds for LongFeeds {
    ghost use Rattle.std.specs.Prelude.{None, []};

    ghost seen = { λ _. record { told = None; faults = 0; plan = [] } };

    fn get(&mut self, _uri: &str, _limit: u64, _into: &mut Vec<u8>) -> Result<Got, FeedsFault> {
        Ok(Got::TooLong)
    }
}

/// The feeds of a paragraph.
#[derive(Drop)]
pub(crate) enum Held {
    /// Those that are told, which fail where it was planned.
    Planned(MemoryFeeds),
    /// Those of a demonstration, or those that fail where more is asked for than may be.
    Limited(LimitedFeeds),
    /// Those that are too long.
    Long(LongFeeds),
}

impl Held {
    /// The feeds of the demonstration of one, or of forty.
    pub(crate) fn demonstration(alloc: Global, size: &str) -> Result<Held, Memory> {
        let feeds = match size {
            "1" => universe_of(alloc, 1)?,
            _ => universe_of(alloc, 40)?,
        };
        Ok(Held::Limited(LimitedFeeds::new(feeds)))
    }

    /// Sets what a key holds.
    pub(crate) fn put(&mut self, key: &str, bytes: &[u8]) -> Result<(), Memory> {
        match self {
            Held::Planned(feeds) => feeds.put(key, bytes),
            Held::Limited(feeds) => feeds.put(key, bytes),
            Held::Long(_) => Ok(()),
        }
    }

    /// Sets with which limit a key may be asked for. What was told before the first of these is gone.
    pub(crate) fn allow(&mut self, alloc: Global, most: Most) {
        if let Held::Limited(feeds) = self {
            return feeds.allow(most);
        }
        let mut feeds = LimitedFeeds::new(SureFeeds::new(alloc));
        feeds.allow(most);
        *self = Held::Limited(feeds);
    }

    /// Sets the numbers of the calls that fail, where they can.
    pub(crate) fn fail_at(&mut self, calls: &[u32]) -> Result<(), Memory> {
        match self {
            Held::Planned(feeds) => feeds.fail_at(calls),
            _ => Ok(()),
        }
    }
}
