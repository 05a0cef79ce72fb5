ghost use Rattle.std.specs.Prelude.{◌≡◌, OnOk, OnErr};
ghost use Rattle.zi_outside.specs.Memory.{PutsUnder, no_feeds};
ghost use Rattle.zi_outside.specs.MemoryWebs.{web_told, web_seen};

use crate::memory_feeds::MemoryFeeds;
use crate::web::web_answer;
use crate::{Feeds, Got, Web, WebFault};
use std::alloc::Global;
use zi_text::{Memory, Text};

/// A web in memory, whose calls fail where they were told so, and nowhere else: feeds in memory under web addresses.
#[derive(Debug, Drop)]
pub struct MemoryWeb {
    feeds: MemoryFeeds,
}

impl MemoryWeb {
    /// An empty web, no fault, and no address asked for.
    pub fn new(alloc: Global) -> MemoryWeb
        ensures { web_seen result ≡ no_feeds }
    {
        MemoryWeb {
            feeds: MemoryFeeds::new(alloc),
        }
    }

    /// Sets what an address holds. Where memory is refused nothing changes.
    pub fn put(&mut self, href: &str, bytes: &[u8]) -> Result<(), Memory>
        ensures ok { OnOk result (PutsUnder (web_told self.old).holds href.now bytes.now (web_told self.new).holds) }
        ensures err { OnErr result (web_seen self.new ≡ web_seen self.old) }
        ensures asked { (web_told self.new).asked ≡ (web_told self.old).asked }
        ensures faults { (web_seen self.new).faults ≡ (web_seen self.old).faults }
        ensures plan { (web_seen self.new).plan ≡ (web_seen self.old).plan }
    {
        self.feeds.put(href, bytes)
    }

    /// Sets the numbers of the calls that are to fail, counted from 1 by the addresses asked for. Where memory is refused
    /// nothing changes.
    pub fn fail_at(&mut self, calls: &[u32]) -> Result<(), Memory>
        ensures ok { OnOk result (web_seen self.new ≡ record (web_seen self.old) { plan = calls.now }) }
        ensures err { OnErr result (web_seen self.new ≡ web_seen self.old) }
    {
        self.feeds.fail_at(calls)
    }

    /// The addresses asked for so far, the oldest first.
    pub fn asked(&self) -> &[Text]
        ensures { result.now ≡ (web_told self.now).asked }
    {
        self.feeds.asked()
    }
}

impl Web for MemoryWeb {
    ghost seen = { web_seen };

    fn get(&mut self, href: &str, limit: u64, into: &mut Vec<u8>) -> Result<Got, WebFault> {
        web_answer(self.feeds.get(href, limit, into))
    }
}
