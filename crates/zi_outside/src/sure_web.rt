ghost use Rattle.std.specs.Prelude.{◌≡◌, OnOk, OnErr};
ghost use Rattle.zi_outside.specs.Memory.{PutsUnder, no_feeds};
ghost use Rattle.zi_outside.specs.MemoryWebs.{sure_web_told, sure_web_seen};

use crate::sure_feeds::SureFeeds;
use crate::web::web_answer;
use crate::{Feeds, Got, Web, WebFault};
use std::alloc::Global;
use zi_text::{Memory, Text};

/// A web in memory that never fails.
#[derive(Debug, Drop)]
pub struct SureWeb {
    feeds: SureFeeds,
}

impl SureWeb {
    /// An empty web, and no address asked for.
    pub fn new(alloc: Global) -> SureWeb
        ensures { sure_web_seen result ≡ no_feeds }
    {
        SureWeb {
            feeds: SureFeeds::new(alloc),
        }
    }

    /// Sets what an address holds. Where memory is refused nothing changes.
    pub fn put(&mut self, href: &str, bytes: &[u8]) -> Result<(), Memory>
        ensures ok { OnOk result (PutsUnder (sure_web_told self.old).holds href.now bytes.now (sure_web_told self.new).holds) }
        ensures err { OnErr result (sure_web_seen self.new ≡ sure_web_seen self.old) }
        ensures asked { (sure_web_told self.new).asked ≡ (sure_web_told self.old).asked }
    {
        self.feeds.put(href, bytes)
    }

    /// The addresses asked for so far, the oldest first.
    pub fn asked(&self) -> &[Text]
        ensures { result.now ≡ (sure_web_told self.now).asked }
    {
        self.feeds.asked()
    }
}

impl Web for SureWeb {
    ghost seen = { sure_web_seen };

    fn get(&mut self, href: &str, limit: u64, into: &mut Vec<u8>) -> Result<Got, WebFault> {
        web_answer(self.feeds.get(href, limit, into))
    }
}
