//! Feeds and a web that fail where more is asked for than may be.
use zi_outside::{Feeds, FeedsFault, Got, MemoryWeb, SureFeeds, Web, WebFault};
use zi_text::{Memory, Text};

/// A key, and the greatest limit with which it may be asked for.
#[derive(Drop)]
pub(crate) struct Most {
    pub key: Text,
    pub limit: u64,
}

/// Whether a key is asked for with a greater limit than it may be.
fn is_past(most: &Option<Most>, key: &str, limit: u64) -> bool {
    match most {
        Some(most) => limit > most.limit && key == most.key.as_str(),
        None => false,
    }
}

/// Feeds that fail where a key is asked for with a greater limit than it may be.
#[derive(Drop)]
pub(crate) struct LimitedFeeds {
    feeds: SureFeeds,
    most: Option<Most>,
    faults: u64,
}

impl LimitedFeeds {
    /// These feeds, each of which may be asked for with any limit.
    pub(crate) fn new(feeds: SureFeeds) -> LimitedFeeds {
        LimitedFeeds {
            feeds,
            most: None,
            faults: 0,
        }
    }

    /// Sets what a key holds.
    pub(crate) fn put(&mut self, key: &str, bytes: &[u8]) -> Result<(), Memory> {
        self.feeds.put(key, bytes)
    }

    /// Sets with which limit a key may be asked for, and any other with each.
    pub(crate) fn allow(&mut self, most: Most) {
        self.most = Some(most);
    }
}

impl Feeds for LimitedFeeds {
    ghost use Rattle.std.specs.Prelude.{None, []};

    ghost seen = { λ f. record { told = None; faults = f.faults; plan = [] } };

    #[tactic(auto, using(crate::proofs::LimitLemmas::untold))]
    fn get(&mut self, uri: &str, limit: u64, into: &mut Vec<u8>) -> Result<Got, FeedsFault> {
        if is_past(&self.most, uri, limit) {
            self.faults = self.faults.saturating_add(1);
            return Err(FeedsFault::Failed);
        }
        match self.feeds.get(uri, limit, into) {
            Ok(got) => Ok(got),
            Err(_) => Err(FeedsFault::Memory),
        }
    }
}

/// A web that fails where it was planned, and where an address is asked for with a greater limit than it may be.
#[derive(Drop)]
pub(crate) struct LimitedWeb {
    web: MemoryWeb,
    most: Option<Most>,
    faults: u64,
}

impl LimitedWeb {
    /// This web, of which each address may be asked for with any limit.
    pub(crate) fn new(web: MemoryWeb) -> LimitedWeb {
        LimitedWeb {
            web,
            most: None,
            faults: 0,
        }
    }

    /// Sets what an address holds.
    pub(crate) fn put(&mut self, href: &str, bytes: &[u8]) -> Result<(), Memory> {
        self.web.put(href, bytes)
    }

    /// Sets the numbers of the calls that fail.
    pub(crate) fn fail_at(&mut self, calls: &[u32]) -> Result<(), Memory> {
        self.web.fail_at(calls)
    }

    /// The addresses asked for so far, the oldest first.
    pub(crate) fn asked(&self) -> &[Text] {
        self.web.asked()
    }

    /// Sets with which limit an address may be asked for, and any other with each.
    pub(crate) fn allow(&mut self, most: Most) {
        self.most = Some(most);
    }
}

impl Web for LimitedWeb {
    ghost use Rattle.std.specs.Prelude.{None, []};

    ghost seen = { λ w. record { told = None; faults = w.faults; plan = [] } };

    #[tactic(auto, using(crate::proofs::LimitLemmas::untold))]
    fn get(&mut self, href: &str, limit: u64, into: &mut Vec<u8>) -> Result<Got, WebFault> {
        if is_past(&self.most, href, limit) {
            self.faults = self.faults.saturating_add(1);
            return Err(WebFault::Failed);
        }
        match self.web.get(href, limit, into) {
            Ok(got) => Ok(got),
            Err(WebFault::Memory) => Err(WebFault::Memory),
            Err(WebFault::Failed) => {
                self.faults = self.faults.saturating_add(1);
                Err(WebFault::Failed)
            }
        }
    }
}
