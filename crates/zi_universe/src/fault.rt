use std::alloc::{AllocError, AllocFailed};
use thiserror::Error;
use zi_doc::DocKind;
use zi_faults::FeedKind;
use zi_text::{Memory, Text};

/// Why the bytes at an address are no feed.
#[derive(Clone, Copy, Debug, PartialEq, Eq)]
pub enum BadFeed {
    /// They are no document: the fault's kind, and its place in bytes from 0.
    Doc { kind: DocKind, place: u64 },
    /// The document is no feed: the fault's kind, and the place of the element that it stands at.
    Feed { kind: FeedKind, place: u64 },
}

/// Why no universe was loaded: the first refusal that was met, in the order of loading.
#[derive(Debug, Drop, Error)]
pub enum LoadFault {
    /// The object that gives the feeds failed at this address: its count of faults rose.
    #[error("the feed {uri:?} can't be read")]
    FeedRead { uri: Text },
    /// The root's feed is absent.
    #[error("there is no feed of the root")]
    NoRootFeed,
    /// The bytes at this address are no feed.
    #[error("the feed {uri:?} is bad: {fault:?}")]
    BadFeed { uri: Text, fault: BadFeed },
    /// The feed at this address has more bytes than the limit.
    #[error("the feed {uri:?} has more than {limit} bytes")]
    FeedTooLong { uri: Text, limit: u64 },
    /// More interfaces are asked for than the limit.
    #[error("more than {limit} interfaces")]
    TooManyInterfaces { limit: u64 },
    /// The interfaces so far have more candidates than the limit.
    #[error("more than {limit} candidates")]
    TooManyCandidates { limit: u64 },
    /// More feeds are reached than the limit.
    #[error("more than {limit} feeds")]
    TooManyFeeds { limit: u64 },
    /// Memory was refused.
    #[error("out of memory")]
    Memory,
}

impl From<Memory> for LoadFault {
    ghost use Rattle.std.specs.Prelude.{◌≡◌};
    ghost use Rattle.zi_universe.specs.declared.fault.LoadFault.TheVariants.{Memory as NoMemory};

    ghost from_gives = { λ _ e. e ≡ NoMemory };

    fn from(_: Memory) -> LoadFault {
        LoadFault::Memory
    }
}

impl From<AllocError> for LoadFault {
    ghost use Rattle.std.specs.Prelude.{◌≡◌};
    ghost use Rattle.zi_universe.specs.declared.fault.LoadFault.TheVariants.{Memory as NoMemory};

    ghost from_gives = { λ _ e. e ≡ NoMemory };

    fn from(_: AllocError) -> LoadFault {
        LoadFault::Memory
    }
}

impl<T: Drop> From<AllocFailed<T>> for LoadFault {
    ghost use Rattle.std.specs.Prelude.{◌≡◌};
    ghost use Rattle.zi_universe.specs.declared.fault.LoadFault.TheVariants.{Memory as NoMemory};

    ghost from_gives = { λ _ e. e ≡ NoMemory };

    fn from(_: AllocFailed<T>) -> LoadFault {
        LoadFault::Memory
    }
}
