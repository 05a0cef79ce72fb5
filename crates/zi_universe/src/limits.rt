//! How much a loading takes at most.

/// The bytes of a feed.
pub const FEED_LIMIT: u64 = 4_194_304;

/// Feeds, absent ones included.
pub const MOST_FEEDS: usize = 8_192;

/// Interfaces.
pub const MOST_INTERFACES: usize = 4_096;

/// Candidates of all interfaces together.
pub const MOST_CANDIDATES: usize = 65_536;
