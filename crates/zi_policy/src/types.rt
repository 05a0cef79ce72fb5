use zi_text::{List, Text};

/// How well an implementation has been tried, in rising order, as the Zero Install feed format names it. Feeds may say all
/// but `Preferred`, which is the user's word.
#[derive(Clone, Copy, Debug, PartialEq, Eq, PartialOrd, Ord)]
pub enum Stability {
    /// Known to be a danger.
    Insecure,
    /// Known to fail.
    Buggy,
    /// A developer's state.
    Developer,
    /// New, and to be tried; what a feed that says nothing means.
    Testing,
    /// Tried.
    Stable,
    /// Given by the system.
    Packaged,
    /// What the user prefers to all others.
    Preferred,
}

/// How much the network may be used.
#[derive(Clone, Copy, Debug, PartialEq, Eq)]
pub enum Network {
    /// The best version is wanted, whatever must be fetched.
    Full,
    /// What is here already goes first.
    Minimal,
    /// Nothing is fetched.
    Off,
}

/// A stability that replaces the feed's for one implementation.
#[derive(Drop)]
pub struct Override {
    /// The interface's address.
    pub interface: Text,
    /// The implementation's id.
    pub id: Text,
    /// The stability that counts.
    pub stability: Stability,
}

/// What the user asks for, whatever the program.
pub struct Policy {
    /// The operating system to run on.
    pub os: Text,
    /// The machine to run on.
    pub machine: Text,
    /// The languages wanted, the best first.
    pub langs: List<Text>,
    /// The stability from which on one is as good as another.
    pub level: Stability,
    /// How much the network may be used.
    pub network: Network,
    /// The uses that are wanted.
    pub uses: List<Text>,
    /// The stabilities that replace those of feeds.
    pub overrides: List<Override>,
}

// One call wherever one is dropped.
impl Drop for Policy {
    fn drop(self) {
        let Policy {
            os: _,
            machine: _,
            langs: _,
            level: _,
            network: _,
            uses: _,
            overrides: _,
        } = self;
    }
}

/// An operating system and a machine; `*` is any.
#[derive(Drop, PartialEq, Eq)]
pub struct Arch {
    /// The operating system.
    pub os: Text,
    /// The machine.
    pub machine: Text,
}

/// When a dependency is active: where both hold, and what is absent holds.
#[derive(Drop, PartialEq, Eq)]
pub struct Condition {
    /// An operating system that the policy's runs.
    pub os: Option<Text>,
    /// A use that is among the policy's.
    pub wanted: Option<Text>,
}

/// The bit group of a machine.
#[derive(Clone, Copy, Debug, PartialEq, Eq)]
pub enum Width {
    /// It goes with either group.
    Any,
    /// A machine of 32 bits.
    Bits32,
    /// A machine of 64 bits.
    Bits64,
}
