use zi_parts::Impl;
use zi_rank::Standing;
use zi_text::{List, Text};
use zi_version::Range;

/// A version limit that the user gives for one interface.
pub struct Limit {
    /// The interface's address.
    pub interface: Text,
    /// The versions that are admitted.
    pub range: Range,
}

// One call wherever one is dropped.
impl Drop for Limit {
    fn drop(self) {
        let Limit {
            interface: _,
            range: _,
        } = self;
    }
}

/// What is wanted.
pub struct Requirement {
    /// The address of the program's interface, the root.
    pub interface: Text,
    /// The command that is to be run, where one is.
    pub command: Option<Text>,
    /// The limits; several may speak of one interface.
    pub limits: List<Limit>,
}

// One call wherever one is dropped.
impl Drop for Requirement {
    fn drop(self) {
        let Requirement {
            interface: _,
            command: _,
            limits: _,
        } = self;
    }
}

/// An implementation that may be used for an interface.
pub struct Candidate {
    /// What decides where it stands among the others.
    pub standing: Standing,
    /// The implementation, with its active dependencies alone. It shares all that it says with the feed's.
    pub imp: Impl,
}

// One call wherever one is dropped.
impl Drop for Candidate {
    fn drop(self) {
        let Candidate {
            standing: _,
            imp: _,
        } = self;
    }
}

/// An interface with its candidates.
#[derive(Drop)]
pub struct Interface {
    /// Its address.
    pub uri: Text,
    /// Its candidates, each before all behind it.
    pub candidates: List<Candidate>,
}
