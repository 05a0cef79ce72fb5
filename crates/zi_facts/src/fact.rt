//! What a constraint says of the feeds.

use zi_parts::Dep;
use zi_policy::Width;
use zi_text::Text;

/// What has a dependency: a version of an interface, or a command of it. The interface, the candidate and the command go by their
/// numbers, from 0.
#[derive(Clone, Copy)]
pub struct Owner {
    /// The interface.
    pub interface: u32,
    /// Its candidate.
    pub candidate: u32,
    /// The place of the command among the candidate's, where it is one of these.
    pub command: Option<u32>,
}

/// What a constraint says of the feeds. Interfaces, candidates and commands go by their numbers, from 0.
#[derive(Clone, Copy)]
pub enum Fact<'u> {
    /// One of the root's candidates is needed.
    Root,
    /// A candidate of the root is to be run by its command of the name that is wanted, which stands at this place; or has none.
    Wanted {
        /// The candidate.
        candidate: u32,
        /// The command's place.
        place: Option<u32>,
    },
    /// One candidate of an interface is chosen at most.
    Once {
        /// The interface.
        interface: u32,
    },
    /// A candidate is for 32 or 64 bits.
    Bits {
        /// Its interface.
        interface: u32,
        /// The candidate.
        candidate: u32,
        /// For how many.
        width: Width,
    },
    /// A command is used only where its candidate is chosen.
    Part {
        /// The interface.
        interface: u32,
        /// Its candidate.
        candidate: u32,
        /// The command's place.
        command: u32,
    },
    /// One of the candidates that a dependency admits is needed.
    Needs {
        /// What needs it.
        owner: Owner,
        /// The dependency.
        dep: &'u Dep,
    },
    /// A candidate isn't admitted by a dependency.
    Refuses {
        /// What refuses it.
        owner: Owner,
        /// The dependency.
        dep: &'u Dep,
        /// The interface that it is on.
        interface: u32,
        /// The candidate there.
        candidate: u32,
    },
    /// Of a candidate that a dependency admits a command is needed, which stands at this place; or it has none of the name.
    Names {
        /// What needs it.
        owner: Owner,
        /// The dependency.
        dep: &'u Dep,
        /// The command's name.
        name: &'u Text,
        /// The interface that it is on.
        interface: u32,
        /// The candidate there.
        candidate: u32,
        /// The command's place.
        place: Option<u32>,
    },
}
