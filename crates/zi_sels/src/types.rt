use zi_digest::DigestName;
use zi_parts::{Binding, Command, Dep};
use zi_text::{List, Text};

/// What is selected for a program.
#[derive(Drop, PartialEq, Eq)]
pub struct Selections {
    /// The root's address.
    pub interface: Text,
    /// The command that is to be run, where one is.
    pub command: Option<Text>,
    /// One for each interface that is selected.
    pub items: List<Selection>,
}

/// An implementation that is selected for an interface.
#[derive(PartialEq, Eq)]
pub struct Selection {
    /// The interface's address.
    pub interface: Text,
    /// The implementation's id.
    pub id: Text,
    /// Its version, as it is written.
    pub version: Text,
    /// The address of the feed that it stands in.
    pub from_feed: Text,
    /// The package of the operating system that it is, where it is one. Such a selection has no folder and no digests.
    pub package: Option<Text>,
    /// The path of its folder, where it is local.
    pub local: Option<Text>,
    /// Its platform, as it is written.
    pub arch: Option<Text>,
    /// The day of its release, as it is written.
    pub released: Option<Text>,
    /// How well it has been tried, as it is written.
    pub stability: Option<Text>,
    /// Its digests, one by algorithm at most, in the order of use.
    pub digests: List<DigestName>,
    /// What it asks for.
    pub deps: List<Dep>,
    /// Its commands that are used.
    pub commands: List<Command>,
    /// Its bindings.
    pub bindings: List<Binding>,
}

// One call wherever one is dropped.
impl Drop for Selection {
    fn drop(self) {
        let Selection {
            interface: _,
            id: _,
            version: _,
            from_feed: _,
            package: _,
            local: _,
            arch: _,
            released: _,
            stability: _,
            digests: _,
            deps: _,
            commands: _,
            bindings: _,
        } = self;
    }
}
