//! What is said of versions of an interface.

use zi_text::{List, Text};

/// What a fact says of one version.
#[derive(Drop)]
pub struct Said {
    /// The number of its interface.
    pub interface: u32,
    /// The number of the version among the candidates there.
    pub candidate: u32,
    /// What is said behind it.
    pub words: Text,
}

/// What is said of versions of one interface.
#[derive(Drop)]
pub struct Line {
    /// The number of the interface.
    pub interface: u32,
    /// What is said behind them.
    pub words: Text,
    /// The numbers of the versions.
    pub candidates: List<u32>,
}
