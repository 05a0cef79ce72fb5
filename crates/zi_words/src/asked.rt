use zi_policy::{Network, Override, Stability};
use zi_text::{List, Text};
use zi_version::Range;

/// Versions wanted of an interface; without one, of the program's.
#[derive(Drop)]
pub struct Limit {
    /// The interface's address, if it isn't the program's.
    pub interface: Option<Text>,
    /// The versions.
    pub range: Range,
}

/// What the options that were read say, each list in their order.
#[derive(Drop)]
pub struct Asked {
    /// The command of `--command`, or that `--no-command` stands.
    pub command: Option<Option<Text>>,
    /// Whether `--version` stands.
    pub version: bool,
    /// The limits of `--version` and `--version-for`.
    pub limits: List<Limit>,
    /// The operating system of `--os`.
    pub os: Option<Text>,
    /// The machine of `--cpu`.
    pub cpu: Option<Text>,
    /// The languages of `--lang`.
    pub langs: List<Text>,
    /// The level of `--level`.
    pub level: Option<Stability>,
    /// The network of `--network`.
    pub network: Option<Network>,
    /// The uses of `--use`.
    pub uses: List<Text>,
    /// The stabilities of `--rate`.
    pub overrides: List<Override>,
    /// The number of lemmas of `--search`.
    pub search: Option<u64>,
    /// Whether `--proof` stands.
    pub proof: bool,
}
