//! What the words of the command line can ask for.

use crate::address::Address;
use zi_digest::{Algorithm, DigestName};
use zi_policy::Policy;
use zi_text::{List, Text};
use zi_version::Range;

/// The versions of an interface that are wanted.
#[derive(Drop)]
pub struct Wanted {
    /// The interface's address.
    pub interface: Text,
    /// The versions.
    pub range: Range,
}

/// Which program is wanted, and how it is to be chosen.
#[derive(Drop)]
pub struct Ask {
    /// The address of the program's interface.
    pub root: Address,
    /// The command of it that is wanted, if any: `run` where the words don't say.
    pub command: Option<Text>,
    /// Versions that are wanted, in the order of the words.
    pub limits: List<Wanted>,
    /// The platform, the languages and the like; the lists stand in the order of the words.
    pub policy: Policy,
    /// How many lemmas a search may learn: at most 4,000,000,000, and 100,000 where the words don't say.
    pub search: u64,
}

/// What is asked for.
#[derive(Drop)]
pub enum Request {
    /// `select`: the selections of a program, or with `proof` the proof that they are the best.
    Select { ask: Ask, proof: bool },
    /// `download`: what the selections of a program need, in the store.
    Download { ask: Ask },
    /// `run`: the program, started with these words, once what its selections need is in the store.
    Run { ask: Ask, user: List<Text> },
    /// `launch`: the program of the selections in the file of this name, started with these words.
    Launch { file: Text, user: List<Text> },
    /// `script`: a shell script that starts the program as `run` would have started it with these words.
    Script { ask: Ask, user: List<Text> },
    /// `script --launch`: one that starts the program of the selections in the file of this name, as `launch` would have.
    ScriptLaunch { file: Text, user: List<Text> },
    /// `show`: the selections in the file of this name, as people read them.
    Show { file: Text },
    /// `check`: whether the proof of this name shows that the selections of that name are those of the best choice.
    Check { ask: Ask, sels: Text, proof: Text },
    /// `refute`: whether the proof of this name shows that no choice is valid.
    Refute { ask: Ask, proof: Text },
    /// `why`: why each candidate that the best choice passes over isn't chosen.
    Why { ask: Ask },
    /// `conflict`: what in the feeds leaves no choice.
    Conflict { ask: Ask },
    /// `manifest`: the manifest and the digest of a tree in the store, under its name there.
    Manifest { algorithm: Algorithm, name: Text },
    /// `store add`: these files as a tree of the store with this digest.
    Add { name: DigestName, files: List<Text> },
    /// `store verify`: whether a tree of the store has its digest.
    Verify { name: DigestName },
    /// `store purge`: the trees of the store but for those that a selection in one of these files has, taken away.
    Purge { files: List<Text> },
    /// `store list`: the digest names in the store.
    Names,
    /// `demo`: the choice of the demonstration with this number, which is from 1 to 1,000.
    Demo { n: u64 },
    /// `--help`: the commands and options.
    Help,
    /// `--version`: which program this is.
    Version,
}

/// Why words ask for nothing.
#[derive(Clone, Copy, PartialEq, Eq)]
pub enum WordsFault {
    /// They aren't right. The index, from 0, is the number of words in their longest front that is also a front of some
    /// right list of words: that of the first wrong word, or of the words where one is missing at the end.
    Usage { index: u64 },
    /// Memory was refused.
    Memory,
}
