/// An option of the commands that load feeds. But for `--version-for`, `--lang`, `--use` and `--rate` each stands at most once,
/// `--command` doesn't stand with `--no-command`, and no pair of an address and an id stands twice behind `--rate`.
#[derive(Clone, Copy, PartialEq, Eq)]
pub enum Kind {
    /// `--command NAME`: the command of the program that is wanted; `run` where neither this nor the next is said.
    Command,
    /// `--no-command`: no command of the program is needed.
    NoCommand,
    /// `--version RANGE`: versions wanted of the program.
    Version,
    /// `--version-for URI RANGE`: versions wanted of an interface.
    VersionFor,
    /// `--os NAME`: the operating system to run on; `Linux` where it isn't said.
    Os,
    /// `--cpu NAME`: the machine to run on; `x86_64` where it isn't said.
    Cpu,
    /// `--lang TAG`: a language, the best first; `en` alone where none is said.
    Lang,
    /// `--level developer|testing|stable`: the stability from which on one is as good as another; `stable` where it isn't said.
    Level,
    /// `--network full|minimal|off`: how much the network may be used; `full` where it isn't said.
    Network,
    /// `--use NAME`: a use that is wanted.
    Use,
    /// `--rate URI ID STABILITY`: a stability that replaces the feed's for one implementation.
    Rate,
    /// `--search N`: how many lemmas a search may learn, at most 4,000,000,000; 100,000 where it isn't said.
    Search,
    /// `--proof`, of `select` alone: what proves the choice is wanted in place of it.
    Proof,
}
