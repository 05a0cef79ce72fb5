ghost use Rattle.std.specs.Prelude.{◌≡◌};
ghost use Rattle.zi_words.specs.Options.{has_option};
ghost use Rattle.zi_words.specs.Words.{takes_more, count_of};

use crate::kind::Kind;

/// A command that loads feeds.
#[derive(Clone, Copy, PartialEq, Eq)]
pub enum Loader {
    /// `select [options] ROOT`, which alone has `--proof`.
    Select,
    /// `download [options] ROOT`.
    Download,
    /// `run [options] ROOT WORDS..`.
    Run,
    /// `check [options] ROOT SELS PROOF`.
    Check,
    /// `refute [options] ROOT PROOF`.
    Refute,
    /// `why [options] ROOT`.
    Why,
    /// `conflict [options] ROOT`.
    Conflict,
    /// `script [options] ROOT WORDS..`.
    Script,
}

impl Loader {
    /// Whether it has this option.
    pub fn has(self, kind: Kind) -> bool
        ensures { result ≡ has_option self kind }
    {
        match self {
            Loader::Select => true,
            Loader::Download
            | Loader::Run
            | Loader::Check
            | Loader::Refute
            | Loader::Why
            | Loader::Conflict
            | Loader::Script => match kind {
                Kind::Proof => false,
                _ => true,
            },
        }
    }

    /// Whether any number of words may follow those that it has behind the root.
    pub fn takes_more(self) -> bool
        ensures { result ≡ takes_more self }
    {
        matches!(self, Loader::Run | Loader::Script)
    }

    /// How many words it has behind the root, at least.
    pub fn count(self) -> usize
        ensures { result ≡ count_of self }
    {
        match self {
            Loader::Select
            | Loader::Download
            | Loader::Run
            | Loader::Why
            | Loader::Conflict
            | Loader::Script => 0,
            Loader::Refute => 1,
            Loader::Check => 2,
        }
    }
}
