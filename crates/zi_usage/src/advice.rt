//! What to do about a word that can't stand where it does.
ghost use Rattle.std.specs.Prelude.{◌≡◌, ◌||◌};
ghost use Rattle.zi_usage.specs.Places.{is_option};
ghost use Rattle.zi_usage.specs.Advice.{begins, is_path, about_path, about_option, advised};

use crate::place::{Place, Step, step_of};

/// What to do about a word.
#[derive(Clone, Copy)]
pub enum Advice {
    /// To put the option behind the command.
    BehindCommand,
    /// To put the option before ROOT.
    BeforeRoot,
    /// To say it once, and only with what it may stand with.
    Once,
    /// To write an option and its value as two words.
    TwoWords,
    /// To write the whole path.
    WholePath,
    /// To name files and no folder.
    FilesAlone,
    /// To take the digest of a tree from its manifest.
    LastLine,
}

// Whether a word is an option.
fn is_option(word: &str) -> bool
    ensures { result ≡ is_option word.now }
{
    matches!(step_of(word), Step::Flag | Step::Takes(_))
}

// Whether a word may be a path that doesn't begin in the root folder.
#[tactic(auto, using(std::proofs::lemmas::Str::Pattern::starts_text))]
fn is_path(word: &str) -> bool
    ensures { result ≡ is_path word.now }
{
    !word.starts_with("/") && !word.starts_with("http")
}

// About a word where ROOT stands.
fn about_path(word: &str) -> Option<Advice>
    ensures { result ≡ about_path word.now }
{
    if is_path(word) {
        Some(Advice::WholePath)
    } else {
        None
    }
}

// About a word where an option or ROOT stands.
#[tactic(auto, using(std::proofs::lemmas::Str::Pattern::starts_text))]
fn about_option(word: &str) -> Option<Advice>
    ensures { result ≡ about_option word.now }
{
    if is_option(word) {
        Some(Advice::Once)
    } else if !word.starts_with("-") {
        about_path(word)
    } else if word.as_bytes().contains(&b'=') {
        Some(Advice::TwoWords)
    } else {
        None
    }
}

/// What to do about a word that can't stand at its place, where that is known.
pub fn advise(place: Place, word: &str) -> Option<Advice>
    ensures { result ≡ advised place word.now }
{
    match place {
        Place::Command if is_option(word) => Some(Advice::BehindCommand),
        Place::Nothing if is_option(word) => Some(Advice::BeforeRoot),
        Place::Script | Place::Option(_) => about_option(word),
        Place::Root(_) => about_path(word),
        Place::File => Some(Advice::FilesAlone),
        Place::Digest | Place::Added => Some(Advice::LastLine),
        _ => None,
    }
}
