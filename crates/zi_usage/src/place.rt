//! The place of a word, by the words before it.
ghost use Rattle.std.specs.Prelude.{◌≡◌, Some, None};
ghost use Rattle.std.specs.Option.{option_map};
ghost use Rattle.zi_usage.specs.Places.{step_of, behind_command, behind_store, behind_root, behind_argument, behind_option, behind_script, next, wrong_at};
ghost use Rattle.zi_usage.specs.declared.place.Place.TheVariants as place;

use zi_text::Text;

/// What an argument of an option is.
#[derive(Clone, Copy)]
pub enum Argument {
    /// The name of a command, a system, a machine, a language or a use.
    Name,
    /// Versions.
    Versions,
    /// The interface whose versions come next.
    Limited,
    /// A level of stability.
    Level,
    /// How much of the network may be used.
    Network,
    /// The interface of which an implementation is rated.
    Rated,
    /// The id of that implementation.
    Id,
    /// Its stability.
    Stability,
    /// A number of lemmas.
    Lemmas,
}

/// What stands behind ROOT.
#[derive(Clone, Copy)]
pub enum Behind {
    /// Nothing.
    Nothing,
    /// A proof.
    Proof,
    /// Selections, and a proof.
    Selections,
    /// The program's words.
    Words,
}

/// Where a word stands.
#[derive(Clone, Copy)]
pub enum Place {
    /// In front: a command.
    Command,
    /// Behind `store`.
    Store,
    /// Behind `script`: `--launch`, an option or ROOT.
    Script,
    /// An option or ROOT.
    Option(Behind),
    /// Behind `--`: ROOT.
    Root(Behind),
    /// An argument of an option, behind whose arguments stands an option or ROOT.
    Argument(Argument, Behind),
    /// Selections, behind which stands a proof.
    Selections,
    /// A proof.
    Proof,
    /// An algorithm, behind which stands the name of a tree.
    Algorithm,
    /// The name of a tree.
    Tree,
    /// A digest.
    Digest,
    /// A digest, behind which stand files.
    Added,
    /// A file that is added, or nothing.
    File,
    /// Selections, behind which stands nothing.
    Shown,
    /// Selections, behind which stand the program's words.
    Launched,
    /// Selections, behind which stand more.
    Kept,
    /// The number of a demonstration.
    Number,
    /// Nothing may.
    Nothing,
    /// The program's words.
    Words,
}

/// What a word is where an option or ROOT may stand.
#[derive(Clone, Copy)]
pub enum Step {
    /// No option: ROOT, or nothing right.
    Other,
    /// `--`, which ends the options.
    Dashes,
    /// An option without an argument.
    Flag,
    /// An option, and its first argument.
    Takes(Argument),
}

/// What a word is where an option or ROOT may stand.
#[tactic(auto, unfolding(crate::specs::Places::step_of))]
pub(crate) fn step_of(word: &str) -> Step
    ensures { result ≡ step_of word.now }
{
    match word {
        "--" => Step::Dashes,
        "--no-command" | "--proof" => Step::Flag,
        "--command" | "--os" | "--cpu" | "--lang" | "--use" => Step::Takes(Argument::Name),
        "--version" => Step::Takes(Argument::Versions),
        "--version-for" => Step::Takes(Argument::Limited),
        "--level" => Step::Takes(Argument::Level),
        "--network" => Step::Takes(Argument::Network),
        "--rate" => Step::Takes(Argument::Rated),
        "--search" => Step::Takes(Argument::Lemmas),
        _ => Step::Other,
    }
}

// What stands behind a command.
#[tactic(auto, unfolding(crate::specs::Places::behind_command))]
fn behind_command(word: &str) -> Place
    ensures { result ≡ behind_command word.now }
{
    match word {
        "select" | "why" | "conflict" | "download" => Place::Option(Behind::Nothing),
        "run" => Place::Option(Behind::Words),
        "check" => Place::Option(Behind::Selections),
        "refute" => Place::Option(Behind::Proof),
        "script" => Place::Script,
        "launch" => Place::Launched,
        "show" => Place::Shown,
        "manifest" => Place::Algorithm,
        "store" => Place::Store,
        "demo" => Place::Number,
        _ => Place::Nothing,
    }
}

// What stands behind a word behind `store`.
#[tactic(auto, unfolding(crate::specs::Places::behind_store))]
fn behind_store(word: &str) -> Place
    ensures { result ≡ behind_store word.now }
{
    match word {
        "add" => Place::Added,
        "verify" => Place::Digest,
        "purge" => Place::Kept,
        _ => Place::Nothing,
    }
}

// The place behind ROOT.
fn behind_root(behind: Behind) -> Place
    ensures { result ≡ behind_root behind }
{
    match behind {
        Behind::Nothing => Place::Nothing,
        Behind::Proof => Place::Proof,
        Behind::Selections => Place::Selections,
        Behind::Words => Place::Words,
    }
}

// The place behind an argument.
fn behind_argument(argument: Argument, behind: Behind) -> Place
    ensures { result ≡ behind_argument argument behind }
{
    match argument {
        Argument::Limited => Place::Argument(Argument::Versions, behind),
        Argument::Rated => Place::Argument(Argument::Id, behind),
        Argument::Id => Place::Argument(Argument::Stability, behind),
        Argument::Name
        | Argument::Versions
        | Argument::Level
        | Argument::Network
        | Argument::Stability
        | Argument::Lemmas => Place::Option(behind),
    }
}

// The place behind a word that is an option or ROOT.
fn behind_option(behind: Behind, word: &str) -> Place
    ensures { result ≡ behind_option behind word.now }
{
    match step_of(word) {
        Step::Other => behind_root(behind),
        Step::Dashes => Place::Root(behind),
        Step::Flag => Place::Option(behind),
        Step::Takes(argument) => Place::Argument(argument, behind),
    }
}

// The place behind a word that stands behind `script`.
fn behind_script(word: &str) -> Place
    ensures { result ≡ behind_script word.now }
{
    if word == "--launch" {
        Place::Launched
    } else {
        behind_option(Behind::Words, word)
    }
}

// The place behind a word that stands at a place.
fn next(place: Place, word: &str) -> Place
    ensures { result ≡ next place word.now }
{
    match place {
        Place::Command => behind_command(word),
        Place::Store => behind_store(word),
        Place::Script => behind_script(word),
        Place::Option(behind) => behind_option(behind, word),
        Place::Root(behind) => behind_root(behind),
        Place::Argument(argument, behind) => behind_argument(argument, behind),
        Place::Selections => Place::Proof,
        Place::Algorithm => Place::Tree,
        Place::Added | Place::File => Place::File,
        Place::Kept => Place::Kept,
        Place::Launched | Place::Words => Place::Words,
        Place::Proof
        | Place::Tree
        | Place::Digest
        | Place::Shown
        | Place::Number
        | Place::Nothing => Place::Nothing,
    }
}

/// The place of the word with this index, from 0, and the word itself; None where the words end before it. The words before it
/// are taken to be right.
pub fn wrong_at(words: &[Text], index: u64) -> (Place, Option<&Text>)
    ensures { (result.0, option_map (λ word. word.now) result.1) ≡ wrong_at place.Command words.now index }
{
    let mut place = Place::Command;
    let mut left = words;
    let mut count = index;
    while let Some((word, behind)) = left.split_first() {
        if count == 0 {
            return (place, Some(word));
        }
        place = next(place, word.as_str());
        left = behind;
        count -= 1;
    }
    (place, None)
}
