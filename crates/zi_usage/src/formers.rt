//! Words of 0install, and what zi has for each.
ghost use Rattle.std.specs.Prelude.{◌≡◌};
ghost use Rattle.std.specs.Option.{option_map};
ghost use Rattle.zi_usage.specs.Former.{of_command, of_store, of_limit, of_style, of_option, of_program, former};

use crate::place::{Behind, Place};

// A command of 0install.
#[tactic(auto, unfolding(crate::specs::Former::of_command))]
fn of_command(word: &str) -> Option<&'static str>
    ensures { option_map (λ t. t.now) result ≡ of_command word.now }
{
    match word {
        "-h" | "help" | "man" => Some("zi --help says what there is, and man zi"),
        "update" => Some("zi download ROOT fetches what is chosen from the feeds that are there"),
        "digest" => Some("zi manifest ALGORITHM NAME has the digest in its last line"),
        "config" => Some("zi keeps no settings: --level testing helps with testing"),
        "import" | "add-feed" | "list-feeds" | "remove-feed" => {
            Some("a feed is a file in the folder that ZI_FEEDS names")
        }
        "add" | "destroy" => Some("an alias is a script that has zi run ROOT \"$@\""),
        "list" | "search" => Some(
            "zi store list lists what is stored, and the folder ZI_FEEDS has the feeds",
        ),
        _ => None,
    }
}

// A command on its store.
#[tactic(auto, unfolding(crate::specs::Former::of_store))]
fn of_store(word: &str) -> Option<&'static str>
    ensures { option_map (λ t. t.now) result ≡ of_store word.now }
{
    match word {
        "manage" | "remove" => Some(
            "zi store purge FILE.. takes out all that no selections in FILE.. have",
        ),
        "manifest" => Some("zi manifest ALGORITHM NAME writes the manifest of a tree in a store"),
        "audit" => Some("zi store verify DIGEST checks one tree, zi store list lists all"),
        "copy" => Some("ZI_STORES names stores that are read besides"),
        "find" => Some(
            "a stored tree is the folder of its digest in the folder that ZI_STORE names",
        ),
        _ => None,
    }
}

// An option on what may be chosen, or on where it is.
#[tactic(auto, unfolding(crate::specs::Former::of_limit))]
fn of_limit(word: &str) -> Option<&'static str>
    ensures { option_map (λ t. t.now) result ≡ of_limit word.now }
{
    match word {
        "--before" => Some("zi has --version ..!V for --before V"),
        "--not-before" => Some("zi has --version V.. for --not-before V"),
        "--command=" => Some("zi has --no-command for an empty command"),
        "--offline" | "-o" => Some("zi has --network off"),
        "--refresh" | "-r" => Some(
            "zi uses no network: the feeds in the folder ZI_FEEDS are got anew by other means",
        ),
        "--with-store" => Some(
            "zi has the variable ZI_STORES, or ZI_STORE for the store that is written",
        ),
        "--source" | "-s" | "--may-compile" => Some("zi chooses what runs, and nothing to compile"),
        _ => None,
    }
}

// An option on how things are shown or started.
#[tactic(auto, unfolding(crate::specs::Former::of_style))]
fn of_style(word: &str) -> Option<&'static str>
    ensures { option_map (λ t. t.now) result ≡ of_style word.now }
{
    match word {
        "--xml" => Some("without --xml: select and download write the document in any case"),
        "-h" | "--help" => Some("zi --help stands alone"),
        "-v" | "--verbose" => Some("zi has the variable ZI_LOG, which is - for standard error"),
        "--console" | "-c" | "--gui" | "-g" => Some("zi asks nothing, so there is no such option"),
        "--dry-run" => Some("zi select ROOT writes what would be run"),
        "--main" | "-m" | "--wrapper" | "-w" => Some(
            "zi starts what the feed says: --command NAME says which",
        ),
        _ => None,
    }
}

// An option of 0install.
fn of_option(word: &str) -> Option<&'static str>
    ensures { option_map (λ t. t.now) result ≡ of_option word.now }
{
    match of_limit(word) {
        Some(text) => Some(text),
        None => of_style(word),
    }
}

// A word where a program is named that is to be started.
#[tactic(auto, using(std::proofs::lemmas::Str::Pattern::starts_text))]
fn of_program(word: &str) -> Option<&'static str>
    ensures { option_map (λ t. t.now) result ≡ of_program word.now }
{
    if word.starts_with("-") {
        of_option(word)
    } else {
        Some("selections are started by zi launch FILE")
    }
}

/// What zi has for a word of 0install that stands at this place, where it is one.
pub fn former(place: Place, word: &str) -> Option<&'static str>
    ensures { option_map (λ t. t.now) result ≡ former place word.now }
{
    match place {
        Place::Command => of_command(word),
        Place::Store => of_store(word),
        Place::Option(Behind::Words) => of_program(word),
        Place::Script | Place::Option(_) | Place::Root(_) | Place::Nothing => of_option(word),
        _ => None,
    }
}
