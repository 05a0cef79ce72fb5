//! What to do: the second hint of all outcomes but wrong words.
ghost use Rattle.std.specs.Prelude.{◌≡◌};
ghost use Rattle.std.specs.Option.{option_map};
ghost use Rattle.zi_hints.specs.Remedies.{of_feed_fault, remedy};

use zi_faults::FeedKind;
use zi_outcome::Outcome;
use zi_universe::BadFeed;

// What a feed that is none may be.
fn of_feed_fault(fault: BadFeed) -> Option<&'static str>
    ensures { option_map (λ t. t.now) result ≡ of_feed_fault fault }
{
    match fault {
        BadFeed::Feed {
            kind: FeedKind::NotInterface,
            ..
        } => Some("a document of selections is started by zi launch FILE"),
        _ => None,
    }
}

/// What to do about an outcome, where that can be said.
pub fn remedy(outcome: &Outcome) -> Option<&'static str>
    ensures { option_map (λ t. t.now) result ≡ remedy outcome.now }
{
    match outcome {
        Outcome::FeedRead { .. } => {
            Some(
                "a feed, selections, a proof or what is added has to be a file: no folder, no pipe and no device",
            )
        }
        Outcome::NoRootFeed => Some(
            "zi itself uses no network: a feed of the web is a file in the folder that ZI_FEEDS names",
        ),
        Outcome::BadFeed { fault, .. } => of_feed_fault(*fault),
        Outcome::FeedTooLong { .. } => {
            Some(
                "feeds, selections and the table of packages have at most 4 MiB, what is added and proofs 64 MiB",
            )
        }
        Outcome::NoSolution { .. } => {
            Some("zi conflict with the same options and ROOT tells the facts that leave no choice")
        }
        Outcome::Spent { .. } => Some("a greater number behind --search may find an answer"),
        Outcome::NoFile { .. } => {
            Some("a path that doesn't begin with / is sought in the folder where zi is started")
        }
        Outcome::BadSels { .. } => Some("zi select ROOT writes a document of selections"),
        Outcome::BadProof { .. } => {
            Some(
                "zi select --proof ROOT writes a proof, and so does zi select ROOT where nothing fits",
            )
        }
        Outcome::Rejected => Some("a proof is for the same ROOT, options and feeds alone"),
        Outcome::FetchRead { .. } => Some("ZI_FETCH names the program that fetches one address"),
        Outcome::NoRemote { .. } => {
            Some("the helper ended with status 44: it says that nothing is there")
        }
        Outcome::WrongSize { .. } => Some("what is there isn't what the feed describes"),
        Outcome::Mismatch { .. } => {
            Some("where the second digest is the right one, zi store add stores the files under it")
        }
        Outcome::MissingTree { .. } => {
            Some("zi download ROOT fetches what is selected, zi store list lists what is stored")
        }
        Outcome::DamagedTree { .. } => {
            Some(
                "take the tree out of its store (chmod -R u+w, rm -r), and zi download ROOT fetches it anew",
            )
        }
        Outcome::StoreFault { .. } => {
            Some("ZI_STORE names the store that is written, ZI_STORES those that are read besides")
        }
        Outcome::Crowded { .. } => {
            Some(
                "while no zi adds or purges, remove the folders tmp-N of the store (chmod -R u+w, rm -r)",
            )
        }
        Outcome::SpawnFault => Some(
            "what is started has to be executable, and so has what its first line names behind #!",
        ),
        Outcome::BadPackages { .. } => {
            Some("examples/packages writes a table from the database of dpkg or RPM")
        }
        Outcome::NotInstalled { .. } => {
            Some("install it and write the table of ZI_PACKAGES anew, or leave it out of the table")
        }
        Outcome::Done
        | Outcome::Usage { .. }
        | Outcome::TooManyFeeds { .. }
        | Outcome::TooManyInterfaces { .. }
        | Outcome::TooManyCandidates { .. }
        | Outcome::TooLarge { .. }
        | Outcome::Plan(_)
        | Outcome::Overlap { .. }
        | Outcome::NoPath { .. }
        | Outcome::BadName { .. }
        | Outcome::TreeTooLarge { .. }
        | Outcome::SinkFault
        | Outcome::Memory
        | Outcome::Child { .. } => None,
    }
}
