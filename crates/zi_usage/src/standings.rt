//! What may stand at a place, in words.
ghost use Rattle.std.specs.Prelude.{◌≡◌};
ghost use Rattle.zi_usage.specs.Standing.{argued, standing};

use crate::place::{Argument, Place};

// What an argument of an option is.
fn argued(argument: Argument) -> &'static str
    ensures { result.now ≡ argued argument }
{
    match argument {
        Argument::Name => "a name",
        Argument::Versions => "versions, as 1.2 or 1.2..!3",
        Argument::Limited | Argument::Rated => {
            "an interface, which begins with /, http:// or https://"
        }
        Argument::Level => "developer, testing or stable",
        Argument::Network => "full, minimal or off",
        Argument::Id => "the id of an implementation, each once",
        Argument::Stability => {
            "insecure, buggy, developer, testing, stable, packaged or preferred"
        }
        Argument::Lemmas => "a number up to 4000000000",
    }
}

/// What may stand at a place.
pub fn standing(place: Place) -> &'static str
    ensures { result.now ≡ standing place }
{
    match place {
        Place::Command => "a command, which zi --help lists",
        Place::Store => "add, verify, list or purge",
        Place::Script => "--launch, an option, or ROOT, which begins with /, http:// or https://",
        Place::Option(_) => "an option, or ROOT, which begins with /, http:// or https://",
        Place::Root(_) => "ROOT, which begins with /, http:// or https://",
        Place::Argument(argument, _) => argued(argument),
        Place::Selections | Place::Shown | Place::Launched | Place::Kept => {
            "a file with a document of selections"
        }
        Place::Proof => "a file with a proof",
        Place::Algorithm => "sha1new, sha256 or sha256new",
        Place::Tree => "the name of a tree in a store",
        Place::Digest | Place::Added => "a digest, as zi store list writes it",
        Place::File => "a file, by a path that ends with its name",
        Place::Number => "a number from 1 to 1000",
        Place::Nothing => "nothing more",
        Place::Words => "anything",
    }
}
