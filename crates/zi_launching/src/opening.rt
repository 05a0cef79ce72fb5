//! The work of `launch`.
ghost use Rattle.std.specs.Prelude.{◌≡◌, ◌+◌, ◌∷◌, map, length};
ghost use Rattle.zi_outside.specs.Views.{Feeding, Sinking};
ghost use Rattle.zi_outside.specs.Launched.{Spawning};
ghost use Rattle.zi_outcome.specs.declared.outcome.Outcome.{Outcome as Ending};
ghost use Rattle.zi_choosing.specs.Knowing.{all_names};
ghost use Rattle.zi_fetching.specs.Known.{names_of};
ghost use Rattle.zi_shim_laws.specs.Names.{HaveShimNames};
ghost use Rattle.zi_launching.specs.Launching.{PreparesWith, StartsThen};
ghost use Rattle.zi_launching.specs.Opening.{LaunchesFile};

use crate::launching::prepared;
use crate::starting::start;
use std::alloc::Global;
use zi_choosing::find_names;
use zi_digest::DigestName;
use zi_fetching::Stored;
use zi_opening::get_selections;
use zi_outcome::Outcome;
use zi_outside::{Feeds, Launch, Spawner, Vars};
use zi_sels::Selections;
use zi_shelf::Shelf;
use zi_shim_laws::names_of_shims_are_right;
use zi_text::{List, Text};

// The launch of selections over the digest names in the stores.
fn prepare_named<K: Shelf, R: Shelf>(
    alloc: Global,
    sels: &Selections,
    each: &List<List<DigestName>>,
    vars: &Vars,
    user: &[Text],
    shelf: &mut K,
    others: &mut [R],
) -> Result<Launch, Outcome>
    requires stores { length each.now ≡ length others.old + 1 }
    requires names { HaveShimNames sels.now }
    ensures { PreparesWith (record { sels = sels.now; each = each.now; stored = names_of (all_names each.now); vars = vars.now; user = user.now })
        (K.seen shelf.old ∷ map R.seen others.old) result (K.seen shelf.new ∷ map R.seen others.new) }
{
    match Stored::of(alloc, each.as_slice()) {
        Ok(mut stored) => prepared(alloc, sels, each, &mut stored, vars, user, shelf, others),
        Err(_) => Err(Outcome::Memory),
    }
}

/// All that `launch` does up to the start: reads the document of selections in a file, finds out which digests are in which store, and makes
/// the launch of what is selected ready, with the user's words. Whatever then comes of a start of that launch, last of all, is what comes of
/// `launch`; and where there is none, so is the outcome that is answered.
pub fn prepare_file<F: Feeds, K: Shelf, R: Shelf>(
    alloc: Global,
    file: Text,
    user: &[Text],
    vars: &Vars,
    feeds: &mut F,
    shelf: &mut K,
    others: &mut [R],
) -> Result<Launch, Outcome>
    ensures { (web : Feeding) (out : Sinking) (spawner then : Spawning) (outcome : Ending) → StartsThen result spawner then outcome → LaunchesFile file vars.now user.now
        (record { feeds = F.seen feeds.old; shelf = K.seen shelf.old; others = map R.seen others.old; web = web; spawner = spawner; out = out })
        (record { feeds = F.seen feeds.new; shelf = K.seen shelf.new; others = map R.seen others.new; web = web; spawner = then; out = out }) outcome }
{
    let sels = match get_selections(alloc, file, feeds) {
        Ok(sels) => sels,
        Err(outcome) => return Err(outcome),
    };
    names_of_shims_are_right();
    match find_names(alloc, shelf, others) {
        Ok(each) => prepare_named(alloc, &sels, &each, vars, user, shelf, others),
        Err(outcome) => Err(outcome),
    }
}

/// Reads the document of selections in a file, finds out which digests are in which store, and launches what is selected with the user's
/// words. Where the program ran the outcome is `Child` with its status; after every other outcome nothing was launched.
pub fn launch<F: Feeds, K: Shelf, R: Shelf, P: Spawner>(
    alloc: Global,
    file: Text,
    user: &[Text],
    vars: &Vars,
    feeds: &mut F,
    shelf: &mut K,
    others: &mut [R],
    spawner: &mut P,
) -> Outcome
    ensures { (web : Feeding) (out : Sinking) → LaunchesFile file vars.now user.now
        (record { feeds = F.seen feeds.old; shelf = K.seen shelf.old; others = map R.seen others.old; web = web; spawner = P.seen spawner.old; out = out })
        (record { feeds = F.seen feeds.new; shelf = K.seen shelf.new; others = map R.seen others.new; web = web; spawner = P.seen spawner.new; out = out }) result }
{
    match prepare_file(alloc, file, user, vars, feeds, shelf, others) {
        Ok(launch) => start(&launch, spawner),
        Err(outcome) => outcome,
    }
}
