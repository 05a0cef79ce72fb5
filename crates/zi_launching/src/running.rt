//! The work of `run`.
ghost use Rattle.std.specs.Prelude.{◌≤◌, map};
ghost use Rattle.zi_outside.specs.Views.{Sinking};
ghost use Rattle.zi_outside.specs.Launched.{Spawning};
ghost use Rattle.zi_outcome.specs.declared.outcome.Outcome.{Outcome as Ending};
ghost use Rattle.zi_launching.specs.Launching.{StartsThen};
ghost use Rattle.zi_launching.specs.Run.{RunsProgram};

use crate::launching::prepared;
use crate::starting::start;
use std::alloc::Global;
use zi_choosing::{Asked, find_best};
use zi_fetching::fetch_all;
use zi_outcome::Outcome;
use zi_outside::{Feeds, Launch, Spawner, Vars, Web};
use zi_shelf::Shelf;
use zi_shim_laws::{commands_of_shims_are_there, names_of_shims_are_right};
use zi_text::Text;

/// All that `run` does up to the start: finds the best choice as `select` does, fetches what it selects and no store has, and makes its launch
/// ready, with the user's words. Whatever then comes of a start of that launch, last of all, is what comes of `run`; and where there is none, so
/// is the outcome that is answered.
pub fn prepare_run<F: Feeds, K: Shelf, R: Shelf, W: Web>(
    alloc: Global,
    asked: Asked,
    user: &[Text],
    vars: &Vars,
    feeds: &mut F,
    shelf: &mut K,
    others: &mut [R],
    web: &mut W,
) -> Result<Launch, Outcome>
    requires { asked.ask.search ≤ 4000000000 }
    ensures { (out : Sinking) (spawner then : Spawning) (outcome : Ending) → StartsThen result spawner then outcome → RunsProgram asked vars.now user.now
        (record { feeds = F.seen feeds.old; shelf = K.seen shelf.old; others = map R.seen others.old; web = W.seen web.old; spawner = spawner; out = out })
        (record { feeds = F.seen feeds.new; shelf = K.seen shelf.new; others = map R.seen others.new; web = W.seen web.new; spawner = then; out = out }) outcome }
{
    let chosen = match find_best(alloc, asked, feeds, shelf, others) {
        Ok(chosen) => chosen,
        Err(outcome) => return Err(outcome),
    };
    let _whole = chosen.universe.interfaces();
    names_of_shims_are_right();
    commands_of_shims_are_there();
    match fetch_all(alloc, &chosen, web, shelf) {
        Ok(mut stored) => prepared(
            alloc,
            &chosen.sels,
            &chosen.known.each,
            &mut stored,
            vars,
            user,
            shelf,
            others,
        ),
        Err(outcome) => Err(outcome),
    }
}

/// Finds the best choice as `select` does, fetches what it selects and no store has, and launches it with the user's words.
/// Where the program ran the outcome is `Child` with its status; after every other outcome nothing was launched.
pub fn run<F: Feeds, K: Shelf, R: Shelf, W: Web, P: Spawner>(
    alloc: Global,
    asked: Asked,
    user: &[Text],
    vars: &Vars,
    feeds: &mut F,
    shelf: &mut K,
    others: &mut [R],
    web: &mut W,
    spawner: &mut P,
) -> Outcome
    requires { asked.ask.search ≤ 4000000000 }
    ensures { (out : Sinking) → RunsProgram asked vars.now user.now
        (record { feeds = F.seen feeds.old; shelf = K.seen shelf.old; others = map R.seen others.old; web = W.seen web.old; spawner = P.seen spawner.old; out = out })
        (record { feeds = F.seen feeds.new; shelf = K.seen shelf.new; others = map R.seen others.new; web = W.seen web.new; spawner = P.seen spawner.new; out = out }) result }
{
    match prepare_run(alloc, asked, user, vars, feeds, shelf, others, web) {
        Ok(launch) => start(&launch, spawner),
        Err(outcome) => outcome,
    }
}
