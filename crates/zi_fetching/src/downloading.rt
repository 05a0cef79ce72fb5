//! The work of `download`.
ghost use Rattle.std.specs.Prelude.{◌≤◌, map};
ghost use Rattle.zi_fetching.specs.Download.{Downloads};

use crate::fetching::fetch_all;
use std::alloc::Global;
use zi_choosing::{Asked, find_best, put_document};
use zi_outcome::Outcome;
use zi_outside::{Feeds, Sink, Web};
use zi_shelf::Shelf;

/// Finds the best choice as `select` does, fetches what it selects and no store has, and writes its document. What is fetched is
/// added to the store that is written. Where there is no choice, or a package is selected that isn't installed, or a selection can't be
/// fetched, nothing is written.
pub fn download<F: Feeds, K: Shelf, R: Shelf, W: Web, O: Sink>(
    alloc: Global,
    asked: Asked,
    feeds: &mut F,
    shelf: &mut K,
    others: &mut [R],
    web: &mut W,
    out: &mut O,
) -> Outcome
    requires { asked.ask.search ≤ 4000000000 }
    ensures { Downloads asked
        (record { feeds = F.seen feeds.old; shelf = K.seen shelf.old; others = map R.seen others.old; web = W.seen web.old; out = O.seen out.old })
        (record { feeds = F.seen feeds.new; shelf = K.seen shelf.new; others = map R.seen others.new; web = W.seen web.new; out = O.seen out.new })
        result }
{
    let chosen = match find_best(alloc, asked, feeds, shelf, others) {
        Ok(chosen) => chosen,
        Err(outcome) => return outcome,
    };
    let _whole = chosen.universe.interfaces();
    match fetch_all(alloc, &chosen, web, shelf) {
        Ok(_) => put_document(alloc, &chosen, out),
        Err(outcome) => outcome,
    }
}
