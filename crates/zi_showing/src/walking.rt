//! The selections in the order in which they are shown, each with its level.
ghost use Rattle.std.specs.Prelude.{◌≡◌, map, IfOk, option_map};
ghost use Rattle.zi_showing.specs.Text.{deeper};
ghost use Rattle.zi_showing.specs.Steps.{asked_in, place_seen, FindsNext, AreWalked};

use crate::asking::{Asked, ask_needs, first_asked};
use crate::left::{all_left, take};
use std::alloc::Global;
use std::collections::{HashMap, VecDeque};
use zi_sels::{Selection, Selections};
use zi_text::{List, Memory};

/// A selection, and the level at which it is shown.
#[derive(Clone, Copy)]
pub(crate) struct Place<'a> {
    pub(crate) item: &'a Selection,
    pub(crate) level: u8,
}

/// The level below one; what is deeper than 64 levels isn't told apart, so that a line stays short.
pub(crate) fn deeper(level: u8) -> u8
    ensures { result ≡ deeper level }
{
    if level < 64 { level + 1 } else { level }
}

// The next that is shown: the first of what is asked for that has something still to show.
fn next_place<'a>(
    left: &mut HashMap<&'a str, &'a Selection>,
    pending: &mut VecDeque<Asked<'a>>,
) -> Option<Place<'a>>
    ensures { FindsNext left.old.entries (asked_in pending.old.items) (option_map place_seen result) left.new.entries (asked_in pending.new.items) }
{
    while let Some(asked) = pending.pop_front() {
        if let Some(item) = take(left, asked.interface) {
            return Some(Place {
                item,
                level: asked.level,
            });
        }
    }
    None
}

/// The selections of a document, in the order in which they are shown.
pub(crate) fn walk<'a>(alloc: Global, sels: &'a Selections) -> Result<List<Place<'a>>, Memory>
    ensures { IfOk result (λ places. AreWalked sels.entry.now (map place_seen places)) }
{
    let mut left = all_left(alloc, sels.items.as_slice())?;
    let mut pending = first_asked(alloc, sels)?;
    let mut places = List::new(alloc);
    while let Some(place) = next_place(&mut left, &mut pending) {
        ask_needs(place.item, deeper(place.level), &mut pending)?;
        places.push(place)?;
    }
    Ok(places)
}
