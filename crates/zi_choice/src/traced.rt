//! Choices and their walks, as values.

ghost use Rattle.std.specs.Prelude.{◌≡◌, ◌++◌, ◌∷◌, [], IfOk, OnOk, map};
ghost use Rattle.zi_universe.specs.Whole.{BeginsWith};
ghost use Rattle.zi_choice.specs.Choice.{Fits, pick};
ghost use Rattle.zi_choice.specs.Walk.{Walks};
ghost use Rattle.zi_choice.specs.Traces.{as_place, as_use, as_walk};
ghost use Rattle.zi_choice.specs.Stops.{AreStops, places_of, uses_of};

use crate::names::Names;
use crate::walking::{Setting, walk};
use std::alloc::Global;
use zi_text::{List, Memory, Text};
use zi_universe::{Requirement, Universe};

/// A choice: for each interface of a universe the number of a candidate, or none.
#[derive(Drop)]
pub struct Choice {
    /// What is chosen for each interface, by the candidate's number from 0 in rank order.
    pub picks: List<Option<u32>>,
}

/// An interface of a walk, with what is chosen for it.
#[derive(Clone, Copy, PartialEq, Eq)]
pub struct Place {
    /// The interface's number, from 0.
    pub interface: u32,
    /// The candidate's number, from 0, or none.
    pub pick: Option<u32>,
}

/// A command that is used.
#[derive(Drop, PartialEq, Eq, Hash)]
pub struct Used {
    /// The interface's number, from 0.
    pub interface: u32,
    /// The command's name.
    pub command: Text,
}

/// A stop of a walk: what it comes to for the first time.
#[derive(Drop, PartialEq, Eq, Hash)]
pub enum Stop {
    /// The interface of this number, from 0, is listed.
    Came(u32),
    /// The command of this name is used of the interface of this number.
    Needed(u32, Text),
}

impl Stop {
    /// The stop again, with a copy of its name.
    pub fn copy(&self, alloc: Global) -> Result<Stop, Memory>
        ensures { IfOk result (λ x. x ≡ self.now) }
    {
        match self {
            Stop::Came(i) => Ok(Stop::Came(*i)),
            Stop::Needed(i, name) => {
                let command = name.copy(alloc)?;
                Ok(Stop::Needed(*i, command))
            }
        }
    }
}

/// A walk: where a choice leads from the root, depth first and in document order.
pub struct Traced {
    /// The interfaces that it comes to, each once.
    pub places: List<Place>,
    /// The commands that are used on the way, each once.
    pub used: List<Used>,
}

// One call wherever one is dropped.
impl Drop for Traced {
    fn drop(self) {
        let Traced { places: _, used: _ } = self;
    }
}

/// What is picked for an interface.
pub(crate) fn picked(picks: &[Option<u32>], i: u32) -> Option<u32>
    ensures { result ≡ pick picks.now i }
{
    match picks.get(i as usize) {
        Some(pick) => *pick,
        None => None,
    }
}

// The place of a stop, if it is one.
fn add_place(picks: &[Option<u32>], stop: &Stop, places: &mut List<Place>) -> Result<(), Memory>
    ensures { OnOk result (map as_place places.new ≡ map as_place places.old ++ places_of picks.now (stop.now ∷ [])) }
{
    match stop {
        Stop::Came(i) => {
            let interface = *i;
            let pick = picked(picks, interface);
            places.push(Place { interface, pick })
        }
        Stop::Needed(_, _) => Ok(()),
    }
}

// The places of a walk.
fn places(alloc: Global, picks: &[Option<u32>], stops: &[Stop]) -> Result<List<Place>, Memory>
    ensures { IfOk result (λ ps. map as_place ps ≡ places_of picks.now stops.now) }
{
    let mut places = List::new(alloc);
    for stop in stops {
        add_place(picks, stop, &mut places)?;
    }
    Ok(places)
}

// The used command of a stop, if it is one.
fn add_use(alloc: Global, stop: &Stop, uses: &mut List<Used>) -> Result<(), Memory>
    ensures { OnOk result (map as_use uses.new ≡ map as_use uses.old ++ uses_of (stop.now ∷ [])) }
{
    match stop {
        Stop::Came(_) => Ok(()),
        Stop::Needed(i, name) => {
            let interface = *i;
            let command = name.copy(alloc)?;
            uses.push(Used { interface, command })
        }
    }
}

// The used commands of a walk.
fn uses(alloc: Global, stops: &[Stop]) -> Result<List<Used>, Memory>
    ensures { IfOk result (λ xs. map as_use xs ≡ uses_of stops.now) }
{
    let mut uses = List::new(alloc);
    for stop in stops {
        add_use(alloc, stop, &mut uses)?;
    }
    Ok(uses)
}

/// The walk of what is picked for each interface, and for none behind the last pick. Visiting an interface for the first time
/// lists it with what is picked, and follows the dependencies of the picked candidate in document order; needing a command for
/// the first time uses it, and follows its dependencies and then its runner. The work is linear in what is followed, and the
/// stack doesn't grow with it.
pub fn trace_picks(
    alloc: Global,
    names: &Names,
    req: &Requirement,
    picks: &[Option<u32>],
) -> Result<Traced, Memory>
    ensures { IfOk result (λ t. Walks names.now req.now picks.now (as_walk t)) }
{
    let on = Setting {
        alloc,
        universe: names.universe(),
        names,
        picks,
    };
    let way = walk(&on, &req.command)?;
    let places = places(alloc, picks, way.stops.as_slice())?;
    let used = uses(alloc, way.stops.as_slice())?;
    Ok(Traced { places, used })
}

/// The walk of a choice that fits. Its work is linear in the names of the universe and in what is followed.
pub fn trace(alloc: Global, u: &Universe, req: &Requirement, c: &Choice) -> Result<Traced, Memory>
    requires rooted { BeginsWith u.now req.now.interface }
    requires fits { Fits u.now c.now.picks }
    ensures { IfOk result (λ t. Walks u.now req.now c.now.picks (as_walk t)) }
{
    let names = Names::of(alloc, u)?;
    trace_picks(alloc, &names, req, c.picks.as_slice())
}

// Stops again.
fn copies(alloc: Global, stops: &[Stop]) -> Result<List<Stop>, Memory>
    ensures { IfOk result (λ xs. xs ≡ stops.now) }
{
    let mut copies = List::new(alloc);
    for stop in stops {
        copies.push(stop.copy(alloc)?)?;
    }
    Ok(copies)
}

/// The stops of what is picked for each interface, and for none behind the last pick: what its walk comes to, places and used
/// commands in one list, in the order in which they are met. The work is that of the walk.
pub fn stops(
    alloc: Global,
    names: &Names,
    req: &Requirement,
    picks: &[Option<u32>],
) -> Result<List<Stop>, Memory>
    ensures { IfOk result (λ xs. AreStops names.now req.now picks.now xs) }
{
    let on = Setting {
        alloc,
        universe: names.universe(),
        names,
        picks,
    };
    let way = walk(&on, &req.command)?;
    let stops = copies(alloc, way.stops.as_slice())?;
    Ok(stops)
}
