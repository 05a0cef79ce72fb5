//! What is selected: the walk of a choice, when a choice is valid, which of two ranks earlier, and which one is the best.
//! These are definitions for contracts, over the universe as `zi_universe` loads it; the code gives the walk of a choice and
//! the numbers of its variables. The rules are those of the 0install solver's documentation, as this project narrows them.
//!
//! Read specs/Choice.antt (choices and what stands where), Walk.antt (the walk as four relations by cases, `Visits`, `Needs`,
//! `NeedsEach`, `Follows`, over the places and the used commands that a walk has come to), Valid.antt (one field for each
//! condition, `IsValid`) and Best.antt (`GoesBefore`, `IsBest`). All are stated over the list of interfaces that contracts
//! see of a `Universe`. Stops.antt has the walk as one list of stops, places and used commands in the order in which they are met:
//! the walk is its stops, told apart. A layer above cites lemmas from proofs/: `WalkLaws.walk_one` and its parts, `ThereLaws.walk_there`,
//! GrowLaws (a walk only grows), `ApartLaws.walks_part` (two walks are the same, or part at one interface),
//! `StopLaws.stops_walk`, `stops_there`, `stops_one`, `stops_part` and `fronts` (where two choices agree before a place they have the
//! same stops before it), `OrderLaws.earlier_strict`, `BestLaws.best_one`.
//!
//! Code: `names` (a universe with its names: a table of addresses, and for each candidate a `table` of its commands, made
//! once), `walking` (the walk, as one set of stops), `traced` (choices, and walks as values, told apart from the stops: `trace`,
//! `stops`), `numbering` (`variable`), `groups` (`group`). No call recurses along a walk: what is still to be followed stands in a list of tasks. specs/Tasks.antt says of each step that where the
//! later tasks run from the stops so far to an end, the earlier ones run to the same end. `advance` does tasks until one lists
//! or uses something new, `finish` calls it as long as one does; what is left to list and use shrinks (Left.antt).
//! proofs/WalkFacts has what a walk keeps and covers; ThereIsBest tells of any choice whether it is valid, and keeps the
//! earliest of the finitely many that fit.
#![tactic(auto)]

mod groups;
pub mod laws;
mod names;
mod numbering;
mod table;
mod traced;
mod walking;

pub use groups::group;
pub use names::Names;
pub use numbering::variable;
pub use traced::{Choice, Place, Stop, Traced, Used, stops, trace, trace_picks};
