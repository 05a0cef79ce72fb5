//! The decider that goes by the walk, and what a search by it finds.
//!
//! specs/Rule.antt says what the decider picks, as a function of what is known: `so_far` is what is known to be chosen, and
//! the first place of its walk at which a candidate is undecided and none is chosen waits. Laws.antt has the two laws on any
//! trail that came about by that rule. Proofs of these: Rules, Passed and Found (the first law), Quiet and First (the
//! second); Replay, Ways and Stops are for the layer above: the hints of a trail, walked again from that a candidate which
//! was passed over is chosen, come to the contradiction.
//!
//! Code: `open` (what a trail knows of candidates), `standing` (how a place stands by that), `tasks` (what is left to be
//! done), `path` (a walk up to a place, which can go back to each of its places), `kept` (what is kept between picks), `walk`
//! (the decider). A pick takes up the walk where the last one left it. A place is followed as soon as what is known makes its
//! choice firm (specs/Firm.antt: one is chosen and those before it are refused, or all are refused), since then no longer
//! trail changes it; where the first undecided candidate of a place is to be picked the walk waits. Beside each place stands
//! how many entries of the trail make it firm, and how things stood when the walk came there (a `Stop`). Where the trail goes
//! back, the walk goes back to the first place that the entries which stay don't make firm; lists of tasks share what comes
//! later (specs/Lists.antt), so going back is to forget what was added since. Only where a place has a chosen candidate
//! behind an undecided one is the whole walk made anew, from the root.
//!
//! specs/Kept.antt says what such a walk is without a word on where the tasks end: whatever walk a choice has that agrees
//! with the places that are followed, it goes on from here to that walk, by what waits and then by the tasks that are left.
//! proofs: InverseLaws, StepLaws and PathLaws (one step, and several), KeptLaws (a walk that can go back stays one), FirmLaws
//! (what longer trails keep), OnLaws (what such a walk comes to is what the rule picks), TakenLaws (what the decider keeps
//! along a trail).
#![tactic(auto)]

mod kept;
pub mod laws;
mod open;
mod path;
mod standing;
mod tasks;
mod walk;

pub use open::so_far;
pub use walk::Walk;
