//! Why each candidate that a choice passes over isn't chosen: the first of six reasons that holds at its place of the walk.
//! Five of them say by themselves that no valid choice which agrees on the earlier places has the candidate there
//! (`laws::reasons_are_true`); for the sixth, as for all, the certificate's block shows it (`laws::blocks_are_true`).
//!
//! Read specs/Reasons.antt (each reason, over the stops before a place), Laws.antt and Reports.antt (what `why` answers).
//! Code: `setting` (what is looked at), `known` (what the stops before a place say, with an index by interface), `reasons` (a
//! test each), `explaining` (`why`, block by block).
#![tactic(auto)]

mod explaining;
mod known;
pub mod laws;
mod reasons;
mod report;
mod setting;

pub use explaining::why;
pub use report::{Reason, Report};
