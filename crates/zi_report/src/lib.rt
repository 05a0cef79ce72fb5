//! The report on the best choice, as text: for each place of its walk a line with the interface and what is chosen, and below it a
//! line for each candidate that is passed over there, with the reason.
//!
//! Read specs/Text.antt (each line, and the text) and Reported.antt (what `report` answers). Code: `lines` (a line each), `places`
//! (the places with their reports, and the whole).
#![tactic(auto)]

mod lines;
mod places;

pub use places::report;
