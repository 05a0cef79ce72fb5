//! Why there is no choice: a few constraints that no valuation models together, found in a refutation, as what each says of the
//! feeds. So these facts alone leave no choice, whatever else the feeds say (`laws::core_is_none`).
//!
//! Read specs/Core.antt (when constraints leave no choice, by their numbers) and Conflict.antt (what is told of them). Code: `resting` goes back
//! over a refutation from its last lemma and marks the constraints on which that rests; `cores` takes these, and leaves out one
//! after another where a search refutes the others, which decides by `opposites`; `tries` says which are tried and how long, and `around` finds some
//! that needn't be, from a model that a search found; `conflicting` has `conflict`, `writing` its text.
#![tactic(auto)]

mod around;
mod conflicting;
mod cores;
pub mod laws;
mod opposites;
mod resting;
mod tries;
mod writing;

pub use conflicting::conflict;
pub use writing::conflict_text;
