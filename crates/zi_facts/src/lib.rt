//! What the constraints on a choice say of the feeds: each as a fact, in the order of the constraints, and their text.
//!
//! Read specs/Facts.antt (what each constraint says; `rule_of` gives the constraint back) and Lines.antt (the text). Code: `telling` says what
//! each constraint of a universe says, as they are built; `words` what a fact says of a version; `lining` joins what is said of
//! several into lines; `versions` writes these.
#![tactic(auto)]

mod fact;
pub mod laws;
mod line;
mod lining;
mod looking;
mod telling;
mod versions;
mod words;

pub use fact::{Fact, Owner};
pub use lining::lines;
pub use telling::told;
