//! What is due of a call of the program: the outcome that follows from what the objects hold when it begins, where none of them fails.
//!
//! It has no code. specs/Due has how a call may end where something is due, specs/Held what the objects hold, specs/Demands what is due of
//! each request; Files, Trees, Knowing, Choosing, Adding, Purging, Turns, Launching, Fetching and Chosen have its parts. Each law is that the clause
//! of a command brings what is due.
#![tactic(auto)]

mod laws;

pub use laws::{
    check_ends_as_due, names_are_one, refute_ends_as_due, select_ends_as_due, taken_finds_none,
    ways_make_one, what_is_due_comes,
};
