//! The adding of a tree to a store, from the first step of its session to the last, where nobody else changes the shelf.
//! Contracts see what was tried as a list, a tree under a name with the answer of its session, one behind the other. One record
//! says what that did to a shelf (specs/Trying.antt), and one what has come under digest names by it (specs/Gains.antt).
//!
//! The whole code is src/adding.rt. Read specs/Trying.antt, then Answers.antt; Gains.antt has `KeepsTrees`, which the
//! program's clause cites: what stood under a digest name stands there.
#![tactic(auto)]

mod adding;

pub use adding::{AddFault, Added, add_tree};
