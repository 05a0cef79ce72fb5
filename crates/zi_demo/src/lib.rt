//! The demonstration: for each number n a program of n + 4 interfaces, whose choice a search without learning would seek for
//! more than 2^(n - 1) conflicts. Its root needs a1 to an and then p, q and r; with a1 at its version 2 the last three would need
//! three different versions out of 2 and 3, so the best choice is a1 at 1, every other a at 2, p at 3, q at 2 and r at 1.
//!
//! specs/Feeds.antt says what stands in each feed; src/feeds.rt makes them, with the tables of src/versions.rt. Plain.antt
//! says which names stand in a document as they are.
#![tactic(auto)]

mod feeds;
mod versions;

pub use feeds::universe_of;
