//! The purging of a store, from the asking for its names to the last step of its purger, where nobody else changes the shelf.
//! Contracts see what the purger answered last and the names that are gone. One record says what that did to a shelf
//! (specs/Purging.antt), and one what stands there then (specs/Purged.antt).
//!
//! The whole code is src/purging.rt. Read specs/Purged.antt first, then Running.antt and Purging.antt. `Spares`, which the program's
//! clause cites, says what a purge leaves of the stored trees whatever it comes to.
#![tactic(auto)]

mod purging;

pub use purging::{PurgeFault, purge_store};
