//! The shelf as the program meets it: a folder of trees, each with a mark, shared by several programs.
//! The trait says what each call answers and leaves, and what is unknown after one that failed.
//! The record of calls and the marks are part of what a shelf means, so that a crash needs no other trait.
//!
//! A shelf is a map from top names to entries, each a tree with a mark that says whether it was settled since its last
//! change, and the list of the renames and removals since the last `settle_top`. It also tells the record of its calls: each
//! call but `root`, and but one that answers Memory, adds itself; a path is its parts with `/` between them there, a rename's
//! new name stands as its path, a link's text as its bytes. What an honest shelf may answer to a call, and what it then
//! holds, is one relation by cases (`Answers`); which calls fit is `Fits` and `FitsReading`. Failed may come at any time, and
//! says that the count of faults rose; a sure shelf fails only at calls that don't fit.
//!
//! The definitions come first: what a shelf holds and what an honest one may answer to each call that changes it
//! (specs/Shelved.antt), what a call that fills does to a tree (Filling.antt), what a call that reads answers (Reading.antt),
//! what a shelf tells with its record and count (Told.antt), what a crash may leave (Crash.antt). The trait (src/shelf.rt)
//! ties each call to them by clauses of one form: `does` or `reads`, over one record of what is seen of the shelf before and
//! after (Shelving.antt). Both forms in memory stand in `zi_memory`, which nothing of the program uses.
#![tactic(auto)]

mod call;
pub mod laws;
mod shelf;

pub use call::{CallKind, ShelfCall};
pub use shelf::{Entry, EntryKind, Listed, Moved, Shelf, ShelfFault, TopMade};
