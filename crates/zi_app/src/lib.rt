//! The program's work, over objects that are handed in: `run` reads the words, loads the feeds, reads and fills the store, and
//! writes the answer. Its clause says what each outcome means and what became of each object (specs/Answers.antt).
//!
//! `running` hands each request on to its command, which is a call of `zi_choosing`, `zi_fetching`, `zi_launching`,
//! `zi_scripting`, `zi_showing` or `zi_storing`; each has its definition there. `help` has the texts of `--help` and `--version`.
#![tactic(auto)]

mod help;
pub mod laws;
mod running;

pub use help::{HELP, VERSION};
pub use running::{refuse, run};
pub use zi_outcome::Outcome;
pub use zi_universe::BadFeed;
