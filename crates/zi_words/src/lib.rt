//! The words of the command line: which are right, and what they ask for.
//! A command word, its options with their arguments, and its named words; each right list of words asks for one thing.
//! Other words are refused with the number of words in their longest front that right words begin with.
//!
//! Code: `request` has what can be asked, `reader` reads all words by the command word, `loading` the words behind a command
//! that loads feeds (`loader` says which these are, their options and how many words they have behind the root), `options`
//! the options, each a `kind`, into what they say so far (`asked`), `arguments` the one word behind an option by its form,
//! `store`, `launch` and `demo` the words of their commands. Inside, a refusal says how many words are left from the wrong
//! one on, so no reader needs to know what stands before it; only `Request::read` turns that into an index. The pairs behind
//! `--rate` are kept in an ordered set.
//!
//! Read specs/Words.antt (the grammar and the public clause), Options.antt (the table of the options: the word of each, the
//! commands that have it, the forms of its arguments, how often it may stand, what it sets, and the defaults) and Forms.antt
//! (which words are addresses, levels and the like).
#![tactic(auto)]

mod address;
mod arguments;
mod asked;
mod demo;
mod kind;
mod launch;
pub mod laws;
mod loader;
mod loading;
mod options;
mod reader;
mod refusal;
mod request;
mod store;

pub use address::Address;
pub use request::{Ask, Request, Wanted, WordsFault};
pub use store::last_part;
