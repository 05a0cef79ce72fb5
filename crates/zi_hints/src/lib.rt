//! Hints: what a person at a terminal is told behind the line of an outcome, in at most three lines that begin with `hint: `. They are
//! made of the outcome, the words, and what the program knows besides.
//!
//! `telling` puts the three together: what is wrong (`causes`), what to do (`remedies`), and what zi has for a word of 0install.
//! `wrong_words` has those of wrong words, by `zi_usage`; `faults` the faults of documents, feeds and launches in words; `spot` the
//! line and the column of a place; `saying` writes one line, in which nothing stands that a terminal would obey.
//! Read specs/Hints.antt; `laws`: the options are those of `zi_words`.
#![tactic(auto)]

mod causes;
mod faults;
pub mod laws;
mod remedies;
mod saying;
mod spot;
mod telling;
mod wrong_words;

pub use telling::{Known, hints};
