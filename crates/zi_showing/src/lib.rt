//! The selections of a document as people read them: `show`. For each selection a line with its address, its version and where it is,
//! below that its commands, and a level deeper what it is the first to need.
//!
//! Read specs/Tree.antt (the trees of a document), Text.antt (their lines), Showing.antt (what `show` answers) and Laws.antt (each
//! selection is shown once). Code: `left` (what has still to be shown, found by its address), `asking` (what is asked for, next first),
//! `walking` (the selections in the order in which they are shown, each with its level), `lines` (the lines), `showing` (the command).
//! Inside, contracts are said of lists (specs/Steps.antt), not of trees.
#![tactic(auto)]

mod asking;
pub mod laws;
mod left;
mod lines;
mod showing;
mod walking;

pub use showing::show;
