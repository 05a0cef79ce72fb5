//! The selections document: what a choice selects, and the text of it.
//! Contracts see selections as plain data. They cite one definition of what a choice selects, by its walk, and one tree of
//! elements that writes selections, whose canonical text is the document.
//!
//! Writing: `types` (selections as values), `choosing` (`from_choice`: what the walk of a choice uses, and what is chosen for
//! each interface), `used` (a set by which a used command is found), `copies` (what is copied of feeds), `sorting`, `writing`
//! (`write`: the tree of the document, which `zi_docout::write` writes), with `bindings`, `commands`, `digests` and
//! `elements` for the elements in it. Children are collected as nodes, and each function says which elements it adds behind
//! those that are there. specs/Chosen.antt says what the selections of a choice are, Written.antt the tree element by
//! element.
//!
//! Reading: `reading` (`read`) goes over the tree that `zi_doc` gives; `selecting` reads one selection, with `own` (its own
//! faults and repeated commands), `parts` (what stands in it, kind by kind, each by `zi_feed`'s reader of one element) and
//! `said` (its digests in the order of use); `faults` keeps the first fault by comparison, so that nothing is asked of the
//! order of places; `closed` asks whether each interface has one selection, and each that is asked for has one.
//! specs/Read.antt has the value of a tree, Refused.antt the table of its faults in their order, Reading.antt what bytes say,
//! Notes.antt what is known once some elements were read.
#![tactic(auto)]

mod bindings;
mod choosing;
mod closed;
mod commands;
mod copies;
mod digests;
mod elements;
mod fault;
mod faults;
mod laws;
mod own;
mod parts;
mod reading;
mod said;
mod selecting;
mod sorting;
mod types;
mod used;
mod writing;

pub use choosing::from_choice;
pub use fault::SelsFault;
pub use laws::one_reading;
pub use reading::read;
pub use types::{Selection, Selections};
pub use writing::write;
