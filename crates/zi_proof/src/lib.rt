//! Proofs that anyone can check: lemmas with hints, and blocks that use them.
//! A hint is walked by unit propagation, as in the LRAT format, with one more rule for groups of which at most one is true.
//! The check takes no memory but the marks, and says yes exactly where the hints are accepted.
//!
//! Read specs/Known.antt (what one constraint makes of what is known), then Accepted.antt (when a lemma and a list of lemmas
//! are accepted) and ProofText.antt (the text); Laws.antt says what acceptance means for models, Lean.antt when nothing is
//! used in vain. Code: `marks` (what is taken as true: a cell with a stamp for each variable, so that all is forgotten by one
//! new stamp; the search of `zi_sat` shares it), `steps` (one hint), `acceptance` (lemmas and blocks), `reader` with `cut`
//! and `words`, `writer`.
#![tactic(auto)]

mod acceptance;
mod cut;
mod fault;
pub mod laws;
mod line;
mod marks;
mod proof;
mod reader;
pub mod steps;
mod words;
mod writer;

pub use acceptance::{check, check_block, follow};
pub use fault::ProofFault;
pub use marks::Marks;
pub use proof::{Block, Certificate, Lemma, Proof};
pub use reader::read;
pub use writer::write;
