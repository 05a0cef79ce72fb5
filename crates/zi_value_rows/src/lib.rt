//! Rows of small values that no program answers: texts, bytes, lists, literals, and the laws of proofs.
//! It has tests alone: in the crates whose calls they try, each of those would be proved once more for them.
#![tactic(auto)]

#[cfg(test)]
mod laws;
#[cfg(test)]
mod lits;
#[cfg(test)]
mod texts;
