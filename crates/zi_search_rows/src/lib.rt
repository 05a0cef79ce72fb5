//! Rows of the search: small formulas, by hand and drawn by a series, with a plain search beside it that learns nothing.
//! They are tests: in the crate whose calls they try, that would be proved once more for them. `InOrder`, by which they decide,
//! is there for the programs that measure too.
#![tactic(auto)]

mod in_order;
#[cfg(test)]
mod plain;
#[cfg(test)]
mod searches;

pub use in_order::InOrder;
