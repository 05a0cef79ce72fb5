//! A decider that takes interfaces in an order of its own, as a search that learns which ones the conflicts are about hands it one.
//!
//! An interface is a list of variables, of which one at most is to be true, and a list of those by which it is wanted. The first
//! interface of the order that is wanted, of which none is true yet, gets the variable that is wished for it, or its first one;
//! where there is none left, the opposite of the first undecided variable is taken. specs/Rule.antt says so.
//! What the lists say is no matter of soundness: any numbers will do, and those that are none of the formula's are passed over.
#![tactic(auto)]

mod reach;
mod rule;

pub use reach::Reach;
pub use rule::{Face, Turn};
