//! The numbers of candidates' variables, each in constant time, and which interfaces a walk comes to.
//!
//! It has what the walk's decider, the checker and the solver share: where the numbers of each interface's candidates begin
//! (`numbering`), and the interfaces of a walk as marks (`listing`, specs/Listing.antt).
#![tactic(auto)]

mod listing;
mod numbering;

pub use listing::listed;
pub use numbering::Numbering;
