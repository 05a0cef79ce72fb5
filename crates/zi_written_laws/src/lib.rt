//! That a selections document can be written: what a valid choice selects in a universe that was loaded has only values that XML can
//! carry, since all of them come from documents. The law stands over the definitions that the calls below cite.
#![tactic(auto)]

mod laws;

pub use laws::{what_is_chosen_can_be_written, what_is_chosen_is_written_and_read_back};
