//! That the names of shims in selections are right: each binding that makes a command available has a name that a shim may have,
//! whether the selections were read of a document or a choice selects them; and that what is chosen has the command of each. The laws
//! stand over the definitions that `zi_sels::read` and `zi_sels::from_choice` cite, and over the names that `zi_shim` makes trees of.
//!
//! It has no code. NameLaws says which texts are such names: a document refuses each name that no program of a shim can have, but for
//! one with NUL, which no document holds. PartLaws has that the texts of the parts of a document can be carried as far as they are such
//! names, FeedLaws the same of the implementations of a feed and LoadedLaws of the candidates of a universe; SelectionLaws has
//! the law on names, ProgramLaws that on commands.
#![tactic(auto)]

mod laws;

pub use laws::{commands_of_shims_are_there, names_of_shims_are_right};
