//! What holds of selections documents beyond one call: what is written of selections that were read, or that a valid choice selects,
//! is read as the same; and that what a valid choice selects lacks no command. The laws stand over the definitions that
//! `zi_sels::read`, `zi_sels::write` and `zi_sels::from_choice` cite.
//!
//! It has no code: its laws go over what may be read, part by part. LikeLaws says what the tree that is written and the one
//! that is read have in common, element by element; BindingLaws, ShimLaws (bindings of dependencies), DepLaws, WordLaws, RunnerLaws, CommandLaws, DigestsLaws,
//! ItemLaws and RootLaws what is read of each element that was written, and that it has no fault, under a condition on the
//! value (`IsProper` of the whole); FreeLaws, SoundLaws, SaidLaws and ReadBackLaws that each value that is read meets it.
//!
//! That what a choice selects meets it too has two halves. What feeds without a fault give: GivenLaws (dependencies and
//! commands), AlongLaws (along the path of groups), ApartLaws (no two commands of one name), SpelledLaws (digests), FeedLaws
//! (implementations), LoadedLaws (the candidates of a universe). What the choice does with it: SelectedLaws (for which
//! addresses something is selected), MadeLaws (the selection of a candidate), UsedLaws (what used commands ask for is
//! selected), ChosenLaws (the whole).
//!
//! TreeLaws has that selections of packages have neither folder nor digests (specs/Trees), which `IsProper` says of each selection.
//!
//! ReadRowLaws has that the rows of a table that is read are right, as what is said of a universe wants them (specs/Rows).
//!
//! WholeLaws has the other law (specs/Whole): a walk comes to all that a command it uses asks for, so what runs a command is
//! selected, with the command that is asked for of it.
#![tactic(auto)]

mod laws;

pub use laws::{
    packages_have_no_trees, rows_that_are_read_are_right, what_is_chosen_is_read_back,
    what_is_chosen_is_whole, what_is_read_is_read_again,
};
