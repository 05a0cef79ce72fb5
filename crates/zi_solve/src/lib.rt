//! The best choice, with the certificate that shows it; or a refutation; or that the budget is spent.
//!
//! Read specs/Answers.antt first: what each answer says. `solving` builds the formula, searches by the walk's decider and
//! says what the end means. Where a model was found, its choice is what is chosen so far, cut down to its walk (`cutting`),
//! and `blocks` makes a block for each candidate that a place passes over. Its hints are found by going back over the reasons
//! of the trail from the candidate's variable, as far as what the earlier places say (`grounds`, which promises nothing), and
//! are offered to `zi_proof::check_block`; where that says no, the trail is walked again from what the block assumes
//! (`replaying`), which specs/Laws.antt says is always accepted. So a block's size is that of the reasons on which it rests.
//!
//! proofs: HeldLaws (the choice of a full trail), GivenLaws (the law on its blocks), AddLaws (blocks made one after another),
//! ReplayLaws (the hints of a trail, entry by entry), FewLaws (a walk has no more places than there are interfaces),
//! SolveLaws, ChosenLaws and EndLaws (what is joined of these).
#![tactic(auto)]

mod answer;
mod blocks;
mod cutting;
mod faces;
mod grounds;
pub mod laws;
mod learner;
mod pace;
mod replaying;
mod scores;
mod seeking;
mod solving;

pub use answer::Answer;
pub use solving::solve;
