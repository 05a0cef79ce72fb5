//! Whether a choice is valid, a certificate shows it the best, or a proof shows that there is none. What is checked may come
//! from anywhere: a yes stands on the hints alone, walked one by one.
//!
//! Code: `meeting` (whether dependencies are met by what is chosen), `validity` (`valid`: a loop for each condition, over the
//! walk that `trace_picks` gives), `blocks` (the blocks of a certificate, compared with those that the choice asks for as
//! these are counted up, without a list of them), `checking` (`check_best`, `check_none`). Hints are walked by `zi_proof`
//! alone. specs/Parts.antt has the conditions as the loops look at them, Taking.antt how blocks are passed: what comes behind
//! those that are passed is right just where the whole is.
#![tactic(auto)]

mod blocks;
mod checking;
mod meeting;
mod validity;

pub use checking::{check_best, check_none};
pub use validity::valid;
