//! The launch that selections mean: words, variables and folders, or the first check that fails; and the words of its shims, the small
//! programs that make commands available.
//! Contracts cite one definition of the plan: bindings as a fold, words by recursion along the chain of what runs what.
//!
//! Code: `placing` puts each selection into its folder, which a package of the operating system doesn't have, `table` finds what is
//! selected by its interface and by the names of its commands, each in constant time, `chain` follows the chain of what runs what, with a
//! set of the commands that it has met, `binding` makes the one list of bindings, `applying` applies it, with folders of shims or without,
//! `words` writes the words from the end of the chain on, `planning` goes through the checks, `shims` does so for each shim.
//!
//! Read specs/Plans.antt (the plan, or the first check that fails), with Placed.antt (selections in their folders),
//! Chain.antt (the chain as a relation by cases) and Launches.antt (the one list of bindings, and the words), by the feed
//! format's commands and bindings; then Shims.antt (the words of each shim). Steps.antt is what the parts answer; `laws` says that
//! selections have one plan and one list of words of shims, and that the folders of shims change no fault of a plan.
#![tactic(auto)]

mod applying;
mod binding;
mod call;
mod chain;
mod fault;
mod laws;
mod placing;
mod planning;
mod shims;
mod table;
mod words;

pub use call::ShimCall;
pub use fault::PlanFault;
pub use laws::{one_plan, one_shims, shims_change_no_fault};
pub use planning::{plan, plan_before_shims, plan_without_shims};
pub use shims::shim_words;
