//! One purger of the shared store: it takes away the trees of digest names that aren't kept.
//! It makes exactly one call of the shelf per step, the next of a list that its names decide.
//! Beside any number of adders it keeps the store sound, and every name that is kept keeps its tree.
//!
//! Per name the calls are `rename` to the next temporary name until one is free, `settle_top`, and `remove_top` of that
//! temporary name; one `settle_top` comes last, also where no name is taken away. After Failed a purger is ended by Fault; after
//! Memory nothing has changed, and the same call comes next. The rename comes first since a removal cut short by a crash would
//! leave part of a tree under a digest name, and it is settled before the removal since it could else be taken back with the
//! entry half removed.
//!
//! The machine of one purger beside many adders is specs/Machine.antt, over the machine of adders of the crate of sessions. Its
//! invariant (Invariant.antt, and of the adders Beside.antt of that crate) says of what is pending what a crash needs: each digest
//! name that an entry had since the last settle of the top is being purged, and the entry is there, whole. Law.antt has what holds
//! after every list of events. A step is one event of that machine (Stepping.antt, Tie.antt), and its clause `keeps` says what it
//! keeps of the shelf (Keeping.antt): the invariant, for every list of adders and every purger that it stands for, and the count of
//! faults, which rises exactly where it answers Fault, and over a sure shelf on which all is as it was left not at all.
//!
//! For a loop of steps: after More fewer calls are left, by a measure that a step's clause `advances` names (Progress.antt). Where
//! nobody else changes the shelf, each step finds all as the purger left it, so over a sure shelf none answers Fault, and what stands
//! under each name is known at every moment (Alone.antt). Counting.antt says how many calls a purger makes at most, and what it has
//! found where it ends as Crowded.
//!
//! proofs: PurgingLemmas (a call of the purger, and what a call of an adder leaves of the purger's), KeptLemmas (every event, and
//! the law), DoneLemmas (after Done), StepLemmas, ProgressLemmas and KeepingLemmas (a step), AloneLemmas (where nobody else changes
//! the shelf), CountingLemmas (how many, and Crowded).
#![tactic(auto)]

mod begin;
pub mod laws;
mod phase;
mod purge;
mod step;
mod stepping;

pub use purge::Purge;
pub use step::PurgeStep;
