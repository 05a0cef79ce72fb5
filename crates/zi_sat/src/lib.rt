//! A search for a model of a formula, each step of which is proved.
//! It decides, propagates clauses by two watched literals and groups by their members, learns a lemma at each conflict by going
//! back to the first implication point, and jumps back (conflict-driven clause learning, with a log of lemmas).
//! The log is a proof that anyone can check; the trail has each literal with its reason.
//!
//! Read specs/View.antt (what callers see of a trail and of a search) and Ends.antt (what each end says); Trail.antt,
//! Entries.antt and Fresh.antt have what they stand on. What is known of the variables is `zi_proof`'s `Marks`. The search
//! (`search`) goes in rounds, which end in one step, `rounds::resolve`, whose contract names no form of a lemma: the log
//! follows, is fresh and lean, the trail stays lawful and quiet, and the end is one that is promised. `decider` asks what to
//! decide, `watches` propagates, `analysis` learns. The watches and their invariant, which pairs were quiet before each
//! decision, are the crate's own (specs/Guard.antt, Watching.antt); nothing above names them.
#![tactic(auto)]

mod analysis;
mod decider;
mod entry;
mod found;
mod kept;
mod look;
mod mark;
mod pair;
mod pairs;
mod propagation;
mod rounds;
mod rows;
mod search;
mod trail;
mod watch;
mod watches;

pub use decider::Decider;
pub use entry::{Entry, Why};
pub use found::Found;
pub use search::Search;
pub use trail::Trail;
