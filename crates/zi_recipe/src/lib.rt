//! The tree that a way to fetch an implementation makes, or why it makes none.
//! The steps go in their order over the empty tree; a file's bytes come from the web, and are moved from there into the tree.
//! Contracts say the tree, the first fault and what is asked of the web by one record of what is seen of it (specs/Making.antt);
//! over a web that tells what it holds the answer is one fold of the steps (specs/Made.antt).
//!
//! Code: `making` (`make_tree`), `limits` (the said sizes against their limit: what is left of it is kept, so no sum is too
//! large for a number), `steps` (one step, and all in a row), `fetching` (the bytes of one file), `places` (put at a path,
//! moved, taken out), `counts` (entries and depth, level by level, since a tree may be too deep for a call for each level).
//! Bytes go from the web into the file's list and stay in it: a node is moved into the tree, and a rename takes a node out
//! and puts it in, whatever hangs in it.
//!
//! specs/Steps.antt has what one step does and why it may not be done, by the feed format; Asking.antt which addresses are
//! asked for; Limits.antt and Levels.antt what is counted.
#![tactic(auto)]

mod counts;
mod fault;
mod fetching;
mod limits;
mod making;
mod places;
mod steps;

pub use fault::RecipeFault;
pub use making::make_tree;
