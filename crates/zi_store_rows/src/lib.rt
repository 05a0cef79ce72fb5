//! What the program is lent: trees, the objects in memory beside the traits of the outside, and ways to fetch that cost much.
//! It has tests alone: in the crates whose calls they try, each of those would be proved once more for them.
#![tactic(auto)]

#[cfg(test)]
mod outside;
#[cfg(test)]
mod recipes;
#[cfg(test)]
mod trees;
