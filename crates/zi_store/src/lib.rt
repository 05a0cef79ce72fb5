//! What is read of a store: the digest names in it, trees and files, and whether a stored tree is what its name says.
//! Every call works on any shelf, and makes no call on it but those that read.
//! What each answers stands in specs/, by what an honest shelf holds that tells it.
//!
//! Each public call stands on the shelf's calls that read (`calls`), each wrapped with three facts: what it answers, what it
//! leaves of the shelf (`Keeps` in specs/Keeping.antt, put together call by call), and when the count of faults rises.
//! `names` has `stored_names`, which sorts the names once; `stores` asks several stores, each once, and `finding` says which of
//! them has which digest: one value, the names store by store, is what all of this is said of.
//!
//! A tree is read folder by folder (`trees`): `listings` gives the entries of a folder in byte order, `bytes` the bytes of a
//! file in pieces, and never more than one past the limit; the counts (`counts`) are within their limits by their type.
//! `leaves` reads a folder's files and links into a tree whose subfolders are empty as yet; `folder` then reads each
//! subfolder and exchanges it for its empty one, so that nothing in the list of entries moves. That recursion goes no deeper
//! than 64 folders, since a folder is counted before it is listed. A manifest is written by the same walk without a tree
//! (`written`): `pieces` hashes a file in pieces of 65,536 bytes, each in the place of the one before it, and each entry adds
//! its line. `verdicts` hashes the manifest, `checked` keeps the names that were found sound, `files` finds one file by
//! listing the folders on the way, `stop` is why a walk ends early.
//!
//! Definitions: Standing.antt (what an honest shelf that tells it has at a path), Stores.antt (what is seen of several stores),
//! Walking.antt (a tree entry by entry, and the first limit passed there), then the answers: Stored.antt, Finding.antt,
//! TreeAnswers.antt, ManifestAnswers.antt, FileAnswers.antt, Verdicts.antt. In the proofs a loop over entries keeps a split of the folder into those so far and the rest (LoopLemmas),
//! and a walk over some entries followed by others is one walk (WalkLemmas, WritingLemmas).
#![tactic(auto)]

mod bytes;
mod calls;
mod checked;
mod counts;
mod difference;
mod files;
mod finding;
mod folder;
mod leaves;
mod listings;
mod manifests;
mod names;
mod pieces;
mod stop;
mod stores;
mod trees;
mod verdicts;
mod written;

pub use checked::Checked;
pub use difference::first_difference;
pub use files::{FileRead, read_file};
pub use finding::find;
pub use manifests::{ManifestRead, manifest_of};
pub use names::stored_names;
pub use stores::{Found, all_of, names_of_each, stored_in};
pub use trees::{TreeRead, read_tree};
pub use verdicts::{Verdict, verify};
