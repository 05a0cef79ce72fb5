//! The manifest of a folder tree and its digest, as Zero Install names them: one line for each file, link and folder.
//! What a manifest is stands in specs/Sketch.antt and specs/Manifest.antt, by recursion on the tree.
//! No call takes stack in proportion to a tree's depth, and no file's bytes are copied.
//!
//! Writing: `lines` (one line each), `at_place` (the line of what stands at a place of the tree), `writing` (`write` and
//! `digest` over the places of the tree, in the manifest's order). Reading: `reading` (`read`, line by line), `entries` (a line taken
//! apart), `words` (hashes, numbers and names; a number is printed again and compared, so it has one spelling), `cutting`,
//! `open` (the open folders, innermost last). specs/Listing.antt says what a listing is and which line is bad, without a word
//! on how it is read; Reading.antt says what one line tells and which may follow, for the proofs alone.
#![tactic(auto)]

mod at_place;
mod cutting;
mod entries;
pub mod laws;
mod lines;
mod listing;
mod open;
mod reading;
mod words;
mod writing;

pub use at_place::{is_bad, joined};
pub use lines::{folder_line, hashed_line, link_line};
pub use listing::{Line, Listing};
pub use reading::{ManifestFault, read};
pub use writing::{ManifestOutFault, digest, write};
