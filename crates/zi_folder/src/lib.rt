//! A shelf in a real folder: each of its top entries is a folder there. What the system does is tried, and not claimed.
//!
//! Code: `folder_shelf` (the shelf, by its calls) over `open_folders` (what is read, from folders that are held open),
//! `folder_calls` (the other calls of the system, by paths), `trouble` (what comes of such calls) and `log` (what is told of failures
//! to who asks for it, with the name that `strangers` finds where one is no text). specs/Seen.antt says what is seen of it: its
//! folder, and its count of faults. Opened.antt says which folders are open, and Paths.antt where names lead.
#![tactic(auto)]

mod folder_calls;
mod folder_shelf;
mod log;
mod open_folders;
mod strangers;
mod trouble;

pub use folder_shelf::FolderShelf;
pub use log::Log;
