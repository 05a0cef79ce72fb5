//! Documents of selections in files: each is got from the feeds, no longer than its limit, and read.
//! Contracts say why one isn't got or isn't right, and of several files that they are got in their order up to the first that isn't.
//!
//! `opening` has one file, specs/Opening.antt its definitions; `files` has the digests that several keep, specs/Files.antt its own.
#![tactic(auto)]

mod files;
mod opening;

pub use files::digests_of_files;
pub use opening::get_selections;
