//! The lines of a manifest as values.

use zi_text::{List, Text};

/// One line of a manifest, with the whole path of what it lists, its parts joined by `/`.
#[derive(Debug, Drop, PartialEq, Eq)]
pub enum Line {
    /// A file: its hash in lower-case hexadecimal, whether it is executable, its time of last change in whole seconds
    /// since 1970, and its size in bytes.
    File {
        path: Text,
        hash: Text,
        exec: bool,
        mtime: i64,
        size: u64,
    },
    /// A link, and the hash and size in bytes of the text that it holds.
    Link {
        path: Text,
        hash: Text,
        size: u64,
    },
    /// A folder, whose lines follow.
    Folder {
        path: Text,
    },
}

/// The lines of a manifest, in its order.
#[derive(Debug, Drop, PartialEq, Eq)]
pub struct Listing {
    pub lines: List<Line>,
}
