//! The calls that fill a temporary entry, as a session keeps them: each at a path in the entry.

use zi_text::{Bytes, Text};
use zi_tree::RelPath;

/// One call that fills the temporary entry.
#[derive(Debug, Drop)]
pub(crate) enum Work {
    /// An empty folder is made.
    MakeFolder {
        path: RelPath,
    },
    /// Bytes are added to a file, which is made where it isn't there.
    Append {
        path: RelPath,
        bytes: Bytes,
    },
    /// A file gets its executable bit and its time of last change in whole seconds since 1970.
    FinishFile {
        path: RelPath,
        exec: bool,
        mtime: i64,
    },
    /// A link with this text is made.
    MakeLink {
        path: RelPath,
        target: Text,
    },
}
