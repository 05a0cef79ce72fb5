//! What a whole feed says.

use zi_parts::{Impl, Import, Native};
use zi_text::{List, Text};

/// What a feed says.
pub struct Feed {
    /// The address that it was read under.
    pub uri: Text,
    /// The feeds whose implementations count too, in the order of the document.
    pub imports: List<Import>,
    /// Its implementations, in the order of the document.
    pub impls: List<Impl>,
    /// What it says of packages of the operating system, in the order of the document.
    pub natives: List<Native>,
}

// One call wherever one is dropped.
impl Drop for Feed {
    fn drop(self) {
        let Feed {
            uri: _,
            imports: _,
            impls: _,
            natives: _,
        } = self;
    }
}
