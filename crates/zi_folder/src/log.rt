//! What is told of failures to who asks for it by `ZI_LOG`.

use crate::trouble::Reason;
use std::alloc::Global;
use std::io::{self, Write};
use zi_shown::{show, show_bytes};

/// Lines of failures, each a path, shown as a terminal may have it, and a reason.
#[derive(Drop)]
pub struct Log {
    lines: Vec<u8>,
}

impl Log {
    /// No line.
    pub(crate) fn new(alloc: Global) -> Log {
        Log {
            lines: Vec::new(alloc),
        }
    }

    /// Adds the line of a failure at a path, or at a name in the folder there that is no text. A line for which memory is refused ends
    /// before its end.
    pub(crate) fn tell(&mut self, path: &str, name: Option<&[u8]>, reason: Reason) {
        let _ = self.add(path, name, reason);
    }

    fn add(&mut self, path: &str, name: Option<&[u8]>, reason: Reason) -> io::Result<()> {
        show(path, &mut self.lines)?;
        if let Some(name) = name {
            self.lines.push(b'/')?;
            show_bytes(name, &mut self.lines)?;
        }
        writeln!(self.lines, ": {reason}")
    }

    /// The lines.
    pub fn as_bytes(&self) -> &[u8] {
        self.lines.as_slice()
    }
}
