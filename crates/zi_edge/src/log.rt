//! What is told of failures to who asks for it by `ZI_LOG`.

use crate::trouble::Reason;
use std::alloc::Global;
use std::fs::File;
use std::io::{self, Write};
use zi_shown::show;
use zi_text::Text;

/// Lines of failures, each the place of one, shown as a terminal may have it, and its reason.
#[derive(Drop)]
pub struct Log {
    lines: Vec<u8>,
}

impl Log {
    /// No line.
    pub(crate) fn new(alloc: Global) -> Log {
        Log {
            lines: Vec::new(alloc),
        }
    }

    /// Adds the line of a failure at the place that these words name. A line for which memory is refused ends before its end.
    pub(crate) fn tell(&mut self, words: &[&str], reason: Reason) {
        let _ = self.add(words, reason);
    }

    fn add(&mut self, words: &[&str], reason: Reason) -> io::Result<()> {
        for (i, word) in words.iter().enumerate() {
            if i > 0 {
                self.lines.push(b' ')?;
            }
            show(word, &mut self.lines)?;
        }
        writeln!(self.lines, ": {reason}")
    }

    /// The lines.
    pub fn as_bytes(&self) -> &[u8] {
        self.lines.as_slice()
    }
}

/// Writes lines to the end of the file that a name says, or to standard error where it is `-`. Nothing is written where there
/// are none.
pub fn write_log(rt: &HostRuntime, name: &Text, lines: &[u8]) -> io::Result<()> {
    if lines.is_empty() {
        return Ok(());
    }
    if name.as_str() == "-" {
        return rt.stderr().write_all(lines);
    }
    let mut options = File::options();
    options.append(true).create(true);
    let mut file = options.open(rt, name.as_str())?;
    file.write_all(lines)
}
