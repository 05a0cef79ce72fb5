//! A sheet of answers.
use std::alloc::Global;
use std::fmt::{Debug, Write};
use zi_text::{Memory, Text};

/// A text that is put together piece by piece. Where memory was refused the sheet is lost, which its end says: so no piece has an answer of
/// its own, and who writes goes on.
#[derive(Drop)]
pub struct Sheet {
    text: String,
    is_lost: bool,
}

impl Sheet {
    /// An empty sheet, which grows by this allocator.
    pub fn new(alloc: Global) -> Sheet {
        Sheet {
            text: String::new(alloc),
            is_lost: false,
        }
    }

    /// Adds a text.
    pub fn put(&mut self, text: &str) {
        if self.text.push_str(text).is_err() {
            self.is_lost = true;
        }
    }

    /// Adds a number in decimal digits.
    pub fn number(&mut self, number: u64) {
        if write!(self.text, "{number}").is_err() {
            self.is_lost = true;
        }
    }

    /// Adds a value as it is spelled for those who look for faults.
    pub fn value<T: Debug>(&mut self, value: &T) {
        if write!(self.text, "{value:?}").is_err() {
            self.is_lost = true;
        }
    }

    /// Adds a text that was made, unless memory was refused for it.
    pub fn made(&mut self, text: Result<Text, Memory>) {
        match text {
            Ok(text) => self.put(text.as_str()),
            Err(Memory) => self.lose(),
        }
    }

    /// Takes how something ended that the answers need: the sheet is lost where memory was refused for it.
    pub fn needs(&mut self, end: Result<(), Memory>) {
        if end.is_err() {
            self.is_lost = true;
        }
    }

    /// Adds yes or no.
    pub fn whether(&mut self, is_so: bool) {
        self.put(if is_so { "yes" } else { "no" });
    }

    /// Loses the sheet, for want of memory elsewhere.
    pub fn lose(&mut self) {
        self.is_lost = true;
    }

    /// Adds the answer to the question that stands on the sheet's last line, behind ` = `; one of more lines on lines of its own, each behind
    /// `= `.
    pub fn answer(&mut self, answer: &Sheet) {
        if answer.is_lost {
            return self.lose();
        }
        let text = answer.text.as_str();
        if !text.contains('\n') {
            self.put(" = ");
            return self.put(text);
        }
        for line in text.lines() {
            self.put("\n= ");
            self.put(line);
        }
    }

    /// Whether nothing was put on it.
    pub fn is_empty(&self) -> bool {
        self.text.is_empty()
    }

    /// The text, unless it was lost.
    pub fn text(&self) -> Result<&str, Memory> {
        if self.is_lost {
            return Err(Memory);
        }
        Ok(self.text.as_str())
    }
}
