//! The pieces of a line.
use zi_text::{List, Memory};

/// A text up to its first blank, and behind it.
pub fn halves(text: &str) -> (&str, &str) {
    text.split_once(' ').unwrap_or((text, ""))
}

/// The first two texts in quotation marks; empty where there are fewer.
pub fn quoted(row: &str) -> (&str, &str) {
    let mut parts = row.split('"');
    let _before = parts.next();
    let one = parts.next().unwrap_or("");
    let _between = parts.next();
    (one, parts.next().unwrap_or(""))
}

/// Adds the numbers of a row, apart by blanks; a word that is none counts as 0.
pub fn take_numbers(numbers: &mut List<u32>, row: &str) -> Result<(), Memory> {
    for word in row.split_whitespace() {
        numbers.push(word.parse::<u32>().unwrap_or(0))?;
    }
    Ok(())
}
