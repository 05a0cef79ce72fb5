//! Words as a line has them.
use std::alloc::Global;
use zi_lines::Sheet;
use zi_text::{List, Memory, Text};

/// The character that a letter behind a backslash stands for.
fn stands(letter: Option<char>) -> &'static str {
    match letter {
        Some('n') => "\n",
        Some('t') => "\t",
        Some('d') => "\u{7F}",
        Some('1') => "\u{1}",
        _ => "\u{FFFE}",
    }
}

/// Adds a piece of a line that stands behind a backslash, whose first letter stands for a character.
fn put_escaped(out: &mut Sheet, piece: &str) {
    out.put(stands(piece.chars().next()));
    out.put(piece.get(1..).unwrap_or(""));
}

/// Adds the text that a line spells.
pub(crate) fn put_spelled(out: &mut Sheet, line: &str) {
    for (i, piece) in line.split('\\').enumerate() {
        if i == 0 {
            out.put(piece);
        } else {
            put_escaped(out, piece);
        }
    }
}

/// The text that a word spells.
fn word_of(alloc: Global, word: &str) -> Result<Text, Memory> {
    let mut spelled = Sheet::new(alloc);
    put_spelled(&mut spelled, if word == "_" { "" } else { word });
    Text::from_str(alloc, spelled.text()?)
}

/// Adds the words of a line.
pub(crate) fn take_words(alloc: Global, words: &mut List<Text>, line: &str) -> Result<(), Memory> {
    if line.is_empty() {
        return Ok(());
    }
    for word in line.split(' ') {
        words.push(word_of(alloc, word)?)?;
    }
    Ok(())
}
