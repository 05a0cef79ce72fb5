//! A file that is cut: each front of it in its place, the shortest first.
use crate::again::Again;
use crate::asking::put_spelled;
use std::alloc::Global;
use zi_lines::{Sheet, halves};
use zi_text::Memory;

/// The text of a file as a paragraph spells it.
fn text_in<'p>(paragraph: &'p str, name: &str) -> &'p str {
    for line in paragraph.lines() {
        let (word, row) = halves(line);
        let (key, text) = halves(row);
        if word == "file" && key == name {
            return text;
        }
    }
    ""
}

/// The first so many bytes.
fn front(text: &[u8], length: usize) -> &[u8] {
    text.get(..length).unwrap_or(text)
}

/// Adds a line; where it ends in the length of the front, `at the cut` stands for it.
fn put_line(alloc: Global, out: &mut Sheet, length: usize, line: &str) {
    let mut place = Sheet::new(alloc);
    place.put(" at ");
    place.number(length as u64);
    match place.text() {
        Err(Memory) => out.lose(),
        Ok(place) => match line.strip_suffix(place) {
            None => out.put(line),
            Some(before) => {
                out.put(before);
                out.put(" at the cut");
            }
        },
    }
}

/// How a call ends where a file has these bytes.
fn ending(alloc: Global, out: &mut Sheet, again: Again<'_>, name: &str, bytes: &[u8]) -> Sheet {
    let mut told = again.tell(alloc, out);
    out.needs(told.feeds.put(name, bytes));
    let run = again.run(alloc, told);
    let mut line = Sheet::new(alloc);
    match run.ending.text() {
        Ok(text) => put_line(alloc, &mut line, bytes.len(), text),
        Err(Memory) => line.lose(),
    }
    line
}

/// Adds the lengths from one up to one past the last, and how the call ends with each of them.
fn put_lengths(out: &mut Sheet, from: usize, past: usize, ending: &Sheet) {
    let last = past.saturating_sub(1);
    out.put(if out.is_empty() { "" } else { "\n" });
    out.number(from as u64);
    if last > from {
        out.put(" to ");
        out.number(last as u64);
    }
    out.put(": ");
    match ending.text() {
        Ok(text) => out.put(text),
        Err(Memory) => out.lose(),
    }
}

/// Adds how a call ends with each front of a file, lengths with the same ending together.
fn put_fronts(alloc: Global, out: &mut Sheet, again: Again<'_>, name: &str, text: &[u8]) {
    let mut from = 0;
    let mut last = ending(alloc, out, again, name, front(text, 0));
    for length in 1..=text.len() {
        let next = ending(alloc, out, again, name, front(text, length));
        if next.text() != last.text() {
            put_lengths(out, from, length, &last);
            from = length;
            last = next;
        }
    }
    put_lengths(out, from, text.len().saturating_add(1), &last);
}

/// Adds how a call ends with each front of a file that the paragraph tells, the whole of it last.
pub(crate) fn put_cuts(alloc: Global, out: &mut Sheet, paragraph: &str, row: &str) {
    let (name, words) = halves(row);
    let again = Again { paragraph, words };
    let mut text = Sheet::new(alloc);
    put_spelled(&mut text, text_in(paragraph, name));
    match text.text() {
        Ok(text) => put_fronts(alloc, out, again, name, text.as_bytes()),
        Err(Memory) => out.lose(),
    }
}
