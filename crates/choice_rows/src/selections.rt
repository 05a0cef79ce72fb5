//! Selections documents of choices that are given by hand.
use crate::asking::Asked;
use crate::told::take_picks;
use std::alloc::Global;
use zi_choice::Choice;
use zi_docout::WriteFault;
use zi_lines::Sheet;
use zi_sels::{Selections, from_choice, write};
use zi_text::{List, Memory};

/// Adds how selections were written: the bytes, or that they can't be.
fn put_outcome(out: &mut Sheet, answer: Result<(), WriteFault>, bytes: &[u8]) {
    match answer {
        Ok(()) => out.put(std::str::from_utf8(bytes).unwrap_or("refused")),
        Err(WriteFault::Unwritable { .. }) => out.put("refused"),
        Err(WriteFault::Memory) => out.lose(),
    }
}

/// Adds a selections document.
fn put_document(alloc: Global, out: &mut Sheet, selections: &Selections) {
    let mut bytes = Vec::new(alloc);
    let answer = write(alloc, selections, &mut bytes);
    put_outcome(out, answer, bytes.as_slice());
}

/// Adds the document of a choice.
fn put_chosen(alloc: Global, out: &mut Sheet, asked: &Asked, choice: &Choice) {
    match from_choice(alloc, &asked.universe, &asked.req, choice) {
        Ok(selections) => put_document(alloc, out, &selections),
        Err(Memory) => out.lose(),
    }
}

/// Adds the document of the choice of picks.
pub(crate) fn put_selections(alloc: Global, out: &mut Sheet, asked: &Asked, row: &str) {
    let mut choice = Choice {
        picks: List::new(alloc),
    };
    out.needs(take_picks(&mut choice.picks, row));
    put_chosen(alloc, out, asked, &choice);
}
