//! Rows of choices: walks, constraints, searches, answers, certificates and selections documents of small universes. Reads paragraphs from
//! standard input, apart by empty lines, and writes each line with its answer behind ` = `, or on lines of its own, each behind `= `:
//! `stdout` is a table of questions with the answers that were worked out by hand from the rules, and `stdin` has the questions.
//!
//! A line has a word and what belongs to it. What it tells (`told`) lasts up to the paragraph's end: feeds, the root's first, and the
//! lines of a proof text. What it asks begins with the command that is wanted, `-` for none; picks have a number for each interface in the
//! universe's order, `-` for none. A line that begins with `#` says what the paragraph shows.
#![tactic(auto)]

mod asking;
mod certificates;
mod choices;
mod conflicting;
mod deciding;
mod explaining;
mod refusals;
mod refusing;
mod selections;
mod solving;
mod told;

use std::alloc::Global;
use std::io::{self, Write};
use std::process::ExitCode;
use told::{Told, tells};
use zi_lines::{Sheet, halves};
use zi_text::Memory;

/// Adds a line with its answer.
fn put_line(alloc: Global, out: &mut Sheet, line: &str, told: &mut Told) {
    out.put(line);
    let (word, rest) = halves(line);
    if !tells(alloc, out, word, rest, told) {
        let mut answer = Sheet::new(alloc);
        asking::put_answer(alloc, &mut answer, word, rest, told);
        out.answer(&answer);
    }
    out.put("\n");
}

/// Adds a paragraph, each line with its answer, and an empty line before it unless it is the first.
fn put_paragraph(alloc: Global, out: &mut Sheet, paragraph: &str) {
    if !out.is_empty() {
        out.put("\n");
    }
    let mut told = Told::new(alloc);
    for line in paragraph.lines() {
        put_line(alloc, out, line, &mut told);
    }
}

/// Adds the paragraphs with their answers.
fn put_all(alloc: Global, out: &mut Sheet, text: &str) {
    for paragraph in text.split("\n\n") {
        put_paragraph(alloc, out, paragraph);
    }
}

fn main(rt: HostRuntime) -> io::Result<ExitCode> {
    let text = io::read_to_string(rt.alloc(), rt.stdin())?;
    let mut out = Sheet::new(rt.alloc());
    put_all(rt.alloc(), &mut out, text.as_str());
    match out.text() {
        Ok(text) => rt.stdout().write_all(text.as_bytes())?,
        Err(Memory) => return Ok(ExitCode::from(1)),
    }
    Ok(ExitCode::SUCCESS)
}
