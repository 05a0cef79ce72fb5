//! Rows of shelves: their calls, what is read of a store on them, sessions that add to it and purgers, manifests. Reads paragraphs from standard input, apart
//! by empty lines, and writes each line with its answer behind ` = `, or on lines of its own, each behind `= `: `stdout` is a table of
//! questions with the answers that were worked out by hand, and `stdin` has the questions.
//!
//! A line has a word and what belongs to it. What it tells (`telling`) lasts up to the paragraph's end: a tree, node by node; a shelf, one
//! that fails at planned calls where nothing else is said, or one in a real folder; others that are read besides; sessions; a purger. What it
//! asks is answered by the module for it. A line that begins
//! with `#` says what the paragraph shows. In paths and texts `\n`, `\0` and `\xff` stand for these bytes.
#![tactic(auto)]

mod calling;
mod crashes;
mod kept;
mod manifests;
mod nodes;
mod purges;
mod reading;
mod recorded;
mod sessions;
mod several;
mod telling;

use kept::Kept;
use std::alloc::Global;
use std::io::{self, Write};
use std::process::ExitCode;
use telling::{Told, tells};
use zi_lines::{Sheet, halves};
use zi_text::Memory;

/// Adds the answer to what a word asks of what was told, and says whether it asks such.
fn put_told(alloc: Global, out: &mut Sheet, word: &str, rest: &str, told: &mut Told) -> bool {
    match word {
        "calls" => recorded::put_calls(out, told.shelf.calls()),
        "count" => recorded::put_count(out, &told.shelf),
        "others" => recorded::put_others(out, told.others.as_slice()),
        "top" => recorded::put_top(out, rest, &told.shelf),
        "manifest" => manifests::put_manifest(alloc, out, rest, &told.tree),
        "digest" => manifests::put_digest(alloc, out, rest, &told.tree),
        "listing" => manifests::put_fault(alloc, out, rest),
        "lines" => manifests::put_lines(alloc, out, rest),
        "difference" => manifests::put_difference(alloc, out, rest),
        "begin" => sessions::put_begun(alloc, out, rest, told),
        "residue" => sessions::put_residue(out, rest, told),
        "crashes" => crashes::put_crashes(alloc, out, rest, told.adders.as_slice()),
        "purging" => purges::put_purging(alloc, out, rest, told),
        "purge_crashes" => purges::put_crashes(alloc, out, rest, told.adders.as_slice()),
        "blamed" => sessions::put_blamed(alloc, out, rest, told),
        _ => return false,
    }
    true
}

/// Adds the answer to what a word asks of the shelf and the others, and says whether it asks such.
fn put_several(alloc: Global, out: &mut Sheet, word: &str, rest: &str, told: &mut Told) -> bool {
    let others = told.others.as_mut_slice();
    match &mut told.shelf {
        Kept::Planned(shelf) => several::put_several(alloc, out, word, rest, shelf, others),
        Kept::Sure(shelf) => several::put_several(alloc, out, word, rest, shelf, others),
        Kept::Real(shelf) => several::put_several(alloc, out, word, rest, shelf, others),
    }
}

/// Adds the answer to what a word asks.
fn put_answer(alloc: Global, out: &mut Sheet, word: &str, rest: &str, told: &mut Told) {
    if put_told(alloc, out, word, rest, told) {
        return;
    }
    if put_several(alloc, out, word, rest, told) {
        return;
    }
    let sessions = &mut told.sessions;
    let purge = &mut told.purge;
    match &mut told.shelf {
        Kept::Planned(shelf) => calling::put_call(alloc, out, word, rest, shelf, sessions, purge),
        Kept::Sure(shelf) => calling::put_call(alloc, out, word, rest, shelf, sessions, purge),
        Kept::Real(shelf) => calling::put_call(alloc, out, word, rest, shelf, sessions, purge),
    }
}

/// Adds a line with its answer.
fn put_line(alloc: Global, out: &mut Sheet, line: &str, told: &mut Told) {
    out.put(line);
    let (word, rest) = halves(line);
    if !tells(alloc, out, word, rest, told) {
        let mut answer = Sheet::new(alloc);
        put_answer(alloc, &mut answer, word, rest, told);
        out.answer(&answer);
    }
    out.put("\n");
}

/// Adds a paragraph, each line with its answer, and an empty line before it unless it is the first.
fn put_paragraph(rt: HostRuntime, out: &mut Sheet, paragraph: &str) {
    if !out.is_empty() {
        out.put("\n");
    }
    let alloc = rt.alloc();
    let mut told = Told::new(rt);
    for line in paragraph.lines() {
        put_line(alloc, out, line, &mut told);
    }
}

/// Adds the paragraphs with their answers.
fn put_all(rt: HostRuntime, out: &mut Sheet, text: &str) {
    for paragraph in text.split("\n\n") {
        put_paragraph(rt, out, paragraph);
    }
}

fn main(rt: HostRuntime) -> io::Result<ExitCode> {
    let text = io::read_to_string(rt.alloc(), rt.stdin())?;
    let mut out = Sheet::new(rt.alloc());
    put_all(rt, &mut out, text.as_str());
    match out.text() {
        Ok(text) => rt.stdout().write_all(text.as_bytes())?,
        Err(Memory) => return Ok(ExitCode::from(1)),
    }
    Ok(ExitCode::SUCCESS)
}
