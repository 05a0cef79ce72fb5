//! Rows of commands: what words ask for, and what the whole program answers over feeds, a store, a web, programs and streams in memory. Reads
//! paragraphs from standard input, apart by empty lines, and writes each line with its answer behind ` = `, or on lines of its own, each
//! behind `= `: `stdout` is a table of questions with the answers that were worked out by hand from the rules, and `stdin` has the questions.
//!
//! A line has a word and what belongs to it. What it tells (`told`) lasts up to the paragraph's end. What it asks is answered by the status, the
//! line of how it ended and, on lines of their own, what was written; or by what is seen of the objects behind it. `each OBJECT WORDS`
//! is answered by a run without a fault, and for each call of the object by one where that call fails; `cuts FILE WORDS` by a run for each
//! front of the file. A line that begins with `#` says what the paragraph shows. In words and files `\n`, `\t`, `\d`, `\1` and `\e` stand
//! for a line's end, a tab and the characters 7F, 1 and FFFE, and `_` is the empty word.
#![tactic(auto)]

mod again;
mod asking;
mod calling;
mod cuts;
mod each;
mod held;
mod limited;
mod seen;
mod told;
mod words;

use std::alloc::Global;
use std::io::{self, Write};
use std::process::ExitCode;
use told::{Told, tells};
use zi_lines::{Sheet, halves};
use zi_text::Memory;

/// Adds the answer to what a word of a paragraph asks.
fn put_answer(
    alloc: Global,
    out: &mut Sheet,
    paragraph: &str,
    word: &str,
    rest: &str,
    told: &mut Told,
) {
    match word {
        "each" => each::put_each(alloc, out, paragraph, rest),
        "cuts" => cuts::put_cuts(alloc, out, paragraph, rest),
        "zi" => calling::put_call(alloc, out, rest, told),
        "quiet" => calling::put_quiet(alloc, out, rest, told),
        "cut" => calling::put_refusal(alloc, out, rest),
        "words" => words::put_request(alloc, out, rest),
        "bare" => words::put_bare(alloc, out, rest),
        "address" => words::put_file(alloc, out, rest),
        _ => seen::put_seen(alloc, out, word, rest, &told.objects),
    }
}

/// Adds a line of a paragraph with its answer.
fn put_line(alloc: Global, out: &mut Sheet, paragraph: &str, line: &str, told: &mut Told) {
    out.put(line);
    let (word, rest) = halves(line);
    if !tells(alloc, out, word, rest, told) {
        let mut answer = Sheet::new(alloc);
        put_answer(alloc, &mut answer, paragraph, word, rest, told);
        out.answer(&answer);
    }
    out.put("\n");
}

/// Adds a paragraph, each line with its answer, and an empty line before it unless it is the first.
fn put_paragraph(alloc: Global, out: &mut Sheet, paragraph: &str) {
    if !out.is_empty() {
        out.put("\n");
    }
    let mut told = Told::new(alloc);
    for line in paragraph.lines() {
        put_line(alloc, out, paragraph, line, &mut told);
    }
}

/// Adds the paragraphs with their answers.
fn put_all(alloc: Global, out: &mut Sheet, text: &str) {
    for paragraph in text.split("\n\n") {
        put_paragraph(alloc, out, paragraph);
    }
}

fn main(rt: HostRuntime) -> io::Result<ExitCode> {
    let text = io::read_to_string(rt.alloc(), rt.stdin())?;
    let mut out = Sheet::new(rt.alloc());
    put_all(rt.alloc(), &mut out, text.as_str());
    match out.text() {
        Ok(text) => rt.stdout().write_all(text.as_bytes())?,
        Err(Memory) => return Ok(ExitCode::from(1)),
    }
    Ok(ExitCode::SUCCESS)
}
