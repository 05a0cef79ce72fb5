//! Rows of feeds. Reads paragraphs from standard input, apart by empty lines, and writes each line with its answer behind ` = `:
//! `stdout` is a table of questions with the answers that were worked out by hand, and `stdin` has the questions.
//!
//! The lines of a paragraph that begins with `document` and an address are a document; the feed that it is under that address, or the
//! fault, is written on lines behind it, each behind `= `. So is what an element is by itself, where a paragraph begins with `element`.
//! A line of another paragraph has a word and what belongs to it: what it tells (`telling`) lasts up to the paragraph's end, what it
//! asks is answered (`asking`, `loading`), and one that begins with `#` says what the next ones show.
#![tactic(auto)]

mod asking;
mod loading;
mod spelling;
mod telling;

use std::alloc::Global;
use std::io::{self, Write};
use std::process::ExitCode;
use telling::{Told, tells};
use zi_lines::{Sheet, halves};
use zi_text::Memory;

/// Adds the answer to what a word asks.
fn put_answer(alloc: Global, out: &mut Sheet, word: &str, rest: &str, told: &mut Told) {
    match word {
        "address" => asking::put_address(alloc, out, rest),
        "path" => asking::put_local(alloc, out, rest),
        "inside" => asking::put_inside(alloc, out, rest),
        "table" => loading::put_table(alloc, out, rest),
        "load" => loading::put_loaded(alloc, out, rest, told),
        "first" => loading::put_first(alloc, out, rest, told),
        "asked" => loading::put_asked(out, told),
        _ => out.put("no question"),
    }
}

/// Adds a line with its answer.
fn put_line(alloc: Global, out: &mut Sheet, line: &str, told: &mut Told) {
    out.put(line);
    let (word, rest) = halves(line);
    if !tells(alloc, out, word, rest, told) {
        out.put(" = ");
        put_answer(alloc, out, word, rest, told);
    }
    out.put("\n");
}

/// Adds the lines of a paragraph, each with its answer.
fn put_lines(alloc: Global, out: &mut Sheet, paragraph: &str) {
    let mut told = Told::new(alloc);
    out.needs(told.take_user(alloc));
    for line in paragraph.lines() {
        put_line(alloc, out, line, &mut told);
    }
}

/// Adds the lines of an answer.
fn put_behind(out: &mut Sheet, answer: &str) {
    for line in answer.trim_start_matches('\n').lines() {
        out.put("\n= ");
        out.put(line);
    }
}

/// Adds a paragraph, and on the lines behind it the answer to it.
fn put_block(out: &mut Sheet, paragraph: &str, answer: &Sheet) {
    out.put(paragraph.trim_end_matches('\n'));
    match answer.text() {
        Ok(text) => put_behind(out, text),
        Err(Memory) => out.lose(),
    }
    out.put("\n");
}

/// Adds the answer to a whole paragraph, and says whether it asks as a whole.
fn put_whole(alloc: Global, out: &mut Sheet, paragraph: &str) -> bool {
    if let Some(rest) = paragraph.strip_prefix("document ") {
        let (uri, document) = rest.split_once('\n').unwrap_or((rest, ""));
        asking::put_feed(alloc, out, document, uri);
        return true;
    }
    if let Some(element) = paragraph.strip_prefix("element ") {
        asking::put_element(alloc, out, element);
        return true;
    }
    false
}

/// Adds a paragraph with its answers, an empty line before it unless it is the first.
fn put_paragraph(alloc: Global, out: &mut Sheet, paragraph: &str) {
    if !out.is_empty() {
        out.put("\n");
    }
    let mut answer = Sheet::new(alloc);
    if put_whole(alloc, &mut answer, paragraph) {
        put_block(out, paragraph, &answer);
    } else {
        put_lines(alloc, out, paragraph);
    }
}

/// Adds the paragraphs with their answers.
fn put_all(alloc: Global, out: &mut Sheet, text: &str) {
    for paragraph in text.split("\n\n") {
        put_paragraph(alloc, out, paragraph);
    }
}

fn main(rt: HostRuntime) -> io::Result<ExitCode> {
    let text = io::read_to_string(rt.alloc(), rt.stdin())?;
    let mut out = Sheet::new(rt.alloc());
    put_all(rt.alloc(), &mut out, text.as_str());
    match out.text() {
        Ok(text) => rt.stdout().write_all(text.as_bytes())?,
        Err(Memory) => return Ok(ExitCode::from(1)),
    }
    Ok(ExitCode::SUCCESS)
}
