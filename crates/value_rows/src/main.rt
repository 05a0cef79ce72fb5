//! Rows of values: versions, platforms, ranks, digests, names, documents, formulas, proofs, shims, and feeds of the demonstration. Reads paragraphs
//! from standard input, apart by empty lines, and writes each line with its answer behind ` = `, or on lines of its own, each behind `= `:
//! `stdout` is a table of questions with the answers that were worked out by hand or come from elsewhere, and `stdin` has the questions.
//!
//! A line has a word and what belongs to it. What it tells (`told`) lasts up to the paragraph's end: start and end tags, a formula. What it
//! asks is answered by the module for it. A line that begins with `#` says what the next ones show. `\n`, `\t` and `\x` with two
//! hexadecimal digits stand for bytes.
#![tactic(auto)]

mod bytes;
mod demonstration;
mod digests;
mod documents;
mod formulas;
mod policies;
mod ranks;
mod shims;
mod told;
mod versions;

use std::alloc::Global;
use std::io::{self, Write};
use std::process::ExitCode;
use told::{Told, tells};
use zi_lines::{Sheet, halves, quoted};
use zi_text::Memory;

/// Adds the answer to what a word asks of versions and platforms, and says whether it asks such.
fn put_plain(alloc: Global, out: &mut Sheet, word: &str, rest: &str) -> bool {
    let (one, other) = quoted(rest);
    match word {
        "version" => versions::put_version(alloc, out, one),
        "text" => versions::put_text(alloc, out, one),
        "compare" => versions::put_order(alloc, out, one, other),
        "range" => versions::put_range(alloc, out, one),
        "admits" => versions::put_admitted(alloc, out, one, other),
        "copied" => versions::put_copied(alloc, out, one, other),
        "from" => versions::put_from(alloc, out, one, other),
        "os" => policies::put_os(alloc, out, one, other),
        "machine" => policies::put_machine(alloc, out, one, other),
        "width" => policies::put_width(alloc, out, one),
        "holds" => policies::put_holds(alloc, out, one, other),
        "platform" => policies::put_platform(alloc, out, one),
        "rises" => policies::put_rises(out, one, other),
        _ => return false,
    }
    true
}

/// Adds the answer to what a word asks.
fn put_answer(alloc: Global, out: &mut Sheet, word: &str, rest: &str, told: &mut Told) {
    if put_plain(alloc, out, word, rest) {
        return;
    }
    match word {
        "leads" => ranks::put_leads(alloc, out, rest),
        "usable" => ranks::put_usable(alloc, out, rest),
        "digest" => digests::put_digest(alloc, out, rest),
        "pieces" => digests::put_pieces(alloc, out, rest),
        "parsed" => digests::put_parsed(alloc, out, rest),
        "tag" => told::put_tag(alloc, out, rest, told),
        "document" => documents::put_fault(alloc, out, rest),
        "write" => documents::put_written(alloc, out, rest),
        "formed" => formulas::put_formed(out, &told.formula),
        "models" => formulas::put_models(alloc, out, rest, &told.formula),
        "judge" => formulas::put_judged(alloc, out, rest, &told.formula),
        "block" => formulas::put_block(alloc, out, rest, &told.formula),
        "proof" => formulas::put_proof(alloc, out, rest),
        "shim" => shims::put_text(alloc, out, rest),
        "said" => shims::put_said(alloc, out, rest),
        "shim_tree" => shims::put_shim_tree(alloc, out, rest),
        "demonstration" => demonstration::put_feed(alloc, out, rest),
        _ => out.put("no question"),
    }
}

/// Adds a line with its answer.
fn put_line(alloc: Global, out: &mut Sheet, line: &str, told: &mut Told) {
    out.put(line);
    let (word, rest) = halves(line);
    if !tells(alloc, out, word, rest, told) {
        let mut answer = Sheet::new(alloc);
        put_answer(alloc, &mut answer, word, rest, told);
        out.answer(&answer);
    }
    out.put("\n");
}

/// Adds the lines of a paragraph, each with its answer.
fn put_lines(alloc: Global, out: &mut Sheet, paragraph: &str, told: &mut Told) {
    for line in paragraph.lines() {
        put_line(alloc, out, line, told);
    }
}

/// Adds a paragraph with its answers, an empty line before it unless it is the first.
fn put_paragraph(alloc: Global, out: &mut Sheet, paragraph: &str) {
    if !out.is_empty() {
        out.put("\n");
    }
    match Told::new(alloc) {
        Ok(mut told) => put_lines(alloc, out, paragraph, &mut told),
        Err(Memory) => out.lose(),
    }
}

/// Adds the paragraphs with their answers.
fn put_all(alloc: Global, out: &mut Sheet, text: &str) {
    for paragraph in text.split("\n\n") {
        put_paragraph(alloc, out, paragraph);
    }
}

fn main(rt: HostRuntime) -> io::Result<ExitCode> {
    let text = io::read_to_string(rt.alloc(), rt.stdin())?;
    let mut out = Sheet::new(rt.alloc());
    put_all(rt.alloc(), &mut out, text.as_str());
    match out.text() {
        Ok(text) => rt.stdout().write_all(text.as_bytes())?,
        Err(Memory) => return Ok(ExitCode::from(1)),
    }
    Ok(ExitCode::SUCCESS)
}
