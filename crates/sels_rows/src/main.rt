//! Rows of selections documents. Reads paragraphs from standard input, apart by lines `--`, and writes each with its answer on lines
//! behind it, each behind `= `: `stdout` is a table of documents with the answers that were worked out by hand, and `stdin` has the
//! documents.
//!
//! The lines of a paragraph that begins with `document` are a document. The answer is its fault, or the selections that it says: the
//! document that is written of them, the digests of each in the order of use, and whether that document is read as the same selections.
//! A paragraph that begins with `inside` has in its other lines what stands in the root, which is for `/a`; its start tag has 95 bytes.
//! A paragraph that begins with `#` says what the next ones show.
//!
//! With the word `document` standard input is one document, and its answer is written as it is. With the word `fault` only its fault is
//! written, or `none`: bench/selections.py times that.
#![tactic(auto)]

mod answers;

use std::alloc::Global;
use std::env;
use std::io::{self, Write};
use std::process::ExitCode;
use zi_text::Memory;

/// Adds a paragraph, and on the lines behind it the answer to it.
fn put_block(out: &mut String, paragraph: &str, answer: &str) -> Result<(), Memory> {
    out.push_str(paragraph)?;
    for line in answer.lines() {
        out.push_str("\n= ")?;
        out.push_str(line)?;
    }
    Ok(out.push('\n')?)
}

/// Adds a paragraph with its answer.
fn put_paragraph(alloc: Global, out: &mut String, paragraph: &str) -> Result<(), Memory> {
    let mut answer = String::new(alloc);
    if let Some(document) = paragraph.strip_prefix("document\n") {
        answers::put_answer(alloc, &mut answer, document)?;
    } else if let Some(inside) = paragraph.strip_prefix("inside\n") {
        let document = answers::document_of(alloc, inside)?;
        answers::put_answer(alloc, &mut answer, document.as_str())?;
    }
    put_block(out, paragraph, answer.as_str())
}

/// The paragraphs with their answers.
fn answered(alloc: Global, text: &str) -> Result<String, Memory> {
    let mut out = String::new(alloc);
    for paragraph in text.trim_end_matches('\n').split("\n--\n") {
        if !out.is_empty() {
            out.push_str("--\n")?;
        }
        put_paragraph(alloc, &mut out, paragraph)?;
    }
    Ok(out)
}

/// What is written for this word of what is read.
fn told(alloc: Global, word: &str, text: &str) -> Result<String, Memory> {
    let mut out = String::new(alloc);
    if word == "document" {
        answers::put_answer(alloc, &mut out, text)?;
    } else if word == "fault" {
        answers::put_found(alloc, &mut out, text)?;
    } else {
        return answered(alloc, text);
    }
    out.push('\n')?;
    Ok(out)
}

fn main(rt: HostRuntime) -> io::Result<ExitCode> {
    let mut words = env::args(&rt)?;
    let _program = words.next();
    let word = words.next();
    let word = word.as_ref().map_or("", |word| word.as_str());
    let text = io::read_to_string(rt.alloc(), rt.stdin())?;
    match told(rt.alloc(), word, text.as_str()) {
        Ok(out) => rt.stdout().write_all(out.as_bytes())?,
        Err(Memory) => return Ok(ExitCode::from(1)),
    }
    Ok(ExitCode::SUCCESS)
}
