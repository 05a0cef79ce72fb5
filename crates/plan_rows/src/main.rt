//! Rows of plans. Reads paragraphs from standard input, apart by lines `--`, and writes each with its answer on lines behind it, each
//! behind `= `: `stdout` is a table of selections with the answers that were worked out by hand, and `stdin` has the selections.
//!
//! A paragraph that begins with `plan`, `before` or `shims` has lines `vars`, `user`, `folders` and `shims`, where these are wanted, with
//! words behind them: variables as `NAME=VALUE`, the user's words, a folder for each selection (`-` and what isn't said is none), and the
//! folders of shims. Its other lines stand in the root of a document for `/a` and its command `run`. The answer is the launch that is
//! planned, with these folders of shims or before there are any, or the call of each shim; or its fault. A paragraph that begins with `#`
//! says what the next ones show.
#![tactic(auto)]

mod answers;
mod reading;

use std::alloc::Global;
use std::io::{self, Write};
use std::process::ExitCode;
use zi_text::Memory;

/// Adds a paragraph, and on the lines behind it the answer to it.
fn put_block(out: &mut String, paragraph: &str, answer: &str) -> Result<(), Memory> {
    out.push_str(paragraph)?;
    for line in answer.lines() {
        out.push_str("\n= ")?;
        out.push_str(line)?;
    }
    Ok(out.push('\n')?)
}

/// The paragraphs with their answers.
fn answered(alloc: Global, text: &str) -> Result<String, Memory> {
    let mut out = String::new(alloc);
    for paragraph in text.trim_end_matches('\n').split("\n--\n") {
        if !out.is_empty() {
            out.push_str("--\n")?;
        }
        let mut answer = String::new(alloc);
        answers::put_answer(alloc, &mut answer, paragraph)?;
        put_block(&mut out, paragraph, answer.as_str())?;
    }
    Ok(out)
}

fn main(rt: HostRuntime) -> io::Result<ExitCode> {
    let text = io::read_to_string(rt.alloc(), rt.stdin())?;
    match answered(rt.alloc(), text.as_str()) {
        Ok(out) => rt.stdout().write_all(out.as_bytes())?,
        Err(Memory) => return Ok(ExitCode::from(1)),
    }
    Ok(ExitCode::SUCCESS)
}
