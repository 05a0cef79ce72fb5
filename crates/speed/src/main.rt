//! Parts of zi by themselves, for the scripts under bench/ that hold them against known tools: `speed PART [WORD]`, where PART is
//! `document`, `hash`, `manifest`, `proof`, `search` or `build`. What each reads and prints is said at its module.
#![tactic(auto)]

mod building;
mod documents;
mod hashing;
mod manifests;
mod proofs;
mod searching;

use std::alloc::Global;
use std::env;
use std::io::{self, Write};
use std::process::ExitCode;

/// The number that a word is.
fn number(word: &str) -> Option<u32> {
    word.parse::<u32>().ok()
}

/// A line of text as bytes.
fn line(alloc: Global, text: &str) -> io::Result<Vec<u8>> {
    let line = format!(in alloc; "{text}\n")?;
    Ok(line.into_bytes())
}

/// What the part prints for the word behind its name, which is empty where none stands there. None where there is no such part, or
/// the word is none that it knows.
fn answer(rt: &HostRuntime, part: &str, word: &str) -> io::Result<Option<Vec<u8>>> {
    if part == "document" {
        documents::told(rt, word)
    } else if part == "hash" {
        hashing::named(rt, word)
    } else if part == "manifest" {
        manifests::named(rt, word)
    } else if part == "proof" {
        proofs::told(rt, word)
    } else if part == "search" {
        searching::found(rt, word)
    } else if part == "build" {
        building::counted(rt, word)
    } else {
        Ok(None)
    }
}

fn main(rt: HostRuntime) -> io::Result<ExitCode> {
    let mut words = env::args(&rt)?;
    let _program = words.next();
    let part = words.next();
    let word = words.next();
    let part = part.as_ref().map_or("", |part| part.as_str());
    let word = word.as_ref().map_or("", |word| word.as_str());
    match answer(&rt, part, word)? {
        Some(bytes) => {
            rt.stdout().write_all(bytes.as_slice())?;
            Ok(ExitCode::SUCCESS)
        }
        None => {
            eprintln!(rt;
                "speed: document, hash ALGORITHM, manifest SHAPE, proof LENGTH, search LEMMAS or build TIMES"
            )?;
            Ok(ExitCode::from(2))
        }
    }
}
