//! The program: its words, its folders of feeds and of trees, its helper, its programs and the standard streams, handed to `zi_app::run`.
//! What these real objects do is tried, and not claimed.
//!
//! Code: `arguments` (words and variables), `hinting` (what hints are made of). The objects are those of `zi_folder` and `zi_edge`.
#![tactic(auto)]

mod arguments;
mod hinting;

use arguments::{
    TextWords, feeds_folder, hints_wanted, log_name, other_folders, store_folder, words,
};
use hinting::{document, first_line, first_of_stores, tell};
use std::alloc::Global;
use std::process::ExitCode;
use zi_app::{Outcome, refuse, run};
use zi_edge::{
    ChildSpawner, FolderFeeds, HelperWeb, LineSink, StdSink, helper, helper_patience, variables,
    write_log,
};
use zi_folder::FolderShelf;
use zi_outside::Vars;
use zi_text::{Memory, Text};

// The program that gives what is in the web, where the variables name one.
fn named_helper(alloc: Global, vars: &Vars) -> Result<Option<Text>, Memory> {
    match helper(vars) {
        Some(name) => Ok(Some(name.copy(alloc)?)),
        None => Ok(None),
    }
}

// The stores that are read besides.
fn other_stores(rt: &HostRuntime) -> Result<Vec<FolderShelf>, Memory> {
    let mut shelves = Vec::new(rt.alloc());
    for folder in other_folders(rt)? {
        shelves.push(FolderShelf::new(*rt, folder))?;
    }
    Ok(shelves)
}

// The program's work; Err where memory is refused before it begins.
fn work(rt: &HostRuntime) -> Result<Outcome, Memory> {
    let alloc = rt.alloc();
    let TextWords { texts, whole } = words(rt, alloc)?;
    let mut err = LineSink::new(alloc, "standard error", rt.stderr());
    if !whole {
        let outcome = refuse(alloc, texts.as_slice(), &mut err);
        err.end();
        return Ok(outcome);
    }
    let log_name = log_name(rt)?;
    let vars = variables(rt, alloc)?;
    let mut feeds = FolderFeeds::new(rt, feeds_folder(rt)?);
    let mut shelf = FolderShelf::new(*rt, store_folder(rt)?);
    let mut others = other_stores(rt)?;
    let mut web = HelperWeb::new(rt, named_helper(alloc, &vars)?, helper_patience(&vars));
    let mut spawner = ChildSpawner::new(rt);
    let mut out = StdSink::new(alloc, "standard output", rt.stdout());
    let outcome = run(
        alloc,
        texts.as_slice(),
        &vars,
        &mut feeds,
        &mut shelf,
        others.as_mut_slice(),
        &mut web,
        &mut spawner,
        &mut out,
        &mut err,
    );
    err.end();
    if let Some(name) = log_name {
        let _ = write_log(rt, &name, feeds.log().as_bytes());
        let _ = write_log(rt, &name, shelf.log().as_bytes());
        for other in &others {
            let _ = write_log(rt, &name, other.log().as_bytes());
        }
        let _ = write_log(rt, &name, web.log().as_bytes());
        let _ = write_log(rt, &name, spawner.log().as_bytes());
        let _ = write_log(rt, &name, out.log().as_bytes());
        let _ = write_log(rt, &name, err.log().as_bytes());
    }
    if matches!(hints_wanted(rt), Ok(true)) {
        let document = document(alloc, &outcome, texts.as_slice(), &mut feeds);
        let failure = match &outcome {
            Outcome::FeedRead { .. } => first_line(alloc, feeds.log().as_bytes()),
            Outcome::FetchRead { .. } => first_line(alloc, web.log().as_bytes()),
            Outcome::StoreFault { .. } => first_of_stores(alloc, &shelf, others.as_slice()),
            Outcome::SpawnFault => first_line(alloc, spawner.log().as_bytes()),
            Outcome::SinkFault => first_line(alloc, out.log().as_bytes()),
            _ => first_line(alloc, b""),
        };
        if let Ok(failure) = failure {
            let _ = tell(
                rt,
                &outcome,
                texts.as_slice(),
                failure.as_str(),
                document.as_slice(),
            );
        }
    }
    Ok(outcome)
}

fn main(rt: HostRuntime) -> ExitCode {
    let outcome = match work(&rt) {
        Ok(outcome) => outcome,
        Err(Memory) => Outcome::Memory,
    };
    ExitCode::from(outcome.code())
}
