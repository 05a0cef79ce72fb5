//! What is loaded of the feeds that were told.
use crate::telling::{Told, table_of};
use std::alloc::Global;
use zi_lines::Sheet;
use zi_packages::PackagesFault;
use zi_parts::{Command, Impl};
use zi_text::{Memory, Text};
use zi_universe::{Candidate, Interface, LoadFault, Universe, load};

/// How many characters of an answer are written; a longer one has `..` behind them.
const FRONT: usize = 200;

/// What a loading of this root gives.
fn loaded(alloc: Global, root: &str, told: &mut Told) -> Result<Universe, LoadFault> {
    told.req.interface = Text::from_str(alloc, root)?;
    load(
        alloc,
        &told.req,
        &told.policy,
        told.stored.as_slice(),
        &told.packages,
        &mut told.feeds,
    )
}

/// Adds the distribution of a table of packages and the number of its rows, or the number of its bad line.
pub(crate) fn put_table(alloc: Global, out: &mut Sheet, row: &str) {
    match table_of(alloc, row) {
        Ok(packages) => {
            out.put(packages.distribution.as_str());
            out.put(" ");
            out.number(packages.rows.len() as u64);
        }
        Err(PackagesFault::Bad { line }) => {
            out.put("bad ");
            out.number(line);
        }
        Err(PackagesFault::Memory) => out.lose(),
    }
}

/// Adds an interface with the ids of its candidates, the first of them first.
fn put_interface(out: &mut Sheet, interface: &Interface) {
    out.put(interface.uri.as_str());
    for candidate in interface.candidates.as_slice() {
        out.put(" ");
        out.put(candidate.imp.id.as_str());
    }
    out.put(";");
}

/// Adds the interfaces.
fn put_interfaces(out: &mut Sheet, interfaces: &[Interface]) {
    for interface in interfaces {
        put_interface(out, interface);
    }
}

/// Adds a limit that was passed.
fn put_limit(out: &mut Sheet, what: &str, limit: u64) {
    out.put(what);
    out.put(" ");
    out.number(limit);
}

/// Adds a refusal of the feed at an address.
fn put_at(out: &mut Sheet, what: &str, uri: &Text) {
    out.put(what);
    out.put(" ");
    out.put(uri.as_str());
}

/// Adds a refusal.
fn put_refusal(out: &mut Sheet, fault: &LoadFault) {
    match fault {
        LoadFault::FeedRead { uri } => put_at(out, "FeedRead", uri),
        LoadFault::NoRootFeed => out.put("NoRootFeed"),
        LoadFault::BadFeed { uri, fault } => {
            put_at(out, "BadFeed", uri);
            out.put(" ");
            out.value(fault);
        }
        LoadFault::FeedTooLong { uri, limit } => {
            put_at(out, "FeedTooLong", uri);
            put_limit(out, "", *limit);
        }
        LoadFault::TooManyInterfaces { limit } => put_limit(out, "TooManyInterfaces", *limit),
        LoadFault::TooManyCandidates { limit } => put_limit(out, "TooManyCandidates", *limit),
        LoadFault::TooManyFeeds { limit } => put_limit(out, "TooManyFeeds", *limit),
        LoadFault::Memory => out.lose(),
    }
}

/// Adds the front of a text.
fn put_front(out: &mut Sheet, text: &str) {
    match text.get(..FRONT) {
        Some(front) => {
            out.put(front);
            out.put("..");
        }
        None => out.put(text),
    }
}

/// Adds what a loading of this root answers, whole.
fn put_answer(alloc: Global, out: &mut Sheet, root: &str, told: &mut Told) {
    match loaded(alloc, root, told) {
        Ok(universe) => put_interfaces(out, universe.interfaces()),
        Err(fault) => put_refusal(out, &fault),
    }
}

/// Adds what a loading of this root answers.
pub(crate) fn put_loaded(alloc: Global, out: &mut Sheet, root: &str, told: &mut Told) {
    let mut answer = Sheet::new(alloc);
    put_answer(alloc, &mut answer, root, told);
    match answer.text() {
        Ok(text) => put_front(out, text),
        Err(Memory) => out.lose(),
    }
}

/// Adds a number and what is counted.
fn put_count(out: &mut Sheet, count: usize, what: &str) {
    out.number(count as u64);
    out.put(what);
}

/// Adds how much a command has.
fn put_command(out: &mut Sheet, command: &Command) {
    out.put("; ");
    out.put(command.name.as_str());
    out.put(": ");
    put_count(out, command.deps.len(), " dependencies, ");
    put_count(out, command.words.len(), " words, ");
    put_count(out, command.bindings.len(), " bindings");
}

/// Adds how much an implementation has.
fn put_impl(out: &mut Sheet, imp: &Impl) {
    put_count(out, imp.deps.len(), " dependencies, ");
    put_count(out, imp.bindings.len(), " bindings");
    for n in 0..imp.commands.len() {
        put_command(out, imp.commands.at(n).as_ref());
    }
}

/// Adds how much a candidate has: its place among the feed's implementations, and its active parts.
fn put_candidate(out: &mut Sheet, candidate: &Candidate) {
    out.put("place ");
    out.number(candidate.standing.place);
    out.put(", ");
    put_impl(out, &candidate.imp);
}

/// Adds how much the root's first candidate has.
fn put_root(out: &mut Sheet, root: &Interface) {
    match root.candidates.as_slice().first() {
        Some(candidate) => put_candidate(out, candidate),
        None => out.put("no candidate"),
    }
}

/// Adds how much the first candidate of a loading of this root has.
pub(crate) fn put_first(alloc: Global, out: &mut Sheet, root: &str, told: &mut Told) {
    match loaded(alloc, root, told) {
        Ok(universe) => put_root(out, universe.root()),
        Err(fault) => put_refusal(out, &fault),
    }
}

/// Adds the addresses that were asked for, the oldest first.
pub(crate) fn put_asked(out: &mut Sheet, told: &Told) {
    for uri in told.feeds.asked() {
        out.put(uri.as_str());
        out.put(";");
    }
}
