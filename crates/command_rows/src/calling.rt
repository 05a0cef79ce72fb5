//! Calls of the whole program over the objects that were told.
use crate::asking::take_words;
use crate::held::Held;
use crate::told::{Objects, Told};
use std::alloc::Global;
use zi_app::{HELP, refuse, run};
use zi_lines::Sheet;
use zi_outside::{Feeds, MemorySink};
use zi_text::{List, Text};

// The status of these words. It has no clause, so nothing behind a call is proved over what the program promises.
fn status_over<F: Feeds>(
    alloc: Global,
    words: &[Text],
    feeds: &mut F,
    objects: &mut Objects,
) -> u8 {
    let outcome = run(
        alloc,
        words,
        &objects.vars,
        feeds,
        &mut objects.shelf,
        objects.others.as_mut_slice(),
        &mut objects.web,
        &mut objects.spawner,
        &mut objects.out,
        &mut objects.err,
    );
    outcome.code()
}

/// The status of these words over the feeds that were told.
fn status_of(alloc: Global, words: &[Text], told: &mut Told) -> u8 {
    let objects = &mut told.objects;
    match &mut told.feeds {
        Held::Planned(feeds) => status_over(alloc, words, feeds, objects),
        Held::Limited(feeds) => status_over(alloc, words, feeds, objects),
        Held::Long(feeds) => status_over(alloc, words, feeds, objects),
    }
}

/// Adds the text of a sink, without the end of its last line; where that isn't there, a `~` says so.
fn put_text(out: &mut Sheet, sink: &MemorySink) {
    let text = std::str::from_utf8(sink.bytes().as_slice()).unwrap_or("no text");
    if text == HELP {
        return out.put("the help");
    }
    match text.strip_suffix('\n') {
        Some(line) => out.put(line),
        None => {
            out.put(text);
            out.put("~");
        }
    }
}

/// Adds the status, and behind a blank the line of how it ended, where there is one.
fn put_status(out: &mut Sheet, status: u8, err: &MemorySink) {
    out.number(u64::from(status));
    if !err.bytes().is_empty() {
        out.put(" ");
        put_text(out, err);
    }
}

/// Adds how a call ends, and what it writes.
pub(crate) fn put_call(alloc: Global, out: &mut Sheet, row: &str, told: &mut Told) {
    put_quiet(alloc, out, row, told);
    if !told.objects.out.bytes().is_empty() {
        out.put("\n");
        put_text(out, &told.objects.out);
    }
}

/// Adds how a call ends, alone.
pub(crate) fn put_quiet(alloc: Global, out: &mut Sheet, row: &str, told: &mut Told) {
    let mut words = List::new(alloc);
    out.needs(take_words(alloc, &mut words, row));
    out.needs(told.begin(alloc));
    let status = status_of(alloc, words.as_slice(), told);
    put_status(out, status, &told.objects.err);
}

/// Adds how words before one that isn't text are refused.
fn put_refused(alloc: Global, out: &mut Sheet, words: &[Text]) {
    let mut err = MemorySink::new(alloc);
    let outcome = refuse(alloc, words, &mut err);
    put_status(out, outcome.code(), &err);
}

/// Adds how the words of a row before one that isn't text are refused.
pub(crate) fn put_refusal(alloc: Global, out: &mut Sheet, row: &str) {
    let mut words = List::new(alloc);
    out.needs(take_words(alloc, &mut words, row));
    put_refused(alloc, out, words.as_slice());
}
