//! One call of the program over and over: call 1, 2, .. of one object fails, each time over objects that are told anew, until no fault
//! is met.
use crate::again::{Again, Run};
use std::alloc::Global;
use zi_lines::{Sheet, halves};
use zi_text::Memory;

/// So many calls of an object are made to fail at most.
const MOST: u32 = 1_000;

/// What a run wrote.
fn written(run: &Run) -> &[u8] {
    run.told.objects.out.bytes().as_slice()
}

/// How many programs a run started.
fn started(run: &Run) -> usize {
    run.told.objects.spawner.launches().len()
}

/// Whether two runs ended alike.
fn are_like(one: &Run, other: &Run) -> bool {
    one.ending.text() == other.ending.text()
        && written(one) == written(other)
        && started(one) == started(other)
}

/// A run where a call of an object fails; call 0 is none.
fn run_failing(alloc: Global, out: &mut Sheet, again: Again<'_>, object: &str, call: u32) -> Run {
    let mut told = again.tell(alloc, out);
    out.needs(told.fail_once(object, call));
    again.run(alloc, told)
}

/// Adds how much of a whole text was written.
fn put_part(out: &mut Sheet, part: &[u8], whole: &[u8]) {
    if part.is_empty() {
        return out.put("nothing");
    }
    if part == whole {
        return out.put("all");
    }
    out.put(if whole.starts_with(part) {
        "the first "
    } else {
        "others, "
    });
    out.number(part.len() as u64);
    out.put(" of ");
    out.number(whole.len() as u64);
}

/// Adds a run beside the one without a fault.
fn put_run(out: &mut Sheet, run: &Run, whole: &Run) {
    match run.ending.text() {
        Ok(text) => out.put(text),
        Err(Memory) => out.lose(),
    }
    out.put("; written: ");
    put_part(out, written(run), written(whole));
    out.put("; started: ");
    out.number(started(run) as u64);
}

/// Adds how a call ends where no call of an object fails, and for each call of it how it ends where that one does.
pub(crate) fn put_each(alloc: Global, out: &mut Sheet, paragraph: &str, row: &str) {
    let (object, words) = halves(row);
    let again = Again { paragraph, words };
    let whole = run_failing(alloc, out, again, object, 0);
    put_run(out, &whole, &whole);
    for call in 1..MOST {
        let run = run_failing(alloc, out, again, object, call);
        if are_like(&run, &whole) {
            return;
        }
        out.put("\n");
        out.number(u64::from(call));
        out.put(": ");
        put_run(out, &run, &whole);
    }
    out.put("\nno end");
}
