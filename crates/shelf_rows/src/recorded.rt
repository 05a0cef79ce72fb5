//! What is recorded of a shelf's calls, and what it holds.
use crate::kept::Kept;
use zi_lines::Sheet;
use zi_memory::MemoryShelf;
use zi_shelf::ShelfCall;

/// Adds a number behind a blank.
fn put_number(out: &mut Sheet, number: u64) {
    out.put(" ");
    out.number(number);
}

/// Adds a call with all that it has; of its bytes the number.
fn put_recorded(out: &mut Sheet, call: &ShelfCall) {
    out.value(&call.kind);
    out.put(" ");
    out.put(call.top.as_str());
    out.put(" ");
    out.put(call.path.as_str());
    put_number(out, call.offset);
    put_number(out, u64::from(call.max));
    put_number(out, call.bytes.len() as u64);
    out.put(if call.exec { " true " } else { " false " });
    out.value(&call.mtime);
    out.put("\n");
}

/// Adds the calls, a line each.
pub(crate) fn put_calls(out: &mut Sheet, calls: &[ShelfCall]) {
    for call in calls {
        put_recorded(out, call);
    }
}

/// Adds the number of calls.
pub(crate) fn put_count(out: &mut Sheet, shelf: &Kept) {
    out.number(shelf.calls().len() as u64);
}

/// Adds the calls of each of the others, each behind its number.
pub(crate) fn put_others(out: &mut Sheet, others: &[MemoryShelf]) {
    for (number, shelf) in others.iter().enumerate() {
        for call in shelf.calls().as_slice() {
            out.number(number as u64 + 1);
            out.put(" ");
            put_recorded(out, call);
        }
    }
    if out.is_empty() {
        out.put("none");
    }
}

/// Adds how many entries a top entry has.
pub(crate) fn put_top(out: &mut Sheet, name: &str, shelf: &Kept) {
    match shelf.top(name) {
        Some(tree) => {
            out.number(tree.len() as u64);
            out.put(" entries");
        }
        None => out.put("none"),
    }
}
