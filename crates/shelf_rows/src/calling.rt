//! What each call of a shelf answers.
use crate::nodes::path_of;
use crate::{purges, reading, sessions};
use std::alloc::Global;
use zi_lines::{Sheet, halves};
use zi_purge::Purge;
use zi_session::Session;
use zi_shelf::{Entry, EntryKind, Listed, Shelf, ShelfFault};
use zi_text::{List, Memory, Text};
use zi_tree::RelPath;

/// Adds an entry.
fn put_entry(out: &mut Sheet, entry: &Entry) {
    out.put(entry.name.as_str());
    match &entry.kind {
        EntryKind::File { exec, mtime, size } => {
            out.put(if *exec { " file true " } else { " file false " });
            out.value(mtime);
            out.put(" ");
            out.value(size);
        }
        EntryKind::Link => out.put(" link"),
        EntryKind::Folder => out.put(" folder"),
    }
    out.put(";");
}

/// Adds entries.
fn put_entries(out: &mut Sheet, entries: &[Entry]) {
    for entry in entries {
        put_entry(out, entry);
    }
}

/// Adds a listing.
fn put_listing(out: &mut Sheet, listed: &Result<Listed, ShelfFault>) {
    match listed {
        Ok(Listed::Absent) => out.put("absent"),
        Ok(Listed::Entries(entries)) => put_entries(out, entries.as_slice()),
        Err(fault) => out.value(fault),
    }
}

/// Adds names.
fn put_each(out: &mut Sheet, names: &List<Text>) {
    if names.is_empty() {
        return out.put("none");
    }
    for name in names.as_slice() {
        out.put(name.as_str());
        out.put(";");
    }
}

/// Adds the names that a shelf has.
fn put_names(out: &mut Sheet, names: &Result<List<Text>, ShelfFault>) {
    match names {
        Ok(names) => put_each(out, names),
        Err(fault) => out.value(fault),
    }
}

/// Adds the target of a link.
fn put_target(out: &mut Sheet, target: &Result<Text, ShelfFault>) {
    match target {
        Ok(text) => out.put(text.as_str()),
        Err(fault) => out.value(fault),
    }
}

/// Adds a piece of a file, by the number of its first byte and the greatest of its length, behind what the buffer has: the byte 62.
fn put_piece<K: Shelf>(
    alloc: Global,
    out: &mut Sheet,
    shelf: &mut K,
    top: &str,
    at: &RelPath,
    range: (u64, u32),
) {
    let (offset, max) = range;
    let mut bytes = Vec::new(alloc);
    if bytes.push(b'>').is_err() {
        out.lose();
    }
    if let Err(fault) = shelf.read(top, at, offset, max, &mut bytes) {
        out.value(&fault);
        out.put(" ");
    }
    out.value(&bytes);
}

/// What a call that fills an entry answers: `append` has the bytes of `abc`, `finish_file` the time -5, `make_link` the target `d/f`.
fn filled<K: Shelf>(shelf: &mut K, word: &str, top: &str, at: &RelPath) -> Result<(), ShelfFault> {
    match word {
        "make_folder" => shelf.make_folder(top, at),
        "append" => shelf.append(top, at, b"abc"),
        "finish_file" => shelf.finish_file(top, at, true, -5),
        _ => shelf.make_link(top, at, "d/f"),
    }
}

/// Adds the answer of a call that changes the top.
fn put_changed<K: Shelf>(out: &mut Sheet, word: &str, top: &str, to: &str, shelf: &mut K) {
    match word {
        "make_top" => out.value(&shelf.make_top(top)),
        "settle" => out.value(&shelf.settle(top)),
        "rename" => out.value(&shelf.rename(top, to)),
        "settle_top" => out.value(&shelf.settle_top()),
        "remove_top" => out.value(&shelf.remove_top(top)),
        _ => out.put("no question"),
    }
}

/// Adds the answer of a call on a path.
fn put_at<K: Shelf>(
    alloc: Global,
    out: &mut Sheet,
    word: &str,
    top: &str,
    at: &RelPath,
    shelf: &mut K,
) {
    match word {
        "entries" => put_listing(out, &shelf.entries(top, at)),
        "target" => put_target(out, &shelf.target(top, at)),
        "read" => put_piece(alloc, out, shelf, top, at, (3, 4)),
        "read_all" => put_piece(alloc, out, shelf, top, at, (0, 100)),
        "read_end" => put_piece(alloc, out, shelf, top, at, (6, 1)),
        _ => out.value(&filled(shelf, word, top, at)),
    }
}

/// Adds the answer of a call on the path that a row has behind the top name.
fn put_on_path<K: Shelf>(alloc: Global, out: &mut Sheet, word: &str, row: &str, shelf: &mut K) {
    let (top, path) = halves(row);
    match path_of(alloc, path) {
        Ok(Some(at)) => put_at(alloc, out, word, top, &at, shelf),
        Ok(None) => out.put("no path"),
        Err(Memory) => out.lose(),
    }
}

/// Adds the answer to what a word asks of a shelf, by itself, as a store, or as sessions or a purger do.
pub(crate) fn put_call<K: Shelf>(
    alloc: Global,
    out: &mut Sheet,
    word: &str,
    rest: &str,
    shelf: &mut K,
    sessions: &mut Vec<Option<Session>>,
    purge: &mut Option<Purge>,
) {
    match word {
        "entries"
        | "target"
        | "read"
        | "read_all"
        | "read_end"
        | "make_folder"
        | "append"
        | "finish_file"
        | "make_link" => put_on_path(alloc, out, word, rest, shelf),
        "verdict" => reading::put_verdict(alloc, out, rest, shelf),
        "twice" => reading::put_twice(alloc, out, rest, shelf),
        "written" => reading::put_written(alloc, out, rest, shelf),
        "tree" => reading::put_tree(alloc, out, rest, shelf),
        "bytes" => reading::put_file(alloc, out, rest, shelf),
        "text" => reading::put_text(alloc, out, rest, shelf),
        "stored" => reading::put_stored(alloc, out, shelf),
        "step" | "run" => sessions::put_step(alloc, out, word, rest, shelf, sessions),
        "purge" => purges::put_purge(alloc, out, shelf, purge),
        "names" => put_names(out, &shelf.names()),
        "root" => out.put(shelf.root()),
        _ => {
            let (top, to) = halves(rest);
            put_changed(out, word, top, to, shelf);
        }
    }
}
