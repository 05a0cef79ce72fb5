//! Manifests and digests of the tree that was told, and what texts list.
use crate::nodes::put_bytes;
use std::alloc::Global;
use zi_digest::Algorithm;
use zi_lines::{Sheet, halves};
use zi_manifest::{Line, Listing, ManifestFault, ManifestOutFault, digest, read, write};
use zi_store::first_difference;
use zi_text::Text;
use zi_tree::Tree;

/// The algorithm that a word names.
pub(crate) fn algorithm(word: &str) -> Algorithm {
    match word {
        "sha1new" => Algorithm::Sha1new,
        "sha256" => Algorithm::Sha256,
        _ => Algorithm::Sha256new,
    }
}

/// Adds why a tree has no manifest.
fn put_out_fault(out: &mut Sheet, fault: &ManifestOutFault) {
    match fault {
        ManifestOutFault::BadName { path } => {
            out.put("bad ");
            out.value(&path.as_str());
        }
        ManifestOutFault::Memory => out.lose(),
    }
}

/// Adds the manifest by an algorithm.
pub(crate) fn put_manifest(alloc: Global, out: &mut Sheet, word: &str, tree: &Tree) {
    match write(alloc, tree, algorithm(word)) {
        Ok(bytes) => out.put(std::str::from_utf8(bytes.as_slice()).unwrap_or("no text")),
        Err(fault) => put_out_fault(out, &fault),
    }
}

/// Adds the digest by an algorithm.
pub(crate) fn put_digest(alloc: Global, out: &mut Sheet, word: &str, tree: &Tree) {
    match digest(alloc, tree, algorithm(word)) {
        Ok(name) => out.made(name.text(alloc)),
        Err(fault) => put_out_fault(out, &fault),
    }
}

/// The listing that a text spells; the row is the algorithm and the text.
fn listing_of(alloc: Global, row: &str) -> Result<Listing, ManifestFault> {
    let (word, text) = halves(row);
    let mut bytes = Vec::new(alloc);
    put_bytes(&mut bytes, text)?;
    read(alloc, bytes.as_slice(), algorithm(word))
}

/// Adds the line at which a text is bad.
fn put_bad(out: &mut Sheet, fault: &ManifestFault) {
    match fault {
        ManifestFault::Bad { line } => {
            out.put("bad ");
            out.value(line);
        }
        ManifestFault::Memory => out.lose(),
    }
}

/// Adds whether a text is a listing, or the line at which it is bad.
pub(crate) fn put_fault(alloc: Global, out: &mut Sheet, row: &str) {
    match listing_of(alloc, row) {
        Ok(_listing) => out.put("right"),
        Err(fault) => put_bad(out, &fault),
    }
}

/// Adds a kind with its path.
fn put_named(out: &mut Sheet, kind: &str, path: &Text) {
    out.put(kind);
    out.put(" ");
    out.put(path.as_str());
}

/// Adds a line: its kind, its path, and what else it says.
fn put_line(out: &mut Sheet, line: &Line) {
    match line {
        Line::File {
            path,
            hash,
            exec,
            mtime,
            size,
        } => {
            put_named(out, if *exec { "program" } else { "file" }, path);
            put_named(out, "", hash);
            out.put(" ");
            out.value(mtime);
            out.put(" ");
            out.value(size);
        }
        Line::Link { path, hash, size } => {
            put_named(out, "link", path);
            put_named(out, "", hash);
            out.put(" ");
            out.value(size);
        }
        Line::Folder { path } => put_named(out, "folder", path),
    }
    out.put("\n");
}

/// Adds the lines of a listing.
fn put_listing(out: &mut Sheet, lines: &[Line]) {
    for line in lines {
        put_line(out, line);
    }
}

/// Adds the lines of the listing that a text is.
pub(crate) fn put_lines(alloc: Global, out: &mut Sheet, row: &str) {
    match listing_of(alloc, row) {
        Ok(listing) => put_listing(out, listing.lines.as_slice()),
        Err(fault) => put_bad(out, &fault),
    }
}

/// Adds the first line in which bytes differ.
fn put_first(out: &mut Sheet, one: &[u8], other: &[u8]) {
    match first_difference(one, other) {
        Some(line) => out.value(&line),
        None => out.put("none"),
    }
}

/// Adds the first line in which two texts differ, which stand with `|` between them.
pub(crate) fn put_difference(alloc: Global, out: &mut Sheet, row: &str) {
    let (one, other) = row.split_once('|').unwrap_or((row, ""));
    let mut first = Vec::new(alloc);
    let mut second = Vec::new(alloc);
    out.needs(put_bytes(&mut first, one));
    out.needs(put_bytes(&mut second, other));
    put_first(out, first.as_slice(), second.as_slice());
}
