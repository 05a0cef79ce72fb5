//! What is read of a store: names, trees, files and verdicts.
use crate::manifests::algorithm;
use crate::nodes::{path_of, put_node};
use std::alloc::Global;
use zi_digest::DigestName;
use zi_lines::{Sheet, halves};
use zi_shelf::{Shelf, ShelfFault};
use zi_store::{
    Checked, FileRead, ManifestRead, TreeRead, Verdict, manifest_of, read_file, read_tree,
    stored_names, verify,
};
use zi_text::{List, Memory};

/// Adds what stands at a path of a tree that is read, or why none is; the row is the tree's top name and the path.
pub(crate) fn put_tree<K: Shelf>(alloc: Global, out: &mut Sheet, row: &str, shelf: &mut K) {
    let (top, path) = halves(row);
    match read_tree(alloc, top, shelf) {
        Ok(TreeRead::Read(tree)) => put_node(alloc, out, &tree, path),
        Ok(TreeRead::Missing) => out.put("missing"),
        Ok(TreeRead::TooLarge { what, limit }) => {
            out.value(&what);
            out.put(" ");
            out.value(&limit);
        }
        Err(fault) => out.value(&fault),
    }
}

/// What reading a file of a tree gives; the row is the tree's top name, the greatest length and the path. None where that is no path.
fn file_of<K: Shelf>(
    alloc: Global,
    row: &str,
    shelf: &mut K,
) -> Result<Option<FileRead>, ShelfFault> {
    let (top, rest) = halves(row);
    let (limit, path) = halves(rest);
    match path_of(alloc, path)? {
        Some(at) => {
            let limit = limit.parse::<u64>().unwrap_or(0);
            Ok(Some(read_file(alloc, top, &at, limit, shelf)?))
        }
        None => Ok(None),
    }
}

/// Adds a file that is read, as numbers.
pub(crate) fn put_file<K: Shelf>(alloc: Global, out: &mut Sheet, row: &str, shelf: &mut K) {
    match file_of(alloc, row, shelf) {
        Ok(Some(FileRead::Read(bytes))) => out.value(&bytes.as_slice()),
        Ok(Some(FileRead::Missing)) => out.put("missing"),
        Ok(Some(FileRead::TooLong)) => out.put("too long"),
        Ok(None) => out.put("no path"),
        Err(fault) => out.value(&fault),
    }
}

/// Adds a file that is read, as a text.
pub(crate) fn put_text<K: Shelf>(alloc: Global, out: &mut Sheet, row: &str, shelf: &mut K) {
    match file_of(alloc, row, shelf) {
        Ok(Some(FileRead::Read(bytes))) => {
            out.put(std::str::from_utf8(bytes.as_slice()).unwrap_or("no text"));
        }
        _ => out.put("no file"),
    }
}

/// Adds a verdict.
fn put_said(alloc: Global, out: &mut Sheet, verdict: &Verdict) {
    match verdict {
        Verdict::Sound => out.put("sound"),
        Verdict::Missing => out.put("missing"),
        Verdict::Damaged { found } => out.made(found.text(alloc)),
        Verdict::BadName { path } => {
            out.put("bad ");
            out.put(path.as_str());
        }
        Verdict::TooLarge { what, limit } => {
            out.value(what);
            out.put(" ");
            out.value(limit);
        }
    }
}

/// Adds what is said of the tree of a digest.
fn put_verdict_of<K: Shelf>(alloc: Global, out: &mut Sheet, name: &DigestName, shelf: &mut K) {
    match verify(alloc, name, shelf) {
        Ok(verdict) => put_said(alloc, out, &verdict),
        Err(fault) => out.value(&fault),
    }
}

/// Adds what is said of the tree of the digest that a text spells.
pub(crate) fn put_verdict<K: Shelf>(alloc: Global, out: &mut Sheet, name: &str, shelf: &mut K) {
    match DigestName::parse(name) {
        Some(name) => put_verdict_of(alloc, out, &name, shelf),
        None => out.put("no digest"),
    }
}

/// Adds what is said of the tree of a digest, asked of what was checked.
fn put_checked<K: Shelf>(
    alloc: Global,
    out: &mut Sheet,
    checked: &mut Checked,
    name: &DigestName,
    shelf: &mut K,
) {
    match checked.verify(alloc, name, shelf) {
        Ok(verdict) => put_said(alloc, out, &verdict),
        Err(fault) => out.value(&fault),
    }
    out.put("\n");
}

/// Adds what is said of the tree of a digest when it is asked twice of what was checked.
pub(crate) fn put_twice<K: Shelf>(alloc: Global, out: &mut Sheet, name: &str, shelf: &mut K) {
    let Some(name) = DigestName::parse(name) else {
        return out.put("no digest");
    };
    let mut checked = Checked::new(alloc);
    put_checked(alloc, out, &mut checked, &name, shelf);
    put_checked(alloc, out, &mut checked, &name, shelf);
}

/// Adds a manifest, or why there is none.
fn put_manifest_read(out: &mut Sheet, read: &ManifestRead) {
    match read {
        ManifestRead::Read(text) => {
            out.put(std::str::from_utf8(text.as_slice()).unwrap_or("no text"));
        }
        ManifestRead::Missing => out.put("missing"),
        ManifestRead::BadName { path } => {
            out.put("bad ");
            out.value(&path.as_str());
        }
        ManifestRead::TooLarge { what, limit } => {
            out.value(what);
            out.put(" ");
            out.value(limit);
        }
    }
}

/// Adds the manifest of a top entry; the row is the algorithm and its name.
pub(crate) fn put_written<K: Shelf>(alloc: Global, out: &mut Sheet, row: &str, shelf: &mut K) {
    let (word, top) = halves(row);
    match manifest_of(alloc, top, algorithm(word), shelf) {
        Ok(read) => put_manifest_read(out, &read),
        Err(fault) => out.value(&fault),
    }
}

/// Adds the digests, a line each.
pub(crate) fn put_digests(alloc: Global, out: &mut Sheet, names: &List<DigestName>) {
    for name in names.as_slice() {
        out.made(name.text(alloc));
        out.put("\n");
    }
}

/// Adds the digests of a store.
pub(crate) fn put_stored<K: Shelf>(alloc: Global, out: &mut Sheet, shelf: &mut K) {
    match stored_names(alloc, shelf) {
        Ok(names) => put_digests(alloc, out, &names),
        Err(fault) => out.value(&fault),
    }
}
