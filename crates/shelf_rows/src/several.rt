//! What is read of several stores: the shelf, and others that were told.
use crate::reading::put_digests;
use std::alloc::Global;
use zi_digest::DigestName;
use zi_lines::Sheet;
use zi_memory::MemoryShelf;
use zi_shelf::Shelf;
use zi_store::{find, names_of_each, stored_in};
use zi_text::{List, Memory};

/// Adds the digests of one of the stores, a line each, behind its number.
fn put_numbered(alloc: Global, out: &mut Sheet, number: u64, names: &List<DigestName>) {
    for name in names.as_slice() {
        out.number(number);
        out.put(" ");
        out.made(name.text(alloc));
        out.put("\n");
    }
}

/// Says that there is none where nothing was added.
fn put_none(out: &mut Sheet) {
    if out.is_empty() {
        out.put("none");
    }
}

/// Adds the digests of each store.
fn put_each<K: Shelf>(alloc: Global, out: &mut Sheet, shelf: &mut K, others: &mut [MemoryShelf]) {
    match names_of_each(alloc, shelf, others) {
        Ok(each) => {
            for (number, names) in each.as_slice().iter().enumerate() {
                put_numbered(alloc, out, number as u64, names);
            }
            put_none(out);
        }
        Err(fault) => out.value(&fault),
    }
}

/// Adds the digests of all stores.
fn put_all<K: Shelf>(alloc: Global, out: &mut Sheet, shelf: &mut K, others: &mut [MemoryShelf]) {
    match stored_in(alloc, shelf, others) {
        Ok(names) => {
            put_digests(alloc, out, &names);
            put_none(out);
        }
        Err(fault) => out.value(&fault),
    }
}

/// Takes the digests of a row.
fn take_digests(names: &mut Vec<DigestName>, row: &str) -> Result<(), Memory> {
    for word in row.split(' ') {
        if let Some(name) = DigestName::parse(word) {
            names.push(name)?;
        }
    }
    Ok(())
}

/// Adds which of the digests of a row is used, behind the number of its store.
fn put_found<K: Shelf>(
    alloc: Global,
    out: &mut Sheet,
    row: &str,
    shelf: &mut K,
    others: &mut [MemoryShelf],
) {
    let mut names = Vec::new(alloc);
    out.needs(take_digests(&mut names, row));
    match find(alloc, names.as_slice(), shelf, others) {
        Ok(Some(found)) => {
            out.number(found.store);
            out.put(" ");
            out.made(found.name.text(alloc));
        }
        Ok(None) => out.put("none"),
        Err(fault) => out.value(&fault),
    }
}

/// Adds the answer to what a word asks of all stores, and says whether it asks such.
pub(crate) fn put_several<K: Shelf>(
    alloc: Global,
    out: &mut Sheet,
    word: &str,
    rest: &str,
    shelf: &mut K,
    others: &mut [MemoryShelf],
) -> bool {
    match word {
        "each" => put_each(alloc, out, shelf, others),
        "all" => put_all(alloc, out, shelf, others),
        "find" => put_found(alloc, out, rest, shelf, others),
        _ => return false,
    }
    true
}
