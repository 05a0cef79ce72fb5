//! Documents: the kind and the place of the fault of each, and the canonical text of the trees of others.
use crate::bytes::put_bytes;
use std::alloc::Global;
use zi_doc::{DocFault, Element, read};
use zi_docout::{WriteFault, write};
use zi_lines::Sheet;

/// Adds the kind of a fault, by its number, and its place.
fn put_doc_fault(out: &mut Sheet, fault: &DocFault) {
    match fault {
        DocFault::Bad { kind, place } => {
            out.number(u64::from(kind.number()));
            out.put(" ");
            out.number(*place);
        }
        DocFault::Memory => out.lose(),
    }
}

/// Adds whether bytes are a document, or their fault.
fn put_read(alloc: Global, out: &mut Sheet, bytes: &[u8]) {
    match read(alloc, bytes) {
        Ok(_tree) => out.put("right"),
        Err(fault) => put_doc_fault(out, &fault),
    }
}

/// Adds whether a document is right, or its fault.
pub(crate) fn put_fault(alloc: Global, out: &mut Sheet, text: &str) {
    let mut bytes = Vec::new(alloc);
    out.needs(put_bytes(&mut bytes, text));
    put_read(alloc, out, bytes.as_slice());
}

/// Adds how a tree was written: the bytes, or the number of the first element that can't be.
fn put_outcome(out: &mut Sheet, answer: Result<(), WriteFault>, bytes: &[u8]) {
    match answer {
        Ok(()) => out.put(std::str::from_utf8(bytes).unwrap_or("no text")),
        Err(WriteFault::Unwritable { place }) => {
            out.put("element ");
            out.number(place);
        }
        Err(WriteFault::Memory) => out.lose(),
    }
}

/// Adds the canonical text of a tree, or the number of the first element that can't be written.
fn put_tree(alloc: Global, out: &mut Sheet, tree: &Element) {
    let mut bytes = Vec::new(alloc);
    let answer = write(alloc, tree, &mut bytes);
    put_outcome(out, answer, bytes.as_slice());
}

/// Adds what is written of the tree of these bytes.
fn put_again(alloc: Global, out: &mut Sheet, bytes: &[u8]) {
    match read(alloc, bytes) {
        Ok(tree) => put_tree(alloc, out, tree.root()),
        Err(fault) => put_doc_fault(out, &fault),
    }
}

/// Adds what is written of the tree of a document.
pub(crate) fn put_written(alloc: Global, out: &mut Sheet, text: &str) {
    let mut bytes = Vec::new(alloc);
    out.needs(put_bytes(&mut bytes, text));
    put_again(alloc, out, bytes.as_slice());
}
