//! What documents, elements and addresses mean.
use crate::spelling;
use std::alloc::Global;
use zi_address::resolve;
use zi_doc::{DocFault, Document, read};
use zi_elements::Element;
use zi_faults::FeedFault;
use zi_feed::{Feed, binding_of, command_of, counts_as, counts_as_binding, dep_of, digests_of};
use zi_lines::{Sheet, halves};
use zi_parts::Impl;
use zi_text::{Memory, Text};

/// What stands before and behind the inside of a feed's document. The start tag has 79 bytes.
const HEAD: &str =
    "<interface xmlns='http://zero-install.sourceforge.net/2004/injector/interface'>";

const TAIL: &str = "</interface>";

/// Adds the document of a feed with this inside.
pub(crate) fn put_document(out: &mut Sheet, inside: &str) {
    out.put(HEAD);
    out.put(inside);
    out.put(TAIL);
}

/// Adds why bytes are no document.
fn put_doc_fault(out: &mut Sheet, fault: &DocFault) {
    match fault {
        DocFault::Bad { kind, place } => {
            out.put("no document: ");
            out.value(kind);
            out.put(" ");
            out.number(*place);
        }
        DocFault::Memory => out.lose(),
    }
}

/// Adds why a tree is no feed, or an element of one isn't right.
fn put_feed_fault(out: &mut Sheet, fault: &FeedFault) {
    match fault {
        FeedFault::Bad { kind, place } => {
            out.value(kind);
            out.put(" ");
            out.number(*place);
        }
        FeedFault::Memory => out.lose(),
    }
}

/// Adds the feed that a tree is under an address, or its fault.
fn put_tree(alloc: Global, out: &mut Sheet, tree: &Document, uri: &str) {
    match Feed::from_tree(alloc, tree, uri) {
        Ok(feed) => spelling::put_feed(alloc, out, &feed),
        Err(fault) => put_feed_fault(out, &fault),
    }
}

/// Adds the feed that a document is under an address, or the fault of either.
pub(crate) fn put_feed(alloc: Global, out: &mut Sheet, document: &str, uri: &str) {
    match read(alloc, document.as_bytes()) {
        Ok(tree) => put_tree(alloc, out, &tree, uri),
        Err(fault) => put_doc_fault(out, &fault),
    }
}

/// Adds the feed, or the fault, of what stands in a root, behind an address and a blank.
pub(crate) fn put_inside(alloc: Global, out: &mut Sheet, row: &str) {
    let (uri, inside) = halves(row);
    let mut document = Sheet::new(alloc);
    put_document(&mut document, inside);
    match document.text() {
        Ok(text) => put_feed(alloc, out, text, uri),
        Err(Memory) => out.lose(),
    }
}

/// Adds a text, or `-` for none.
fn put_text(out: &mut Sheet, text: &Option<Text>) {
    match text {
        Some(text) => out.put(text.as_str()),
        None => out.put("-"),
    }
}

/// Adds what an address means, where the row is that of a feed, `|` and the address in it.
pub(crate) fn put_address(alloc: Global, out: &mut Sheet, row: &str) {
    let (base, text) = row.split_once('|').unwrap_or((row, ""));
    match resolve(alloc, base, text) {
        Ok(address) => put_text(out, &address),
        Err(Memory) => out.lose(),
    }
}

/// Adds where implementations lie.
fn put_places(out: &mut Sheet, impls: &[Impl]) {
    for one in impls {
        put_text(out, &one.local);
    }
}

/// Adds where the implementations of a feed lie; the fault's kind where it is none.
fn put_place(alloc: Global, out: &mut Sheet, tree: &Document, base: &str) {
    match Feed::from_tree(alloc, tree, base) {
        Ok(feed) => put_places(out, feed.impls.as_slice()),
        Err(fault) => put_feed_fault(out, &fault),
    }
}

/// Adds where the implementations of a document lie.
fn put_places_of(alloc: Global, out: &mut Sheet, document: &str, base: &str) {
    match read(alloc, document.as_bytes()) {
        Ok(tree) => put_place(alloc, out, &tree, base),
        Err(fault) => put_doc_fault(out, &fault),
    }
}

/// Adds the document of a feed with an implementation that lies at this path.
fn put_lying(out: &mut Sheet, path: &str) {
    out.put(HEAD);
    out.put("<implementation id='x' version='1' local-path='");
    out.put(path);
    out.put("'/>");
    out.put(TAIL);
}

/// Adds where a local implementation lies, where the row is the address of a local feed, `|` and the path in it.
pub(crate) fn put_local(alloc: Global, out: &mut Sheet, row: &str) {
    let (base, path) = row.split_once('|').unwrap_or((row, ""));
    let mut document = Sheet::new(alloc);
    put_lying(&mut document, path);
    match document.text() {
        Ok(text) => put_places_of(alloc, out, text, base),
        Err(Memory) => out.lose(),
    }
}

/// Adds the binding that an element is.
fn put_binding(alloc: Global, out: &mut Sheet, e: &Element) -> Result<(), Memory> {
    if counts_as_binding(alloc, e)? {
        match binding_of(alloc, e) {
            Ok(binding) => spelling::put_binding(out, &binding),
            Err(fault) => put_feed_fault(out, &fault),
        }
    }
    Ok(())
}

/// Adds the digests that an element has.
fn put_digests(alloc: Global, out: &mut Sheet, e: &Element) -> Result<(), Memory> {
    if counts_as(alloc, e, "manifest-digest")? {
        match digests_of(alloc, e) {
            Ok(digests) => spelling::put_digests(alloc, out, &digests),
            Err(fault) => put_feed_fault(out, &fault),
        }
    }
    Ok(())
}

/// Adds the dependency that an element is.
fn put_dep(alloc: Global, out: &mut Sheet, e: &Element) -> Result<(), Memory> {
    if counts_as(alloc, e, "requires")? {
        match dep_of(alloc, e) {
            Ok(dep) => spelling::put_dep(out, &dep),
            Err(fault) => put_feed_fault(out, &fault),
        }
    }
    Ok(())
}

/// Adds the command that an element is.
fn put_command(alloc: Global, out: &mut Sheet, e: &Element) -> Result<(), Memory> {
    if counts_as(alloc, e, "command")? {
        match command_of(alloc, e) {
            Ok(command) => spelling::put_command(out, &command),
            Err(fault) => put_feed_fault(out, &fault),
        }
    }
    Ok(())
}

/// Adds what an element is by itself, each of its lines behind an end of line.
fn put_meant(alloc: Global, out: &mut Sheet, e: &Element) -> Result<(), Memory> {
    put_binding(alloc, out, e)?;
    put_digests(alloc, out, e)?;
    put_dep(alloc, out, e)?;
    put_command(alloc, out, e)
}

/// Adds what the element of a document is by itself.
fn put_element_of(alloc: Global, out: &mut Sheet, document: &str) {
    match read(alloc, document.as_bytes()) {
        Ok(tree) => {
            let end = put_meant(alloc, out, tree.root());
            out.needs(end);
        }
        Err(fault) => put_doc_fault(out, &fault),
    }
}

/// Adds what an element of the feed format is by itself, each of its lines behind an end of line. It stands in no namespace: that of
/// feeds is put into its start tag.
pub(crate) fn put_element(alloc: Global, out: &mut Sheet, row: &str) {
    let (name, rest) = halves(row);
    let mut document = Sheet::new(alloc);
    document.put(name);
    document.put(" xmlns='http://zero-install.sourceforge.net/2004/injector/interface' ");
    document.put(rest);
    match document.text() {
        Ok(text) => put_element_of(alloc, out, text),
        Err(Memory) => out.lose(),
    }
}
