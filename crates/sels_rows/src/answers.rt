//! What a document says, or its fault.
use std::alloc::{AllocError, Global};
use std::fmt::Write;
use zi_digest::DigestName;
use zi_sels::{Selections, SelsFault, read, write};
use zi_text::{List, Memory};

const NS: &str = "http://zero-install.sourceforge.net/2004/injector/interface";

/// The document of selections for `/a` with this in the root.
pub(crate) fn document_of(alloc: Global, inside: &str) -> Result<String, AllocError> {
    format!(in alloc; "<selections interface='/a' xmlns='{NS}'>{inside}</selections>")
}

/// Adds why bytes are no selections document.
fn put_fault(out: &mut String, fault: &SelsFault) -> Result<(), Memory> {
    match fault {
        SelsFault::Doc { kind, place } => Ok(write!(out, "Doc {kind:?} {place}")?),
        SelsFault::NotSelections => Ok(out.push_str("NotSelections")?),
        SelsFault::NoRoot => Ok(out.push_str("NoRoot")?),
        SelsFault::Twice { interface } => Ok(write!(out, "Twice {}", interface.as_str())?),
        SelsFault::Feed { kind, place } => Ok(write!(out, "Feed {kind:?} {place}")?),
        SelsFault::Unclosed { interface } => Ok(write!(out, "Unclosed {}", interface.as_str())?),
        SelsFault::Memory => Err(Memory),
    }
}

/// Adds digests on a line.
fn put_digests(alloc: Global, out: &mut String, digests: &List<DigestName>) -> Result<(), Memory> {
    if digests.is_empty() {
        return Ok(());
    }
    out.push_str("use")?;
    for digest in digests.as_slice() {
        write!(out, " {}", digest.text(alloc)?.as_str())?;
    }
    Ok(out.push('\n')?)
}

/// Adds the document that is written of selections, and whether it is read as the same.
fn put_written(alloc: Global, out: &mut String, sels: &Selections) -> Result<(), Memory> {
    let mut bytes = Vec::new(alloc);
    if write(alloc, sels, &mut bytes).is_err() {
        return Ok(out.push_str("not written")?);
    }
    if let Ok(text) = std::str::from_utf8(bytes.as_slice()) {
        out.push_str(text)?;
    }
    for item in sels.items.as_slice() {
        put_digests(alloc, out, &item.digests)?;
    }
    match read(alloc, bytes.as_slice()) {
        Ok(again) => Ok(out.push_str(if again == *sels {
            "the same"
        } else {
            "another"
        })?),
        Err(fault) => put_fault(out, &fault),
    }
}

/// Adds what a document says, or its fault.
pub(crate) fn put_answer(alloc: Global, out: &mut String, document: &str) -> Result<(), Memory> {
    match read(alloc, document.as_bytes()) {
        Ok(sels) => put_written(alloc, out, &sels),
        Err(fault) => put_fault(out, &fault),
    }
}

/// Adds the fault of a document, or that it has none.
pub(crate) fn put_found(alloc: Global, out: &mut String, document: &str) -> Result<(), Memory> {
    match read(alloc, document.as_bytes()) {
        Ok(_) => Ok(out.push_str("none")?),
        Err(fault) => put_fault(out, &fault),
    }
}
