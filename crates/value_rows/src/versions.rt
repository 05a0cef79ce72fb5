//! Versions and expressions: their order, the places at which texts are refused, and what is admitted.
use crate::bytes::put_bytes;
use std::alloc::Global;
use zi_lines::Sheet;
use zi_text::Memory;
use zi_version::{Range, RangeFault, Version, VersionFault};

/// Adds the place at which a text is refused.
fn put_bad(out: &mut Sheet, place: u64) {
    out.put("bad ");
    out.number(place);
}

/// Adds why a text is no version.
fn put_fault(out: &mut Sheet, fault: &VersionFault) {
    match fault {
        VersionFault::Bad { place } => put_bad(out, *place),
        VersionFault::Memory => out.lose(),
    }
}

/// Adds why a text is no expression.
fn put_range_fault(out: &mut Sheet, fault: &RangeFault) {
    match fault {
        RangeFault::Bad { place } => put_bad(out, *place),
        RangeFault::Memory => out.lose(),
    }
}

/// Adds whether a text is a version, or the place at which it is refused.
pub(crate) fn put_version(alloc: Global, out: &mut Sheet, text: &str) {
    match Version::parse(alloc, text) {
        Ok(_version) => out.put("right"),
        Err(fault) => put_fault(out, &fault),
    }
}

/// Adds the text that a copy of a version was written as.
fn put_copy(alloc: Global, out: &mut Sheet, version: &Version) {
    match version.copy(alloc) {
        Ok(copy) => out.put(copy.text()),
        Err(Memory) => out.lose(),
    }
}

/// Adds the text that a version was written as.
pub(crate) fn put_text(alloc: Global, out: &mut Sheet, text: &str) {
    match Version::parse(alloc, text) {
        Ok(version) => put_copy(alloc, out, &version),
        Err(fault) => put_fault(out, &fault),
    }
}

/// Adds the order of a version and that of a text.
fn put_order_with(alloc: Global, out: &mut Sheet, one: &Version, other: &str) {
    match Version::parse(alloc, other) {
        Ok(other) => out.value(&one.cmp(&other)),
        Err(fault) => put_fault(out, &fault),
    }
}

/// Adds the order of two versions.
pub(crate) fn put_order(alloc: Global, out: &mut Sheet, one: &str, other: &str) {
    match Version::parse(alloc, one) {
        Ok(one) => put_order_with(alloc, out, &one, other),
        Err(fault) => put_fault(out, &fault),
    }
}

/// Adds whether bytes are an expression, or the place at which they are refused.
fn put_range_of(alloc: Global, out: &mut Sheet, bytes: &[u8]) {
    match Range::parse(alloc, std::str::from_utf8(bytes).unwrap_or("")) {
        Ok(_range) => out.put("right"),
        Err(fault) => put_range_fault(out, &fault),
    }
}

/// Adds whether a text is an expression, or the place at which it is refused.
pub(crate) fn put_range(alloc: Global, out: &mut Sheet, text: &str) {
    let mut bytes = Vec::new(alloc);
    out.needs(put_bytes(&mut bytes, text));
    put_range_of(alloc, out, bytes.as_slice());
}

/// Adds whether a range admits the version of a text.
fn put_whether(alloc: Global, out: &mut Sheet, range: &Range, text: &str) {
    match Version::parse(alloc, text) {
        Ok(version) => out.whether(range.admits(&version)),
        Err(fault) => put_fault(out, &fault),
    }
}

/// Adds whether an expression admits a version.
pub(crate) fn put_admitted(alloc: Global, out: &mut Sheet, text: &str, version: &str) {
    match Range::parse(alloc, text) {
        Ok(range) => put_whether(alloc, out, &range, version),
        Err(fault) => put_range_fault(out, &fault),
    }
}

/// Adds whether a copy of a range admits a version.
fn put_whether_copy(alloc: Global, out: &mut Sheet, range: &Range, version: &str) {
    match range.copy(alloc) {
        Ok(copy) => put_whether(alloc, out, &copy, version),
        Err(Memory) => out.lose(),
    }
}

/// Adds whether a copy of an expression admits a version.
pub(crate) fn put_copied(alloc: Global, out: &mut Sheet, text: &str, version: &str) {
    match Range::parse(alloc, text) {
        Ok(range) => put_whether_copy(alloc, out, &range, version),
        Err(fault) => put_range_fault(out, &fault),
    }
}

/// Adds whether the range from a version on admits another.
pub(crate) fn put_from(alloc: Global, out: &mut Sheet, first: &str, version: &str) {
    match Version::parse(alloc, first) {
        Ok(first) => put_whether(alloc, out, &Range::between(Some(first), None), version),
        Err(fault) => put_fault(out, &fault),
    }
}
