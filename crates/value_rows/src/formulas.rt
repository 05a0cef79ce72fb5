//! Formulas and their models, proof texts, and proofs that are accepted or not.
ghost use Rattle.zi_formula.specs.Form.{WellFormed};

use crate::bytes::put_bytes;
use crate::told::take_lits;
use std::alloc::Global;
use zi_formula::{Formula, Lit, is_well_formed, models};
use zi_lines::{Sheet, take_numbers};
use zi_proof::{Certificate, Marks, Proof, ProofFault, check, check_block, follow, read, write};
use zi_text::{List, Memory};

/// Adds whether a formula is well formed.
pub(crate) fn put_formed(out: &mut Sheet, f: &Formula) {
    out.whether(is_well_formed(f));
}

/// Adds values: `1` for a true variable.
fn take_values(values: &mut Vec<bool>, row: &str) -> Result<(), Memory> {
    for word in row.split_whitespace() {
        values.push(word == "1")?;
    }
    Ok(())
}

/// Adds whether these values are a model.
fn put_model(out: &mut Sheet, f: &Formula, values: &[bool]) {
    if !is_well_formed(f) {
        return out.put("not formed");
    }
    if values.len() != f.variables as usize {
        return out.put("no values");
    }
    out.whether(models(f, values));
}

/// Adds whether values are a model: `1` for a true variable, in their order.
pub(crate) fn put_models(alloc: Global, out: &mut Sheet, row: &str, f: &Formula) {
    let mut values = Vec::new(alloc);
    out.needs(take_values(&mut values, row));
    put_model(out, f, values.as_slice());
}

/// What is said of lemmas.
fn said(follows: bool, refutes: bool) -> &'static str {
    match (follows, refutes) {
        (true, true) => "refutes",
        (true, false) => "follows",
        (false, false) => "no",
        (false, true) => "refutes, but doesn't follow",
    }
}

/// Adds whether the lemmas of a certificate follow, and whether they refute.
fn put_checked(alloc: Global, out: &mut Sheet, f: &Formula, c: &Certificate)
    requires { WellFormed f.now }
{
    match Marks::new(alloc, f) {
        Ok(mut marks) => {
            let follows = follow(f, &c.proof, &mut marks);
            let refutes = check(f, &c.proof, &[], &mut marks);
            out.put(said(follows, refutes));
        }
        Err(Memory) => out.lose(),
    }
}

/// Adds whether the lemmas of a proof text follow, and whether they refute.
fn put_read(alloc: Global, out: &mut Sheet, text: &[u8], f: &Formula) {
    match read(alloc, text) {
        Ok(certificate) => {
            if is_well_formed(f) {
                put_checked(alloc, out, f, &certificate);
            } else {
                out.put("not formed");
            }
        }
        Err(ProofFault::Bad { .. }) => out.put("no proof text"),
        Err(ProofFault::Memory) => out.lose(),
    }
}

/// Adds a proof text of these lines.
fn take_proof(text: &mut Vec<u8>, lines: &str) -> Result<(), Memory> {
    put_bytes(text, "zi-proof 1\\n")?;
    put_bytes(text, lines)?;
    put_bytes(text, "\\ne\\n")
}

/// Adds whether the lemmas of a text follow, and whether they refute.
pub(crate) fn put_judged(alloc: Global, out: &mut Sheet, lines: &str, f: &Formula) {
    let mut text = Vec::new(alloc);
    out.needs(take_proof(&mut text, lines));
    put_read(alloc, out, text.as_slice(), f);
}

/// Adds whether hints of constraints show that assumed literals exclude one another.
fn put_shown(alloc: Global, out: &mut Sheet, f: &Formula, assumed: &[Lit], hints: &[u32])
    requires { WellFormed f.now }
{
    let proof = Proof {
        lemmas: List::new(alloc),
    };
    match Marks::new(alloc, f) {
        Ok(mut marks) => {
            let follows = follow(f, &proof, &mut marks);
            out.whether(follows && check_block(f, &proof, assumed, hints, &mut marks));
        }
        Err(Memory) => out.lose(),
    }
}

/// Adds whether hints of constraints, behind `;`, show that assumed literals exclude one another.
pub(crate) fn put_block(alloc: Global, out: &mut Sheet, row: &str, f: &Formula) {
    let (before, behind) = row.split_once(';').unwrap_or((row, ""));
    let mut assumed = List::new(alloc);
    let mut hints = List::new(alloc);
    out.needs(take_lits(&mut assumed, before));
    out.needs(take_numbers(&mut hints, behind));
    if is_well_formed(f) {
        put_shown(alloc, out, f, assumed.as_slice(), hints.as_slice());
    } else {
        out.put("not formed");
    }
}

/// Adds whether a certificate is written again as these bytes.
fn put_again(alloc: Global, out: &mut Sheet, bytes: &[u8], c: &Certificate) {
    let mut again = Vec::new(alloc);
    out.needs(write(c, &mut again));
    let is_same = again.as_slice() == bytes;
    out.put(if is_same { "right" } else { "another text" });
}

/// Adds whether bytes are a proof text, or the line at which they are bad.
fn put_text(alloc: Global, out: &mut Sheet, bytes: &[u8]) {
    match read(alloc, bytes) {
        Ok(certificate) => put_again(alloc, out, bytes, &certificate),
        Err(ProofFault::Bad { line }) => {
            out.put("bad ");
            out.number(line);
        }
        Err(ProofFault::Memory) => out.lose(),
    }
}

/// Adds whether a text is a proof text, which is then written again to the byte, or the line at which it is bad.
pub(crate) fn put_proof(alloc: Global, out: &mut Sheet, text: &str) {
    let mut bytes = Vec::new(alloc);
    out.needs(put_bytes(&mut bytes, text));
    put_text(alloc, out, bytes.as_slice());
}
