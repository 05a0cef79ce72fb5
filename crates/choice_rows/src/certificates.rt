//! Whether choices are valid, certificates show them the best, and proofs refute. The lines of the proof text were told.
ghost use Rattle.zi_universe.specs.Whole.{BeginsWith};

use crate::asking::Asked;
use crate::refusing::{put_build_fault, put_proof_fault};
use crate::told::take_picks;
use std::alloc::Global;
use zi_check::{check_best, check_none, valid};
use zi_choice::Choice;
use zi_lines::Sheet;
use zi_proof::{Certificate, read};
use zi_text::{List, Memory};

/// Adds the proof text of these lines.
fn take_proof(text: &mut String, lines: &str) -> Result<(), Memory> {
    text.push_str("zi-proof 1\n")?;
    text.push_str(lines)?;
    Ok(text.push_str("e\n")?)
}

/// What is said of a choice: not valid, valid, or valid and by the certificate the best.
fn said(is_valid: bool, is_best: bool) -> &'static str {
    match (is_valid, is_best) {
        (false, false) => "no",
        (true, false) => "valid",
        (true, true) => "best",
        (false, true) => "best, but not valid",
    }
}

/// Adds what is said of a choice, which is valid or not.
fn put_best(
    alloc: Global,
    out: &mut Sheet,
    asked: &Asked,
    choice: &Choice,
    certificate: &Certificate,
    is_valid: bool,
)
    requires { BeginsWith asked.now.universe asked.now.req.interface }
{
    match check_best(alloc, &asked.universe, &asked.req, choice, certificate) {
        Ok(is_best) => out.put(said(is_valid, is_best)),
        Err(fault) => put_build_fault(out, &fault),
    }
}

/// Adds what is said of a choice.
fn put_choice(
    alloc: Global,
    out: &mut Sheet,
    asked: &Asked,
    choice: &Choice,
    certificate: &Certificate,
)
    requires { BeginsWith asked.now.universe asked.now.req.interface }
{
    match valid(alloc, &asked.universe, &asked.req, choice) {
        Ok(is_valid) => put_best(alloc, out, asked, choice, certificate, is_valid),
        Err(Memory) => out.lose(),
    }
}

/// Adds what is said of picks by a certificate.
fn put_picks(alloc: Global, out: &mut Sheet, asked: &Asked, row: &str, certificate: &Certificate)
    requires { BeginsWith asked.now.universe asked.now.req.interface }
{
    let mut choice = Choice {
        picks: List::new(alloc),
    };
    out.needs(take_picks(&mut choice.picks, row));
    put_choice(alloc, out, asked, &choice, certificate);
}

/// Adds what is said of picks by a proof text.
fn put_said_by(alloc: Global, out: &mut Sheet, asked: &Asked, row: &str, text: &[u8])
    requires { BeginsWith asked.now.universe asked.now.req.interface }
{
    match read(alloc, text) {
        Ok(certificate) => put_picks(alloc, out, asked, row, &certificate),
        Err(fault) => put_proof_fault(out, &fault),
    }
}

/// Adds what is said of picks.
pub(crate) fn put_said(alloc: Global, out: &mut Sheet, asked: &Asked, row: &str, proof: &str)
    requires { BeginsWith asked.now.universe asked.now.req.interface }
{
    let mut text = String::new(alloc);
    out.needs(take_proof(&mut text, proof));
    put_said_by(alloc, out, asked, row, text.as_bytes());
}

/// Adds whether a certificate's proof refutes.
fn put_none(alloc: Global, out: &mut Sheet, asked: &Asked, certificate: &Certificate)
    requires { BeginsWith asked.now.universe asked.now.req.interface }
{
    match check_none(alloc, &asked.universe, &asked.req, &certificate.proof) {
        Ok(is_none) => out.whether(is_none),
        Err(fault) => put_build_fault(out, &fault),
    }
}

/// Adds whether a proof text refutes.
fn put_refuted_by(alloc: Global, out: &mut Sheet, asked: &Asked, text: &[u8])
    requires { BeginsWith asked.now.universe asked.now.req.interface }
{
    match read(alloc, text) {
        Ok(certificate) => put_none(alloc, out, asked, &certificate),
        Err(fault) => put_proof_fault(out, &fault),
    }
}

/// Adds whether the proof refutes.
pub(crate) fn put_refuted(alloc: Global, out: &mut Sheet, asked: &Asked, proof: &str)
    requires { BeginsWith asked.now.universe asked.now.req.interface }
{
    let mut text = String::new(alloc);
    out.needs(take_proof(&mut text, proof));
    put_refuted_by(alloc, out, asked, text.as_bytes());
}
