//! Reads a formula from standard input, searches it within so many lemmas as the word says, and prints `model`, `refuted` or
//! `spent`, and behind it the lemmas that were learned, as a proof text.
//! The formula is in DIMACS CNF, a clause a line and no comments; a line `g VAR.. 0` is a group, of which at most one is true. Its
//! variables are those up to the greatest that stands in it. `bench/search.py` holds the time against that of other solvers, and
//! `tests/proofs.py` checks the lemmas.

use crate::{line, number};
use std::alloc::Global;
use std::io::{self, Write};
use zi_formula::{Constraints, Formula, Lit, is_well_formed};
use zi_proof::{Certificate, write};
use zi_sat::{Found, Search};
use zi_search_rows::InOrder;
use zi_text::{List, Memory};

/// The literal that a word is; the word 0 and any other is none.
fn lit_of(word: &str) -> Option<Lit> {
    let digits = word.strip_prefix("-");
    match digits.unwrap_or(word).parse::<u32>() {
        Ok(0) | Err(_) => None,
        Ok(variable) => Some(Lit {
            variable,
            positive: digits.is_none(),
        }),
    }
}

/// Adds the clause or group of a line to the formula.
fn add_line(alloc: Global, line: &str, f: &mut Formula) -> Result<(), Memory> {
    let mut lits = Vec::new(alloc);
    let mut group = Vec::new(alloc);
    for word in line.split_whitespace() {
        if let Some(lit) = lit_of(word) {
            f.variables = f.variables.max(lit.variable);
            lits.push(lit)?;
            group.push(lit.variable)?;
        }
    }
    if line.starts_with("g") {
        f.constraints.push_group(group.as_slice())
    } else {
        f.constraints.push_clause(lits.as_slice())
    }
}

/// The formula of a text.
fn formula_of(alloc: Global, text: &str) -> Result<Formula, Memory> {
    let mut f = Formula {
        variables: 0,
        constraints: Constraints::new(alloc),
    };
    for line in text.lines() {
        if !line.starts_with("p") {
            add_line(alloc, line, &mut f)?;
        }
    }
    Ok(f)
}

/// Searches the formula of a text, and adds its lemmas as a proof text. None where a clause or a group of it has something twice,
/// or the budget is too great.
fn searched(
    alloc: Global,
    text: &str,
    budget: u32,
    into: &mut Vec<u8>,
) -> Result<Option<Found>, Memory> {
    let f = formula_of(alloc, text)?;
    if !is_well_formed(&f) || f.constraints.len() >= (u32::MAX - budget) as usize {
        return Ok(None);
    }
    let mut search = Search::new(alloc, &f)?;
    let found = search.run(alloc, &mut InOrder, u64::from(budget))?;
    let certificate = Certificate {
        proof: search.into_log(),
        blocks: List::new(alloc),
    };
    write(&certificate, into)?;
    Ok(Some(found))
}

/// The word of an end of the search.
fn end_of(found: &Option<Found>) -> &'static str {
    match found {
        Some(Found::Model) => "model",
        Some(Found::Refuted) => "refuted",
        Some(Found::Spent { .. }) => "spent",
        None => "no formula",
    }
}

pub fn found(rt: &HostRuntime, word: &str) -> io::Result<Option<Vec<u8>>> {
    let Some(budget) = number(word) else {
        return Ok(None);
    };
    let text = io::read_to_string(rt.alloc(), rt.stdin())?;
    let mut proof = Vec::new(rt.alloc());
    let mut told = match searched(rt.alloc(), text.as_str(), budget, &mut proof) {
        Ok(found) => line(rt.alloc(), end_of(&found))?,
        Err(Memory) => line(rt.alloc(), "out of memory")?,
    };
    told.write_all(proof.as_slice())?;
    Ok(Some(told))
}
