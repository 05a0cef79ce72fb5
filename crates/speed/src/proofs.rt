//! Reads a proof text from standard input and prints whether it refutes a chain of implications, whose length the word is.
//! The chain of length n has the constraints 1, then not k or k + 1 for each k below n, and last not n.
//! `bench/proof.py` gives it ten megabytes of lemmas, and holds its time against that of other checkers.

use crate::{line, number};
use std::alloc::Global;
use std::io::{self, Read};
use zi_formula::{Constraints, Formula, Lit, is_well_formed};
use zi_proof::{Marks, ProofFault, check, read};
use zi_text::Memory;

fn lit(variable: u32, positive: bool) -> Lit {
    Lit { variable, positive }
}

fn chain(alloc: Global, n: u32) -> Result<Formula, Memory> {
    let mut constraints = Constraints::new(alloc);
    constraints.push_clause(&[lit(1, true)])?;
    for k in 1..n {
        constraints.push_clause(&[lit(k, false), lit(k + 1, true)])?;
    }
    constraints.push_clause(&[lit(n, false)])?;
    Ok(Formula {
        variables: n,
        constraints,
    })
}

/// Whether the text refutes the chain.
fn refutes(alloc: Global, n: u32, text: &[u8]) -> Result<bool, ProofFault> {
    let c = read(alloc, text)?;
    let f = chain(alloc, n)?;
    if !is_well_formed(&f) {
        return Ok(false);
    }
    let mut marks = Marks::new(alloc, &f)?;
    Ok(check(&f, &c.proof, &[], &mut marks))
}

pub fn told(rt: &HostRuntime, word: &str) -> io::Result<Option<Vec<u8>>> {
    let Some(n) = number(word) else {
        return Ok(None);
    };
    let mut text = Vec::new(rt.alloc());
    rt.stdin().read_to_end(&mut text)?;
    let told = match refutes(rt.alloc(), n, text.as_slice()) {
        Ok(true) => line(rt.alloc(), "yes")?,
        Ok(false) => line(rt.alloc(), "no")?,
        Err(fault) => {
            let fault = format!(in rt.alloc(); "{fault}")?;
            line(rt.alloc(), fault.as_str())?
        }
    };
    Ok(Some(told))
}
