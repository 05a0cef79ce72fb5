//! Which facts leave no choice, told in lines.
ghost use Rattle.std.specs.Prelude.{◌≤◌};
ghost use Rattle.zi_universe.specs.Whole.{BeginsWith};
ghost use Rattle.zi_build.specs.Answers.{IsBuilt};
ghost use Rattle.zi_certificate.specs.Certificates.{Refutes};

use crate::asking::Asked;
use crate::refusing::put_build_fault;
use std::alloc::Global;
use zi_build::build;
use zi_choice::Names;
use zi_conflict::conflict;
use zi_facts::{Fact, lines};
use zi_formula::Formula;
use zi_lines::Sheet;
use zi_proof::Proof;
use zi_solve::{Answer, solve};
use zi_text::Memory;
use zi_universe::Requirement;

/// Adds the lines of facts.
fn put_lines<'u>(
    alloc: Global,
    out: &mut Sheet,
    names: &'u Names<'u>,
    req: &'u Requirement,
    facts: &[Fact<'u>],
) {
    out.made(lines(alloc, names, req, facts));
}

/// Adds the facts on which a refutation rests.
fn put_facts<'u>(
    alloc: Global,
    out: &mut Sheet,
    names: &'u Names<'u>,
    req: &'u Requirement,
    formula: &Formula,
    proof: &Proof,
)
    requires rooted { BeginsWith names.now req.now.interface }
    requires built { IsBuilt names.now req.now formula.now }
    requires refutes { Refutes names.now req.now proof.now }
{
    match conflict(alloc, names, req, formula, proof) {
        Ok(facts) => put_lines(alloc, out, names, req, facts.as_slice()),
        Err(Memory) => out.lose(),
    }
}

/// Adds the facts of a refutation, over its universe's names.
fn put_named(alloc: Global, out: &mut Sheet, asked: &Asked, formula: &Formula, proof: &Proof)
    requires rooted { BeginsWith asked.now.universe asked.now.req.interface }
    requires built { IsBuilt asked.now.universe asked.now.req formula.now }
    requires refutes { Refutes asked.now.universe asked.now.req proof.now }
{
    match Names::of(alloc, &asked.universe) {
        Ok(names) => put_facts(alloc, out, &names, &asked.req, formula, proof),
        Err(Memory) => out.lose(),
    }
}

/// Adds the facts of a refutation.
fn put_refuted(alloc: Global, out: &mut Sheet, asked: &Asked, proof: &Proof)
    requires rooted { BeginsWith asked.now.universe asked.now.req.interface }
    requires refutes { Refutes asked.now.universe asked.now.req proof.now }
{
    match build(alloc, &asked.universe, &asked.req) {
        Ok(formula) => put_named(alloc, out, asked, &formula, proof),
        Err(fault) => put_build_fault(out, &fault),
    }
}

/// Adds the facts of what is answered within a budget.
fn put_within(alloc: Global, out: &mut Sheet, asked: &Asked, budget: u64)
    requires rooted { BeginsWith asked.now.universe asked.now.req.interface }
    requires budget { budget ≤ 4000000000 }
{
    match solve(alloc, &asked.universe, &asked.req, budget) {
        Ok(Answer::None { proof }) => put_refuted(alloc, out, asked, &proof),
        Ok(_) => out.put("none"),
        Err(fault) => put_build_fault(out, &fault),
    }
}

/// Adds the facts of what is answered within the budget that a row has.
pub(crate) fn put_conflict(alloc: Global, out: &mut Sheet, asked: &Asked, row: &str)
    requires { BeginsWith asked.now.universe asked.now.req.interface }
{
    let budget = row.parse::<u16>().unwrap_or(0);
    put_within(alloc, out, asked, u64::from(budget));
}
