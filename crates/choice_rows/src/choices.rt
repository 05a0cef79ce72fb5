//! Walks of choices, the constraints of universes, and the numbers of variables.
ghost use Rattle.std.specs.Prelude.{◌≡◌, option_copied};
ghost use Rattle.zi_choice.specs.Choice.{candidate_at};
ghost use Rattle.zi_universe.specs.Whole.{BeginsWith};

use crate::asking::Asked;
use crate::refusing::put_build_fault;
use crate::told::take_picks;
use std::alloc::Global;
use zi_build::build;
use zi_choice::{Names, Place, Traced, Used, trace_picks, variable};
use zi_formula::{Formula, Lent, Lit};
use zi_lines::{Sheet, halves};
use zi_text::{List, Memory};
use zi_universe::{Candidate, Requirement, Universe};

/// Adds each interface of a walk with what is picked.
fn put_places(out: &mut Sheet, places: &[Place]) {
    for place in places {
        out.number(u64::from(place.interface));
        out.put("=");
        match place.pick {
            Some(pick) => out.number(u64::from(pick)),
            None => out.put("-"),
        }
        out.put(" ");
    }
}

/// Adds each used command with its interface.
fn put_used(out: &mut Sheet, all: &[Used]) {
    for used in all {
        out.put(" ");
        out.number(u64::from(used.interface));
        out.put(".");
        out.put(used.command.as_str());
    }
}

/// Adds a walk: each interface with what is picked, and behind `|` each used command with its interface.
fn put_traced(out: &mut Sheet, walk: &Traced) {
    put_places(out, walk.places.as_slice());
    out.put("|");
    put_used(out, walk.used.as_slice());
}

/// Adds the walk of picks over a universe's names.
fn put_walk_of(
    alloc: Global,
    out: &mut Sheet,
    names: &Names,
    req: &Requirement,
    picks: &[Option<u32>],
) {
    match trace_picks(alloc, names, req, picks) {
        Ok(walk) => put_traced(out, &walk),
        Err(Memory) => out.lose(),
    }
}

/// Adds the walk of picks over what is asked about.
fn put_walk_over(alloc: Global, out: &mut Sheet, asked: &Asked, picks: &[Option<u32>]) {
    match Names::of(alloc, &asked.universe) {
        Ok(names) => put_walk_of(alloc, out, &names, &asked.req, picks),
        Err(Memory) => out.lose(),
    }
}

/// Adds the walk of picks.
pub(crate) fn put_walk(alloc: Global, out: &mut Sheet, asked: &Asked, row: &str) {
    let mut picks = List::new(alloc);
    out.needs(take_picks(&mut picks, row));
    put_walk_over(alloc, out, asked, picks.as_slice());
}

/// Adds a clause as its literals, each by its variable's number, with a sign where it is the opposite.
fn put_clause(out: &mut Sheet, lits: &[Lit]) {
    for l in lits {
        out.put(if l.positive { " " } else { " -" });
        out.number(u64::from(l.variable));
    }
}

/// Adds a group between braces.
fn put_group(out: &mut Sheet, variables: &[u32]) {
    out.put(" {");
    for x in variables {
        out.put(" ");
        out.number(u64::from(*x));
    }
    out.put(" }");
}

/// Adds a constraint.
fn put_constraint(out: &mut Sheet, c: Lent<'_>) {
    match c {
        Lent::Clause(lits) => put_clause(out, lits),
        Lent::AtMostOne(variables) => put_group(out, variables),
    }
    out.put(";");
}

/// Adds a formula: the number of its variables, and its constraints.
fn put_constraints(out: &mut Sheet, formula: &Formula) {
    out.number(u64::from(formula.variables));
    out.put(":");
    for i in 0..formula.constraints.len() {
        put_constraint(out, formula.constraints.at(i));
    }
}

/// Adds the formula of what is asked about.
pub(crate) fn put_formula(alloc: Global, out: &mut Sheet, asked: &Asked)
    requires { BeginsWith asked.now.universe asked.now.req.interface }
{
    match build(alloc, &asked.universe, &asked.req) {
        Ok(formula) => put_constraints(out, &formula),
        Err(fault) => put_build_fault(out, &fault),
    }
}

/// The candidate of a number, of the interface of a number.
fn candidate_of(universe: &Universe, interface: u32, candidate: u32) -> Option<&Candidate>
    ensures { option_copied result ≡ candidate_at universe.now interface candidate }
{
    let interface = universe.interfaces().get(interface as usize)?;
    interface.candidates.as_slice().get(candidate as usize)
}

/// The number of a candidate's variable, where the candidate is there.
fn number_of(universe: &Universe, interface: u32, candidate: u32) -> Option<u32> {
    let _there = candidate_of(universe, interface, candidate)?;
    Some(variable(universe, interface, candidate))
}

/// Adds the number of a candidate's variable, where the row is an interface and a candidate by their numbers; `-` for none.
pub(crate) fn put_number(out: &mut Sheet, asked: &Asked, row: &str) {
    let (interface, candidate) = halves(row);
    let interface = interface.parse::<u32>().unwrap_or(u32::MAX);
    let candidate = candidate.parse::<u32>().unwrap_or(u32::MAX);
    match number_of(&asked.universe, interface, candidate) {
        Some(number) => out.number(u64::from(number)),
        None => out.put("-"),
    }
}
