//! What the walk's decider decides in a search, and what is known to be chosen then.
ghost use Rattle.std.specs.Prelude.{◌≡◌, ◌≤◌, []};
ghost use Rattle.zi_universe.specs.Whole.{BeginsWith};
ghost use Rattle.zi_choice.specs.Vars.{var_count};
ghost use Rattle.zi_build.specs.Answers.{IsBuilt};
ghost use Rattle.zi_build.specs.Clauses.{formula, literals, most_literals};

use crate::asking::Asked;
use crate::refusing::put_build_fault;
use std::alloc::Global;
use zi_build::build;
use zi_formula::Formula;
use zi_lines::Sheet;
use zi_numbering::Numbering;
use zi_sat::{Found, Search, Trail, Why};
use zi_text::Memory;
use zi_universe::{Requirement, Universe};
use zi_walk::{Walk, so_far};

/// Adds the literals that were decided, in order.
fn put_decided(out: &mut Sheet, t: &Trail) {
    for i in 0..t.len() {
        let e = t.at(i);
        if e.why == Why::Decision {
            out.put(if e.lit.positive { "" } else { "-" });
            out.number(u64::from(e.lit.variable));
            out.put(" ");
        }
    }
}

/// Adds what is chosen for each interface.
fn put_picks(out: &mut Sheet, picks: &[Option<u32>]) {
    for pick in picks {
        out.put(" ");
        match pick {
            Some(pick) => out.number(u64::from(*pick)),
            None => out.put("-"),
        }
    }
}

/// Adds what is chosen for each interface where a trail ends.
fn put_chosen(alloc: Global, out: &mut Sheet, numbering: &Numbering, t: &Trail)
    requires { var_count numbering.now ≤ t.now.variables }
{
    match so_far(alloc, numbering, t) {
        Ok(picks) => put_picks(out, picks.as_slice()),
        Err(Memory) => out.lose(),
    }
}

/// Adds the literals that were decided, in order, and behind `|` what is chosen for each interface.
fn put_trail(alloc: Global, out: &mut Sheet, universe: &Universe, t: &Trail)
    requires { var_count universe.now ≤ t.now.variables }
{
    put_decided(out, t);
    out.put("|");
    match Numbering::of(alloc, universe) {
        Ok(numbering) => put_chosen(alloc, out, &numbering, t),
        Err(Memory) => out.lose(),
    }
}

/// Adds how a search ended, and the trail of a model.
fn put_found(alloc: Global, out: &mut Sheet, universe: &Universe, found: &Found, t: &Trail)
    requires { var_count universe.now ≤ t.now.variables }
{
    match found {
        Found::Model => put_trail(alloc, out, universe, t),
        Found::Refuted => out.put("refuted"),
        Found::Spent { .. } => out.put("spent"),
    }
}

/// How a search by the walk's decider ends within 100 lemmas.
fn run_walk(
    alloc: Global,
    universe: &Universe,
    req: &Requirement,
    search: &mut Search,
) -> Result<Found, Memory>
    requires rooted { BeginsWith universe.now req.now.interface }
    requires formula { search.old.formula ≡ formula universe.now req.now }
    requires few { literals (formula universe.now req.now).constraints ≤ most_literals }
    requires empty_log { search.old.log.lemmas ≡ [] }
    ensures { search.new.formula ≡ search.old.formula }
{
    let mut walk = Walk::new(alloc, universe, req)?;
    search.run(alloc, &mut walk, 100)
}

/// Adds how a search of what is asked about ends.
fn put_end(alloc: Global, out: &mut Sheet, asked: &Asked, search: &mut Search)
    requires rooted { BeginsWith asked.now.universe asked.now.req.interface }
    requires formula { search.old.formula ≡ formula asked.now.universe asked.now.req }
    requires few { literals (formula asked.now.universe asked.now.req).constraints ≤ most_literals }
    requires empty_log { search.old.log.lemmas ≡ [] }
{
    match run_walk(alloc, &asked.universe, &asked.req, search) {
        Ok(found) => put_found(alloc, out, &asked.universe, &found, search.trail()),
        Err(Memory) => out.lose(),
    }
}

/// Adds how a search of this formula, which is that of what is asked about, ends.
fn put_searched(alloc: Global, out: &mut Sheet, asked: &Asked, f: &Formula)
    requires rooted { BeginsWith asked.now.universe asked.now.req.interface }
    requires built { IsBuilt asked.now.universe asked.now.req f.now }
{
    match Search::new(alloc, f) {
        Ok(mut search) => put_end(alloc, out, asked, &mut search),
        Err(Memory) => out.lose(),
    }
}

/// Adds the end of a search within 100 lemmas, and the trail of a model.
pub(crate) fn put_search(alloc: Global, out: &mut Sheet, asked: &Asked)
    requires { BeginsWith asked.now.universe asked.now.req.interface }
{
    match build(alloc, &asked.universe, &asked.req) {
        Ok(formula) => put_searched(alloc, out, asked, &formula),
        Err(fault) => put_build_fault(out, &fault),
    }
}
