//! The search: the walk's decider alone until it has learned a thousand lemmas, and from then on it and the decider that takes the most
//! active interface first, in turns, over one log.
//! What was learned in one run holds in all. Where a search ends with a model, its last run was by the walk's decider, so the trail is
//! one that came about by the walk's rule, whatever the other runs did.

ghost use Rattle.std.specs.Prelude.{◌≡◌, ◌≤◌, [], length, IfOk, MatchOption};
ghost use Rattle.zi_universe.specs.Whole.{BeginsWith};
ghost use Rattle.zi_choice.specs.Vars.{var_count};
ghost use Rattle.zi_build.specs.Clauses.{formula, literals, most_literals};
ghost use Rattle.zi_sat.specs.Ends.{MayGoOn};
ghost use Rattle.zi_sat.specs.Fresh.{Filled};
ghost use Rattle.zi_solve.specs.Answers.{HasEnded};
ghost use Rattle.zi_solve.specs.Turns.{IsBetween, HasCome, IsTurn};

use crate::learner::Learner;
use crate::pace::FIRST;
use std::alloc::Global;
use zi_choice::{Names, trace_picks};
use zi_numbering::Numbering;
use zi_proof::Proof;
use zi_reach::{Face, Reach, Turn};
use zi_sat::{Found, Search, Trail};
use zi_text::Memory;
use zi_universe::{Requirement, Universe};
use zi_walk::{Walk, so_far};

/// Over what a search goes.
#[derive(Clone, Copy)]
pub(crate) struct Over<'a, 'u> {
    pub alloc: Global,
    pub universe: &'u Universe,
    pub requirement: &'u Requirement,
    pub names: &'a Names<'u>,
    pub numbering: &'a Numbering<'u>,
}

// A run by the walk's decider, up to so many lemmas in the log.
fn by_walk(
    alloc: Global,
    u: &Universe,
    req: &Requirement,
    search: &mut Search,
    limit: u64,
) -> Result<Found, Memory>
    requires rooted { BeginsWith u.now req.now.interface }
    requires formula { search.old.formula ≡ formula u.now req.now }
    requires few { literals (formula u.now req.now).constraints ≤ most_literals }
    requires bound { length search.old.log.lemmas ≤ limit }
    requires filled { Filled search.old.log.lemmas }
    requires limit { limit ≤ 4000000000 }
    ensures formula { search.new.formula ≡ search.old.formula }
    ensures goes_on { IfOk result (MayGoOn search.new.log.lemmas limit) }
    ensures end { IfOk result (λ found. HasEnded u.now req.now limit search.new found) }
{
    let mut walk = Walk::new(alloc, u, req)?;
    let found = search.run(alloc, &mut walk, limit)?;
    search.trail().are_new();
    Ok(found)
}

// A run by the other decider, up to so many lemmas in the log.
fn by_order(
    over: &Over,
    search: &mut Search,
    faces: &[Face],
    order: &[Turn],
    limit: u64,
) -> Result<Found, Memory>
    requires formula { search.old.formula ≡ formula over.now.universe.now over.now.requirement.now }
    requires few { literals (formula over.now.universe.now over.now.requirement.now).constraints ≤ most_literals }
    requires bound { length search.old.log.lemmas ≤ limit }
    requires filled { Filled search.old.log.lemmas }
    requires limit { limit ≤ 4000000000 }
    ensures formula { search.new.formula ≡ search.old.formula }
    ensures goes_on { IfOk result (MayGoOn search.new.log.lemmas limit) }
    ensures end { IfOk result (λ found. HasCome over.now.universe.now over.now.requirement.now limit search.new found) }
{
    let mut reach = Reach::new(faces, order);
    let found = search.run(over.alloc, &mut reach, limit)?;
    Ok(found)
}

// So many lemmas more than the log has, but no more than the budget.
fn limit_of(log: &Proof, more: u64, budget: u64) -> u64
    requires { length log.now.lemmas ≤ budget }
    ensures low { length log.now.lemmas ≤ result }
    ensures high { result ≤ budget }
{
    let have = log.lemmas.len() as u64;
    if more < budget - have {
        have + more
    } else {
        budget
    }
}

// A turn of the walk's decider: the search's end, unless the run was paused.
fn walk_turn(
    alloc: Global,
    u: &Universe,
    req: &Requirement,
    search: &mut Search,
    limit: u64,
    budget: u64,
) -> Result<Option<Found>, Memory>
    requires rooted { BeginsWith u.now req.now.interface }
    requires formula { search.old.formula ≡ formula u.now req.now }
    requires few { literals (formula u.now req.now).constraints ≤ most_literals }
    requires bound { length search.old.log.lemmas ≤ limit }
    requires filled { Filled search.old.log.lemmas }
    requires limit { limit ≤ budget }
    requires budget { budget ≤ 4000000000 }
    ensures formula { search.new.formula ≡ search.old.formula }
    ensures turn { IfOk result (IsTurn u.now req.now budget search.new) }
{
    let found = by_walk(alloc, u, req, search, limit)?;
    match found {
        Found::Model => Ok(Some(found)),
        Found::Refuted => Ok(Some(found)),
        Found::Spent { count: _ } => {
            if limit < budget {
                return Ok(None);
            }
            Ok(Some(found))
        }
    }
}

// The interfaces to which the walk of a trail comes.
fn walk_of(over: &Over, t: &Trail) -> Result<Vec<u32>, Memory>
    requires { var_count over.now.numbering.now ≤ t.now.variables }
{
    let picks = so_far(over.alloc, over.numbering, t)?;
    let traced = trace_picks(over.alloc, over.names, over.requirement, picks.as_slice())?;
    let mut interfaces = Vec::new(over.alloc);
    for place in traced.places.as_slice() {
        interfaces.push(place.interface)?;
    }
    Ok(interfaces)
}

// A turn of the other decider: the search's end where it is refuted or the budget is spent.
fn order_turn(
    over: &Over,
    search: &mut Search,
    learner: &mut Learner,
    budget: u64,
) -> Result<Option<Found>, Memory>
    requires numbered { over.now.numbering.now ≡ over.now.universe.now }
    requires few { literals (formula over.now.universe.now over.now.requirement.now).constraints ≤ most_literals }
    requires between { IsBetween over.now.universe.now over.now.requirement.now budget search.old }
    requires budget { budget ≤ 4000000000 }
    ensures formula { search.new.formula ≡ search.old.formula }
    ensures turn { IfOk result (IsTurn over.now.universe.now over.now.requirement.now budget search.new) }
{
    let limit = limit_of(search.log(), learner.lemmas(), budget);
    let order = learner.order(over.alloc)?;
    let found = by_order(over, search, learner.faces(), order.as_slice(), limit)?;
    match found {
        Found::Refuted => Ok(Some(found)),
        Found::Model => {
            let walk = walk_of(over, search.trail())?;
            learner.after_model(search.trail(), search.log().lemmas.as_slice(), walk);
            Ok(None)
        }
        Found::Spent { count: _ } => {
            if limit < budget {
                learner.after_pause(search.trail(), search.log().lemmas.as_slice());
                return Ok(None);
            }
            Ok(Some(found))
        }
    }
}

// A turn of one decider or the other.
fn turn(
    over: &Over,
    search: &mut Search,
    learner: &mut Learner,
    budget: u64,
) -> Result<Option<Found>, Memory>
    requires rooted { BeginsWith over.now.universe.now over.now.requirement.now.interface }
    requires numbered { over.now.numbering.now ≡ over.now.universe.now }
    requires few { literals (formula over.now.universe.now over.now.requirement.now).constraints ≤ most_literals }
    requires between { IsBetween over.now.universe.now over.now.requirement.now budget search.old }
    requires budget { budget ≤ 4000000000 }
    ensures formula { search.new.formula ≡ search.old.formula }
    ensures turn { IfOk result (IsTurn over.now.universe.now over.now.requirement.now budget search.new) }
{
    if !learner.is_walks_turn() {
        return order_turn(over, search, learner, budget);
    }
    let limit = limit_of(search.log(), learner.begin_walks_turn(), budget);
    let end = walk_turn(
        over.alloc,
        over.universe,
        over.requirement,
        search,
        limit,
        budget,
    )?;
    learner.after_walk(search.log().lemmas.as_slice());
    Ok(end)
}

// The turns, one after another. Each learns a lemma or proves a place, so they end; were they ever to come to no end, the walk's
// decider would have the last one.
fn take_turns(
    alloc: Global,
    u: &Universe,
    req: &Requirement,
    search: &mut Search,
    budget: u64,
) -> Result<Found, Memory>
    requires rooted { BeginsWith u.now req.now.interface }
    requires few { literals (formula u.now req.now).constraints ≤ most_literals }
    requires between { IsBetween u.now req.now budget search.old }
    requires budget { budget ≤ 4000000000 }
    ensures formula { search.new.formula ≡ search.old.formula }
    ensures end { IfOk result (λ found. HasEnded u.now req.now budget search.new found) }
{
    let names = Names::of(alloc, u)?;
    let numbering = Numbering::of(alloc, u)?;
    let mut learner = Learner::new(
        alloc,
        &names,
        &numbering,
        search.trail(),
        search.log().lemmas.len(),
    )?;
    let over = Over {
        alloc,
        universe: u,
        requirement: req,
        names: &names,
        numbering: &numbering,
    };
    for _round in 0..u64::MAX {
        if let Some(found) = turn(&over, search, &mut learner, budget)? {
            return Ok(found);
        }
    }
    by_walk(alloc, u, req, search, budget)
}

/// Searches until there is an answer, or the log has as many lemmas as the budget.
pub(crate) fn seek(
    alloc: Global,
    u: &Universe,
    req: &Requirement,
    search: &mut Search,
    budget: u64,
) -> Result<Found, Memory>
    requires rooted { BeginsWith u.now req.now.interface }
    requires formula { search.old.formula ≡ formula u.now req.now }
    requires few { literals (formula u.now req.now).constraints ≤ most_literals }
    requires empty_log { search.old.log.lemmas ≡ [] }
    requires budget { budget ≤ 4000000000 }
    ensures formula { search.new.formula ≡ search.old.formula }
    ensures end { IfOk result (λ found. HasEnded u.now req.now budget search.new found) }
{
    let limit = limit_of(search.log(), FIRST, budget);
    match walk_turn(alloc, u, req, search, limit, budget)? {
        Some(found) => Ok(found),
        None => take_turns(alloc, u, req, search, budget),
    }
}
