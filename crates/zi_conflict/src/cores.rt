//! The numbers of constraints that leave no choice.
ghost use Rattle.std.specs.Prelude.{◌≡◌, ◌≤◌, ◌<◌, ◌+◌, ◌^◌, ◌-◌, ◌++◌, ◌∷◌, [], cond, length, true, IfOk, OnOk, IfSome};
ghost use Rattle.std.specs.List.{All};
ghost use Rattle.zi_build.specs.Answers.{IsBuilt};
ghost use Rattle.zi_formula.specs.Form.{WellFormed};
ghost use Rattle.zi_proof.specs.Accepted.{follows, proves};
ghost use Rattle.zi_certificate.specs.Certificates.{Refutes};
ghost use Rattle.zi_sat.specs.declared.found.Found.TheVariants.{Refuted};
ghost use Rattle.zi_conflict.specs.Core.{only, IsCore, AreUsed};
ghost use Rattle.zi_conflict.specs.Resting.{picked, numbers_to, IsPart, RestsOn, IsCoreOf};
ghost use Rattle.zi_conflict.specs.Ground.{IsGround, formula_of};

use crate::around::Around;
use crate::opposites::Opposites;
use crate::resting::resting;
use crate::tries::Tries;
use std::alloc::Global;
use zi_formula::{Constraints, Formula};
use zi_proof::Proof;
use zi_sat::{Found, Search, Trail};
use zi_text::Memory;
use zi_universe::{Requirement, Universe};

/// Of what a core is: a universe and a requirement, with their constraints.
#[derive(Clone, Copy)]
pub(crate) struct Ground<'u> {
    pub alloc: Global,
    pub universe: &'u Universe,
    pub req: &'u Requirement,
    pub formula: &'u Formula,
}

// The numbers below one.
fn numbers_to(alloc: Global, len: u32) -> Result<Vec<u32>, Memory>
    ensures { IfOk result (λ v. v.items ≡ numbers_to len) }
{
    let mut numbers = Vec::new(alloc);
    for n in 0..len {
        numbers.push(n)?;
    }
    Ok(numbers)
}

// The constraints of these numbers, as a formula of their own.
fn only(on: &Ground, numbers: &[u32]) -> Result<Formula, Memory>
    requires { All (λ n. n < length (formula_of on.now).constraints) numbers.now }
    ensures { IfOk result (λ g. g ≡ only (formula_of on.now) numbers.now) }
{
    let mut constraints = Constraints::new(on.alloc);
    for n in numbers {
        constraints.push(on.formula.constraints.at(*n as usize))?;
    }
    Ok(Formula {
        variables: on.formula.variables,
        constraints,
    })
}

// One number more, where it is picked.
fn pick(is_picked: bool, n: u32, numbers: &mut Vec<u32>) -> Result<(), Memory>
    ensures { OnOk result (numbers.new.items ≡ numbers.old.items ++ cond is_picked (n ∷ []) []) }
{
    if !is_picked {
        return Ok(());
    }
    numbers.push(n)?;
    Ok(())
}

// Those of some numbers whose marks are set.
fn picked(alloc: Global, marks: &[bool], numbers: &[u32]) -> Result<Vec<u32>, Memory>
    requires { length numbers.now ≤ length marks.now }
    ensures { IfOk result (λ v. v.items ≡ picked marks.now numbers.now) }
{
    let mut found = Vec::new(alloc);
    for (k, n) in numbers.iter().enumerate() {
        pick(marks[k], *n, &mut found)?;
    }
    Ok(found)
}

// Some numbers without the one at a place.
fn without(alloc: Global, numbers: &[u32], place: usize) -> Result<Vec<u32>, Memory>
    ensures { IfOk result (λ v. IsPart v.items numbers.now) }
{
    let mut others = Vec::new(alloc);
    for (k, n) in numbers.iter().enumerate() {
        pick(k != place, *n, &mut others)?;
    }
    Ok(others)
}

// The numbers on which a refutation of their constraints rests.
fn rest_of(alloc: Global, p: &Proof, numbers: &[u32]) -> Result<Vec<u32>, Memory>
    ensures { IfOk result (λ v. RestsOn p.now numbers.now v.items) }
{
    let marks = resting(alloc, numbers.len(), p.lemmas.as_slice())?;
    let rest = picked(alloc, marks.as_slice(), numbers)?;
    Ok(rest)
}

// Searches for a model that makes few variables true.
fn seek(alloc: Global, search: &mut Search, most: u64) -> Result<Found, Memory>
    requires most { most ≤ 1000 }
    requires few { length search.old.formula.constraints + 1000 < 2 ^ 32 - 1 }
    requires empty { search.old.log.lemmas ≡ [] }
    ensures follow { follows search.old.formula search.new.log.lemmas ≡ true }
    ensures end { IfOk result (λ found. found ≡ Refuted → proves [] search.new.log.lemmas ≡ true) }
{
    let mut opposites = Opposites::new(alloc);
    let found = search.run(alloc, &mut opposites, most)?;
    Ok(found)
}

// Where the trail makes all constraints of these numbers true but one, that one is needed, and so are others that a walk around finds.
fn find_needed(
    on: &Ground,
    numbers: &[u32],
    left_out: u32,
    t: &Trail,
    tries: &mut Tries,
) -> Result<(), Memory> {
    tries.find(left_out);
    let mut around = Around::new(on.alloc, on.formula, numbers, t)?;
    around.go_round(on.formula, left_out, tries, numbers.len());
    Ok(())
}

// A refutation of some numbers' constraints but one, where a search finds one. Where it finds a model, that one is needed.
fn refutation(
    on: &Ground,
    g: &Formula,
    numbers: &[u32],
    left_out: u32,
    tries: &mut Tries,
) -> Result<Option<Proof>, Memory>
    requires formed { WellFormed g.now }
    requires few { length g.now.constraints + 1000 < 2 ^ 32 - 1 }
    ensures { IfOk result (λ o. IfSome o (λ p. (follows g.now p.lemmas ≡ true) × (proves [] p.lemmas ≡ true))) }
{
    let mut search = Search::new(on.alloc, g)?;
    let found = seek(on.alloc, &mut search, tries.most())?;
    tries.spend(search.log().lemmas.len());
    match found {
        Found::Refuted => Ok(Some(search.into_log())),
        Found::Model => {
            find_needed(on, numbers, left_out, search.trail(), tries)?;
            Ok(None)
        }
        Found::Spent { .. } => Ok(None),
    }
}

// A part of some numbers, the one at a place left out, whose constraints leave no choice either.
fn less(
    on: &Ground,
    numbers: &[u32],
    place: usize,
    tries: &mut Tries,
) -> Result<Option<Vec<u32>>, Memory>
    requires ground { IsGround on.now }
    requires own { IsPart numbers.now (numbers_to (length (formula_of on.now).constraints)) }
    ensures { IfOk result (λ o. IfSome o (λ v. IsCoreOf (formula_of on.now) numbers.now v.items)) }
{
    if place >= numbers.len() || !tries.is_open(numbers[place]) {
        return Ok(None);
    }
    let others = without(on.alloc, numbers, place)?;
    let g = only(on, others.as_slice())?;
    let Some(p) = refutation(on, &g, numbers, numbers[place], tries)? else {
        return Ok(None);
    };
    let rest = rest_of(on.alloc, &p, others.as_slice())?;
    Ok(Some(rest))
}

// Leaves out the number at a place, and all on which a refutation of the others doesn't rest, where there is such a refutation.
fn lessen(on: &Ground, kept: &mut Vec<u32>, place: usize, tries: &mut Tries) -> Result<(), Memory>
    requires ground { IsGround on.now }
    requires core { IsCoreOf (formula_of on.now) (numbers_to (length (formula_of on.now).constraints)) kept.old.items }
    ensures { OnOk result (IsCoreOf (formula_of on.now) kept.old.items kept.new.items) }
{
    let Some(fewer) = less(on, kept.as_slice(), place, tries)? else {
        return Ok(());
    };
    *kept = fewer;
    Ok(())
}

// Leaves out each number that is tried, from the last on, without which a search refutes the others.
fn least(on: &Ground, kept: &mut Vec<u32>, tries: &mut Tries) -> Result<(), Memory>
    requires ground { IsGround on.now }
    requires core { IsCoreOf (formula_of on.now) (numbers_to (length (formula_of on.now).constraints)) kept.old.items }
    ensures { OnOk result (IsCoreOf (formula_of on.now) kept.old.items kept.new.items) }
{
    let len = kept.len();
    for k in 0..len {
        lessen(on, kept, len - 1 - k, tries)?;
    }
    Ok(())
}

/// The numbers of constraints that leave no choice, where a proof refutes: those on which the proof rests, but for those that
/// can be left out.
pub(crate) fn core_of(on: &Ground, p: &Proof) -> Result<Vec<u32>, Memory>
    requires ground { IsGround on.now }
    requires refutes { Refutes on.now.universe.now on.now.req.now p.now }
    ensures core { IfOk result (λ v. IsCore on.now.universe.now on.now.req.now v.items) }
    ensures used { IfOk result (λ v. AreUsed p.now v.items) }
{
    let count = on.formula.constraints.len() as u32;
    let all = numbers_to(on.alloc, count)?;
    let mut numbers = rest_of(on.alloc, p, all.as_slice())?;
    let mut tries = Tries::new(on.alloc, count, p.lemmas.len())?;
    least(on, &mut numbers, &mut tries)?;
    Ok(numbers)
}
