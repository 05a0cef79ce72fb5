//! Which facts leave no choice.
ghost use Rattle.std.specs.Prelude.{◌≡◌, ◌<◌, map, length, IfOk};
ghost use Rattle.std.specs.List.{All};
ghost use Rattle.zi_universe.specs.Whole.{BeginsWith};
ghost use Rattle.zi_build.specs.Answers.{IsBuilt};
ghost use Rattle.zi_certificate.specs.Certificates.{Refutes};
ghost use Rattle.zi_facts.specs.Facts.{as_told, told_at};
ghost use Rattle.zi_conflict.specs.Conflict.{IsConflict};

use crate::cores::{Ground, core_of};
use std::alloc::Global;
use zi_choice::Names;
use zi_facts::{Fact, told};
use zi_formula::Formula;
use zi_proof::Proof;
use zi_text::{List, Memory};
use zi_universe::Requirement;

// The facts of some numbers.
fn at_numbers<'u>(
    alloc: Global,
    all: &[Fact<'u>],
    numbers: &[u32],
) -> Result<List<Fact<'u>>, Memory>
    requires { All (λ n. n < length all.now) numbers.now }
    ensures { IfOk result (λ facts. map as_told facts ≡ map (told_at (map as_told all.now)) numbers.now) }
{
    let mut facts = List::new(alloc);
    for n in numbers {
        facts.push(all[*n as usize])?;
    }
    Ok(facts)
}

// How many variables a formula has.
fn variables_of(f: &Formula) -> u32
    ensures is { result ≡ f.now.variables }
    ensures few { result < 4294967296 }
{
    f.variables
}

/// The facts that leave no choice, where a proof refutes: each is one of the constraints that the proof uses, they come in the order of
/// the constraints, and no valuation models just these, so that no choice is valid whatever else the feeds say
/// (`laws::core_is_none`). They are the constraints on which the proof's last lemma rests; of these each is left out, from the
/// last on, where a search that learns at most 1,000 lemmas refutes the others, while all these searches together have learned fewer than
/// 1,000 lemmas and two for each of the proof. One isn't tried where the model of an earlier search shows that it is needed. The work is linear
/// in the proof, in the universe and its constraints, and for each fact that is tried in these constraints and that of its search.
pub fn conflict<'u>(
    alloc: Global,
    names: &'u Names<'u>,
    req: &'u Requirement,
    f: &Formula,
    p: &Proof,
) -> Result<List<Fact<'u>>, Memory>
    requires rooted { BeginsWith names.now req.now.interface }
    requires built { IsBuilt names.now req.now f.now }
    requires refutes { Refutes names.now req.now p.now }
    ensures { IfOk result (λ facts. IsConflict names.now req.now p.now (map as_told facts)) }
{
    let on = Ground {
        alloc,
        universe: names.universe(),
        req,
        formula: f,
    };
    let _variables = variables_of(f);
    let numbers = core_of(&on, p)?;
    let all = told(alloc, names, req)?;
    let facts = at_numbers(alloc, all.as_slice(), numbers.as_slice())?;
    Ok(facts)
}
