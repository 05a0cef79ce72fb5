//! Whether a certificate shows a choice the best, or a proof shows that there is none.

ghost use Rattle.std.specs.Prelude.{◌≡◌, ◌↔◌, ◌≤◌, IsTrue, IfOk, MatchResult};
ghost use Rattle.zi_universe.specs.Whole.{BeginsWith};
ghost use Rattle.zi_choice.specs.Valid.{IsValid, NoneIsValid};
ghost use Rattle.zi_choice.specs.Best.{IsBest};
ghost use Rattle.zi_choice.specs.Walk.{Walks};
ghost use Rattle.zi_choice.specs.Traces.{as_walk};
ghost use Rattle.zi_build.specs.Clauses.{formula, most_literals, literals};
ghost use Rattle.zi_build.specs.Answers.{IsBuilt, FaultMeans};
ghost use Rattle.zi_certificate.specs.Certificates.{Excludes, Refutes};

use crate::blocks::{Certified, pass_places};
use crate::validity::valid_walk;
use std::alloc::Global;
use zi_build::{BuildFault, build};
use zi_choice::{Choice, Traced};
use zi_formula::Formula;
use zi_numbering::Numbering;
use zi_proof::{Certificate, Marks, Proof, check, follow};
use zi_text::Memory;
use zi_universe::{Requirement, Universe};

// Whether a certificate excludes what stands before a valid choice.
fn excludes(
    alloc: Global,
    u: &Universe,
    req: &Requirement,
    f: &Formula,
    t: &Traced,
    c: &Choice,
    certificate: &Certificate,
) -> Result<bool, Memory>
    requires built { IsBuilt u.now req.now f.now }
    requires valid { IsValid u.now req.now c.now.picks }
    requires walks { Walks u.now req.now c.now.picks (as_walk t.now) }
    ensures { IfOk result (λ yes. IsTrue yes ↔ Excludes u.now req.now c.now.picks certificate.now) }
{
    let numbering = Numbering::of(alloc, u)?;
    let mut marks = Marks::new(alloc, f)?;
    if !follow(f, &certificate.proof, &mut marks) {
        return Ok(false);
    }
    let on = Certified {
        formula: f,
        numbering: &numbering,
        proof: &certificate.proof,
        blocks: certificate.blocks.as_slice(),
    };
    let mut before = Vec::new(alloc);
    let is_right = pass_places(&on, t.places.as_slice(), &mut before, &mut marks)?;
    Ok(is_right)
}

/// Whether a choice is valid and the certificate shows why every other one is worse: so, whoever made the certificate, the
/// choice is the best one (`zi_certificate::laws::certified_is_best`). `TooLarge` comes exactly where the clauses and groups of
/// the universe have more than 8,000,000 literals. A choice that doesn't fit is a no. Beside `build` and `valid` the work is that
/// of walking the certificate's hints, and for each block that of going over what it assumes; it stops at the first that isn't
/// right. Memory is taken for the universe and its formula alone, whatever the certificate is.
pub fn check_best(
    alloc: Global,
    u: &Universe,
    req: &Requirement,
    c: &Choice,
    certificate: &Certificate,
) -> Result<bool, BuildFault>
    requires rooted { BeginsWith u.now req.now.interface }
    ensures value { MatchResult result (λ yes. IsTrue yes ↔ IsValid u.now req.now c.now.picks × Excludes u.now req.now c.now.picks certificate.now) (FaultMeans u.now req.now) }
    ensures best { IfOk result (λ yes. IsTrue yes → IsBest u.now req.now c.now.picks) }
    ensures few { IfOk result (λ _. literals (formula u.now req.now).constraints ≤ most_literals) }
{
    let f = build(alloc, u, req)?;
    let Some(t) = valid_walk(alloc, u, req, c)? else {
        return Ok(false);
    };
    let is_excluded = excludes(alloc, u, req, &f, &t, c, certificate)?;
    Ok(is_excluded)
}

/// Whether the proof refutes: its lemmas follow, and the last has no literal. Then, whoever made it, no choice is valid
/// (`zi_certificate::laws::refuted_is_none`). `TooLarge` comes exactly where the clauses and groups of the universe have more than
/// 8,000,000 literals. Beside `build` the work is that of walking the proof's hints, without further memory.
pub fn check_none(
    alloc: Global,
    u: &Universe,
    req: &Requirement,
    p: &Proof,
) -> Result<bool, BuildFault>
    requires rooted { BeginsWith u.now req.now.interface }
    ensures value { MatchResult result (λ yes. IsTrue yes ↔ Refutes u.now req.now p.now) (FaultMeans u.now req.now) }
    ensures none { IfOk result (λ yes. IsTrue yes → NoneIsValid u.now req.now) }
    ensures few { IfOk result (λ _. literals (formula u.now req.now).constraints ≤ most_literals) }
{
    let f = build(alloc, u, req)?;
    let mut marks = Marks::new(alloc, &f)?;
    let is_refuted = check(&f, p, &[], &mut marks);
    Ok(is_refuted)
}
