//! The text of what leaves no choice.
ghost use Rattle.std.specs.Prelude.{MatchResult};
ghost use Rattle.zi_universe.specs.Whole.{BeginsWith};
ghost use Rattle.zi_build.specs.Answers.{FaultMeans};
ghost use Rattle.zi_certificate.specs.Certificates.{Refutes};
ghost use Rattle.zi_conflict.specs.Conflict.{IsConflictText};

use crate::conflicting::conflict;
use std::alloc::Global;
use zi_build::{BuildFault, build};
use zi_choice::Names;
use zi_facts::lines;
use zi_proof::Proof;
use zi_text::Text;
use zi_universe::{Requirement, Universe};

/// The text of the facts that leave no choice, where a proof refutes: that of `lines` for those of `conflict`. `TooLarge` comes exactly where
/// the clauses and groups of the universe have more than 8,000,000 literals. The work is that of `build` and of `conflict`, and
/// linear in the text.
pub fn conflict_text(
    alloc: Global,
    u: &Universe,
    req: &Requirement,
    p: &Proof,
) -> Result<Text, BuildFault>
    requires rooted { BeginsWith u.now req.now.interface }
    requires refutes { Refutes u.now req.now p.now }
    ensures { MatchResult result (IsConflictText u.now req.now p.now) (FaultMeans u.now req.now) }
{
    let f = build(alloc, u, req)?;
    let names = Names::of(alloc, u)?;
    let facts = conflict(alloc, &names, req, &f, p)?;
    let text = lines(alloc, &names, req, facts.as_slice())?;
    Ok(text)
}
