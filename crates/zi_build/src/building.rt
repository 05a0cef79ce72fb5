//! The formula of a universe and a requirement.
ghost use Rattle.std.specs.Prelude.{◌≡◌, true, IfOk, MatchResult};
ghost use Rattle.zi_universe.specs.Whole.{BeginsWith};
ghost use Rattle.zi_build.specs.Writing.{plan_of, IsPlan};
ghost use Rattle.zi_build.specs.Answers.{IsBuilt, FaultMeans, AreKept};

use crate::kinds::add_rules;
use crate::variables::table_of;
use crate::writing::{MOST_LITERALS, Plan, is_full, no_constraints};
use std::alloc::Global;
use zi_choice::Names;
use zi_formula::{Constraints, Formula};
use zi_text::Memory;
use zi_universe::{Requirement, Universe};

/// Why there is no formula.
#[derive(Clone, Copy, PartialEq, Eq)]
pub enum BuildFault {
    /// Its clauses and groups would have more literals than this.
    TooLarge {
        /// The limit, which is 8,000,000.
        limit: u64,
    },
    /// Memory ran out.
    Memory,
}

// The constraints, where they have few enough literals. They are counted as they are kept, and behind the limit none is kept any more.
fn constraints_of(plan: &Plan, req: &Requirement) -> Result<Option<Constraints>, Memory>
    requires plan { IsPlan plan.now }
    requires keeps { plan.now.keeps ≡ true }
    ensures { IfOk result (AreKept (plan_of plan.now) req.now) }
{
    let mut w = no_constraints(plan.alloc);
    add_rules(plan, req, &mut w)?;
    if is_full(&w) {
        return Ok(None);
    }
    w.constraints.fit();
    Ok(Some(w.constraints))
}

/// The constraints of a universe and a requirement, in their order:
///
/// 1. a clause of all candidates of the root;
/// 2. where a command is wanted, for each candidate of the root that it has the command, if it is chosen;
/// 3. for each interface with two candidates or more, that at most one of them is chosen;
/// 4. for each candidate, interface by interface: its bit group; what each of its dependencies needs, `restricts` included; and
///    for each of its commands that the candidate is chosen where the command is used, what its dependencies need, and what its
///    runner needs.
///
/// A literal that would stand twice in a clause stands once. The variables are numbered from 1: the candidates, interface by
/// interface and each in rank order, then in the same order the commands of each, last the one that says 64-bit.
/// `TooLarge` comes exactly where the clauses and groups have more than 8,000,000 literals; no more than these are kept before
/// it comes. The work is linear in the literals, in the names of the universe, and in the candidates that are looked at for each
/// dependency.
pub fn build(alloc: Global, u: &Universe, req: &Requirement) -> Result<Formula, BuildFault>
    requires rooted { BeginsWith u.now req.now.interface }
    ensures { MatchResult result (IsBuilt u.now req.now) (FaultMeans u.now req.now) }
{
    let limit = MOST_LITERALS as u64;
    let Some(table) = table_of(alloc, u)? else {
        return Err(BuildFault::TooLarge { limit });
    };
    let names = Names::of(alloc, u)?;
    let plan = Plan {
        alloc,
        keeps: true,
        universe: u,
        names: &names,
        table: &table,
    };
    let Some(constraints) = constraints_of(&plan, req)? else {
        return Err(BuildFault::TooLarge { limit });
    };
    Ok(Formula {
        variables: table.last,
        constraints,
    })
}

impl From<Memory> for BuildFault {
    ghost use Rattle.zi_build.specs.declared.building.BuildFault.TheVariants as fault;
    ghost use Rattle.std.specs.Prelude.{◌≡◌};

    ghost from_gives = { λ _ r. r ≡ fault.Memory };

    fn from(_error: Memory) -> BuildFault {
        BuildFault::Memory
    }
}
