//! The solver.
ghost use Rattle.std.specs.Prelude.{◌≡◌, ◌≤◌, [], IfOk, MatchResult};
ghost use Rattle.zi_universe.specs.Whole.{BeginsWith};
ghost use Rattle.zi_build.specs.Answers.{IsBuilt, FaultMeans};
ghost use Rattle.zi_build.specs.Clauses.{formula, literals, most_literals};
ghost use Rattle.zi_solve.specs.Answers.{AnswerMeans, IsFound, HasEnded, IsCertified};

use crate::answer::Answer;
use crate::blocks::{Making, blocks_of};
use crate::cutting::cut;
use crate::seeking::seek;
use std::alloc::Global;
use zi_build::{BuildFault, build};
use zi_choice::{Choice, Names, trace_picks};
use zi_formula::Formula;
use zi_numbering::Numbering;
use zi_proof::{Block, Certificate, Marks, Proof};
use zi_sat::{Found, Search, Trail};
use zi_text::{List, Memory};
use zi_universe::{Requirement, Universe};
use zi_walk::so_far;

/// The choice of a trail, with the blocks that show it the best.
#[derive(Drop)]
pub(crate) struct Chosen {
    pub choice: Choice,
    pub blocks: List<Block>,
}

// The choice of a trail, with its blocks.
fn chosen_of(
    alloc: Global,
    u: &Universe,
    req: &Requirement,
    f: &Formula,
    t: &Trail,
    log: &Proof,
) -> Result<Chosen, Memory>
    requires built { IsBuilt u.now req.now f.now }
    requires room { t.now.variables ≡ f.now.variables }
    requires found { IsFound u.now req.now log.now.lemmas t.now.entries }
    ensures { IfOk result (λ chosen. IsCertified u.now req.now log.now chosen) }
{
    let _interfaces = u.interfaces();
    let numbering = Numbering::of(alloc, u)?;
    let names = Names::of(alloc, u)?;
    let picks = so_far(alloc, &numbering, t)?;
    let traced = trace_picks(alloc, &names, req, picks.as_slice())?;
    let places = traced.places.as_slice();
    let kept = cut(alloc, picks.as_slice(), places)?;
    let mut marks = Marks::new(alloc, f)?;
    let on = Making {
        alloc,
        formula: f,
        numbering: &numbering,
        proof: log,
        trail: t,
    };
    let blocks = blocks_of(&on, places, &mut marks)?;
    Ok(Chosen {
        choice: Choice { picks: kept },
        blocks,
    })
}

/// The best choice of a universe for a requirement, by a search that learns at most `budget` lemmas that have a literal.
///
/// Best comes only with the best choice, and with a certificate that shows it to anyone; None only where no choice is valid,
/// with a refutation; Spent only with the budget as its count and as the number of lemmas, which follow, are fresh and lean and
/// each have a literal, never where the first candidate at every place is valid, and never where the budget is at least 3 to the
/// power of the number of variables. `TooLarge` comes exactly where the clauses and groups of the universe have more than
/// 8,000,000 literals.
pub fn solve(
    alloc: Global,
    u: &Universe,
    req: &Requirement,
    budget: u64,
) -> Result<Answer, BuildFault>
    requires rooted { BeginsWith u.now req.now.interface }
    requires budget { budget ≤ 4000000000 }
    ensures answer { MatchResult result (AnswerMeans u.now req.now budget) (FaultMeans u.now req.now) }
    ensures few { IfOk result (λ _. literals (formula u.now req.now).constraints ≤ most_literals) }
{
    let f = build(alloc, u, req)?;
    let mut search = Search::new(alloc, &f)?;
    let found = seek(alloc, u, req, &mut search, budget)?;
    match found {
        Found::Refuted => Ok(Answer::None {
            proof: search.into_log(),
        }),
        Found::Spent { count } => Ok(Answer::Spent {
            proof: search.into_log(),
            count,
        }),
        Found::Model => {
            let Chosen { choice, blocks } = chosen_of(
                alloc,
                u,
                req,
                &f,
                search.trail(),
                search.log(),
            )?;
            let proof = search.into_log();
            Ok(Answer::Best {
                choice,
                certificate: Certificate { proof, blocks },
            })
        }
    }
}
