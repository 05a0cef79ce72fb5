//! The best choice from what words ask for, before anything is done with it.
ghost use Rattle.std.specs.Prelude.{◌≡◌, ◌≤◌, ◌∷◌, map, MatchResult};
ghost use Rattle.zi_universe.specs.Whole.{BeginsWith};
ghost use Rattle.zi_choice.specs.Best.{IsBest};
ghost use Rattle.zi_sels_laws.specs.Rows.{HasRightRows};
ghost use Rattle.zi_world.specs.Asking.{FeedsStay};
ghost use Rattle.zi_choosing.specs.Loaded.{AreFew};
ghost use Rattle.zi_choosing.specs.Finding.{SolvesNot, IsChosen, FindsNot, FindsBest};

use crate::asked::Asked;
use crate::chosen::Chosen;
use crate::formula::without_formula;
use crate::known::{Known, known_of, load_over};
use crate::selecting::spent;
use crate::wanted::{Job, into_job};
use std::alloc::Global;
use zi_choice::Choice;
use zi_outcome::{Outcome, refused};
use zi_outside::Feeds;
use zi_sels::from_choice;
use zi_shelf::Shelf;
use zi_solve::{Answer, solve};
use zi_universe::{Requirement, Universe};
use zi_words::Ask;
use zi_written_laws::what_is_chosen_can_be_written;

// The best choice from a universe.
#[tactic(auto, using(crate::proofs::FindLemmas::solving))]
fn solved(
    alloc: Global,
    universe: &Universe,
    req: &Requirement,
    budget: u64,
) -> Result<Choice, Outcome>
    requires rooted { BeginsWith universe.now req.now.interface }
    requires budget { budget ≤ 4000000000 }
    ensures { MatchResult result (λ c. AreFew universe.now req.now × IsBest universe.now req.now c.picks) (SolvesNot req.now budget universe.now) }
{
    match solve(alloc, universe, req, budget) {
        Ok(
            Answer::Best {
                choice,
                certificate: _,
            },
        ) => Ok(choice),
        Ok(Answer::None { proof }) => Err(Outcome::NoSolution { proof }),
        Ok(Answer::Spent { proof, count }) => Err(spent(proof, count)),
        Err(fault) => Err(without_formula(fault)),
    }
}

// Loads what is asked for over what is known, and chooses.
fn find_over<F: Feeds>(
    alloc: Global,
    ask: Ask,
    known: Known,
    feeds: &mut F,
) -> Result<Chosen, Outcome>
    requires budget { ask.search ≤ 4000000000 }
    requires rows { HasRightRows known.packages }
    ensures chooses { MatchResult result
        (λ c. (c.known ≡ known) × IsChosen ask (F.seen feeds.old) c (F.seen feeds.new))
        (FindsNot known ask (F.seen feeds.old) (F.seen feeds.new)) }
    ensures feeds { FeedsStay (F.seen feeds.old) (F.seen feeds.new) }
{
    let budget = ask.search;
    let job = into_job(alloc, ask)?;
    let universe = match load_over(alloc, &job, &known, feeds) {
        Ok(universe) => universe,
        Err(fault) => return Err(refused(fault)),
    };
    let choice = solved(alloc, &universe, &job.req, budget)?;
    let sels = from_choice(alloc, &universe, &job.req, &choice)?;
    what_is_chosen_can_be_written();
    let Job { req, policy: _ } = job;
    Ok(Chosen {
        req,
        known,
        universe,
        choice,
        sels,
    })
}

/// Finds out which digests are in which store and which packages there are, loads what is asked for, and finds the best choice and what
/// it selects. Nothing is written: where no choice is valid the outcome is `NoSolution` with a refutation, and `Spent` where the search
/// learned as many lemmas as it was let; the other refusals are those of the stores' names, of the table of packages, of the loading
/// and of the formula.
pub fn find_best<F: Feeds, K: Shelf, R: Shelf>(
    alloc: Global,
    asked: Asked,
    feeds: &mut F,
    shelf: &mut K,
    others: &mut [R],
) -> Result<Chosen, Outcome>
    requires { asked.ask.search ≤ 4000000000 }
    ensures { FindsBest asked
        (record { feeds = F.seen feeds.old; stores = K.seen shelf.old ∷ map R.seen others.old })
        (record { feeds = F.seen feeds.new; stores = K.seen shelf.new ∷ map R.seen others.new })
        result }
{
    let Asked { ask, table } = asked;
    let known = known_of(alloc, table, feeds, shelf, others)?;
    find_over(alloc, ask, known, feeds)
}
