//! The work of `demo`.
ghost use Rattle.std.specs.Prelude.{◌≡◌, ◌≤◌, IfOk, codes};
ghost use Rattle.zi_universe.specs.Whole.{BeginsWith};
ghost use Rattle.zi_choice.specs.Best.{IsBest};
ghost use Rattle.zi_certificate.specs.Certificates.{Excludes};
ghost use Rattle.zi_outcome.specs.declared.outcome.Outcome.TheVariants.{NoSolution};
ghost use Rattle.zi_outcome.specs.Writing.{Prints};
ghost use Rattle.zi_choosing.specs.Wanted.{requirement_of};
ghost use Rattle.zi_choosing.specs.Loaded.{AreFew};
ghost use Rattle.zi_choosing.specs.Demo.{demo_ask, counts_of, lines as lines_of, CountsOver, Demos};
ghost use Rattle.zi_choosing.specs.DemoParts.{CountsFrom};

use crate::counting::{counts_of, lines};
use crate::formula::without_formula;
use crate::selecting::spent;
use crate::wanted::{Job, into_job};
use std::alloc::Global;
use zi_check::check_best;
use zi_choice::Choice;
use zi_demo::universe_of;
use zi_demo_laws::demo_is_clear;
use zi_outcome::{Outcome, put_text, refused};
use zi_outside::{Feeds, Sink};
use zi_packages::Packages;
use zi_proof::{Certificate, Proof};
use zi_solve::{Answer, solve};
use zi_text::{Memory, Text};
use zi_universe::{Requirement, Universe, load};
use zi_words::{Address, Ask};

// How many lemmas the search may learn.
const BUDGET: u64 = 20_000;

// The address of the demonstration's root.
#[tactic(auto, using(crate::proofs::DemoLemmas::addressed))]
fn demo_address(alloc: Global) -> Result<Address, Memory>
    ensures { IfOk result (λ a. a ≡ codes "/demo/root.xml") }
{
    let text = Text::from_str(alloc, "/demo/root.xml")?;
    match Address::new(text) {
        Some(address) => Ok(address),
        None => unreachable!(),
    }
}

// What is asked for.
#[tactic(auto, unfolding(crate::specs::Demo::demo_ask))]
fn demo_ask(alloc: Global) -> Result<Ask, Memory>
    ensures { IfOk result (λ a. a ≡ demo_ask) }
{
    let address = demo_address(alloc)?;
    let Ask {
        root,
        command: _,
        limits,
        policy,
        search: _,
    } = Ask::without_options(alloc, address)?;
    Ok(Ask {
        root,
        command: None,
        limits,
        policy,
        search: BUDGET,
    })
}

// What is wanted, and by which policy.
fn demo_job(alloc: Global) -> Result<Job, Memory>
    ensures req { IfOk result (λ j. j.req ≡ requirement_of demo_ask) }
    ensures policy { IfOk result (λ j. j.policy ≡ (demo_ask).policy) }
{
    let ask = demo_ask(alloc)?;
    into_job(alloc, ask)
}

// Writes the lines of a choice.
#[tactic(auto, using(crate::proofs::SelectLemmas::certifying))]
fn put_lines<O: Sink>(alloc: Global, universe: &Universe, choice: &Choice, out: &mut O) -> Outcome
    ensures { Prints (lines_of (counts_of universe.now choice.now.picks)) (O.seen out.old) (O.seen out.new) result }
{
    match lines(alloc, &counts_of(universe, choice)) {
        Ok(text) => put_text(text.as_str().as_bytes(), out),
        Err(Memory) => Outcome::Memory,
    }
}

// Checks the certificate of the best choice, and writes the choice's lines.
#[tactic(auto, using(crate::proofs::DemoLemmas::counting))]
fn put_checked<O: Sink>(
    alloc: Global,
    req: &Requirement,
    universe: &Universe,
    choice: &Choice,
    certificate: &Certificate,
    out: &mut O,
) -> Outcome
    requires rooted { BeginsWith universe.now req.now.interface }
    requires few { AreFew universe.now req.now }
    requires best { IsBest universe.now req.now choice.now.picks }
    requires excludes { Excludes universe.now req.now choice.now.picks certificate.now }
    ensures { CountsFrom req.now universe.now (O.seen out.old) (O.seen out.new) result }
{
    match check_best(alloc, universe, req, choice, certificate) {
        Ok(true) => put_lines(alloc, universe, choice, out),
        Ok(false) => unreachable!(),
        Err(fault) => without_formula(fault),
    }
}

// The outcome where no choice is valid.
fn unsolved(proof: Proof) -> Outcome
    ensures { result ≡ NoSolution proof }
{
    Outcome::NoSolution { proof }
}

// Finds the best choice from a universe, and writes its lines.
#[tactic(auto, using(crate::proofs::DemoLemmas::answering))]
fn count_best<O: Sink>(
    alloc: Global,
    req: &Requirement,
    universe: &Universe,
    out: &mut O,
) -> Outcome
    requires { BeginsWith universe.now req.now.interface }
    ensures { CountsFrom req.now universe.now (O.seen out.old) (O.seen out.new) result }
{
    match solve(alloc, universe, req, BUDGET) {
        Ok(
            Answer::Best {
                choice,
                certificate,
            },
        ) => put_checked(alloc, req, universe, &choice, &certificate, out),
        Ok(Answer::None { proof }) => unsolved(proof),
        Ok(Answer::Spent { proof, count }) => spent(proof, count),
        Err(fault) => without_formula(fault),
    }
}

// Loads what is asked for from feeds, and counts.
fn count_over<F: Feeds, O: Sink>(alloc: Global, feeds: &mut F, out: &mut O) -> Outcome
    ensures { CountsOver (record { feeds = F.seen feeds.old; out = O.seen out.old }) (record { feeds = F.seen feeds.new; out = O.seen out.new }) result }
{
    let Ok(job) = demo_job(alloc) else {
        return Outcome::Memory;
    };
    let packages = Packages::nothing(alloc);
    match load(alloc, &job.req, &job.policy, &[], &packages, feeds) {
        Ok(universe) => count_best(alloc, &job.req, &universe, out),
        Err(fault) => refused(fault),
    }
}

/// Makes the feeds of the demonstration of a number, which is from 1 to 1,000, loads them for `/demo/root.xml` with no command, no
/// limits, no tree stored and the policy of no option, and finds the best choice with at most 20,000 lemmas. Its certificate is
/// checked, and five lines are written: `interfaces` and how many there are, `candidates` and how many they have, `selections`
/// and how many interfaces have one chosen, `first` and how many of these have their first, and `checked yes`. Where the lemmas
/// are spent nothing is written, and the outcome is `Spent`.
#[tactic(auto, using(crate::proofs::DemoLemmas::demonstrating))]
pub fn demonstrate<O: Sink>(alloc: Global, n: u64, out: &mut O) -> Outcome
    requires low { 1 ≤ n }
    requires high { n ≤ 1000 }
    ensures { Demos n (O.seen out.old) (O.seen out.new) result }
{
    match universe_of(alloc, n) {
        Ok(mut feeds) => {
            demo_is_clear();
            count_over(alloc, &mut feeds, out)
        }
        Err(Memory) => Outcome::Memory,
    }
}
