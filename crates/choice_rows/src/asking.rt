//! What a row asks about: a requirement, and its universe over the feeds that were told.
ghost use Rattle.std.specs.Prelude.{IfOk};
ghost use Rattle.zi_universe.specs.Whole.{BeginsWith};

use crate::refusing::put_load_fault;
use crate::told::Told;
use crate::{
    certificates, choices, conflicting, deciding, explaining, refusals, selections, solving,
};
use std::alloc::Global;
use zi_lines::{Sheet, halves};
use zi_outside::SureFeeds;
use zi_packages::Packages;
use zi_policy::{Network, Policy, Stability};
use zi_text::{List, Memory, Text};
use zi_universe::{LoadFault, Requirement, Universe, load};

/// What a row asks about.
#[derive(Drop)]
pub(crate) struct Asked {
    pub req: Requirement,
    pub universe: Universe,
}

/// Takes Linux on x86_64 for the host.
pub(crate) fn take_linux(policy: &mut Policy) -> Result<(), Memory> {
    policy.os.push_str("Linux")?;
    policy.machine.push_str("x86_64")
}

/// The universe of a requirement over feeds, where nothing is stored.
fn universe_of(
    alloc: Global,
    out: &mut Sheet,
    req: &Requirement,
    feeds: &mut SureFeeds,
) -> Result<Universe, LoadFault>
    ensures { IfOk result (λ u. BeginsWith u req.now.interface) }
{
    let mut policy = Policy {
        os: Text::new(alloc),
        machine: Text::new(alloc),
        langs: List::new(alloc),
        level: Stability::Stable,
        network: Network::Full,
        uses: List::new(alloc),
        overrides: List::new(alloc),
    };
    out.needs(take_linux(&mut policy));
    let packages = Packages::nothing(alloc);
    load(alloc, req, &policy, &[], &packages, feeds)
}

/// Takes the root, and the command where it isn't `-`.
fn want(alloc: Global, req: &mut Requirement, root: &str, command: &str) -> Result<(), Memory> {
    req.interface.push_str(root)?;
    if command != "-" {
        req.command = Some(Text::from_str(alloc, command)?);
    }
    Ok(())
}

/// Adds the answer to what a word asks about a universe; the proof is what was told of one.
fn put_asked(alloc: Global, out: &mut Sheet, word: &str, row: &str, asked: &Asked, proof: &str)
    requires { BeginsWith asked.now.universe asked.now.req.interface }
{
    match word {
        "walk" => choices::put_walk(alloc, out, asked, row),
        "formula" => choices::put_formula(alloc, out, asked),
        "number" => choices::put_number(out, asked, row),
        "search" => deciding::put_search(alloc, out, asked),
        "solve" => solving::put_solved(alloc, out, asked, row),
        "why" => explaining::put_explained(alloc, out, asked, row),
        "conflict" => conflicting::put_conflict(alloc, out, asked, row),
        "certificate" => certificates::put_said(alloc, out, asked, row, proof),
        "refutes" => certificates::put_refuted(alloc, out, asked, proof),
        "selections" => selections::put_selections(alloc, out, asked, row),
        _ => out.put("no question"),
    }
}

/// Adds the answer to what a word asks. A row begins with the command, but for that of a number and of refusals, which have no universe.
pub(crate) fn put_answer(alloc: Global, out: &mut Sheet, word: &str, rest: &str, told: &mut Told) {
    if word == "refused" {
        return refusals::put_refused(alloc, out, rest, told);
    }
    let (command, row) = if word == "number" {
        ("-", rest)
    } else {
        halves(rest)
    };
    let mut req = Requirement {
        interface: Text::new(alloc),
        command: None,
        limits: List::new(alloc),
    };
    out.needs(want(alloc, &mut req, told.root.as_str(), command));
    match universe_of(alloc, out, &req, &mut told.feeds) {
        Ok(universe) => {
            let asked = Asked { req, universe };
            put_asked(alloc, out, word, row, &asked, told.proof.as_str());
        }
        Err(fault) => put_load_fault(out, &fault),
    }
}
