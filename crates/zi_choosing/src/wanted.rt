//! What a loading is asked for by the words.
ghost use Rattle.std.specs.Prelude.{◌≡◌, true, map, IfOk};
ghost use Rattle.zi_docout.specs.Amiss.{is_carried};
ghost use Rattle.zi_choosing.specs.Wanted.{limit_of, requirement_of};

use std::alloc::Global;
use zi_policy::Policy;
use zi_text::{List, Memory};
use zi_universe::{Limit, Requirement};
use zi_words::{Ask, Wanted};

/// What is wanted, and by which policy.
#[derive(Drop)]
pub struct Job {
    pub req: Requirement,
    pub policy: Policy,
}

// The limits of the words, as a loading takes them.
fn limits(alloc: Global, all: List<Wanted>) -> Result<List<Limit>, Memory>
    ensures { IfOk result (λ l. l ≡ map limit_of all) }
{
    let mut limits = List::new(alloc);
    for wanted in all.into_vec() {
        let Wanted { interface, range } = wanted;
        limits.push(Limit { interface, range })?;
    }
    Ok(limits)
}

/// The requirement and the policy of the words. XML can carry the address of the root.
#[tactic(auto, using(crate::proofs::LoadedLemmas::root_carried))]
pub fn into_job(alloc: Global, ask: Ask) -> Result<Job, Memory>
    ensures req { IfOk result (λ j. j.req ≡ requirement_of ask) }
    ensures policy { IfOk result (λ j. j.policy ≡ ask.policy) }
    ensures root { IfOk result (λ j. is_carried j.req.interface ≡ true) }
{
    let Ask {
        root,
        command,
        limits: all,
        policy,
        search: _,
    } = ask;
    let limits = limits(alloc, all)?;
    let req = Requirement {
        interface: root.into_text(),
        command,
        limits,
    };
    Ok(Job { req, policy })
}
