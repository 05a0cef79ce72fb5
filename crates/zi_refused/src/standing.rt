//! What decides of an implementation, and the first reason against it.
ghost use Rattle.std.specs.Prelude.{◌≡◌, [], IfOk};
ghost use Rattle.zi_universe.specs.Candidates.{origin_of, standing_of, candidate_of};
ghost use Rattle.zi_universe.specs.Loading.{store_of};
ghost use Rattle.zi_refused.specs.Refused.{of_use, of_limits, reason_of, refusal_at};

use crate::refusal::{Reason, Refusal};
use crate::terms::Terms;
use std::alloc::Global;
use zi_parts::{Impl, Package};
use zi_policy::Arch;
use zi_rank::{Origin, Standing, WhyNot, usable};
use zi_text::{Memory, Text};

// The same platform once more, where there is one.
fn copy_arch(alloc: Global, arch: &Option<Arch>) -> Result<Option<Arch>, Memory>
    ensures { IfOk result (λ a. a ≡ arch.now) }
{
    match arch {
        None => Ok(None),
        Some(arch) => Ok(Some(arch.copy(alloc)?)),
    }
}

// Whether it is a feed's alone, or a package's.
fn origin_of(package: &Option<Package>) -> Origin
    ensures { result ≡ origin_of «package».now }
{
    match package {
        None => Origin::Feed,
        Some(package) => {
            if package.installed {
                Origin::Installed
            } else {
                Origin::Available
            }
        }
    }
}

// An implementation's standing for an interface, wherever it stands in a feed.
#[tactic(auto, unfolding(zi_universe::specs::Candidates::standing_of))]
fn standing(alloc: Global, terms: &Terms, interface: &Text, imp: &Impl) -> Result<Standing, Memory>
    ensures { IfOk result (λ s. s ≡ standing_of terms.now.policy (store_of terms.now) interface.now [] 0 imp.now) }
{
    let version = imp.version.copy(alloc)?;
    let id = imp.id.copy(alloc)?;
    let langs = imp.langs.share()?;
    let stored = terms.is_stored(alloc, imp)?;
    let arch = copy_arch(alloc, &imp.arch)?;
    Ok(Standing {
        version,
        id,
        feed: Text::new(alloc),
        place: 0,
        arch,
        langs,
        stability: terms.stability(interface, imp),
        local: imp.local.is_some(),
        stored,
        retrievable: !imp.digests.is_empty() && !imp.methods.is_empty(),
        origin: origin_of(&imp.package),
    })
}

// A reason for which it may not be used.
fn of_use(why: WhyNot) -> Reason
    ensures { result ≡ of_use why }
{
    match why {
        WhyNot::Stability => Reason::Stability,
        WhyNot::Source => Reason::Source,
        WhyNot::Arch => Reason::Arch,
        WhyNot::Unreachable => Reason::Unreachable,
        WhyNot::Offline => Reason::Offline,
    }
}

// The reason of limits that don't admit its version.
fn of_limits(within: bool) -> Option<Reason>
    ensures { result ≡ of_limits within }
{
    if within { None } else { Some(Reason::Limit) }
}

// The first reason against an implementation of an interface.
fn reason(
    alloc: Global,
    terms: &Terms,
    interface: &Text,
    imp: &Impl,
) -> Result<Option<Reason>, Memory>
    ensures { IfOk result (λ r. r ≡ reason_of terms.now.req terms.now.policy interface.now (candidate_of terms.now.policy (store_of terms.now) interface.now [] 0 imp.now)) }
{
    let standing = standing(alloc, terms, interface, imp)?;
    match usable(&standing, terms.policy()) {
        Some(why) => Ok(Some(of_use(why))),
        None => Ok(of_limits(terms.is_within_limits(interface, &standing.version))),
    }
}

/// What is told of an implementation of an interface, if it is no candidate. Memory is the one refusal.
#[tactic(auto, unfolding(zi_universe::specs::Candidates::standing_of))]
pub(crate) fn refusal(
    alloc: Global,
    terms: &Terms,
    interface: &Text,
    imp: &Impl,
) -> Result<Option<Refusal>, Memory>
    ensures { IfOk result (λ r. r ≡ refusal_at terms.now.req terms.now.policy (store_of terms.now) interface.now imp.now) }
{
    match reason(alloc, terms, interface, imp)? {
        None => Ok(None),
        Some(reason) => {
            let id = imp.id.copy(alloc)?;
            let version = imp.version.copy(alloc)?;
            Ok(Some(Refusal {
                id,
                version,
                reason,
            }))
        }
    }
}
