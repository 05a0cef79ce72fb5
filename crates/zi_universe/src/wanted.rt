//! What a loading is for, with what is looked up in it again and again.
ghost use Rattle.std.specs.Prelude.{◌≡◌, IfOk, OnOk};
ghost use Rattle.std.specs.List.{list_any};
ghost use Rattle.zi_digest.specs.Name.{spelling};
ghost use Rattle.zi_universe.specs.Candidates.{stability_of, is_stored, within_limits};
ghost use Rattle.zi_universe.specs.Naming.{in_set};
ghost use Rattle.zi_universe.specs.Loading.{store_of, task_of, names_of};
ghost use Rattle.zi_universe.specs.Lookups.{all_admit, FindsStabilities, FindsLimits, AddsLimit};

use crate::naming::spelled;
use crate::types::{Limit, Requirement};
use indexmap::IndexSet;
use std::alloc::Global;
use std::collections::HashMap;
use std::marker::Model;
use zi_digest::DigestName;
use zi_packages::{Packages, Rows};
use zi_parts::Impl;
use zi_policy::{Override, Policy, Stability};
use zi_text::{List, Memory, Text};
use zi_version::Version;

/// What an override speaks of.
#[derive(Clone, Copy, PartialEq, Eq, Hash)]
pub struct Overridden<'a> {
    /// The interface's address.
    pub interface: &'a str,
    /// The implementation's id.
    pub id: &'a str,
}

/// What a loading is for: what is wanted, by which policy, which trees are stored, and which packages the operating system has.
/// Contracts see these four. The stabilities that overrides give, the limits of an interface, the names of the trees and the rows of
/// a package are each found in constant time.
pub struct Wanted<'a> {
    req: &'a Requirement,
    policy: &'a Policy,
    stored: IndexSet<Text>,
    rows: Rows<'a>,
    stabilities: HashMap<Overridden<'a>, Stability>,
    limits: HashMap<&'a str, List<&'a Limit>>,
}

// One call wherever one is dropped.
impl<'a> Drop for Wanted<'a> {
    fn drop(self) {
        let Wanted {
            req: _,
            policy: _,
            stored: _,
            rows: _,
            stabilities: _,
            limits: _,
        } = self;
    }
}

impl<'a> Model for Wanted<'a> {
    ghost use Rattle.zi_universe.specs.Loading.{Wish};
    ghost use Rattle.zi_universe.specs.Lookups.{FindsStabilities, FindsLimits};

    ghost Value = { Wish };

    ghost view = { λ w. record { req = w.req.now; policy = w.policy.now; stored = w.stored.keys; packages = w.rows } };

    ghost invariant = { λ w. FindsStabilities w.policy.now.overrides w.stabilities.entries × FindsLimits w.req.now.limits w.limits.entries };
}

// The stabilities that overrides give, of several for one implementation the first.
fn stabilities_of<'a>(
    alloc: Global,
    overrides: &'a [Override],
) -> Result<HashMap<Overridden<'a>, Stability>, Memory>
    ensures { IfOk result (λ m. FindsStabilities overrides.entry.now m.entries) }
{
    let mut stabilities = HashMap::new(alloc);
    let mut left = overrides.len();
    while left > 0 {
        left -= 1;
        let one = &overrides[left];
        let interface = one.interface.as_str();
        let id = one.id.as_str();
        stabilities.insert(Overridden { interface, id }, one.stability)?;
    }
    Ok(stabilities)
}

// Adds a limit to those of its interface.
fn add_limit<'a>(
    alloc: Global,
    limit: &'a Limit,
    limits: &mut HashMap<&'a str, List<&'a Limit>>,
) -> Result<(), Memory>
    ensures { OnOk result (AddsLimit limit.entry.now limits.old.entries limits.new.entries) }
{
    let interface = limit.interface.as_str();
    let mut those = limits.remove(&interface).unwrap_or(List::new(alloc));
    those.push(limit)?;
    limits.insert(interface, those)?;
    Ok(())
}

// The limits of each interface.
fn limits_of<'a>(
    alloc: Global,
    limits: &'a [Limit],
) -> Result<HashMap<&'a str, List<&'a Limit>>, Memory>
    ensures { IfOk result (λ m. FindsLimits limits.entry.now m.entries) }
{
    let mut by_interface = HashMap::new(alloc);
    let mut left = limits.len();
    while left > 0 {
        left -= 1;
        add_limit(alloc, &limits[left], &mut by_interface)?;
    }
    Ok(by_interface)
}

// Whether one of the digests has a name that is stored.
fn has_stored(
    alloc: Global,
    stored: &IndexSet<Text>,
    digests: &[DigestName],
) -> Result<bool, Memory>
    ensures { IfOk result (λ b. b ≡ list_any (λ d. in_set stored.now.keys (spelling d)) digests.now) }
{
    for digest in digests {
        let name = digest.text(alloc)?;
        if stored.contains(&name) {
            return Ok(true);
        }
    }
    Ok(false)
}

// Whether all limits admit a version.
fn all_admit(limits: &[&Limit], version: &Version) -> bool
    ensures { result ≡ all_admit limits.now version.now }
{
    for limit in limits {
        if !limit.range.admits(version) {
            return false;
        }
    }
    true
}

impl<'a> Wanted<'a> {
    /// What is wanted by this policy, where the trees of these digests are stored and the operating system has these packages. Memory is
    /// the one refusal.
    pub fn new(
        alloc: Global,
        req: &'a Requirement,
        policy: &'a Policy,
        stored: &[DigestName],
        packages: &'a Packages,
    ) -> Result<Wanted<'a>, Memory>
        ensures { IfOk result (λ w. task_of w ≡ record { req = req.entry.now; policy = policy.entry.now; stored = names_of stored.now packages.entry.now }) }
    {
        let stored = spelled(alloc, stored)?;
        let rows = Rows::new(alloc, packages)?;
        let stabilities = stabilities_of(alloc, policy.overrides.as_slice())?;
        let limits = limits_of(alloc, req.limits.as_slice())?;
        Ok(Wanted {
            req,
            policy,
            stored,
            rows,
            stabilities,
            limits,
        })
    }

    /// What is wanted.
    pub fn req(&self) -> &'a Requirement
        ensures { result.now ≡ self.now.req }
    {
        self.req
    }

    /// The policy.
    pub fn policy(&self) -> &'a Policy
        ensures { result.now ≡ self.now.policy }
    {
        self.policy
    }

    /// The packages of the operating system.
    pub fn rows(&self) -> &Rows<'a>
        ensures { result.now ≡ self.now.packages }
    {
        &self.rows
    }

    /// Whether the tree of an implementation is stored.
    #[tactic(auto, unfolding(crate::specs::Candidates::is_stored))]
    pub fn is_stored(&self, alloc: Global, imp: &Impl) -> Result<bool, Memory>
        ensures { IfOk result (λ b. b ≡ is_stored (store_of self.now) imp.now) }
    {
        has_stored(alloc, &self.stored, imp.digests.as_slice())
    }

    /// The stability that counts for an implementation of an interface.
    pub fn stability(&self, interface: &Text, imp: &Impl) -> Stability
        ensures { result ≡ stability_of self.now.policy interface.now imp.now }
    {
        let interface = interface.as_str();
        let id = imp.id.as_str();
        let given = self.stabilities.get(&Overridden { interface, id }).copied();
        given.unwrap_or(imp.stability)
    }

    /// Whether every limit for an interface admits a version.
    pub fn is_within_limits(&self, interface: &Text, version: &Version) -> bool
        ensures { result ≡ within_limits self.now.req.limits interface.now version.now }
    {
        let interface = interface.as_str();
        match self.limits.get(&interface) {
            None => true,
            Some(limits) => all_admit(limits.as_slice(), version),
        }
    }
}
