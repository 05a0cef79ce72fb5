//! By what implementations are judged.
ghost use Rattle.std.specs.Prelude.{◌≡◌, ◌&&◌, bytes_eq, IfOk, OnOk};
ghost use Rattle.std.specs.List.{list_any};
ghost use Rattle.zi_digest.specs.Name.{spelling};
ghost use Rattle.zi_version.specs.Range.{admits};
ghost use Rattle.zi_universe.specs.Candidates.{stability_of, is_stored, within_limits};
ghost use Rattle.zi_universe.specs.Naming.{in_set, with_one, without_repeats};
ghost use Rattle.zi_universe.specs.Loading.{store_of, task_of, names_of};
ghost use Rattle.std.specs.Prelude.{map, not, ◌||◌};

use indexmap::IndexSet;
use std::alloc::Global;
use std::marker::Model;
use zi_digest::DigestName;
use zi_packages::{Packages, Rows};
use zi_parts::Impl;
use zi_policy::{Override, Policy, Stability};
use zi_text::{Memory, Text};
use zi_universe::{Limit, Requirement};
use zi_version::Version;

/// By what implementations are judged: what is wanted, by which policy, which trees are stored, and which packages the operating
/// system has. Contracts see these four.
pub struct Terms<'a> {
    req: &'a Requirement,
    policy: &'a Policy,
    stored: IndexSet<Text>,
    rows: Rows<'a>,
}

// One call wherever one is dropped.
impl<'a> Drop for Terms<'a> {
    fn drop(self) {
        let Terms {
            req: _,
            policy: _,
            stored: _,
            rows: _,
        } = self;
    }
}

impl<'a> Model for Terms<'a> {
    ghost use Rattle.zi_universe.specs.Loading.{Wish};

    ghost Value = { Wish };

    ghost view = { λ t. record { req = t.req.now; policy = t.policy.now; stored = t.stored.keys; packages = t.rows } };
}

// Adds the name of a digest.
fn add_name(alloc: Global, names: &mut IndexSet<Text>, digest: &DigestName) -> Result<(), Memory>
    ensures { OnOk result (names.new.keys ≡ with_one names.old.keys (spelling digest.now)) }
{
    let name = digest.text(alloc)?;
    names.insert(name)?;
    Ok(())
}

// The names of digests, each once.
fn spelled(alloc: Global, digests: &[DigestName]) -> Result<IndexSet<Text>, Memory>
    ensures { IfOk result (λ names. names.keys ≡ without_repeats (map spelling digests.now)) }
{
    let mut names = IndexSet::new(alloc);
    for digest in digests {
        add_name(alloc, &mut names, digest)?;
    }
    Ok(names)
}

// Whether one of the digests has a name that is stored.
fn has_stored(
    alloc: Global,
    stored: &IndexSet<Text>,
    digests: &[DigestName],
) -> Result<bool, Memory>
    ensures { IfOk result (λ b. b ≡ list_any (λ d. in_set stored.now.keys (spelling d)) digests.now) }
{
    for digest in digests {
        let name = digest.text(alloc)?;
        if stored.contains(&name) {
            return Ok(true);
        }
    }
    Ok(false)
}

// Whether an override speaks of an implementation of an interface.
fn is_of(one: &Override, interface: &Text, id: &Text) -> bool
    ensures { result ≡ (bytes_eq one.now.interface interface.now && bytes_eq one.now.id id.now) }
{
    one.interface.as_str() == interface.as_str() && one.id.as_str() == id.as_str()
}

// Whether a limit of an interface admits a version; it does where it is another's.
fn is_within(limit: &Limit, interface: &Text, version: &Version) -> bool
    ensures { result ≡ (not (bytes_eq limit.now.interface interface.now) || admits limit.now.range version.now) }
{
    limit.interface.as_str() != interface.as_str() || limit.range.admits(version)
}

impl<'a> Terms<'a> {
    /// What is wanted by this policy, where the trees of these digests are stored and the operating system has these packages. Memory is
    /// the one refusal.
    pub fn new(
        alloc: Global,
        req: &'a Requirement,
        policy: &'a Policy,
        stored: &[DigestName],
        packages: &'a Packages,
    ) -> Result<Terms<'a>, Memory>
        ensures { IfOk result (λ t. task_of t ≡ record { req = req.entry.now; policy = policy.entry.now; stored = names_of stored.now packages.entry.now }) }
    {
        let stored = spelled(alloc, stored)?;
        let rows = Rows::new(alloc, packages)?;
        Ok(Terms {
            req,
            policy,
            stored,
            rows,
        })
    }

    /// The policy.
    pub(crate) fn policy(&self) -> &'a Policy
        ensures { result.now ≡ self.now.policy }
    {
        self.policy
    }

    /// The packages of the operating system.
    pub(crate) fn rows(&self) -> &Rows<'a>
        ensures { result.now ≡ self.now.packages }
    {
        &self.rows
    }

    /// Whether the tree of an implementation is stored.
    #[tactic(auto, unfolding(zi_universe::specs::Candidates::is_stored))]
    pub(crate) fn is_stored(&self, alloc: Global, imp: &Impl) -> Result<bool, Memory>
        ensures { IfOk result (λ b. b ≡ is_stored (store_of self.now) imp.now) }
    {
        has_stored(alloc, &self.stored, imp.digests.as_slice())
    }

    /// The stability that counts for an implementation of an interface.
    #[tactic(auto, unfolding(zi_universe::specs::Candidates::stability_of))]
    pub(crate) fn stability(&self, interface: &Text, imp: &Impl) -> Stability
        ensures { result ≡ stability_of self.now.policy interface.now imp.now }
    {
        for one in self.policy.overrides.as_slice() {
            if is_of(one, interface, &imp.id) {
                return one.stability;
            }
        }
        imp.stability
    }

    /// Whether every limit for an interface admits a version.
    #[tactic(auto, unfolding(zi_universe::specs::Candidates::within_limits))]
    pub(crate) fn is_within_limits(&self, interface: &Text, version: &Version) -> bool
        ensures { result ≡ within_limits self.now.req.limits interface.now version.now }
    {
        for limit in self.req.limits.as_slice() {
            if !is_within(limit, interface, version) {
                return false;
            }
        }
        true
    }
}
