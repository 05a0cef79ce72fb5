//! Addresses in the order in which they are first named.
ghost use Rattle.std.specs.Prelude.{List, ◌≡◌, ◌<◌, ◌∷◌, [], ◌++◌, OnOk, IfOk, Some, length, drop, slice_get, map, filter};
ghost use Rattle.std.specs.List.{flat_map};
ghost use Rattle.zi_digest.specs.Name.{spelling};
ghost use Rattle.zi_universe.specs.Naming.{with_one, joined, without_repeats};
ghost use Rattle.zi_universe.specs.Candidates.{asks, asked, asked_by_runner, asked_by_command, asked_by_impl, asked_by_all, is_followed, imports_of};
ghost use Rattle.zi_parts.specs.declared.types.Dep.{Dep as ADep};
ghost use Rattle.zi_universe.specs.Offering.{candidates_of, IsNumbered, AreNumbered, HasLevel, IsLevelAt, HasOneMore, deps_of, AreNamed};

use crate::offers::{Key, Offered, is_followed};
use crate::ranking::shares_at;
use indexmap::IndexSet;
use std::alloc::Global;
use std::collections::HashSet;
use zi_digest::DigestName;
use zi_feed::{Feed, Level, Shares};
use zi_inherited::{Inherited, Shared};
use zi_parts::{Command, Dep, DepKind, Runner};
use zi_policy::Policy;
use zi_text::{Memory, Text};

/// Adds an address that isn't there yet.
pub fn add(alloc: Global, names: &mut IndexSet<Text>, name: &Text) -> Result<(), Memory>
    ensures { OnOk result (names.new.keys ≡ with_one names.old.keys name.now) }
{
    if !names.contains(name) {
        let copy = name.copy(alloc)?;
        names.insert(copy)?;
    }
    Ok(())
}

/// One address alone.
pub fn single(alloc: Global, name: &Text) -> Result<IndexSet<Text>, Memory>
    ensures { IfOk result (λ names. names.keys ≡ name.now ∷ []) }
{
    let mut names = IndexSet::new(alloc);
    names.insert(name.copy(alloc)?)?;
    Ok(names)
}

/// The address at a place, once more.
pub fn copy_at(alloc: Global, names: &IndexSet<Text>, place: usize) -> Result<Text, Memory>
    requires { place < length names.now.keys }
    ensures { IfOk result (λ name. slice_get names.now.keys place ≡ Some name) }
{
    names.as_slice()[place].copy(alloc)
}

// Adds the name of a digest.
fn add_spelled(alloc: Global, names: &mut IndexSet<Text>, digest: &DigestName) -> Result<(), Memory>
    ensures { OnOk result (names.new.keys ≡ with_one names.old.keys (spelling digest.now)) }
{
    let name = digest.text(alloc)?;
    names.insert(name)?;
    Ok(())
}

/// The names of digests, each once.
pub fn spelled(alloc: Global, digests: &[DigestName]) -> Result<IndexSet<Text>, Memory>
    ensures { IfOk result (λ names. names.keys ≡ without_repeats (map spelling digests.now)) }
{
    let mut names = IndexSet::new(alloc);
    for digest in digests {
        add_spelled(alloc, &mut names, digest)?;
    }
    Ok(names)
}

/// Adds what a feed imports.
pub fn add_imports(
    alloc: Global,
    policy: &Policy,
    feed: &Feed,
    names: &mut IndexSet<Text>,
) -> Result<(), Memory>
    ensures { OnOk result (names.new.keys ≡ joined names.old.keys (imports_of policy.now feed.now)) }
{
    for import in feed.imports.as_slice() {
        if is_followed(import, policy) {
            add(alloc, names, &import.uri)?;
        }
    }
    Ok(())
}

/// Whether a dependency asks for its interface: an essential and a recommended one do, a mere restriction doesn't.
pub fn asks(dep: &Dep) -> bool
    ensures { result ≡ asks dep.now }
{
    match dep.kind {
        DepKind::Essential => true,
        DepKind::Recommended => true,
        DepKind::Restricts => false,
    }
}

// Adds what dependencies ask for.
fn add_deps(alloc: Global, deps: &[Dep], names: &mut IndexSet<Text>) -> Result<(), Memory>
    ensures { OnOk result (names.new.keys ≡ joined names.old.keys (asked deps.now)) }
{
    for dep in deps {
        if asks(dep) {
            add(alloc, names, &dep.interface)?;
        }
    }
    Ok(())
}

// Adds what a dependency asks for.
fn add_dep(alloc: Global, dep: &Dep, names: &mut IndexSet<Text>) -> Result<(), Memory>
    ensures { OnOk result (names.new.keys ≡ joined names.old.keys (asked (dep.now ∷ []))) }
{
    if asks(dep) {
        return add(alloc, names, &dep.interface);
    }
    Ok(())
}

// Adds what the own dependencies of a level ask for.
fn add_own(alloc: Global, level: &Level, names: &mut IndexSet<Text>) -> Result<(), Memory>
    ensures { OnOk result (names.new.keys ≡ joined names.old.keys (asked (drop level.now.around level.now.deps))) }
{
    for i in level.around..level.deps.len() {
        let dep = level.deps.at(i);
        add_dep(alloc, dep, names)?;
    }
    Ok(())
}

// The level of a feed under a number.
fn level_at<'a>(feeds: &'a [Shared<Shares>], key: Key) -> &'a Level
    requires { HasLevel feeds.now key }
    ensures { IsLevelAt feeds.entry.now key result.now }
{
    let shares = shares_at(feeds, key.feed);
    shares.levels.at(key.number)
}

// Adds what the own dependencies of a level ask for, the last that was to be named of it.
fn add_last(
    alloc: Global,
    level: &Level,
    key: Key,
    named: &mut HashSet<Key>,
    names: &mut IndexSet<Text>,
) -> Result<(), Memory>
    ensures names { OnOk result (names.new.keys ≡ joined names.old.keys (asked (drop level.now.around level.now.deps))) }
    ensures named { OnOk result (HasOneMore key named.old.keys named.new.keys) }
{
    add_own(alloc, level, names)?;
    named.insert(key)?;
    Ok(())
}

// Adds what the dependencies of a level ask for, unless that was named before: those around it first. It recurs once for each
// level around it.
fn add_level(
    alloc: Global,
    feeds: &[Shared<Shares>],
    key: Key,
    named: &mut HashSet<Key>,
    names: &mut IndexSet<Text>,
) -> Result<(), Memory>
    requires there { HasLevel feeds.now key }
    requires named { AreNamed feeds.now named.old.keys names.old.keys }
    ensures names { OnOk result ((ds : List ADep) → deps_of feeds.now key ≡ Some ds → names.new.keys ≡ joined names.old.keys (asked ds)) }
    ensures named { OnOk result (AreNamed feeds.now named.new.keys names.new.keys) }
{
    if named.contains(&key) {
        return Ok(());
    }
    let level = level_at(feeds, key);
    if level.around == 0 {
        add_last(alloc, level, key, named, names)?;
        return Ok(());
    }
    let outer = Key {
        feed: key.feed,
        number: level.outer,
    };
    add_level(alloc, feeds, outer, named, names)?;
    add_last(alloc, level, key, named, names)?;
    Ok(())
}

// Adds what a runner asks for, where there is one.
fn add_runner(
    alloc: Global,
    runner: &Option<Runner>,
    names: &mut IndexSet<Text>,
) -> Result<(), Memory>
    ensures { OnOk result (names.new.keys ≡ joined names.old.keys (asked_by_runner runner.now)) }
{
    match runner {
        None => Ok(()),
        Some(runner) => add(alloc, names, &runner.dep.interface),
    }
}

// Adds what commands ask for.
fn add_commands(
    alloc: Global,
    commands: &[Shared<Command>],
    names: &mut IndexSet<Text>,
) -> Result<(), Memory>
    ensures { OnOk result (names.new.keys ≡ joined names.old.keys (flat_map asked_by_command commands.now)) }
{
    for command in commands {
        add_command(alloc, command.as_ref(), names)?;
    }
    Ok(())
}

// The same of commands that are inherited.
fn add_inherited_commands(
    alloc: Global,
    commands: &Inherited<Shared<Command>>,
    names: &mut IndexSet<Text>,
) -> Result<(), Memory>
    ensures { OnOk result (names.new.keys ≡ joined names.old.keys (flat_map asked_by_command commands.now)) }
{
    let pieces = commands.segments(alloc)?;
    for piece in pieces.as_slice() {
        add_commands(alloc, piece, names)?;
    }
    Ok(())
}

// Adds what a command asks for: its dependencies, and then its runner.
#[tactic(auto, unfolding(crate::specs::Candidates::asked_by_command), using(crate::proofs::NamingLemmas::joined_twice))]
fn add_command(alloc: Global, command: &Command, names: &mut IndexSet<Text>) -> Result<(), Memory>
    ensures { OnOk result (names.new.keys ≡ joined names.old.keys (asked_by_command command.now)) }
{
    add_deps(alloc, command.deps.as_slice(), names)?;
    add_runner(alloc, &command.runner, names)
}

// Adds what the dependencies of a candidate ask for. Where it has none, nothing is looked up.
fn add_needs(
    alloc: Global,
    feeds: &[Shared<Shares>],
    one: &Offered,
    named: &mut HashSet<Key>,
    names: &mut IndexSet<Text>,
) -> Result<(), Memory>
    requires numbered { IsNumbered feeds.now one.now }
    requires named { AreNamed feeds.now named.old.keys names.old.keys }
    ensures names { OnOk result (names.new.keys ≡ joined names.old.keys (asked one.now.candidate.imp.deps)) }
    ensures named { OnOk result (AreNamed feeds.now named.new.keys names.new.keys) }
{
    if one.candidate.imp.deps.is_empty() {
        return Ok(());
    }
    let key = Key {
        feed: one.feed,
        number: one.level,
    };
    add_level(alloc, feeds, key, named, names)?;
    Ok(())
}

// Adds what a candidate asks for: its dependencies, and then its commands.
fn add_one(
    alloc: Global,
    feeds: &[Shared<Shares>],
    one: &Offered,
    named: &mut HashSet<Key>,
    names: &mut IndexSet<Text>,
) -> Result<(), Memory>
    requires numbered { IsNumbered feeds.now one.now }
    requires named { AreNamed feeds.now named.old.keys names.old.keys }
    ensures names { OnOk result (names.new.keys ≡ joined names.old.keys (asked_by_impl one.now.candidate.imp)) }
    ensures named { OnOk result (AreNamed feeds.now named.new.keys names.new.keys) }
{
    add_needs(alloc, feeds, one, named, names)?;
    add_inherited_commands(alloc, &one.candidate.imp.commands, names)?;
    Ok(())
}

/// Adds what candidates ask for, one after the other. What the groups of a feed ask for is added once for all in them.
pub fn add_asked(
    alloc: Global,
    feeds: &[Shared<Shares>],
    offered: &[Offered],
    names: &mut IndexSet<Text>,
) -> Result<(), Memory>
    requires { AreNumbered feeds.now offered.now }
    ensures { OnOk result (names.new.keys ≡ joined names.old.keys (asked_by_all (candidates_of offered.now))) }
{
    let mut named = HashSet::new(alloc);
    for one in offered {
        add_one(alloc, feeds, one, &mut named, names)?;
    }
    Ok(())
}
