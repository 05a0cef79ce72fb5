//! Ranks by host, groups by machine, conditions, and texts of platforms.
use std::alloc::Global;
use zi_lines::Sheet;
use zi_policy::{
    Arch, Condition, Network, Policy, Stability, active, group, machine_rank, os_rank,
};
use zi_text::{List, Memory, Text};

/// The stability that a word names.
pub(crate) fn stability(word: &str) -> Stability {
    Stability::named(word).unwrap_or(Stability::Stable)
}

/// A policy without a host, which asks for nothing.
pub(crate) fn no_policy(alloc: Global) -> Policy {
    Policy {
        os: Text::new(alloc),
        machine: Text::new(alloc),
        langs: List::new(alloc),
        level: Stability::Stable,
        network: Network::Full,
        uses: List::new(alloc),
        overrides: List::new(alloc),
    }
}

/// A platform of no names.
fn no_arch(alloc: Global) -> Arch {
    Arch {
        os: Text::new(alloc),
        machine: Text::new(alloc),
    }
}

/// Adds a rank, or `-` for none.
fn put_rank(out: &mut Sheet, rank: Option<u32>) {
    match rank {
        Some(rank) => out.number(u64::from(rank)),
        None => out.put("-"),
    }
}

/// Adds the rank of an operating system on a host.
pub(crate) fn put_os(alloc: Global, out: &mut Sheet, host: &str, os: &str) {
    let mut policy = no_policy(alloc);
    let mut arch = no_arch(alloc);
    out.needs(policy.os.push_str(host));
    out.needs(arch.os.push_str(os));
    put_rank(out, os_rank(&policy, &arch));
}

/// Adds the rank of a machine on a host.
pub(crate) fn put_machine(alloc: Global, out: &mut Sheet, host: &str, machine: &str) {
    let mut policy = no_policy(alloc);
    let mut arch = no_arch(alloc);
    out.needs(policy.machine.push_str(host));
    out.needs(arch.machine.push_str(machine));
    put_rank(out, machine_rank(&policy, &arch));
}

/// Adds the group of a machine.
pub(crate) fn put_width(alloc: Global, out: &mut Sheet, machine: &str) {
    let mut arch = no_arch(alloc);
    out.needs(arch.machine.push_str(machine));
    out.value(&group(&arch));
}

/// What a word stands for; the empty one asks nothing.
fn asked(alloc: Global, word: &str) -> Result<Option<Text>, Memory> {
    if word.is_empty() {
        Ok(None)
    } else {
        Ok(Some(Text::from_str(alloc, word)?))
    }
}

/// Sets what a condition asks for, each where its word isn't empty.
fn ask(alloc: Global, condition: &mut Condition, os: &str, wanted: &str) -> Result<(), Memory> {
    condition.os = asked(alloc, os)?;
    condition.wanted = asked(alloc, wanted)?;
    Ok(())
}

/// Takes Linux for the host and `testing` for the one use.
fn take_linux(alloc: Global, policy: &mut Policy) -> Result<(), Memory> {
    policy.os.push_str("Linux")?;
    policy.machine.push_str("x86_64")?;
    policy.uses.push(Text::from_str(alloc, "testing")?)
}

/// Adds whether a condition of an operating system and a use holds on Linux, where `testing` is the one use.
pub(crate) fn put_holds(alloc: Global, out: &mut Sheet, os: &str, wanted: &str) {
    let mut policy = no_policy(alloc);
    let mut condition = Condition {
        os: None,
        wanted: None,
    };
    out.needs(take_linux(alloc, &mut policy));
    out.needs(ask(alloc, &mut condition, os, wanted));
    out.whether(active(&condition, &policy));
}

/// Adds the two parts of a platform.
fn put_arch(out: &mut Sheet, arch: &Arch) {
    out.value(&arch.os.as_str());
    out.put(" ");
    out.value(&arch.machine.as_str());
}

/// Adds the two parts of the platform that a text spells.
pub(crate) fn put_platform(alloc: Global, out: &mut Sheet, text: &str) {
    match Arch::parse(alloc, text) {
        Ok(Some(arch)) => put_arch(out, &arch),
        Ok(None) => out.put("none"),
        Err(Memory) => out.lose(),
    }
}

/// Adds whether the first of two stabilities is less.
pub(crate) fn put_rises(out: &mut Sheet, one: &str, other: &str) {
    out.whether(stability(one) < stability(other));
}
