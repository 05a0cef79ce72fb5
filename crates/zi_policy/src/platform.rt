ghost use Rattle.std.specs.Prelude.{◌≡◌, ◌<◌, ◌+◌, ℕ, [], ◌∷◌, codes, bytes_eq, is_some, option_map};
ghost use Rattle.std.specs.List.{position_from};
ghost use Rattle.zi_policy.specs.Platform.{any, listed, place, os_list, machine_list, os_place, machine_place, group_of, holds_where_asked, is_active};

use crate::types::{Arch, Condition, Policy, Width};
use zi_text::Text;

// The place of a word behind the last machine of the list.
fn any_on(m: &str, n: u32) -> Option<u32>
    requires { n < 110 }
    ensures { result ≡ position_from (bytes_eq m.now) n (any ∷ []) }
{
    if m == "*" { Some(n) } else { None }
}

fn i386_on(m: &str, n: u32) -> Option<u32>
    requires { n < 100 }
    ensures { result ≡ position_from (bytes_eq m.now) n (codes "i386" ∷ any ∷ []) }
{
    if m == "i386" {
        Some(n)
    } else {
        any_on(m, n + 1)
    }
}

fn i486_on(m: &str, n: u32) -> Option<u32>
    requires { n < 90 }
    ensures { result ≡ position_from (bytes_eq m.now) n (codes "i486" ∷ codes "i386" ∷ any ∷ []) }
{
    if m == "i486" {
        Some(n)
    } else {
        i386_on(m, n + 1)
    }
}

fn i586_on(m: &str, n: u32) -> Option<u32>
    requires { n < 80 }
    ensures { result ≡ position_from (bytes_eq m.now) n (codes "i586" ∷ codes "i486" ∷ codes "i386" ∷ any ∷ []) }
{
    if m == "i586" {
        Some(n)
    } else {
        i486_on(m, n + 1)
    }
}

fn i686_on(m: &str, n: u32) -> Option<u32>
    requires { n < 70 }
    ensures { result ≡ position_from (bytes_eq m.now) n (codes "i686" ∷ codes "i586" ∷ codes "i486" ∷ codes "i386" ∷ any ∷ []) }
{
    if m == "i686" {
        Some(n)
    } else {
        i586_on(m, n + 1)
    }
}

// The place of a machine in the list of those that the host runs.
fn place_of_machine(host: &str, m: &str) -> Option<u32>
    ensures { result ≡ place m.now (machine_list host.now) }
{
    if host == "x86_64" {
        if m == "x86_64" {
            Some(0)
        } else {
            i686_on(m, 1)
        }
    } else if host == "i686" {
        i686_on(m, 0)
    } else if host == "i586" {
        i586_on(m, 0)
    } else if host == "i486" {
        i486_on(m, 0)
    } else if m == host {
        Some(0)
    } else {
        any_on(m, 1)
    }
}

// The place of an operating system in the list of those that the host runs.
fn place_of_os(host: &str, os: &str) -> Option<u32>
    ensures { result ≡ place os.now (os_list host.now) }
{
    if os == host {
        Some(0)
    } else if host == "Windows" {
        any_on(os, 1)
    } else if os == "POSIX" {
        Some(1)
    } else {
        any_on(os, 2)
    }
}

/// The rank of an operating system by its name, counted from 0 for the best: the policy's own, then `POSIX` unless that is
/// `Windows`, then `*`. None exactly where the policy's doesn't run it.
#[tactic(auto, unfolding(crate::specs::Platform::os_place))]
pub fn os_rank_of(p: &Policy, os: &str) -> Option<u32>
    ensures { result ≡ os_place p.now os.now }
{
    place_of_os(p.os.as_str(), os)
}

/// The rank of a machine by its name, counted from 0 for the best. An `x86_64` runs the 32-bit machines of its line, each
/// of these those below it, every machine itself, and all of them `*` last. None exactly where the policy's doesn't run it.
#[tactic(auto, unfolding(crate::specs::Platform::machine_place))]
pub fn machine_rank_of(p: &Policy, m: &str) -> Option<u32>
    ensures { result ≡ machine_place p.now m.now }
{
    place_of_machine(p.machine.as_str(), m)
}

/// The rank of a platform's operating system, as `os_rank_of` gives it.
#[tactic(auto, unfolding(crate::specs::Platform::os_place))]
pub fn os_rank(p: &Policy, a: &Arch) -> Option<u32>
    ensures { result ≡ os_place p.now a.now.os }
{
    place_of_os(p.os.as_str(), a.os.as_str())
}

/// The rank of a platform's machine, as `machine_rank_of` gives it.
#[tactic(auto, unfolding(crate::specs::Platform::machine_place))]
pub fn machine_rank(p: &Policy, a: &Arch) -> Option<u32>
    ensures { result ≡ machine_place p.now a.now.machine }
{
    place_of_machine(p.machine.as_str(), a.machine.as_str())
}

/// The bit group of a platform, by its machine: `x86_64`, `aarch64` and `ppc64` have 64 bits, `*` and `src` belong to no
/// group, and every other machine has 32.
#[tactic(auto, unfolding(crate::specs::Platform::group_of))]
pub fn group(a: &Arch) -> Width
    ensures { result ≡ group_of a.now.machine }
{
    let m = a.machine.as_str();
    if m == "x86_64" || m == "aarch64" || m == "ppc64" {
        Width::Bits64
    } else if m == "*" || m == "src" {
        Width::Any
    } else {
        Width::Bits32
    }
}

// Whether a text is among these.
fn is_among(t: &Text, ts: &[Text]) -> bool
    ensures { result ≡ listed t.now ts.now }
{
    for u in ts {
        if t == u {
            return true;
        }
    }
    false
}

// Whether the operating system that is asked for is run.
fn os_holds(c: &Condition, p: &Policy) -> bool
    ensures { result ≡ holds_where_asked (λ os. is_some (os_place p.now os)) c.now.os }
{
    match &c.os {
        None => true,
        Some(os) => os_rank_of(p, os.as_str()).is_some(),
    }
}

// Whether the use that is asked for is wanted.
fn use_holds(c: &Condition, p: &Policy) -> bool
    ensures { result ≡ holds_where_asked (λ w. listed w p.now.uses) c.now.wanted }
{
    match &c.wanted {
        None => true,
        Some(w) => is_among(w, p.uses.as_slice()),
    }
}

/// Whether a condition holds under a policy: its operating system is absent or run, and its use is absent or among the
/// policy's.
#[tactic(auto, unfolding(crate::specs::Platform::is_active))]
pub fn active(c: &Condition, p: &Policy) -> bool
    ensures { result ≡ is_active p.now c.now }
{
    os_holds(c, p) && use_holds(c, p)
}
