//! What a fact says of a version, behind its name.
ghost use Rattle.std.specs.Prelude.{◌≡◌, ◌≤◌, ◌++◌, length, slice_get, IfOk, OnOk, Some};
ghost use Rattle.zi_choice.specs.Vars.{candidates_of};
ghost use Rattle.zi_build.specs.Clauses.{keep};
ghost use Rattle.zi_facts.specs.Facts.{as_told, owner_var};
ghost use Rattle.zi_facts.specs.Telling.{universe_of};
ghost use Rattle.zi_facts.specs.Lines.{targets, admitted, is_lacking, lacking, needs_in, needs_text, allows_in, allows_text, lacks_in, named_text, run_words, wanted_text, width_text, name_of, as_text, said_by, said_of};

use crate::fact::{Fact, Owner};
use crate::line::Said;
use crate::looking::{candidates, has_command, is_admitted};
use crate::telling::Telling;
use crate::versions::put_versions;
use std::alloc::Global;
use zi_parts::Dep;
use zi_policy::Width;
use zi_text::{List, Memory, Text};
use zi_universe::{Candidate, Requirement};

// The candidates of the interface that a dependency is on.
fn targets<'u>(on: &Telling<'u>, dep: &Dep) -> &'u [Candidate]
    ensures is { result.now ≡ targets (universe_of on.now) dep.now }
    ensures few { length result.now ≤ 65536 }
{
    match on.names.number(&dep.interface) {
        None => &[],
        Some(j) => candidates(on.names, j),
    }
}

// One number more, where it is kept.
fn keep_number(numbers: &mut List<u32>, is_kept: bool, n: u32) -> Result<(), Memory>
    ensures { OnOk result (numbers.new ≡ numbers.old ++ keep is_kept n) }
{
    if !is_kept {
        return Ok(());
    }
    numbers.push(n)
}

// The numbers of the candidates that a dependency admits.
fn admitted(alloc: Global, dep: &Dep, all: &[Candidate]) -> Result<List<u32>, Memory>
    requires { length all.now ≤ 65536 }
    ensures { IfOk result (λ ns. ns ≡ admitted dep.now all.now) }
{
    let mut numbers = List::new(alloc);
    for (e, k) in all.iter().enumerate() {
        keep_number(&mut numbers, is_admitted(dep, k), e as u32)?;
    }
    Ok(numbers)
}

// Whether a dependency admits a candidate that has no command of a name.
fn is_lacking(dep: &Dep, name: &Text, k: &Candidate) -> bool
    ensures { result ≡ is_lacking dep.now name.now k.now }
{
    is_admitted(dep, k) && !has_command(k, name)
}

// The numbers of the candidates that a dependency admits and that have no command of a name.
fn lacking(alloc: Global, dep: &Dep, name: &Text, all: &[Candidate]) -> Result<List<u32>, Memory>
    requires { length all.now ≤ 65536 }
    ensures { IfOk result (λ ns. ns ≡ lacking dep.now name.now all.now) }
{
    let mut numbers = List::new(alloc);
    for (e, k) in all.iter().enumerate() {
        keep_number(&mut numbers, is_lacking(dep, name, k), e as u32)?;
    }
    Ok(numbers)
}

// Puts in which of the candidates, so many of which are admitted, something is needed.
fn put_needs_in(all: &[Candidate], numbers: &[u32], out: &mut Text) -> Result<(), Memory>
    ensures { OnOk result (out.new ≡ out.old ++ needs_in all.now numbers.now) }
{
    if all.is_empty() {
        return out.push_str(", which has no version that may be used");
    }
    if numbers.is_empty() {
        return out.push_str(" in a version that isn't there");
    }
    if numbers.len() == all.len() {
        return out.push_str(" in any version");
    }
    out.push_str(" in ")?;
    put_versions(all, numbers, out)
}

// Puts what a dependency needs.
fn put_needs(on: &Telling, dep: &Dep, out: &mut Text) -> Result<(), Memory>
    ensures { OnOk result (out.new ≡ out.old ++ needs_text (universe_of on.now) dep.now) }
{
    let all = targets(on, dep);
    let numbers = admitted(on.alloc, dep, all)?;
    out.push_str(" needs ")?;
    out.push_str(dep.interface.as_str())?;
    put_needs_in(all, numbers.as_slice(), out)
}

// Puts in which candidates something is allowed.
fn put_allows_in(all: &[Candidate], numbers: &[u32], out: &mut Text) -> Result<(), Memory>
    ensures { OnOk result (out.new ≡ out.old ++ allows_in all.now numbers.now) }
{
    if numbers.is_empty() {
        return out.push_str(" in no version");
    }
    out.push_str(" in ")?;
    put_versions(all, numbers, out)?;
    out.push_str(" only")
}

// Puts what a dependency allows.
fn put_allows(on: &Telling, dep: &Dep, out: &mut Text) -> Result<(), Memory>
    ensures { OnOk result (out.new ≡ out.old ++ allows_text (universe_of on.now) dep.now) }
{
    let all = targets(on, dep);
    let numbers = admitted(on.alloc, dep, all)?;
    out.push_str(" allows ")?;
    out.push_str(dep.interface.as_str())?;
    put_allows_in(all, numbers.as_slice(), out)
}

// Puts in which candidates a command isn't there.
fn put_lacks_in(all: &[Candidate], numbers: &[u32], out: &mut Text) -> Result<(), Memory>
    ensures { OnOk result (out.new ≡ out.old ++ lacks_in all.now numbers.now) }
{
    if numbers.is_empty() {
        return Ok(());
    }
    out.push_str(", which isn't there in ")?;
    put_versions(all, numbers, out)
}

// Puts the command that a dependency needs.
fn put_named(on: &Telling, dep: &Dep, name: &Text, out: &mut Text) -> Result<(), Memory>
    ensures { OnOk result (out.new ≡ out.old ++ named_text (universe_of on.now) dep.now name.now) }
{
    let all = targets(on, dep);
    let numbers = lacking(on.alloc, dep, name, all)?;
    out.push_str(" needs the command ")?;
    out.push_str(name.as_str())?;
    out.push_str(" of ")?;
    out.push_str(dep.interface.as_str())?;
    put_lacks_in(all, numbers.as_slice(), out)
}

// By what a version of the root is run, or what it lacks.
fn run_words(place: Option<u32>) -> &'static str
    ensures { result.now ≡ run_words place }
{
    match place {
        None => " has no command ",
        Some(_) => " is run by its command ",
    }
}

// Puts the command that is wanted of the root.
fn put_wanted(command: &Option<Text>, place: Option<u32>, out: &mut Text) -> Result<(), Memory>
    ensures { OnOk result (out.new ≡ out.old ++ wanted_text command.now place) }
{
    let Some(name) = command else {
        return Ok(());
    };
    out.push_str(run_words(place))?;
    out.push_str(name.as_str())
}

// For how many bits a version is.
fn width_words(width: Width) -> &'static str
    ensures { result.now ≡ width_text width }
{
    match width {
        Width::Any => " is for any machine",
        Width::Bits32 => " is for 32 bits",
        Width::Bits64 => " is for 64 bits",
    }
}

// The name of the command at a place of a candidate.
fn name_of<'u>(on: &Telling<'u>, i: u32, c: u32, m: u32) -> &'u str
    ensures { result.now ≡ name_of (slice_get (candidates_of (universe_of on.now) i) c) m }
{
    let Some(k) = candidates(on.names, i).get(c as usize) else {
        return "";
    };
    match k.imp.commands.get(m as usize) {
        None => "",
        Some(command) => command.as_ref().name.as_str(),
    }
}

// Puts as what an owner has a dependency.
fn put_as(on: &Telling, owner: &Owner, out: &mut Text) -> Result<(), Memory>
    ensures { OnOk result (out.new ≡ out.old ++ as_text (universe_of on.now) (owner_var owner.now)) }
{
    let Some(m) = owner.command else {
        return Ok(());
    };
    out.push_str(", as ")?;
    out.push_str(name_of(on, owner.interface, owner.candidate, m))?;
    out.push_str(",")
}

// What a dependency of an owner needs.
#[tactic(auto, using(crate::proofs::LineLaws::said_at))]
fn needs(on: &Telling, owner: &Owner, dep: &Dep) -> Result<Said, Memory>
    ensures { IfOk result (λ s. Some s ≡ said_by (universe_of on.now) (owner_var owner.now) (needs_text (universe_of on.now) dep.now)) }
{
    let mut words = Text::new(on.alloc);
    put_as(on, owner, &mut words)?;
    put_needs(on, dep, &mut words)?;
    Ok(Said {
        interface: owner.interface,
        candidate: owner.candidate,
        words,
    })
}

// What a dependency of an owner allows.
#[tactic(auto, using(crate::proofs::LineLaws::said_at))]
fn allows(on: &Telling, owner: &Owner, dep: &Dep) -> Result<Said, Memory>
    ensures { IfOk result (λ s. Some s ≡ said_by (universe_of on.now) (owner_var owner.now) (allows_text (universe_of on.now) dep.now)) }
{
    let mut words = Text::new(on.alloc);
    put_as(on, owner, &mut words)?;
    put_allows(on, dep, &mut words)?;
    Ok(Said {
        interface: owner.interface,
        candidate: owner.candidate,
        words,
    })
}

// Which command a dependency of an owner needs.
#[tactic(auto, using(crate::proofs::LineLaws::said_at))]
fn named(on: &Telling, owner: &Owner, dep: &Dep, name: &Text) -> Result<Said, Memory>
    ensures { IfOk result (λ s. Some s ≡ said_by (universe_of on.now) (owner_var owner.now) (named_text (universe_of on.now) dep.now name.now)) }
{
    let mut words = Text::new(on.alloc);
    put_as(on, owner, &mut words)?;
    put_named(on, dep, name, &mut words)?;
    Ok(Said {
        interface: owner.interface,
        candidate: owner.candidate,
        words,
    })
}

// By which command a version of the root is run.
fn wanted(
    alloc: Global,
    req: &Requirement,
    candidate: u32,
    place: Option<u32>,
) -> Result<Said, Memory>
    ensures { IfOk result (λ s. s ≡ record { interface = 0; candidate = candidate; words = wanted_text req.now.command place }) }
{
    let mut words = Text::new(alloc);
    put_wanted(&req.command, place, &mut words)?;
    Ok(Said {
        interface: 0,
        candidate,
        words,
    })
}

// For how many bits a version is, as what is said of it.
fn bits(alloc: Global, interface: u32, candidate: u32, width: Width) -> Result<Said, Memory>
    ensures { IfOk result (λ s. s ≡ record { interface = interface; candidate = candidate; words = width_text width }) }
{
    let words = Text::from_str(alloc, width_words(width))?;
    Ok(Said {
        interface,
        candidate,
        words,
    })
}

/// What a fact says of a version; that of the root, and those that hold of every choice, say nothing.
pub(crate) fn said_of<'u>(
    on: &Telling<'u>,
    req: &Requirement,
    fact: Fact<'u>,
) -> Result<Option<Said>, Memory>
    ensures { IfOk result (λ o. o ≡ said_of (universe_of on.now) req.now (as_told fact.entry)) }
{
    match fact {
        Fact::Root => Ok(None),
        Fact::Once { .. } => Ok(None),
        Fact::Part { .. } => Ok(None),
        Fact::Wanted { candidate, place } => Ok(Some(wanted(on.alloc, req, candidate, place)?)),
        Fact::Bits {
            interface,
            candidate,
            width,
        } => Ok(Some(bits(on.alloc, interface, candidate, width)?)),
        Fact::Needs { owner, dep } => Ok(Some(needs(on, &owner, dep)?)),
        Fact::Refuses { owner, dep, .. } => Ok(Some(allows(on, &owner, dep)?)),
        Fact::Names {
            owner,
            dep,
            name,
            ..
        } => Ok(Some(named(on, &owner, dep, name)?)),
    }
}
