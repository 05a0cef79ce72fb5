//! What each constraint of a universe and a requirement says, in their order: a function for each kind of constraint, as they are
//! built.
ghost use Rattle.std.specs.Prelude.{◌≡◌, ◌≤◌, ◌<◌, ◌++◌, ◌∷◌, [], map, length, slice_get, Some, OnOk, IfOk, IfSome};
ghost use Rattle.zi_universe.specs.Whole.{BeginsWith};
ghost use Rattle.zi_choice.specs.Choice.{number, command_place};
ghost use Rattle.zi_choice.specs.Vars.{candidates_of, var_count};
ghost use Rattle.zi_build.specs.Clauses.{is_admitted, at_target, each, keep, two_or_more};
ghost use Rattle.zi_facts.specs.Facts.{as_told, owner_var, told, told_refusal, told_admission, told_name, told_naming, told_need, told_needs, told_width, told_command, told_candidate, told_interface, told_once, told_wanted, told_requirement, Once};
ghost use Rattle.zi_facts.specs.Telling.{universe_of, Tells};

use crate::fact::{Fact, Owner};
use crate::looking::{candidates, is_admitted};
use std::alloc::Global;
use zi_choice::{Names, group};
use zi_inherited::Inherited;
use zi_parts::{Command, Dep, DepKind};
use zi_policy::Width;
use zi_text::{Memory, Text};
use zi_universe::{Candidate, Requirement, asks};

/// Over what it is told: a universe and its names.
#[derive(Clone, Copy)]
pub(crate) struct Telling<'u> {
    pub alloc: Global,
    pub names: &'u Names<'u>,
}

// One fact more.
#[tactic(auto, using(crate::proofs::TellLaws::tells_one))]
fn tell<'u>(facts: &mut Vec<Fact<'u>>, fact: Fact<'u>) -> Result<(), Memory>
    ensures { OnOk result (Tells facts.old.items (as_told fact.entry ∷ []) facts.new.items) }
{
    facts.push(fact)?;
    Ok(())
}

// One fact more, where it is told.
#[tactic(auto, using(crate::proofs::TellLaws::keeping))]
fn tell_where<'u>(facts: &mut Vec<Fact<'u>>, is_told: bool, fact: Fact<'u>) -> Result<(), Memory>
    ensures { OnOk result (Tells facts.old.items (keep is_told (as_told fact.entry)) facts.new.items) }
{
    if !is_told {
        return Ok(());
    }
    tell(facts, fact)
}

// A candidate that a dependency doesn't admit.
fn tell_refusal<'u>(
    owner: Owner,
    dep: &'u Dep,
    j: u32,
    e: u32,
    k: &Candidate,
    facts: &mut Vec<Fact<'u>>,
) -> Result<(), Memory>
    ensures { OnOk result (Tells facts.old.items (told_refusal (owner_var owner) dep.now j e k.now) facts.new.items) }
{
    tell_where(
        facts,
        !is_admitted(dep, k),
        Fact::Refuses {
            owner,
            dep,
            interface: j,
            candidate: e,
        },
    )
}

// The candidates that a dependency doesn't admit.
fn tell_refusals<'u>(
    on: &Telling<'u>,
    owner: Owner,
    dep: &'u Dep,
    j: u32,
    facts: &mut Vec<Fact<'u>>,
) -> Result<(), Memory>
    requires there { j < length (universe_of on.now) }
    ensures { OnOk result (Tells facts.old.items (each 0 (told_refusal (owner_var owner) dep.now j) (candidates_of (universe_of on.now) j)) facts.new.items) }
{
    for (e, k) in candidates(on.names, j).iter().enumerate() {
        tell_refusal(owner, dep, j, e as u32, k, facts)?;
    }
    Ok(())
}

// Which candidates a dependency admits.
#[tactic(auto, using(crate::proofs::TellLaws::admission_telling))]
fn tell_admission<'u>(
    on: &Telling<'u>,
    owner: Owner,
    dep: &'u Dep,
    j: Option<u32>,
    facts: &mut Vec<Fact<'u>>,
) -> Result<(), Memory>
    requires target { j ≡ number (universe_of on.now) dep.now.interface }
    requires there { IfSome j (λ j. j < length (universe_of on.now)) }
    ensures { OnOk result (Tells facts.old.items (told_admission (universe_of on.now) (owner_var owner) dep.now dep.now.kind) facts.new.items) }
{
    if let DepKind::Essential = dep.kind {
        tell(facts, Fact::Needs { owner, dep })?;
        return Ok(());
    }
    let Some(j) = j else {
        return Ok(());
    };
    tell_refusals(on, owner, dep, j, facts)?;
    Ok(())
}

// The place of a command of a candidate that is there.
fn place_in(on: &Telling, j: u32, e: u32, k: &Candidate, name: &Text) -> Option<u32>
    requires few { var_count (universe_of on.now) < 4294967296 }
    requires there { slice_get (candidates_of (universe_of on.now) j) e ≡ Some k.now }
    ensures { result ≡ command_place k.now name.now }
{
    let m = on.names.command_place(j, e, name)?;
    Some(m as u32)
}

// The command of a name of a candidate that a dependency admits.
fn tell_name<'u>(
    on: &Telling<'u>,
    owner: Owner,
    dep: &'u Dep,
    name: &'u Text,
    j: u32,
    e: u32,
    k: &Candidate,
    facts: &mut Vec<Fact<'u>>,
) -> Result<(), Memory>
    requires few { var_count (universe_of on.now) < 4294967296 }
    requires there { slice_get (candidates_of (universe_of on.now) j) e ≡ Some k.now }
    ensures { OnOk result (Tells facts.old.items (told_name (owner_var owner) dep.now name.now j e k.now) facts.new.items) }
{
    let place = place_in(on, j, e, k, name);
    tell_where(
        facts,
        is_admitted(dep, k),
        Fact::Names {
            owner,
            dep,
            name,
            interface: j,
            candidate: e,
            place,
        },
    )
}

// The command of a name of each candidate that a dependency admits.
fn tell_all_named<'u>(
    on: &Telling<'u>,
    owner: Owner,
    dep: &'u Dep,
    name: &'u Text,
    j: u32,
    facts: &mut Vec<Fact<'u>>,
) -> Result<(), Memory>
    requires few { var_count (universe_of on.now) < 4294967296 }
    requires there { j < length (universe_of on.now) }
    ensures { OnOk result (Tells facts.old.items (each 0 (told_name (owner_var owner) dep.now name.now j) (candidates_of (universe_of on.now) j)) facts.new.items) }
{
    for (e, k) in candidates(on.names, j).iter().enumerate() {
        tell_name(on, owner, dep, name, j, e as u32, k, facts)?;
    }
    Ok(())
}

// The commands that a dependency names.
fn tell_naming<'u>(
    on: &Telling<'u>,
    owner: Owner,
    dep: &'u Dep,
    j: u32,
    facts: &mut Vec<Fact<'u>>,
) -> Result<(), Memory>
    requires few { var_count (universe_of on.now) < 4294967296 }
    requires target { number (universe_of on.now) dep.now.interface ≡ Some j }
    requires there { j < length (universe_of on.now) }
    ensures { OnOk result (Tells facts.old.items (told_naming (universe_of on.now) (owner_var owner) dep.now dep.now.commands) facts.new.items) }
{
    for name in dep.commands.as_slice() {
        tell_all_named(on, owner, dep, name, j, facts)?;
    }
    Ok(())
}

// What a dependency asks.
#[tactic(auto, using(crate::proofs::TellLaws::need_telling))]
fn tell_need<'u>(
    on: &Telling<'u>,
    owner: Owner,
    dep: &'u Dep,
    facts: &mut Vec<Fact<'u>>,
) -> Result<(), Memory>
    requires few { var_count (universe_of on.now) < 4294967296 }
    ensures { OnOk result (Tells facts.old.items (told_need (universe_of on.now) (owner_var owner) dep.now) facts.new.items) }
{
    let j = on.names.number(&dep.interface);
    tell_admission(on, owner, dep, j, facts)?;
    let Some(j) = j else {
        return Ok(());
    };
    if !asks(dep) {
        return Ok(());
    }
    tell_naming(on, owner, dep, j, facts)?;
    Ok(())
}

// What dependencies ask.
fn tell_needs<'u>(
    on: &Telling<'u>,
    owner: Owner,
    deps: &'u [Dep],
    facts: &mut Vec<Fact<'u>>,
) -> Result<(), Memory>
    requires few { var_count (universe_of on.now) < 4294967296 }
    ensures { OnOk result (Tells facts.old.items (told_needs (universe_of on.now) (owner_var owner) deps.now) facts.new.items) }
{
    for dep in deps {
        tell_need(on, owner, dep, facts)?;
    }
    Ok(())
}

// What dependencies ask that are inherited or a candidate's own.
fn tell_inherited<'u>(
    on: &Telling<'u>,
    owner: Owner,
    deps: &'u Inherited<Dep>,
    facts: &mut Vec<Fact<'u>>,
) -> Result<(), Memory>
    requires few { var_count (universe_of on.now) < 4294967296 }
    ensures { OnOk result (Tells facts.old.items (told_needs (universe_of on.now) (owner_var owner) deps.now) facts.new.items) }
{
    for n in 0..deps.len() {
        tell_need(on, owner, deps.at(n), facts)?;
    }
    Ok(())
}

// For how many bits a candidate is.
fn tell_width<'u>(i: u32, c: u32, width: Width, facts: &mut Vec<Fact<'u>>) -> Result<(), Memory>
    ensures { OnOk result (Tells facts.old.items (told_width i c width) facts.new.items) }
{
    if width == Width::Any {
        return Ok(());
    }
    tell(
        facts,
        Fact::Bits {
            interface: i,
            candidate: c,
            width,
        },
    )?;
    Ok(())
}

// What a command of a candidate asks.
#[tactic(auto, using(crate::proofs::TellLaws::command_telling))]
fn tell_command<'u>(
    on: &Telling<'u>,
    i: u32,
    c: u32,
    n: u32,
    m: &'u Command,
    facts: &mut Vec<Fact<'u>>,
) -> Result<(), Memory>
    requires few { var_count (universe_of on.now) < 4294967296 }
    ensures { OnOk result (Tells facts.old.items (told_command (universe_of on.now) i c n m.now) facts.new.items) }
{
    tell(
        facts,
        Fact::Part {
            interface: i,
            candidate: c,
            command: n,
        },
    )?;
    let owner = Owner {
        interface: i,
        candidate: c,
        command: Some(n),
    };
    tell_needs(on, owner, m.deps.as_slice(), facts)?;
    let Some(runner) = &m.runner else {
        return Ok(());
    };
    tell_need(on, owner, &runner.dep, facts)?;
    Ok(())
}

// What the commands of a candidate ask.
fn tell_commands<'u>(
    on: &Telling<'u>,
    i: u32,
    c: u32,
    k: &'u Candidate,
    facts: &mut Vec<Fact<'u>>,
) -> Result<(), Memory>
    requires few { var_count (universe_of on.now) < 4294967296 }
    requires there { slice_get (candidates_of (universe_of on.now) i) c ≡ Some k.now }
    ensures { OnOk result (Tells facts.old.items (each 0 (told_command (universe_of on.now) i c) k.now.imp.commands) facts.new.items) }
{
    for n in 0..k.imp.commands.len() {
        let m = k.imp.commands.at(n);
        tell_command(on, i, c, n as u32, m.as_ref(), facts)?;
    }
    Ok(())
}

// What a candidate asks.
#[tactic(auto, using(crate::proofs::TellLaws::candidate_tells))]
fn tell_candidate<'u>(
    on: &Telling<'u>,
    i: u32,
    c: u32,
    k: &'u Candidate,
    facts: &mut Vec<Fact<'u>>,
) -> Result<(), Memory>
    requires few { var_count (universe_of on.now) < 4294967296 }
    requires there { slice_get (candidates_of (universe_of on.now) i) c ≡ Some k.now }
    ensures { OnOk result (Tells facts.old.items (told_candidate (universe_of on.now) i c k.now) facts.new.items) }
{
    let owner = Owner {
        interface: i,
        candidate: c,
        command: None,
    };
    tell_width(i, c, group(k), facts)?;
    tell_inherited(on, owner, &k.imp.deps, facts)?;
    tell_commands(on, i, c, k, facts)?;
    Ok(())
}

// What the candidates of an interface ask.
fn tell_interface<'u>(on: &Telling<'u>, i: u32, facts: &mut Vec<Fact<'u>>) -> Result<(), Memory>
    requires few { var_count (universe_of on.now) < 4294967296 }
    requires there { i < length (universe_of on.now) }
    ensures { OnOk result (Tells facts.old.items (each 0 (told_candidate (universe_of on.now) i) (candidates_of (universe_of on.now) i)) facts.new.items) }
{
    for (c, k) in candidates(on.names, i).iter().enumerate() {
        tell_candidate(on, i, c as u32, k, facts)?;
    }
    Ok(())
}

// What the candidates of all interfaces ask.
fn tell_interfaces<'u>(on: &Telling<'u>, facts: &mut Vec<Fact<'u>>) -> Result<(), Memory>
    requires few { var_count (universe_of on.now) < 4294967296 }
    ensures { OnOk result (Tells facts.old.items (each 0 (told_interface (universe_of on.now)) (universe_of on.now)) facts.new.items) }
{
    for i in 0..on.names.universe().interfaces().len() {
        tell_interface(on, i as u32, facts)?;
    }
    Ok(())
}

// That one candidate of an interface is chosen at most.
#[tactic(auto, using(crate::proofs::TellLaws::once_telling))]
fn tell_once<'u>(on: &Telling<'u>, i: u32, facts: &mut Vec<Fact<'u>>) -> Result<(), Memory>
    requires there { i < length (universe_of on.now) }
    ensures { OnOk result (Tells facts.old.items (keep (two_or_more (length (candidates_of (universe_of on.now) i))) (Once i)) facts.new.items) }
{
    if candidates(on.names, i).len() < 2 {
        return Ok(());
    }
    tell(facts, Fact::Once { interface: i })?;
    Ok(())
}

// The same of all interfaces.
fn tell_all_once<'u>(on: &Telling<'u>, facts: &mut Vec<Fact<'u>>) -> Result<(), Memory>
    ensures { OnOk result (Tells facts.old.items (each 0 told_once (universe_of on.now)) facts.new.items) }
{
    for i in 0..on.names.universe().interfaces().len() {
        tell_once(on, i as u32, facts)?;
    }
    Ok(())
}

// By which command each candidate of the root is run.
fn tell_wanted<'u>(on: &Telling<'u>, name: &Text, facts: &mut Vec<Fact<'u>>) -> Result<(), Memory>
    requires few { var_count (universe_of on.now) < 4294967296 }
    requires there { 0 < length (universe_of on.now) }
    ensures { OnOk result (Tells facts.old.items (each 0 (told_wanted name.now) (candidates_of (universe_of on.now) 0)) facts.new.items) }
{
    for (c, k) in candidates(on.names, 0).iter().enumerate() {
        let candidate = c as u32;
        let place = place_in(on, 0, candidate, k, name);
        tell(facts, Fact::Wanted { candidate, place })?;
    }
    Ok(())
}

// By which command each candidate of the root is run, where one is wanted.
#[tactic(auto, using(crate::proofs::TellLaws::tells_none))]
fn tell_requirement<'u>(
    on: &Telling<'u>,
    command: &Option<Text>,
    facts: &mut Vec<Fact<'u>>,
) -> Result<(), Memory>
    requires few { var_count (universe_of on.now) < 4294967296 }
    requires there { 0 < length (universe_of on.now) }
    ensures { OnOk result (Tells facts.old.items (told_requirement (universe_of on.now) command.now) facts.new.items) }
{
    match command {
        None => Ok(()),
        Some(name) => tell_wanted(on, name, facts),
    }
}

/// What all constraints of a universe and a requirement say, in their order. Memory is its one refusal.
#[tactic(auto, using(crate::proofs::TellLaws::told_all))]
pub fn told<'u>(
    alloc: Global,
    names: &'u Names<'u>,
    req: &Requirement,
) -> Result<Vec<Fact<'u>>, Memory>
    requires few { var_count names.now < 4294967296 }
    requires rooted { BeginsWith names.now req.now.interface }
    ensures { IfOk result (λ v. map as_told v.items ≡ told names.now req.now) }
{
    let on = Telling { alloc, names };
    let mut facts = Vec::new(alloc);
    tell(&mut facts, Fact::Root)?;
    tell_requirement(&on, &req.command, &mut facts)?;
    tell_all_once(&on, &mut facts)?;
    tell_interfaces(&on, &mut facts)?;
    Ok(facts)
}
