//! The text of facts.
ghost use Rattle.std.specs.Prelude.{◌≡◌, ◌++◌, ◌==◌, ◌<◌, ◌≤◌, cond, length, map, slice_get, OnOk, IfOk, MatchOption, [], ◌∷◌};
ghost use Rattle.std.specs.List.{flat_map, position_from};
ghost use Rattle.zi_choice.specs.Vars.{candidates_of};
ghost use Rattle.zi_build.specs.Clauses.{each};
ghost use Rattle.zi_facts.specs.Facts.{as_told};
ghost use Rattle.zi_facts.specs.Telling.{universe_of};
ghost use Rattle.zi_facts.specs.Lines.{says, line_of, is_last, with_candidate, joined, with_joined, with_said, with_some, said_of, lines_of, uri_in, every_text, line_text, own_number, root_in, root_text, facts_text};

use crate::fact::Fact;
use crate::line::{Line, Said};
use crate::looking::candidates;
use crate::telling::Telling;
use crate::versions::put_versions;
use crate::words::said_of;
use std::alloc::Global;
use zi_choice::Names;
use zi_text::{List, Memory, Text};
use zi_universe::{Candidate, Requirement};

// Whether the same is said of versions of the same interface.
fn says(said: &Said, line: &Line) -> bool
    ensures { result ≡ says said.now line.now }
{
    line.interface == said.interface && line.words.as_str() == said.words.as_str()
}

// The place of the first line that says the same.
fn place_of(lines: &[Line], said: &Said) -> Option<usize>
    ensures { result ≡ position_from (says said.now) 0 lines.now }
{
    lines.iter().position(|line| says(said, line))
}

// Whether a number is the last of some.
fn is_last(numbers: &[u32], n: u32) -> bool
    ensures { result ≡ is_last numbers.now n }
{
    match numbers.last() {
        None => false,
        Some(m) => *m == n,
    }
}

// A candidate more.
fn add_candidate(candidates: &mut List<u32>, c: u32) -> Result<(), Memory>
    ensures { OnOk result (candidates.new ≡ with_candidate candidates.old c) }
{
    if is_last(candidates.as_slice(), c) {
        return Ok(());
    }
    candidates.push(c)
}

// A candidate more in a line.
fn add_to(line: &mut Line, c: u32) -> Result<(), Memory>
    ensures { OnOk result (line.new ≡ joined line.old c) }
{
    add_candidate(&mut line.candidates, c)
}

// A candidate more in the line at a place.
#[tactic(auto, using(crate::proofs::LineLaws::joined_set))]
fn join(lines: &mut Vec<Line>, i: usize, c: u32) -> Result<(), Memory>
    requires { i < length lines.old.items }
    ensures { OnOk result (lines.new.items ≡ with_joined lines.old.items i c) }
{
    add_to(&mut lines[i], c)?;
    Ok(())
}

// A line of its own.
fn line_of(alloc: Global, said: Said) -> Result<Line, Memory>
    ensures { IfOk result (λ l. l ≡ line_of said) }
{
    let Said {
        interface,
        candidate,
        words,
    } = said;
    let mut candidates = List::new(alloc);
    candidates.push(candidate)?;
    Ok(Line {
        interface,
        words,
        candidates,
    })
}

// Adds what is said, to the first line that says the same where there is one.
#[tactic(auto, using(crate::proofs::LineLaws::joining))]
fn add_said(alloc: Global, lines: &mut Vec<Line>, said: Said) -> Result<(), Memory>
    ensures { OnOk result (lines.new.items ≡ with_said lines.old.items said) }
{
    match place_of(lines.as_slice(), &said) {
        Some(i) => {
            join(lines, i, said.candidate)?;
            Ok(())
        }
        None => {
            let line = line_of(alloc, said)?;
            lines.push(line)?;
            Ok(())
        }
    }
}

// Adds what a fact says.
fn add_fact<'u>(
    on: &Telling<'u>,
    req: &Requirement,
    lines: &mut Vec<Line>,
    fact: Fact<'u>,
) -> Result<(), Memory>
    ensures { OnOk result (lines.new.items ≡ with_some lines.old.items (said_of (universe_of on.now) req.now (as_told fact.entry))) }
{
    match said_of(on, req, fact)? {
        None => Ok(()),
        Some(said) => add_said(on.alloc, lines, said),
    }
}

// The lines of facts.
fn lines_of<'u>(
    on: &Telling<'u>,
    req: &Requirement,
    facts: &[Fact<'u>],
) -> Result<Vec<Line>, Memory>
    ensures { IfOk result (λ v. v.items ≡ lines_of (universe_of on.now) req.now [] (map as_told facts.now)) }
{
    let mut lines = Vec::new(on.alloc);
    for fact in facts {
        add_fact(on, req, &mut lines, *fact)?;
    }
    Ok(lines)
}

// The address of an interface.
fn uri<'u>(on: &Telling<'u>, i: u32) -> &'u str
    ensures { result.now ≡ uri_in (slice_get (universe_of on.now) i) }
{
    match on.names.universe().interfaces().get(i as usize) {
        None => "",
        Some(x) => x.uri.as_str(),
    }
}

// Whether these are all of two or more.
fn every_words(all: &[Candidate], numbers: &[u32]) -> &'static str
    ensures { result.now ≡ every_text all.now numbers.now }
{
    if all.len() > 1 && numbers.len() == all.len() {
        " (every version)"
    } else {
        ""
    }
}

// Puts a line.
fn put_line(on: &Telling, line: &Line, out: &mut Text) -> Result<(), Memory>
    ensures { OnOk result (out.new ≡ out.old ++ line_text (universe_of on.now) line.now) }
{
    let all = candidates(on.names, line.interface);
    out.push_str("  ")?;
    out.push_str(uri(on, line.interface))?;
    out.push_str(every_words(all, line.candidates.as_slice()))?;
    out.push_str(" ")?;
    put_versions(all, line.candidates.as_slice(), out)?;
    out.push_str(line.words.as_str())?;
    out.push_str("\n")
}

// Puts lines.
fn put_lines(on: &Telling, lines: &[Line], out: &mut Text) -> Result<(), Memory>
    ensures { OnOk result (out.new ≡ out.old ++ flat_map (line_text (universe_of on.now)) lines.now) }
{
    for line in lines {
        put_line(on, line, out)?;
    }
    Ok(())
}

// The numbers of all candidates.
fn own_numbers(alloc: Global, all: &[Candidate]) -> Result<List<u32>, Memory>
    requires { length all.now ≤ 65536 }
    ensures { IfOk result (λ ns. ns ≡ each 0 own_number all.now) }
{
    let mut numbers = List::new(alloc);
    for (e, _) in all.iter().enumerate() {
        numbers.push(e as u32)?;
    }
    Ok(numbers)
}

// Puts in which versions the root is needed.
fn put_root_in(alloc: Global, all: &[Candidate], out: &mut Text) -> Result<(), Memory>
    requires { length all.now ≤ 65536 }
    ensures { OnOk result (out.new ≡ out.old ++ root_in all.now) }
{
    if all.is_empty() {
        return out.push_str(" is needed, and has no version that may be used\n");
    }
    let numbers = own_numbers(alloc, all)?;
    out.push_str(" is needed, in one of these: ")?;
    put_versions(all, numbers.as_slice(), out)?;
    out.push_str("\n")
}

// Puts the line of the root, if that is the fact.
fn put_root<'u>(
    on: &Telling<'u>,
    req: &Requirement,
    fact: Fact<'u>,
    out: &mut Text,
) -> Result<(), Memory>
    ensures { OnOk result (out.new ≡ out.old ++ root_text (universe_of on.now) req.now (as_told fact.entry)) }
{
    match fact {
        Fact::Root => {
            out.push_str(req.interface.as_str())?;
            put_root_in(on.alloc, candidates(on.names, 0), out)
        }
        Fact::Once { .. } => Ok(()),
        Fact::Part { .. } => Ok(()),
        Fact::Wanted { .. } => Ok(()),
        Fact::Bits { .. } => Ok(()),
        Fact::Needs { .. } => Ok(()),
        Fact::Refuses { .. } => Ok(()),
        Fact::Names { .. } => Ok(()),
    }
}

// Puts the line of the root, if that is one of these facts.
fn put_roots<'u>(
    on: &Telling<'u>,
    req: &Requirement,
    facts: &[Fact<'u>],
    out: &mut Text,
) -> Result<(), Memory>
    ensures { OnOk result (out.new ≡ out.old ++ flat_map (root_text (universe_of on.now) req.now) (map as_told facts.now)) }
{
    for fact in facts {
        put_root(on, req, *fact, out)?;
    }
    Ok(())
}

/// The text of facts: the line of the root, if that is one of them, and below it in their order what the others say of versions, where
/// those of one interface of which the same is said share a line that names them. That one version of an interface is chosen at
/// most, and that a command is used only where its version is chosen, has no line. Memory is its one refusal.
pub fn lines<'u>(
    alloc: Global,
    names: &'u Names<'u>,
    req: &Requirement,
    facts: &[Fact<'u>],
) -> Result<Text, Memory>
    ensures { IfOk result (λ t. t ≡ facts_text names.now req.now (map as_told facts.now)) }
{
    let on = Telling { alloc, names };
    let lines = lines_of(&on, req, facts)?;
    let mut out = Text::new(alloc);
    put_roots(&on, req, facts, &mut out)?;
    put_lines(&on, lines.as_slice(), &mut out)?;
    Ok(out)
}
