//! The analysis of a conflict, to the first implication point.
//! From the end of the trail on each marked literal is unfolded: its hint is kept, and the literals of the trail that the hint
//! uses are marked. It ends where one literal alone is marked from the last decision on.
//! The lemma holds the opposites of the marked literals; its hints are those that were kept.

ghost use Rattle.std.specs.Prelude.{◌≡◌, ◌≤◌, ◌<◌, ◌+◌, [], ℕ, length, true, false, not, take, drop, map, Option, IfOk, OnOk, OnErr, MatchOption, slice_index_or};
ghost use Rattle.zi_formula.specs.Truth.{opposite};
ghost use Rattle.zi_formula.specs.Form.{Within};
ghost use Rattle.zi_proof.specs.Cells.{known_by};
ghost use Rattle.zi_proof.specs.Known.{Known, nothing, is_open, Contradiction};
ghost use Rattle.zi_proof.specs.Accepted.{citable, cited, step_cited, lemmas_within};
ghost use Rattle.zi_sat.specs.declared.entry.Entry.{Entry as AnyEntry};
ghost use Rattle.zi_sat.specs.declared.entry.Why.TheVariants.{Decision};
ghost use Rattle.zi_sat.specs.Trail.{known_from, lits_of};
ghost use Rattle.zi_sat.specs.Moves.{decisions_in};
ghost use Rattle.zi_sat.specs.Marking.{among, mark_cited, Covered};
ghost use Rattle.zi_sat.specs.Fresh.{Hushed};
ghost use Rattle.zi_sat.specs.Chain.{Chained, Reached, Learned, LearnedAll, decides};

use crate::entry::Why;
use crate::kept::Kept;
use crate::mark::mark_hint;
use crate::trail::Trail;
use std::alloc::Global;
use zi_formula::{Formula, Lit};
use zi_proof::{Lemma, Marks, Proof};
use zi_text::{List, Memory};

// Whether the variable of the entry is marked.
fn is_marked(t: &Trail, i: u32, marked: &Marks) -> bool
    requires place { i < length t.now.entries }
    requires made { length marked.now ≡ t.now.variables + 1 }
    ensures { (d : AnyEntry) → is_open (known_by marked.now (slice_index_or t.now.entries i d).lit.variable) ≡ not result }
{
    t.are_new();
    marked.of(t.entry(i).lit.variable).is_some()
}

// The last marked entry from `start` on and before `end`.
fn last_marked(t: &Trail, marked: &Marks, start: u32, end: u32) -> Option<u32>
    requires order { start ≤ end }
    requires bound { end ≤ length t.now.entries }
    requires made { length marked.now ≡ t.now.variables + 1 }
    ensures { MatchOption result (among (known_by marked.now) (lits_of (drop start (take end t.now.entries))) ≡ []) (λ i. (start ≤ i) × (i < end) × ((d : AnyEntry) → is_open (known_by marked.now (slice_index_or t.now.entries i d).lit.variable) ≡ false)) }
{
    let mut i = end;
    while i > start {
        i -= 1;
        if is_marked(t, i, marked) {
            return Some(i);
        }
    }
    None
}

// Goes on to the entry before: where it is marked, its hint is kept and what that uses is marked.
fn unfold(
    f: &Formula,
    lemmas: &[Lemma],
    t: &Trail,
    i: u32,
    marked: &mut Marks,
    kept: &mut Kept,
) -> Result<(), Memory>
    requires within { Within f.now }
    requires earlier { lemmas_within f.now.variables lemmas.now ≡ true }
    requires same { t.now.variables ≡ f.now.variables }
    requires made { length marked.old ≡ t.now.variables + 1 }
    requires chained { Chained (citable f.now.constraints lemmas.now) nothing t.now.entries }
    requires place { i < length t.now.entries }
    requires implied { (d : AnyEntry) → (slice_index_or t.now.entries i d).why ≡ Decision → ⊥ }
    requires reached { Reached (citable f.now.constraints lemmas.now) t.now.entries (i + 1) (known_by marked.old) kept.old }
    ensures len { length marked.new ≡ length marked.old }
    ensures reached { OnOk result (Reached (citable f.now.constraints lemmas.now) t.now.entries i (known_by marked.new) kept.new) }
    ensures others { OnOk result ((y : ℕ) (d : AnyEntry) → (y ≡ (slice_index_or t.now.entries i d).lit.variable → ⊥) → is_open (known_by marked.old y) ≡ false → is_open (known_by marked.new y) ≡ false) }
{
    t.are_new();
    if !is_marked(t, i, marked) {
        return Ok(());
    }
    let e = t.entry(i);
    match e.why {
        Why::Decision => unreachable!(),
        Why::Hint(hint) => {
            marked.forget(e.lit.variable);
            let group = mark_hint(f, lemmas, hint, t, marked);
            kept.keep(group, hint)?;
            Ok(())
        }
    }
}

// A marked entry from `start` on and before `end`, if there is one; `other` is one, or is at `end`.
fn another(t: &Trail, marked: &Marks, start: u32, end: u32, other: u32) -> Option<u32>
    requires low { start ≤ other }
    requires order { other ≤ end }
    requires bound { end < length t.now.entries }
    requires made { length marked.now ≡ t.now.variables + 1 }
    requires marked { (d : AnyEntry) → is_open (known_by marked.now (slice_index_or t.now.entries other d).lit.variable) ≡ false }
    ensures { MatchOption result ((other ≡ end) × (among (known_by marked.now) (lits_of (drop start (take end t.now.entries))) ≡ [])) (λ i. (start ≤ i) × (i < end) × ((d : AnyEntry) → is_open (known_by marked.now (slice_index_or t.now.entries i d).lit.variable) ≡ false)) }
{
    if other < end {
        return Some(other);
    }
    last_marked(t, marked, start, end)
}

// Unfolds until one entry alone is marked from `start` on, the place of the last decision.
fn find_point(
    f: &Formula,
    lemmas: &[Lemma],
    t: &Trail,
    start: u32,
    marked: &mut Marks,
    kept: &mut Kept,
) -> Result<(), Memory>
    requires within { Within f.now }
    requires earlier { lemmas_within f.now.variables lemmas.now ≡ true }
    requires same { t.now.variables ≡ f.now.variables }
    requires made { length marked.old ≡ t.now.variables + 1 }
    requires chained { Chained (citable f.now.constraints lemmas.now) nothing t.now.entries }
    requires place { start < length t.now.entries }
    requires last { decisions_in (drop (start + 1) t.now.entries) ≡ [] }
    requires some { among (known_by marked.old) (lits_of (drop start t.now.entries)) ≡ [] → ⊥ }
    requires reached { Reached (citable f.now.constraints lemmas.now) t.now.entries (length t.now.entries) (known_by marked.old) kept.old }
    ensures len { length marked.new ≡ length marked.old }
    ensures reached { OnOk result ((i : ℕ) × Reached (citable f.now.constraints lemmas.now) t.now.entries i (known_by marked.new) kept.new) }
    ensures alone { OnOk result (length (among (known_by marked.new) (lits_of (drop start t.now.entries))) ≡ 1) }
{
    t.are_new();
    let mut i = t.len();
    let mut other = match last_marked(t, marked, start, i) {
        Some(place) => place,
        None => unreachable!(),
    };
    loop {
        i -= 1;
        match another(t, marked, start, i, other) {
            None => return Ok(()),
            Some(place) => {
                other = place;
                unfold(f, lemmas, t, i, marked, kept)?;
            }
        }
    }
}

// Unfolds all, where no decision was made.
fn unfold_all(
    f: &Formula,
    lemmas: &[Lemma],
    t: &Trail,
    marked: &mut Marks,
    kept: &mut Kept,
) -> Result<(), Memory>
    requires within { Within f.now }
    requires earlier { lemmas_within f.now.variables lemmas.now ≡ true }
    requires same { t.now.variables ≡ f.now.variables }
    requires made { length marked.old ≡ t.now.variables + 1 }
    requires chained { Chained (citable f.now.constraints lemmas.now) nothing t.now.entries }
    requires none { decisions_in t.now.entries ≡ [] }
    requires reached { Reached (citable f.now.constraints lemmas.now) t.now.entries (length t.now.entries) (known_by marked.old) kept.old }
    ensures len { length marked.new ≡ length marked.old }
    ensures reached { OnOk result (Reached (citable f.now.constraints lemmas.now) t.now.entries 0 (known_by marked.new) kept.new) }
{
    let mut i = t.len();
    while i > 0 {
        i -= 1;
        unfold(f, lemmas, t, i, marked, kept)?;
    }
    Ok(())
}

// The opposites of the marked literals, in the order of the trail.
fn opposites(alloc: Global, t: &Trail, marked: &Marks) -> Result<List<Lit>, Memory>
    requires made { length marked.now ≡ t.now.variables + 1 }
    ensures { IfOk result (λ ls. ls ≡ map opposite (among (known_by marked.now) (lits_of t.now.entries))) }
{
    let mut lits = List::new(alloc);
    for place in 0..t.len() {
        if is_marked(t, place, marked) {
            lits.push(t.entry(place).lit.opposite())?;
        }
    }
    Ok(lits)
}

fn is_decision(t: &Trail, i: u32) -> bool
    requires { i < length t.now.entries }
    ensures { (d : AnyEntry) → result ≡ decides (slice_index_or t.now.entries i d).why }
{
    match t.entry(i).why {
        Why::Decision => true,
        Why::Hint(_) => false,
    }
}

// The first decision behind the last marked entry before `start`, which is the place of the last decision.
fn keep_to(t: &Trail, marked: &Marks, start: u32) -> u32
    requires place { start < length t.now.entries }
    requires made { length marked.now ≡ t.now.variables + 1 }
    requires decided { (d : AnyEntry) → (slice_index_or t.now.entries start d).why ≡ Decision }
    ensures bound { result ≤ start }
    ensures decision { (d : AnyEntry) → (slice_index_or t.now.entries result d).why ≡ Decision }
    ensures behind { among (known_by marked.now) (lits_of (drop result (take start t.now.entries))) ≡ [] }
    ensures covered { Covered (known_by marked.now) (take result t.now.entries) }
{
    let mut keep = start;
    let mut i = start;
    while i > 0 {
        i -= 1;
        if is_marked(t, i, marked) {
            return keep;
        }
        if is_decision(t, i) {
            keep = i;
        }
    }
    keep
}

// Begins with the constraint in conflict.
fn begin(
    f: &Formula,
    lemmas: &[Lemma],
    t: &Trail,
    hint: u32,
    marked: &mut Marks,
    kept: &mut Kept,
) -> Result<(), Memory>
    requires within { Within f.now }
    requires earlier { lemmas_within f.now.variables lemmas.now ≡ true }
    requires same { t.now.variables ≡ f.now.variables }
    requires made { length marked.old ≡ t.now.variables + 1 }
    requires unmarked { known_by marked.old ≡ nothing }
    requires empty { kept.old ≡ [] }
    requires conflict { step_cited (known_from t.now.entries) (cited (citable f.now.constraints lemmas.now) hint) ≡ Contradiction }
    ensures len { length marked.new ≡ length marked.old }
    ensures marks { known_by marked.new ≡ mark_cited (known_from t.now.entries) nothing (cited (citable f.now.constraints lemmas.now) hint) }
    ensures reached { OnOk result (Reached (citable f.now.constraints lemmas.now) t.now.entries (length t.now.entries) (known_by marked.new) kept.new) }
{
    let group = mark_hint(f, lemmas, hint, t, marked);
    kept.keep(group, hint)?;
    Ok(())
}

// Adds the lemma of a conflict; gives how many entries of the trail stay. The last decision is at the place `start`. The
// marks are lent, and nothing is said of them afterwards.
pub(crate) fn learn(
    alloc: Global,
    f: &Formula,
    t: &Trail,
    hint: u32,
    start: u32,
    proof: &mut Proof,
    marked: &mut Marks,
) -> Result<u32, Memory>
    requires within { Within f.now }
    requires earlier { lemmas_within f.now.variables proof.old.lemmas ≡ true }
    requires same { t.now.variables ≡ f.now.variables }
    requires chained { Chained (citable f.now.constraints proof.old.lemmas) nothing t.now.entries }
    requires hushed { Hushed (citable f.now.constraints proof.old.lemmas) nothing t.now.entries }
    requires place { start < length t.now.entries }
    requires decided { (d : AnyEntry) → (slice_index_or t.now.entries start d).why ≡ Decision }
    requires last { decisions_in (drop (start + 1) t.now.entries) ≡ [] }
    requires conflict { step_cited (known_from t.now.entries) (cited (citable f.now.constraints proof.old.lemmas) hint) ≡ Contradiction }
    requires made { length marked.old ≡ t.now.variables + 1 }
    ensures len { length marked.new ≡ length marked.old }
    ensures ok { IfOk result (λ keep. Learned (citable f.now.constraints proof.old.lemmas) t.now.entries start keep proof.old.lemmas proof.new.lemmas) }
    ensures err { OnErr result (proof.new.lemmas ≡ proof.old.lemmas) }
{
    t.are_new();
    marked.clear();
    let mut kept = Kept::new(alloc);
    let lemmas = proof.lemmas.as_slice();
    begin(f, lemmas, t, hint, marked, &mut kept)?;
    find_point(f, lemmas, t, start, marked, &mut kept)?;
    let lits = opposites(alloc, t, marked)?;
    let keep = keep_to(t, marked, start);
    let hints = kept.into_list();
    proof.lemmas.push(Lemma { lits, hints })?;
    Ok(keep)
}

// Adds the lemma of a conflict where no decision was made, which has no literal.
pub(crate) fn learn_all(
    alloc: Global,
    f: &Formula,
    t: &Trail,
    hint: u32,
    proof: &mut Proof,
    marked: &mut Marks,
) -> Result<(), Memory>
    requires within { Within f.now }
    requires earlier { lemmas_within f.now.variables proof.old.lemmas ≡ true }
    requires same { t.now.variables ≡ f.now.variables }
    requires chained { Chained (citable f.now.constraints proof.old.lemmas) nothing t.now.entries }
    requires none { decisions_in t.now.entries ≡ [] }
    requires conflict { step_cited (known_from t.now.entries) (cited (citable f.now.constraints proof.old.lemmas) hint) ≡ Contradiction }
    requires made { length marked.old ≡ t.now.variables + 1 }
    ensures len { length marked.new ≡ length marked.old }
    ensures ok { OnOk result (LearnedAll (citable f.now.constraints proof.old.lemmas) t.now.entries proof.old.lemmas proof.new.lemmas) }
    ensures err { OnErr result (proof.new.lemmas ≡ proof.old.lemmas) }
{
    marked.clear();
    let mut kept = Kept::new(alloc);
    let lemmas = proof.lemmas.as_slice();
    begin(f, lemmas, t, hint, marked, &mut kept)?;
    unfold_all(f, lemmas, t, marked, &mut kept)?;
    let lits = opposites(alloc, t, marked)?;
    let hints = kept.into_list();
    proof.lemmas.push(Lemma { lits, hints })?;
    Ok(())
}
