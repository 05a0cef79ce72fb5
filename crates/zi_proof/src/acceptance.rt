//! Whether lemmas and blocks are accepted, each by walking its hints.
//! Hints number the constraints of the formula from 1, and after them the lemmas in order.
//! The work is linear in the literals and hints that are walked; no call takes memory.

ghost use Rattle.std.specs.Prelude.{◌≡◌, ◌<◌, ◌≤◌, ◌+◌, ◌&&◌, true, not, length, map, is_some, IfSome, IsTrue};
ghost use Rattle.std.specs.List.{All};
ghost use Rattle.zi_formula.specs.Truth.{opposite};
ghost use Rattle.zi_formula.specs.Form.{Within, WellFormed};
ghost use Rattle.zi_proof.specs.Cells.{known_by, MadeFor};
ghost use Rattle.zi_proof.specs.Taken.{taken_as, known_after};
ghost use Rattle.zi_proof.specs.Known.{is_false, put};
ghost use Rattle.zi_proof.specs.Accepted.{citable, cited, step_cited, walk, assume, lits_within, lemmas_within, accepted, lemma_accepted, follows, proves};
ghost use Rattle.zi_formula.specs.Form.{has_lit, has_all};

use crate::marks::Marks;
use crate::steps::{Taken, take_clause, take_constraint};
use crate::{Lemma, Proof};
use zi_formula::{Formula, Lit};

// One hint, walked from what is known.
fn take_hint(f: &Formula, lemmas: &[Lemma], hint: u32, marks: &mut Marks) -> Taken
    requires within { Within f.now }
    requires earlier { lemmas_within f.now.variables lemmas.now ≡ true }
    requires made { length marks.old ≡ f.now.variables + 1 }
    ensures kind { result ≡ taken_as (step_cited (known_by marks.old) (cited (citable f.now.constraints lemmas.now) hint)) }
    ensures after { known_by marks.new ≡ known_after (known_by marks.old) (step_cited (known_by marks.old) (cited (citable f.now.constraints lemmas.now) hint)) }
    ensures len { length marks.new ≡ length marks.old }
{
    if hint == 0 {
        return Taken::Fails;
    }
    let place = hint as usize - 1;
    let count = f.constraints.len();
    if place < count {
        return take_constraint(f.constraints.at(place), marks);
    }
    let place = place - count;
    if place < lemmas.len() {
        return take_clause(lemmas[place].lits.as_slice(), marks);
    }
    Taken::Fails
}

// Whether no hint fails, and the contradiction comes at the last.
fn walk_hints(f: &Formula, lemmas: &[Lemma], hints: &[u32], marks: &mut Marks) -> bool
    requires within { Within f.now }
    requires earlier { lemmas_within f.now.variables lemmas.now ≡ true }
    requires made { length marks.old ≡ f.now.variables + 1 }
    ensures value { result ≡ walk (citable f.now.constraints lemmas.now) (known_by marks.old) hints.now }
    ensures len { length marks.new ≡ length marks.old }
{
    for (i, hint) in hints.iter().enumerate() {
        match take_hint(f, lemmas, *hint, marks) {
            Taken::Fails => return false,
            Taken::Contradiction => return i + 1 == hints.len(),
            Taken::Goes => {}
        }
    }
    false
}

// Takes a literal as true, unless it is false.
fn take_true(l: Lit, marks: &mut Marks) -> bool
    requires { l.variable < length marks.old }
    ensures value { result ≡ not (is_false (known_by marks.old) l) }
    ensures known { IsTrue result → known_by marks.new ≡ put (known_by marks.old) l }
    ensures len { length marks.new ≡ length marks.old }
{
    if marks.of(l.variable) == Some(!l.positive) {
        return false;
    }
    marks.put(l);
    true
}

fn assume_all(lits: &[Lit], marks: &mut Marks) -> bool
    requires { All (λ l. (1 ≤ l.variable) × (l.variable < length marks.old)) lits.now }
    ensures value { result ≡ is_some (assume (known_by marks.old) lits.now) }
    ensures known { IfSome (assume (known_by marks.old) lits.now) (λ k. known_by marks.new ≡ k) }
    ensures len { length marks.new ≡ length marks.old }
{
    for l in lits {
        if !take_true(*l, marks) {
            return false;
        }
    }
    true
}

fn assume_opposites(lits: &[Lit], marks: &mut Marks) -> bool
    requires { All (λ l. (1 ≤ l.variable) × (l.variable < length marks.old)) lits.now }
    ensures value { result ≡ is_some (assume (known_by marks.old) (map opposite lits.now)) }
    ensures known { IfSome (assume (known_by marks.old) (map opposite lits.now)) (λ k. known_by marks.new ≡ k) }
    ensures len { length marks.new ≡ length marks.old }
{
    for l in lits {
        if !take_true(l.opposite(), marks) {
            return false;
        }
    }
    true
}

fn are_within(lits: &[Lit], variables: u32) -> bool
    ensures { result ≡ lits_within variables lits.now }
{
    for l in lits {
        if l.variable < 1 || l.variable > variables {
            return false;
        }
    }
    true
}

#[tactic(auto, using(crate::proofs::Cites::within_opposite))]
fn accept_lemma(f: &Formula, earlier: &[Lemma], lemma: &Lemma, marks: &mut Marks) -> bool
    requires within { Within f.now }
    requires earlier { lemmas_within f.now.variables earlier.now ≡ true }
    requires made { length marks.old ≡ f.now.variables + 1 }
    ensures value { result ≡ lemma_accepted f.now earlier.now lemma.now }
    ensures len { length marks.new ≡ length marks.old }
{
    let lits = lemma.lits.as_slice();
    if !are_within(lits, f.variables) {
        return false;
    }
    marks.clear();
    if !assume_opposites(lits, marks) {
        return false;
    }
    walk_hints(f, earlier, lemma.hints.as_slice(), marks)
}

/// Whether the lemmas follow: each is accepted, with hints to constraints and earlier lemmas. The marks are of this
/// formula. It takes no memory.
pub fn follow(f: &Formula, p: &Proof, marks: &mut Marks) -> bool
    requires formed { WellFormed f.now }
    requires made { MadeFor f.now marks.old }
    ensures value { result ≡ follows f.now p.now.lemmas }
    ensures len { length marks.new ≡ length marks.old }
{
    let lemmas = p.lemmas.as_slice();
    for i in 0..lemmas.len() {
        if !accept_lemma(f, &lemmas[..i], &lemmas[i], marks) {
            return false;
        }
    }
    true
}

/// Whether the hints are accepted from the literals assumed, where the lemmas follow, all of which the hints may cite.
/// An accepted block excludes: no model of the formula makes all literals assumed true (`laws::blocks_exclude`).
pub fn check_block(
    f: &Formula,
    p: &Proof,
    assumed: &[Lit],
    hints: &[u32],
    marks: &mut Marks,
) -> bool
    requires formed { WellFormed f.now }
    requires follows { follows f.now p.now.lemmas ≡ true }
    requires made { MadeFor f.now marks.old }
    ensures value { result ≡ accepted f.now p.now.lemmas assumed.now hints.now }
    ensures len { length marks.new ≡ length marks.old }
{
    if !are_within(assumed, f.variables) {
        return false;
    }
    marks.clear();
    if !assume_all(assumed, marks) {
        return false;
    }
    walk_hints(f, p.lemmas.as_slice(), hints, marks)
}

fn has(lits: &[Lit], l: Lit) -> bool
    ensures { result ≡ has_lit lits.now l }
{
    for m in lits {
        if *m == l {
            return true;
        }
    }
    false
}

fn has_each(lits: &[Lit], wanted: &[Lit]) -> bool
    ensures { result ≡ has_all lits.now wanted.now }
{
    for l in wanted {
        if !has(lits, *l) {
            return false;
        }
    }
    true
}

fn have_same(a: &[Lit], b: &[Lit]) -> bool
    ensures { result ≡ has_all a.now b.now && has_all b.now a.now }
{
    has_each(a, b) && has_each(b, a)
}

/// Whether the lemmas follow and the last has just the goal's literals, in any order. With no goal it is whether the
/// lemmas refute the formula. The last lemma is compared with the goal literal by literal.
pub fn check(f: &Formula, p: &Proof, goal: &[Lit], marks: &mut Marks) -> bool
    requires formed { WellFormed f.now }
    requires made { MadeFor f.now marks.old }
    ensures value { result ≡ follows f.now p.now.lemmas && proves goal.now p.now.lemmas }
    ensures len { length marks.new ≡ length marks.old }
{
    if !follow(f, p, marks) {
        return false;
    }
    let lemmas = p.lemmas.as_slice();
    if lemmas.is_empty() {
        return false;
    }
    let last = lemmas[lemmas.len() - 1].lits.as_slice();
    have_same(last, goal)
}
