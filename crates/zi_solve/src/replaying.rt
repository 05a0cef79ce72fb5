//! The hints of a trail, walked again from what a block assumes.
ghost use Rattle.std.specs.Prelude.{◌≡◌, ◌≤◌, ◌<◌, false, length, IfOk};
ghost use Rattle.std.specs.List.{All};
ghost use Rattle.zi_proof.specs.Cells.{known_by};
ghost use Rattle.zi_proof.specs.Known.{nothing, is_true};
ghost use Rattle.zi_proof.specs.Taken.{taken_as, known_after};
ghost use Rattle.zi_proof.specs.Accepted.{citable, cited, step_cited};
ghost use Rattle.zi_sat.specs.declared.entry.Why.TheVariants.{Hint};
ghost use Rattle.zi_sat.specs.Trail.{learn};
ghost use Rattle.zi_walk.proofs.Replay.{replay};
ghost use Rattle.zi_solve.specs.Replays.{Knows, Replays};

use std::alloc::Global;
use zi_formula::{Formula, Lit};
use zi_proof::steps::{Taken, take_clause, take_constraint};
use zi_proof::{Lemma, Marks};
use zi_sat::{Entry, Trail, Why};
use zi_text::{List, Memory};

// One hint, walked from what is known.
fn take_hint(f: &Formula, lemmas: &[Lemma], hint: u32, marks: &mut Marks) -> Taken
    requires knows { Knows f.now lemmas.now marks.old }
    ensures kind { result ≡ taken_as (step_cited (known_by marks.old) (cited (citable f.now.constraints lemmas.now) hint)) }
    ensures after { known_by marks.new ≡ known_after (known_by marks.old) (step_cited (known_by marks.old) (cited (citable f.now.constraints lemmas.now) hint)) }
    ensures len { length marks.new ≡ length marks.old }
{
    if hint == 0 {
        return Taken::Fails;
    }
    let place = hint as usize - 1;
    let count = f.constraints.len();
    if place < count {
        return take_constraint(f.constraints.at(place), marks);
    }
    let place = place - count;
    if place < lemmas.len() {
        return take_clause(lemmas[place].lits.as_slice(), marks);
    }
    Taken::Fails
}

// The hint of an entry, walked from what is known. Says whether the hints end with it.
fn add_hint(
    f: &Formula,
    lemmas: &[Lemma],
    lit: Lit,
    hint: u32,
    hints: &mut List<u32>,
    marks: &mut Marks,
) -> Result<bool, Memory>
    requires knows { Knows f.now lemmas.now marks.old }
    requires new { is_true (known_by marks.old) lit ≡ false }
    ensures same { length marks.new ≡ length marks.old }
    ensures hints { IfOk result (λ ends. Replays (citable f.now.constraints lemmas.now) (known_by marks.old) (record { lit = lit; why = Hint hint }) hints.old ends hints.new (known_by marks.new)) }
{
    hints.push(hint)?;
    match take_hint(f, lemmas, hint, marks) {
        Taken::Goes => Ok(false),
        Taken::Contradiction => Ok(true),
        Taken::Fails => Ok(true),
    }
}

// One entry. Says whether the hints end with it.
fn add_entry(
    f: &Formula,
    lemmas: &[Lemma],
    e: Entry,
    hints: &mut List<u32>,
    marks: &mut Marks,
) -> Result<bool, Memory>
    requires knows { Knows f.now lemmas.now marks.old }
    requires within { e.lit.variable < length marks.old }
    ensures same { length marks.new ≡ length marks.old }
    ensures hints { IfOk result (λ ends. Replays (citable f.now.constraints lemmas.now) (known_by marks.old) e hints.old ends hints.new (known_by marks.new)) }
{
    if marks.of(e.lit.variable) == Some(e.lit.positive) {
        return Ok(false);
    }
    match e.why {
        Why::Decision => Ok(true),
        Why::Hint(hint) => {
            let ends = add_hint(f, lemmas, e.lit, hint, hints, marks)?;
            Ok(ends)
        }
    }
}

// The hints of the trail, from what is known.
fn replay(
    alloc: Global,
    f: &Formula,
    lemmas: &[Lemma],
    t: &Trail,
    marks: &mut Marks,
) -> Result<List<u32>, Memory>
    requires knows { Knows f.now lemmas.now marks.old }
    requires room { t.now.variables ≡ f.now.variables }
    ensures same { length marks.new ≡ length marks.old }
    ensures hints { IfOk result (λ hints. hints ≡ replay (citable f.now.constraints lemmas.now) (known_by marks.old) t.now.entries) }
{
    t.are_new();
    let mut hints = List::new(alloc);
    for i in 0..t.len() {
        let e = t.at(i);
        if add_entry(f, lemmas, e, &mut hints, marks)? {
            return Ok(hints);
        }
    }
    Ok(hints)
}

// Takes literals as true.
fn assume(lits: &[Lit], marks: &mut Marks)
    requires within { All (λ l. (1 ≤ l.variable) × (l.variable < length marks.old)) lits.now }
    ensures known { known_by marks.new ≡ learn (known_by marks.old) lits.now }
    ensures same { length marks.new ≡ length marks.old }
{
    for l in lits {
        marks.put(*l);
    }
}

/// Hints that are accepted from what a block assumes, where those of the whole trail are.
pub(crate) fn hints_from(
    alloc: Global,
    f: &Formula,
    lemmas: &[Lemma],
    t: &Trail,
    assumed: &[Lit],
    marks: &mut Marks,
) -> Result<List<u32>, Memory>
    requires knows { Knows f.now lemmas.now marks.old }
    requires room { t.now.variables ≡ f.now.variables }
    requires within { All (λ l. (1 ≤ l.variable) × (l.variable < length marks.old)) assumed.now }
    ensures same { length marks.new ≡ length marks.old }
    ensures hints { IfOk result (λ hints. hints ≡ replay (citable f.now.constraints lemmas.now) (learn nothing assumed.now) t.now.entries) }
{
    marks.clear();
    assume(assumed, marks);
    let hints = replay(alloc, f, lemmas, t, marks)?;
    Ok(hints)
}
