//! Which constraints are looked at when a literal becomes false.
//! Each clause of two literals or more watches two of them: it has nothing to say while one of its literals is true or neither
//! of the two is false. Each group watches the opposites of its variables. Clauses with fewer literals are looked at once.
//! What a clause watches had nothing to say before any decision of the trail, so after a cut at one of them all that is left
//! of the trail was looked at.

ghost use Rattle.std.specs.Prelude.{◌≡◌, ◌≢◌, ◌<◌, ◌≤◌, ◌+◌, ◌-◌, ◌*◌, ◌^◌, ◌⊎◌, slice_index_or, ◌∷◌, [], ℕ, List, length, map, take, true, false, OnOk, IfOk, IfNone, IfSome, Some, None};
ghost use Rattle.zi_formula.specs.declared.formula.Constraint.{Constraint as AnyConstraint};
ghost use Rattle.zi_formula.specs.declared.formula.Lit.{Lit as AnyLit};
ghost use Rattle.std.specs.List.{slice_get};
ghost use Rattle.zi_formula.specs.Lent.{shows};
ghost use Rattle.zi_formula.specs.Form.{Within, ItemsOnce, ConstraintWithin, LitsWithin, VarsWithin, Once, OnceAll};
ghost use Rattle.zi_proof.specs.Known.{Known, Contradiction, step, put, is_false};
ghost use Rattle.zi_proof.specs.Accepted.{citable, cited, step_cited, lemmas_within};
ghost use Rattle.zi_sat.specs.Trail.{known_from, silent};
ghost use Rattle.zi_sat.specs.Fresh.{Filled};
ghost use Rattle.zi_proof.specs.declared.proof.Lemma.{Lemma as AnyLemma};
ghost use Rattle.zi_sat.specs.Moves.{Added, Settled};
ghost use Rattle.zi_sat.specs.Guard.{Exhausted, row_of, pair_at, Looks, StaysOrClashes, IfPair, Fits, AllHeld, AllGuard, AllCalm, ShortSet, Fitting, Steady, Ready, Adds};
ghost use Rattle.zi_formula.specs.Truth.{opposite};
ghost use Rattle.zi_sat.specs.Marking.{Inside};
ghost use Rattle.zi_sat.specs.Chain.{Speaks, Spoke};
ghost use Rattle.zi_sat.specs.Rows.{row_at};
ghost use Rattle.zi_sat.specs.Watching.{Watches as WatchesPair};
ghost use Rattle.zi_formula.specs.declared.formula.Constraint.TheVariants.{Clause, AtMostOne};

use crate::entry::Why;
use crate::look::{is_clause_silent, is_silent, take_clause};
use crate::pair::{Pair, other_of, row};
use crate::pairs::Pairs;
use crate::propagation::take_constraint;
use crate::rows::{Rows, Watcher};
use crate::trail::Trail;
use crate::watch::{Look, Visit, look_at};
use std::alloc::Global;
use zi_formula::{Formula, Lent, Lit};
use zi_proof::Lemma;
use zi_text::Memory;

#[derive(Drop)]
pub(crate) struct Watches {
    // By literal, what watches it.
    rows: Rows,
    // By place, the two that a clause watches.
    pairs: Pairs,
    // How many entries were looked at.
    seen: u32,
}

// Takes what the constraint says, until it is silent; or tells that it is the contradiction.
pub(crate) fn exhaust(c: Lent<'_>, hint: u32, t: &mut Trail) -> Result<bool, Memory>
    requires within { ConstraintWithin t.old.variables (shows c) }
    ensures variables { t.new.variables ≡ t.old.variables }
    ensures added { (all : List AnyConstraint) → cited all hint ≡ Some (shows c.entry) → Added all t.old.entries t.new.entries }
    ensures end { Exhausted (known_from t.new.entries) (shows c.entry) result }
{
    t.are_new();
    while !is_silent(c, t) {
        if take_constraint(c, hint, t)? {
            return Ok(true);
        }
        t.are_new();
    }
    Ok(false)
}

// Looks at a clause where the literal became false.
fn visit_clause(
    pairs: &mut Pairs,
    lits: &[Lit],
    i: u32,
    l: Lit,
    t: &mut Trail,
) -> Result<Visit, Memory>
    requires within { LitsWithin t.old.variables lits.now }
    requires once { Once lits.now }
    requires few { i + 1 < 2 ^ 32 }
    requires low { i < length pairs.old }
    requires pair { IfPair (pair_at pairs.old i) (λ p. WatchesPair lits.now p.first p.second) }
    ensures variables { t.new.variables ≡ t.old.variables }
    ensures pairs { length pairs.new ≡ length pairs.old }
    ensures others { (n : ℕ) → n ≢ i → pair_at pairs.new n ≡ pair_at pairs.old n }
    ensures added { (all : List AnyConstraint) → cited all (i + 1) ≡ Some (Clause lits.now) → Added all t.old.entries t.new.entries }
    ensures looks { Looks (Clause lits.now) l (known_from t.new.entries) (pair_at pairs.old i) (pair_at pairs.new i) result }
{
    let other = match pairs.at(i as usize) {
        None => return Ok(Visit::Stays),
        Some(pair) => match other_of(pair, l) {
            None => return Ok(Visit::Stays),
            Some(other) => other,
        },
    };
    match look_at(lits, other, t) {
        Look::Moves(m) => {
            let pair = Pair {
                first: m,
                second: other,
            };
            pairs.put(i as usize, pair);
            Ok(Visit::Moves(pair))
        }
        Look::Stays => Ok(Visit::Stays),
        Look::Makes => {
            t.push(other, Why::Hint(i + 1))?;
            Ok(Visit::Stays)
        }
        Look::Clashes => Ok(Visit::Clashes),
    }
}

// Looks at a group, one of whose watched literals became false.
fn visit_group(c: Lent<'_>, i: u32, t: &mut Trail) -> Result<Visit, Memory>
    requires within { ConstraintWithin t.old.variables (shows c) }
    requires few { i + 1 < 2 ^ 32 }
    ensures variables { t.new.variables ≡ t.old.variables }
    ensures added { (all : List AnyConstraint) → cited all (i + 1) ≡ Some (shows c.entry) → Added all t.old.entries t.new.entries }
    ensures end { StaysOrClashes (known_from t.new.entries) (shows c.entry) result }
{
    if exhaust(c, i + 1, t)? {
        return Ok(Visit::Clashes);
    }
    Ok(Visit::Stays)
}

// Looks at the constraint or lemma of a watcher, where the literal became false.
fn visit_one(
    pairs: &mut Pairs,
    f: &Formula,
    lemmas: &[Lemma],
    w: Watcher,
    l: Lit,
    t: &mut Trail,
) -> Result<Visit, Memory>
    requires within { Within f.now }
    requires earlier { lemmas_within f.now.variables lemmas.now ≡ true }
    requires once { OnceAll (citable f.now.constraints lemmas.now) }
    requires same { t.old.variables ≡ f.now.variables }
    requires few { length f.now.constraints + length lemmas.now < 2 ^ 32 }
    requires paired { length pairs.old ≡ length f.now.constraints + length lemmas.now }
    requires high { l.variable ≤ f.now.variables }
    requires off { is_false (known_from t.old.entries) l ≡ true }
    requires fits { Fits (citable f.now.constraints lemmas.now) (row_of l) w }
    requires pair { (ls : List AnyLit) → slice_get (citable f.now.constraints lemmas.now) w.place ≡ Some (Clause ls) → IfPair (pair_at pairs.old w.place) (λ p. WatchesPair ls p.first p.second) }
    ensures variables { t.new.variables ≡ t.old.variables }
    ensures pairs { length pairs.new ≡ length pairs.old }
    ensures others { (n : ℕ) → n ≢ w.place → pair_at pairs.new n ≡ pair_at pairs.old n }
    ensures added { Added (citable f.now.constraints lemmas.now) t.old.entries t.new.entries }
    ensures looks { (c : AnyConstraint) → slice_get (citable f.now.constraints lemmas.now) w.place ≡ Some c → Looks c l (known_from t.new.entries) (pair_at pairs.old w.place) (pair_at pairs.new w.place) result }
{
    if t.is_true(w.block) {
        return Ok(Visit::Stays);
    }
    let count = f.constraints.len();
    let place = w.place as usize;
    if place >= count {
        let lits = lemmas[place - count].lits.as_slice();
        return visit_clause(pairs, lits, w.place, l, t);
    }
    let c = f.constraints.at(place);
    match c {
        Lent::Clause(lits) => visit_clause(pairs, lits, w.place, l, t),
        Lent::AtMostOne(_) => visit_group(c, w.place, t),
    }
}

// Looks at all that watch the literal, which is false.
fn visit(
    w: &mut Watches,
    f: &Formula,
    lemmas: &[Lemma],
    l: Lit,
    t: &mut Trail,
) -> Result<Option<u32>, Memory>
    requires within { Within f.now }
    requires earlier { lemmas_within f.now.variables lemmas.now ≡ true }
    requires once { OnceAll (citable f.now.constraints lemmas.now) }
    requires same { t.old.variables ≡ f.now.variables }
    requires few { length f.now.constraints + length lemmas.now < 2 ^ 32 }
    requires paired { length w.old.pairs ≡ length f.now.constraints + length lemmas.now }
    requires rows { f.now.variables * 2 + 2 ≤ length w.old.rows }
    requires high { l.variable ≤ f.now.variables }
    requires off { is_false (known_from t.old.entries) l ≡ true }
    requires held { AllHeld w.old (citable f.now.constraints lemmas.now) }
    requires calm { AllCalm w.old t.old.entries (citable f.now.constraints lemmas.now) }
    ensures variables { t.new.variables ≡ t.old.variables }
    ensures len { length w.new.rows ≡ length w.old.rows }
    ensures pairs { length w.new.pairs ≡ length w.old.pairs }
    ensures seen { w.new.seen ≡ w.old.seen }
    ensures added { Added (citable f.now.constraints lemmas.now) t.old.entries t.new.entries }
    ensures held { IfOk result (λ r. AllHeld w.new (citable f.now.constraints lemmas.now)) }
    ensures calm { IfOk result (λ r. AllCalm w.new t.new.entries (citable f.now.constraints lemmas.now)) }
    ensures guard { IfOk result (λ r. IfNone r ((q : Known) → Inside q (known_from t.old.entries) → AllGuard q (known_from t.old.entries) w.old (citable f.now.constraints lemmas.now) → AllGuard (put q (opposite l)) (known_from t.new.entries) w.new (citable f.now.constraints lemmas.now))) }
    ensures clash { IfOk result (λ r. IfSome r (λ h. step_cited (known_from t.new.entries) (cited (citable f.now.constraints lemmas.now) h) ≡ Contradiction)) }
{
    t.are_new();
    let r = row(l);
    let mut j = w.rows.len_of(r);
    while j > 0 {
        j -= 1;
        let e = w.rows.at(r, j);
        let found = visit_one(&mut w.pairs, f, lemmas, e, l, t)?;
        t.are_new();
        match found {
            Visit::Stays => {}
            Visit::Moves(pair) => {
                let moved = Watcher {
                    place: e.place,
                    block: pair.second,
                };
                w.rows.add(row(pair.first), moved)?;
                w.rows.take_out(r, j);
            }
            Visit::Clashes => return Ok(Some(e.place + 1)),
        }
    }
    Ok(None)
}

// Takes what the clause says, until it is silent; or tells that it is the contradiction.
fn exhaust_clause(lits: &[Lit], hint: u32, t: &mut Trail) -> Result<bool, Memory>
    requires within { LitsWithin t.old.variables lits.now }
    ensures variables { t.new.variables ≡ t.old.variables }
    ensures added { (all : List AnyConstraint) → cited all hint ≡ Some (Clause lits.now) → Added all t.old.entries t.new.entries }
    ensures end { Exhausted (known_from t.new.entries) (Clause lits.now) result }
{
    t.are_new();
    while !is_clause_silent(lits, t) {
        if take_clause(lits, hint, t)? {
            return Ok(true);
        }
        t.are_new();
    }
    Ok(false)
}

// Takes what the constraint or lemma at a place says.
fn exhaust_one(f: &Formula, lemmas: &[Lemma], i: u32, t: &mut Trail) -> Result<bool, Memory>
    requires within { Within f.now }
    requires earlier { lemmas_within f.now.variables lemmas.now ≡ true }
    requires same { t.old.variables ≡ f.now.variables }
    requires few { length f.now.constraints + length lemmas.now < 2 ^ 32 }
    requires low { i < length f.now.constraints + length lemmas.now }
    ensures variables { t.new.variables ≡ t.old.variables }
    ensures added { Added (citable f.now.constraints lemmas.now) t.old.entries t.new.entries }
    ensures end { (c : AnyConstraint) → slice_get (citable f.now.constraints lemmas.now) i ≡ Some c → Exhausted (known_from t.new.entries) c result }
{
    let count = f.constraints.len();
    let place = i as usize;
    if place >= count {
        let lits = lemmas[place - count].lits.as_slice();
        return exhaust_clause(lits, i + 1, t);
    }
    exhaust(f.constraints.at(place), i + 1, t)
}

// Takes what the clauses with fewer than two literals say.
fn look_shorts(
    w: &Watches,
    f: &Formula,
    lemmas: &[Lemma],
    t: &mut Trail,
) -> Result<Option<u32>, Memory>
    requires within { Within f.now }
    requires earlier { lemmas_within f.now.variables lemmas.now ≡ true }
    requires same { t.old.variables ≡ f.now.variables }
    requires few { length f.now.constraints + length lemmas.now < 2 ^ 32 }
    requires paired { length w.now.pairs ≡ length f.now.constraints + length lemmas.now }
    requires held { AllHeld w.now (citable f.now.constraints lemmas.now) }
    requires short { (w.now.seen ≡ 0) ⊎ ShortSet (known_from t.old.entries) (citable f.now.constraints lemmas.now) }
    ensures variables { t.new.variables ≡ t.old.variables }
    ensures added { Added (citable f.now.constraints lemmas.now) t.old.entries t.new.entries }
    ensures short { IfOk result (λ r. IfNone r (ShortSet (known_from t.new.entries) (citable f.now.constraints lemmas.now))) }
    ensures clash { IfOk result (λ r. IfSome r (λ h. step_cited (known_from t.new.entries) (cited (citable f.now.constraints lemmas.now) h) ≡ Contradiction)) }
{
    if w.seen != 0 {
        return Ok(None);
    }
    t.are_new();
    for i in 0..w.pairs.len() {
        if w.pairs.at(i).is_some() {
            continue;
        }
        if exhaust_one(f, lemmas, i as u32, t)? {
            return Ok(Some(i as u32 + 1));
        }
        t.are_new();
    }
    Ok(None)
}

// Looks at each entry until all were looked at, or to a contradiction, whose hint is given.
pub(crate) fn settle(
    w: &mut Watches,
    f: &Formula,
    lemmas: &[Lemma],
    t: &mut Trail,
) -> Result<Option<u32>, Memory>
    requires within { Within f.now }
    requires earlier { lemmas_within f.now.variables lemmas.now ≡ true }
    requires once { OnceAll (citable f.now.constraints lemmas.now) }
    requires same { t.old.variables ≡ f.now.variables }
    requires few { length f.now.constraints + length lemmas.now < 2 ^ 32 }
    requires ready { Ready w.old f.now lemmas.now t.old.entries }
    ensures variables { t.new.variables ≡ t.old.variables }
    ensures added { Added (citable f.now.constraints lemmas.now) t.old.entries t.new.entries }
    ensures kept { IfOk result (λ r. Steady w.new f.now lemmas.now t.new.entries) }
    ensures ready { IfOk result (λ r. IfNone r (Ready w.new f.now lemmas.now t.new.entries)) }
    ensures seen { IfOk result (λ r. IfNone r (w.new.seen ≡ length t.new.entries)) }
    ensures end { IfOk result (λ r. Settled (citable f.now.constraints lemmas.now) t.new.entries r) }
{
    t.are_new();
    if let Some(hint) = look_shorts(w, f, lemmas, t)? {
        return Ok(Some(hint));
    }
    t.are_new();
    while w.seen < t.len() {
        let l = t.entry(w.seen).lit.opposite();
        if let Some(hint) = visit(w, f, lemmas, l, t)? {
            return Ok(Some(hint));
        }
        w.seen += 1;
        t.are_new();
    }
    Ok(None)
}

// No constraint, over so many variables.
pub(crate) fn no_watches(alloc: Global, n: u32) -> Result<Watches, Memory>
    ensures rows { IfOk result (λ w. n * 2 + 2 ≤ length w.rows) }
    ensures none { IfOk result (λ w. (r : ℕ) → row_at w.rows r ≡ []) }
    ensures pairs { IfOk result (λ w. w.pairs ≡ []) }
    ensures seen { IfOk result (λ w. w.seen ≡ 0) }
{
    Ok(Watches {
        rows: Rows::empty(alloc, n as usize * 2 + 2)?,
        pairs: Pairs::new(alloc),
        seen: 0,
    })
}

// The trail was cut at a decision: of what is left all was looked at.
pub(crate) fn cut_to(w: &mut Watches, len: u32)
    ensures rows { w.new.rows ≡ w.old.rows }
    ensures pairs { w.new.pairs ≡ w.old.pairs }
    ensures seen { w.new.seen ≡ len }
{
    w.seen = len;
}

// Adds a clause. It watches its last two.
pub(crate) fn add_clause(w: &mut Watches, n: u32, lits: &[Lit]) -> Result<(), Memory>
    requires within { LitsWithin n lits.now }
    requires once { Once lits.now }
    requires rows { n * 2 + 2 ≤ length w.old.rows }
    requires few { length w.old.pairs < 2 ^ 32 }
    ensures len { length w.new.rows ≡ length w.old.rows }
    ensures seen { w.new.seen ≡ w.old.seen }
    ensures adds { OnOk result (Adds w.old w.new (Clause lits.now)) }
{
    let i = w.pairs.len() as u32;
    let len = lits.len();
    if len < 2 {
        w.pairs.push_none()?;
        return Ok(());
    }
    let first = lits[len - 1];
    let second = lits[len - 2];
    let one = Watcher {
        place: i,
        block: second,
    };
    let two = Watcher {
        place: i,
        block: first,
    };
    w.rows.add(row(first), one)?;
    w.rows.add(row(second), two)?;
    w.pairs.push(Pair { first, second })?;
    Ok(())
}

// Adds a group. It watches the opposites of all its variables.
fn add_group(w: &mut Watches, n: u32, variables: &[u32]) -> Result<(), Memory>
    requires within { VarsWithin n variables.now }
    requires rows { n * 2 + 2 ≤ length w.old.rows }
    requires few { length w.old.pairs < 2 ^ 32 }
    ensures len { length w.new.rows ≡ length w.old.rows }
    ensures seen { w.new.seen ≡ w.old.seen }
    ensures adds { OnOk result (Adds w.old w.new (AtMostOne variables.now)) }
{
    let i = w.pairs.len() as u32;
    for x in variables {
        let denied = Lit {
            variable: *x,
            positive: false,
        };
        let watcher = Watcher {
            place: i,
            block: denied,
        };
        w.rows.add(row(denied), watcher)?;
    }
    w.pairs.push_none()?;
    Ok(())
}

// Adds a constraint.
fn add_constraint(w: &mut Watches, n: u32, c: Lent<'_>) -> Result<(), Memory>
    requires within { ConstraintWithin n (shows c) }
    requires once { ItemsOnce (shows c) }
    requires rows { n * 2 + 2 ≤ length w.old.rows }
    requires few { length w.old.pairs < 2 ^ 32 }
    ensures len { length w.new.rows ≡ length w.old.rows }
    ensures seen { w.new.seen ≡ w.old.seen }
    ensures adds { OnOk result (Adds w.old w.new (shows c.entry)) }
{
    match c {
        Lent::Clause(lits) => add_clause(w, n, lits),
        Lent::AtMostOne(variables) => add_group(w, n, variables),
    }
}

// Adds the constraints of a formula.
fn watch_constraints(alloc: Global, f: &Formula) -> Result<Watches, Memory>
    requires within { Within f.now }
    requires once { OnceAll f.now.constraints }
    requires few { length f.now.constraints < 2 ^ 32 }
    ensures fitting { IfOk result (λ w. Fitting w f.now []) }
    ensures seen { IfOk result (λ w. w.seen ≡ 0) }
{
    let mut w = no_watches(alloc, f.variables)?;
    for i in 0..f.constraints.len() {
        add_constraint(&mut w, f.variables, f.constraints.at(i))?;
    }
    Ok(w)
}

// Adds the constraints of a formula, and the lemmas of a log.
pub(crate) fn watch_all(alloc: Global, f: &Formula, lemmas: &[Lemma]) -> Result<Watches, Memory>
    requires within { Within f.now }
    requires once { OnceAll f.now.constraints }
    requires earlier { lemmas_within f.now.variables lemmas.now ≡ true }
    requires filled { Filled lemmas.now }
    requires few { length f.now.constraints + length lemmas.now < 2 ^ 32 }
    ensures fitting { IfOk result (λ w. Fitting w f.now lemmas.now) }
    ensures seen { IfOk result (λ w. w.seen ≡ 0) }
{
    let mut w = watch_constraints(alloc, f)?;
    for i in 0..lemmas.len() {
        add_clause(&mut w, f.variables, lemmas[i].lits.as_slice())?;
    }
    Ok(w)
}

// Adds the last lemma.
pub(crate) fn watch_last(w: &mut Watches, n: u32, lemmas: &[Lemma]) -> Result<(), Memory>
    requires within { lemmas_within n lemmas.now ≡ true }
    requires filled { Filled lemmas.now }
    requires some { 0 < length lemmas.now }
    requires rows { n * 2 + 2 ≤ length w.old.rows }
    requires few { length w.old.pairs < 2 ^ 32 }
    ensures len { length w.new.rows ≡ length w.old.rows }
    ensures seen { w.new.seen ≡ w.old.seen }
    ensures adds { OnOk result ((d : AnyLemma) → Adds w.old w.new (Clause (slice_index_or lemmas.now (length lemmas.now - 1) d).lits)) }
{
    let last = lemmas.len() - 1;
    add_clause(w, n, lemmas[last].lits.as_slice())
}

// Adds to the trail the last literal of a clause, which the clause makes true.
fn say(lits: &[Lit], hint: u32, t: &mut Trail) -> Result<(), Memory>
    requires within { LitsWithin t.old.variables lits.now }
    requires speaks { Speaks (known_from t.old.entries) lits.now }
    ensures variables { t.new.variables ≡ t.old.variables }
    ensures added { (all : List AnyConstraint) → cited all hint ≡ Some (Clause lits.now) → Added all t.old.entries t.new.entries }
    ensures spoke { OnOk result (Spoke t.old.entries t.new.entries lits.now) }
{
    let end = lits.len() - 1;
    let lit = lits[end];
    t.push(lit, Why::Hint(hint))
}

// Adds to the trail what the last lemma makes true.
pub(crate) fn say_last(f: &Formula, lemmas: &[Lemma], t: &mut Trail) -> Result<(), Memory>
    requires within { lemmas_within t.old.variables lemmas.now ≡ true }
    requires some { 0 < length lemmas.now }
    requires few { length f.now.constraints + length lemmas.now < 2 ^ 32 }
    requires speaks { (d : AnyLemma) → Speaks (known_from t.old.entries) (slice_index_or lemmas.now (length lemmas.now - 1) d).lits }
    ensures variables { t.new.variables ≡ t.old.variables }
    ensures added { Added (citable f.now.constraints lemmas.now) t.old.entries t.new.entries }
    ensures spoke { OnOk result ((d : AnyLemma) → Spoke t.old.entries t.new.entries (slice_index_or lemmas.now (length lemmas.now - 1) d).lits) }
{
    let count = f.constraints.len();
    let last = lemmas.len() - 1;
    let lits = lemmas[last].lits.as_slice();
    say(lits, (count + last) as u32 + 1, t)
}
