//! Whether a formula is well formed, which every call that takes a formula asks for.
//! It is the test for formulas that come from elsewhere; one that is built by rules needs none.
//! It takes no memory: each item of a constraint is compared with the later ones of that constraint.

ghost use Rattle.std.specs.Prelude.{◌≡◌, ◌≤◌, ◌↔◌, IsTrue};
ghost use Rattle.zi_formula.specs.Form.{has_lit, has_variable, LitsWithin, VarsWithin, ConstraintWithin, Once, OnceVars, ItemsOnce, OnceAll, WellFormed};
ghost use Rattle.zi_formula.specs.Lent.{shows};
ghost use Rattle.std.specs.List.{All};

use crate::{Constraints, Formula, Lent, Lit};

fn has(lits: &[Lit], l: Lit) -> bool
    ensures { result ≡ has_lit lits.now l }
{
    for m in lits {
        if *m == l {
            return true;
        }
    }
    false
}

fn has_number(variables: &[u32], x: u32) -> bool
    ensures { result ≡ has_variable variables.now x }
{
    for y in variables {
        if *y == x {
            return true;
        }
    }
    false
}

fn is_in(x: u32, variables: u32) -> bool
    ensures { IsTrue result ↔ (1 ≤ x) × (x ≤ variables) }
{
    1 <= x && x <= variables
}

fn lits_are_within(lits: &[Lit], variables: u32) -> bool
    ensures { IsTrue result ↔ LitsWithin variables lits.now }
{
    lits.iter().all(|l| is_in(l.variable, variables))
}

fn group_is_within(group: &[u32], variables: u32) -> bool
    ensures { IsTrue result ↔ VarsWithin variables group.now }
{
    group.iter().all(|x| is_in(*x, variables))
}

fn is_within(c: Lent<'_>, variables: u32) -> bool
    ensures { IsTrue result ↔ ConstraintWithin variables (shows c.entry) }
{
    match c {
        Lent::Clause(lits) => lits_are_within(lits, variables),
        Lent::AtMostOne(group) => group_is_within(group, variables),
    }
}

fn lits_are_once(lits: &[Lit]) -> bool
    ensures { IsTrue result ↔ Once lits.now }
{
    let mut rest = lits;
    while let [l, later @ ..] = rest {
        if has(later, *l) {
            return false;
        }
        rest = later;
    }
    true
}

fn group_is_once(group: &[u32]) -> bool
    ensures { IsTrue result ↔ OnceVars group.now }
{
    let mut rest = group;
    while let [x, later @ ..] = rest {
        if has_number(later, *x) {
            return false;
        }
        rest = later;
    }
    true
}

fn is_once(c: Lent<'_>) -> bool
    ensures { IsTrue result ↔ ItemsOnce (shows c.entry) }
{
    match c {
        Lent::Clause(lits) => lits_are_once(lits),
        Lent::AtMostOne(group) => group_is_once(group),
    }
}

fn all_are_within(constraints: &Constraints, variables: u32) -> bool
    ensures { IsTrue result ↔ All (λ c. ConstraintWithin variables c) constraints.now }
{
    for i in 0..constraints.len() {
        if !is_within(constraints.at(i), variables) {
            return false;
        }
    }
    true
}

fn all_are_once(constraints: &Constraints) -> bool
    ensures { IsTrue result ↔ OnceAll constraints.now }
{
    for i in 0..constraints.len() {
        if !is_once(constraints.at(i)) {
            return false;
        }
    }
    true
}

/// Whether the variables of the constraints are among 1 to the formula's number of variables, no clause has a literal
/// twice and no group a variable twice, and the constraints are fewer than 2^32 - 1. The work is linear in the formula's
/// literals, and for each constraint in the square of their number.
pub fn is_well_formed(f: &Formula) -> bool
    ensures { IsTrue result ↔ WellFormed f.now }
{
    let constraints = &f.constraints;
    if constraints.len() >= u32::MAX as usize {
        return false;
    }
    all_are_within(constraints, f.variables) && all_are_once(constraints)
}
