//! Whether values make a formula true.
//! Each constraint is looked at once, item by item, in place.
//! The values are read by the variables' numbers, the first being that of the variable 1.

ghost use Rattle.std.specs.Prelude.{◌≡◌, ◌≤◌, length};
ghost use Rattle.zi_formula.specs.Truth.{lit_true, clause_true, none_true, group_true, constraint_true, all_true, assigned};
ghost use Rattle.zi_formula.specs.Lent.{shows};
ghost use Rattle.zi_formula.specs.Form.{LitsWithin, VarsWithin, ConstraintWithin, WellFormed};

use crate::{Formula, Lent, Lit};

fn is_true(values: &[bool], l: Lit) -> bool
    requires low { 1 ≤ l.variable }
    requires high { l.variable ≤ length values.now }
    ensures { result ≡ lit_true (assigned values.now) l }
{
    values[l.variable as usize - 1] == l.positive
}

fn clause_is_true(lits: &[Lit], values: &[bool]) -> bool
    requires { LitsWithin (length values.now) lits.now }
    ensures { result ≡ clause_true (assigned values.now) lits.now }
{
    for l in lits {
        if is_true(values, *l) {
            return true;
        }
    }
    false
}

fn group_is_true(variables: &[u32], values: &[bool]) -> bool
    requires { VarsWithin (length values.now) variables.now }
    ensures { result ≡ group_true (assigned values.now) variables.now }
{
    let mut found = false;
    for x in variables {
        if values[*x as usize - 1] {
            if found {
                return false;
            }
            found = true;
        }
    }
    true
}

fn constraint_is_true(c: Lent<'_>, values: &[bool]) -> bool
    requires { ConstraintWithin (length values.now) (shows c) }
    ensures { result ≡ constraint_true (assigned values.now) (shows c.entry) }
{
    match c {
        Lent::Clause(lits) => clause_is_true(lits, values),
        Lent::AtMostOne(variables) => group_is_true(variables, values),
    }
}

/// Whether the values, one for each variable from 1 on, make every constraint true.
/// It takes no memory, and its work is linear in the formula's literals.
pub fn models(f: &Formula, values: &[bool]) -> bool
    requires formed { WellFormed f.now }
    requires each { length values.now ≡ f.now.variables }
    ensures { result ≡ all_true (assigned values.now) f.now.constraints }
{
    for i in 0..f.constraints.len() {
        if !constraint_is_true(f.constraints.at(i), values) {
            return false;
        }
    }
    true
}
