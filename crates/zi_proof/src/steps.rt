//! One hint: what a clause or a group makes of what is known.
//! A clause whose literals are all false, and a group with two true variables, is the contradiction.
//! A clause with one undecided literal and the rest false, and a group with one true variable, makes more known.

ghost use Rattle.std.specs.Prelude.{◌≡◌, ◌<◌, ◌≤◌, true, length};
ghost use Rattle.std.specs.List.{All};
ghost use Rattle.zi_formula.specs.Lent.{shows};
ghost use Rattle.zi_proof.specs.Cells.{known_by};
ghost use Rattle.zi_proof.specs.Known.{is_open, clause_step, group_step, by_true_ones, true_ones, deny, deny_all, step};
ghost use Rattle.zi_proof.specs.Taken.{outcome_of, taken_as, known_after, Held, many_of, AtOne};

use crate::marks::Marks;
use zi_formula::{Lent, Lit};

/// What a hint came to.
#[derive(Clone, Copy, Debug)]
pub enum Taken {
    /// It may not be taken.
    Fails,
    /// It is the contradiction.
    Contradiction,
    /// More is known now.
    Goes,
}

/// What the literals of a clause come to.
#[derive(Clone, Copy, Debug)]
pub enum Scan {
    /// All are false.
    AllFalse,
    /// This one is undecided and the rest are false.
    One(Lit),
    /// One is true, or two are undecided.
    Other,
}

/// How many variables of a group are true.
#[derive(Clone, Copy, Debug)]
pub enum Many {
    /// None is.
    None,
    /// One is.
    One,
    /// Two or more are.
    More,
}

/// Which literal isn't false, if it is one alone, and undecided.
pub fn look_through(lits: &[Lit], marks: &Marks) -> Scan
    requires { All (λ l. (1 ≤ l.variable) × (l.variable < length marks.now)) lits.now }
    ensures outcome { outcome_of (known_by marks.now) result ≡ clause_step (known_by marks.now) lits.now }
    ensures within { AtOne result (λ l. (1 ≤ l.variable) × (l.variable < length marks.now) × (is_open (known_by marks.now l.variable) ≡ true)) }
{
    let mut found = None;
    for l in lits {
        match marks.of(l.variable) {
            None => {
                if found.is_some() {
                    return Scan::Other;
                }
                found = Some(*l);
            }
            Some(sign) => {
                if sign == l.positive {
                    return Scan::Other;
                }
            }
        }
    }
    match found {
        None => Scan::AllFalse,
        Some(l) => Scan::One(l),
    }
}

/// Takes a clause as a hint.
pub fn take_clause(lits: &[Lit], marks: &mut Marks) -> Taken
    requires { All (λ l. (1 ≤ l.variable) × (l.variable < length marks.old)) lits.now }
    ensures kind { result ≡ taken_as (clause_step (known_by marks.old) lits.now) }
    ensures after { known_by marks.new ≡ known_after (known_by marks.old) (clause_step (known_by marks.old) lits.now) }
    ensures len { length marks.new ≡ length marks.old }
{
    match look_through(lits, marks) {
        Scan::AllFalse => Taken::Contradiction,
        Scan::One(l) => {
            marks.put(l);
            Taken::Goes
        }
        Scan::Other => Taken::Fails,
    }
}

/// How many of the variables are true.
pub fn count_true(variables: &[u32], marks: &Marks) -> Many
    requires { All (λ x. x < length marks.now) variables.now }
    ensures { result ≡ many_of (true_ones (known_by marks.now) variables.now) }
{
    let mut one = false;
    for x in variables {
        if marks.of(*x) == Some(true) {
            if one {
                return Many::More;
            }
            one = true;
        }
    }
    if one { Many::One } else { Many::None }
}

fn deny_one(x: u32, marks: &mut Marks)
    requires { x < length marks.old }
    ensures after { known_by marks.new ≡ deny (known_by marks.old) x }
    ensures len { length marks.new ≡ length marks.old }
{
    if marks.of(x).is_none() {
        marks.put(Lit {
            variable: x,
            positive: false,
        });
    }
}

/// Makes each variable false that is undecided.
pub fn deny_each(variables: &[u32], marks: &mut Marks)
    requires { All (λ x. x < length marks.old) variables.now }
    ensures after { known_by marks.new ≡ deny_all (known_by marks.old) variables.now }
    ensures len { length marks.new ≡ length marks.old }
{
    for x in variables {
        deny_one(*x, marks);
    }
}

/// Takes a group as a hint.
pub fn take_group(variables: &[u32], marks: &mut Marks) -> Taken
    requires { All (λ x. x < length marks.old) variables.now }
    ensures kind { result ≡ taken_as (group_step (known_by marks.old) variables.now) }
    ensures after { known_by marks.new ≡ known_after (known_by marks.old) (group_step (known_by marks.old) variables.now) }
    ensures len { length marks.new ≡ length marks.old }
{
    match count_true(variables, marks) {
        Many::None => Taken::Fails,
        Many::One => {
            deny_each(variables, marks);
            Taken::Goes
        }
        Many::More => Taken::Contradiction,
    }
}

/// Takes a constraint as a hint.
pub fn take_constraint(c: Lent<'_>, marks: &mut Marks) -> Taken
    requires { Held (length marks.old) (shows c) }
    ensures kind { result ≡ taken_as (step (known_by marks.old) (shows c.entry)) }
    ensures after { known_by marks.new ≡ known_after (known_by marks.old) (step (known_by marks.old) (shows c.entry)) }
    ensures len { length marks.new ≡ length marks.old }
{
    match c {
        Lent::Clause(lits) => take_clause(lits, marks),
        Lent::AtMostOne(variables) => take_group(variables, marks),
    }
}
