//! Constraints, counted or written one after another.
ghost use Rattle.std.specs.Prelude.{◌≡◌, ◌≤◌, ◌<◌, ◌∷◌, ◌++◌, [], true, length, IfOk, OnOk};
ghost use Rattle.zi_formula.specs.declared.formula.Constraint.TheVariants.{Clause};
ghost use Rattle.zi_formula.specs.Lent.{shows};
ghost use Rattle.zi_choice.specs.Vars.{var_number};
ghost use Rattle.zi_build.specs.Clauses.{size_of, most_literals, lit_of};
ghost use Rattle.zi_build.specs.There.{Listed};
ghost use Rattle.zi_build.specs.Writing.{as_var, is_full, IsTable, Puts};

use crate::variables::{Variable, VariableTable};
use std::alloc::Global;
use std::mem;
use zi_choice::Names;
use zi_formula::{Constraints, Lent, Lit};
use zi_text::Memory;
use zi_universe::Universe;

/// The most literals that a formula may have.
pub(crate) const MOST_LITERALS: usize = 8_000_000;

/// Of what the constraints speak, and whether they are kept or counted alone.
#[derive(Clone, Copy)]
pub(crate) struct Plan<'u> {
    pub alloc: Global,
    pub keeps: bool,
    pub universe: &'u Universe,
    pub names: &'u Names<'u>,
    pub table: &'u VariableTable,
}

/// The literals of the constraints so far, and the constraints if they are kept. Behind the limit nothing more is counted.
#[derive(Drop)]
pub(crate) struct Writer {
    pub size: usize,
    pub constraints: Constraints,
    /// Those of the clause that comes next. Each clause is written in the same room.
    pub lits: Vec<Lit>,
}

/// No constraints, and none of a clause's literals.
pub(crate) fn no_constraints(alloc: Global) -> Writer
    ensures size { result.size ≡ 0 }
    ensures constraints { result.constraints ≡ [] }
{
    Writer {
        size: 0,
        constraints: Constraints::new(alloc),
        lits: Vec::new(alloc),
    }
}

// The number of literals that are counted.
fn size_of(c: Lent<'_>) -> usize
    ensures { result ≡ size_of (shows c.entry) }
{
    match c {
        Lent::Clause(lits) => lits.len(),
        Lent::AtMostOne(variables) => variables.len(),
    }
}

/// Whether the limit is passed.
pub(crate) fn is_full(w: &Writer) -> bool
    ensures { result ≡ is_full w.now }
{
    w.size > MOST_LITERALS
}

// Keeps a constraint, where they are kept.
fn keep(plan: &Plan, w: &mut Writer, c: Lent<'_>) -> Result<(), Memory>
    ensures size { OnOk result (w.new.size ≡ w.old.size) }
    ensures kept { OnOk result (plan.now.keeps ≡ true → w.new.constraints ≡ w.old.constraints ++ shows c.entry ∷ []) }
{
    if !plan.keeps {
        return Ok(());
    }
    w.constraints.push(c)?;
    Ok(())
}

/// Counts a constraint, and keeps it where they are kept.
pub(crate) fn put(plan: &Plan, w: &mut Writer, c: Lent<'_>) -> Result<(), Memory>
    ensures { OnOk result (Puts plan.now.keeps w.old (shows c.entry ∷ []) w.new) }
{
    if is_full(w) {
        return Ok(());
    }
    let more = size_of(c);
    if more > MOST_LITERALS - w.size {
        w.size = MOST_LITERALS + 1;
        return Ok(());
    }
    keep(plan, w, c)?;
    w.size += more;
    Ok(())
}

/// The number of a variable.
pub(crate) fn number(plan: &Plan, x: Variable) -> u32
    requires tabled { IsTable plan.now.universe.now plan.now.table.now }
    requires there { Listed plan.now.universe.now (as_var x) }
    ensures { result ≡ var_number plan.now.universe.now (as_var x) }
{
    let table = plan.table;
    match x {
        Variable::Choosing(i, c) => table.candidates.as_slice()[i as usize] + c,
        Variable::Using(i, c, m) => {
            table.commands.as_slice()[i as usize].as_slice()[c as usize] + m
        }
        Variable::SixtyFour => table.last,
    }
}

/// The literal that a variable holds, or doesn't.
pub(crate) fn lit(plan: &Plan, x: Variable, positive: bool) -> Lit
    requires tabled { IsTable plan.now.universe.now plan.now.table.now }
    requires there { Listed plan.now.universe.now (as_var x) }
    ensures { result ≡ lit_of plan.now.universe.now (record { of = as_var x; holds = positive }) }
{
    Lit {
        variable: number(plan, x),
        positive,
    }
}

/// Counts a clause of two literals, and keeps it where they are kept.
pub(crate) fn put_two(plan: &Plan, a: Lit, b: Lit, w: &mut Writer) -> Result<(), Memory>
    ensures { OnOk result (Puts plan.now.keeps w.old (Clause (a ∷ b ∷ []) ∷ []) w.new) }
{
    put(plan, w, Lent::Clause(&[a, b]))?;
    Ok(())
}

/// Counts the clause whose literals were written, and keeps it where they are kept.
pub(crate) fn put_clause(plan: &Plan, w: &mut Writer) -> Result<(), Memory>
    ensures { OnOk result (Puts plan.now.keeps w.old (Clause w.old.lits.items ∷ []) w.new) }
{
    let lits = mem::replace(&mut w.lits, Vec::new(plan.alloc));
    put(plan, w, Lent::Clause(lits.as_slice()))?;
    w.lits = lits;
    Ok(())
}
