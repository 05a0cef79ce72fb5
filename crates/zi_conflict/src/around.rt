//! From a valuation that makes all constraints true but one to others that make all true but another one.
//! Each such one can't be left out. One variable is given the other value at a time: one by which the false constraint becomes true and
//! one other alone false.
//! Nothing is promised of what is found: it decides which constraints are tried, and no more.

use crate::tries::Tries;
use std::alloc::Global;
use zi_formula::{Formula, Lent, Lit};
use zi_sat::Trail;
use zi_text::Memory;

// How often a constraint may be looked at, for each literal of the constraints.
const LOOKS: u64 = 256;

// Where the other value of a variable leads.
#[derive(Clone, Copy)]
struct Step {
    // The variable.
    variable: u32,
    // The constraint alone that is false then.
    number: u32,
    // The way with the least is taken: none where it is new that the constraint is needed, else how often it was the false one, and one.
    weight: u32,
}

/// A valuation of the variables, the kept constraints in which each variable stands, how often each constraint was the false one,
/// and how many looks are left.
#[derive(Drop)]
pub(crate) struct Around {
    values: Vec<bool>,
    rows: Vec<Vec<u32>>,
    passed: Vec<u32>,
    looks: u64,
}

// The values of a trail, that of no variable first.
fn values_of(alloc: Global, t: &Trail) -> Result<Vec<bool>, Memory> {
    let mut values = Vec::new(alloc);
    values.push(false)?;
    for k in 0..t.variables() {
        let lit = Lit {
            variable: k + 1,
            positive: true,
        };
        values.push(t.value(lit) == Some(true))?;
    }
    Ok(values)
}

// So many rows with nothing in them.
fn empty_rows(alloc: Global, len: usize) -> Result<Vec<Vec<u32>>, Memory> {
    let mut rows = Vec::new(alloc);
    for _i in 0..len {
        rows.push(Vec::new(alloc))?;
    }
    Ok(rows)
}

// So many zeros.
fn zeros(alloc: Global, len: usize) -> Result<Vec<u32>, Memory> {
    let mut counts = Vec::new(alloc);
    for _i in 0..len {
        counts.push(0)?;
    }
    Ok(counts)
}

impl Around {
    /// The valuation of a trail, around constraints of these numbers.
    pub fn new(alloc: Global, f: &Formula, numbers: &[u32], t: &Trail) -> Result<Around, Memory> {
        let values = values_of(alloc, t)?;
        let rows = empty_rows(alloc, values.len())?;
        let passed = zeros(alloc, f.constraints.len())?;
        let mut around = Around {
            values,
            rows,
            passed,
            looks: 0,
        };
        for n in numbers {
            around.put(f, *n)?;
        }
        Ok(around)
    }

    // The variable stands in the constraint of a number.
    fn put_in(&mut self, x: u32, n: u32) -> Result<(), Memory> {
        self.looks = self.looks.saturating_add(LOOKS);
        if let Some(row) = self.rows.get_mut(x as usize) {
            row.push(n)?;
        }
        Ok(())
    }

    // So do those of the constraint.
    fn put(&mut self, f: &Formula, n: u32) -> Result<(), Memory> {
        if n as usize >= f.constraints.len() {
            return Ok(());
        }
        match f.constraints.at(n as usize) {
            Lent::Clause(lits) => {
                for l in lits {
                    self.put_in(l.variable, n)?;
                }
            }
            Lent::AtMostOne(xs) => {
                for x in xs {
                    self.put_in(*x, n)?;
                }
            }
        }
        Ok(())
    }

    // Whether the variable is true.
    fn value(&self, x: u32) -> bool {
        match self.values.get(x as usize) {
            Some(value) => *value,
            None => false,
        }
    }

    // Gives the variable the other value.
    fn flip(&mut self, x: u32) {
        if let Some(value) = self.values.get_mut(x as usize) {
            *value = !*value;
        }
    }

    // Whether some literal is true.
    fn some_true(&self, lits: &[Lit]) -> bool {
        for l in lits {
            if self.value(l.variable) == l.positive {
                return true;
            }
        }
        false
    }

    // Whether at most one variable is true.
    fn few_true(&self, xs: &[u32]) -> bool {
        let mut is_one = false;
        for x in xs {
            if self.value(*x) {
                if is_one {
                    return false;
                }
                is_one = true;
            }
        }
        true
    }

    // Whether the constraint of a number is true.
    fn is_true(&self, f: &Formula, n: u32) -> bool {
        if n as usize >= f.constraints.len() {
            return true;
        }
        match f.constraints.at(n as usize) {
            Lent::Clause(lits) => self.some_true(lits),
            Lent::AtMostOne(xs) => self.few_true(xs),
        }
    }

    // How many constraints the variable stands in.
    fn row_len(&self, x: u32) -> usize {
        match self.rows.get(x as usize) {
            Some(row) => row.len(),
            None => 0,
        }
    }

    // The one constraint that is false of those in which the variable stands, if it is one alone.
    fn false_one(&self, f: &Formula, x: u32) -> Option<u32> {
        let row = self.rows.get(x as usize)?;
        let mut found = None;
        for n in row.as_slice() {
            if !self.is_true(f, *n) {
                if found.is_some() {
                    return None;
                }
                found = Some(*n);
            }
        }
        found
    }

    // The one that would be false instead of this one, if the variable had the other value.
    fn instead(&mut self, f: &Formula, at: u32, x: u32) -> Option<u32> {
        self.looks = self
            .looks
            .saturating_sub((self.row_len(x) as u64).saturating_add(1));
        self.flip(x);
        let found = if self.is_true(f, at) {
            self.false_one(f, x)
        } else {
            None
        };
        self.flip(x);
        found
    }

    // How often it was the false one, and one.
    fn weight_of(&self, n: u32) -> u32 {
        match self.passed.get(n as usize) {
            Some(count) => count.saturating_add(1),
            None => u32::MAX,
        }
    }

    // Takes the way of a variable's other value into account.
    fn weigh(&mut self, f: &Formula, at: u32, x: u32, tries: &mut Tries, best: &mut Option<Step>) {
        let Some(number) = self.instead(f, at, x) else {
            return;
        };
        let weight = if tries.find(number) {
            0
        } else {
            self.weight_of(number)
        };
        let is_better = match best {
            Some(other) => weight < other.weight,
            None => true,
        };
        if is_better {
            *best = Some(Step {
                variable: x,
                number,
                weight,
            });
        }
    }

    // The best way from a constraint that is false.
    fn best_step(&mut self, f: &Formula, at: u32, tries: &mut Tries) -> Option<Step> {
        let mut best = None;
        if at as usize >= f.constraints.len() {
            return None;
        }
        match f.constraints.at(at as usize) {
            Lent::Clause(lits) => {
                for l in lits {
                    self.weigh(f, at, l.variable, tries, &mut best);
                }
            }
            Lent::AtMostOne(xs) => {
                for x in xs {
                    self.weigh(f, at, *x, tries, &mut best);
                }
            }
        }
        best
    }

    // Goes a step.
    fn take(&mut self, step: Step) {
        self.flip(step.variable);
        if let Some(count) = self.passed.get_mut(step.number as usize) {
            *count = count.saturating_add(1);
        }
    }

    // Goes on until it comes to one that wasn't known to be needed, in at most so many steps.
    fn to_new(&mut self, f: &Formula, from: u32, tries: &mut Tries, steps: usize) -> Option<u32> {
        let mut at = from;
        for _step in 0..steps {
            if self.looks == 0 {
                return None;
            }
            let step = self.best_step(f, at, tries)?;
            self.take(step);
            at = step.number;
            if step.weight == 0 {
                return Some(at);
            }
        }
        None
    }

    /// Goes from the one constraint that is false to as many others as it finds, all of which are needed. It looks at 256 constraints at most for each
    /// literal of the constraints.
    pub fn go_round(&mut self, f: &Formula, from: u32, tries: &mut Tries, steps: usize) {
        let mut at = from;
        for _found in 0..steps {
            match self.to_new(f, at, tries, steps) {
                Some(n) => at = n,
                None => return,
            }
        }
    }
}
