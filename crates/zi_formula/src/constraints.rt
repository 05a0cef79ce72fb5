//! Constraints one after another, held flat: the literals of all clauses in one place, the variables of all groups in
//! another, and where each constraint ends. So a clause takes 8 bytes more than its literals, which take 8 each.
//! Contracts see the list of the constraints.

ghost use Rattle.std.specs.Prelude.{◌≡◌, ◌≤◌, ◌<◌, ◌+◌, ◌++◌, ◌∷◌, [], ◌↔◌, length, IsTrue, IfOk, OnOk, OnErr, take, slice_get, slice_range, Some};
ghost use Rattle.std.specs.List.{All};
ghost use Rattle.zi_formula.specs.declared.formula.Constraint.TheVariants as constraint;
ghost use Rattle.zi_formula.specs.Places.{IsThere, lits_to, lits_after};

use crate::Lit;
use std::alloc::Global;
use std::marker::Model;
use zi_text::Memory;

/// A constraint whose items are lent.
#[derive(Clone, Copy, Debug)]
pub enum Lent<'a> {
    /// At least one of these literals is true.
    Clause(&'a [Lit]),
    /// At most one of these variables is true.
    AtMostOne(&'a [u32]),
}

/// Where a constraint ends.
#[derive(Clone, Copy, Debug)]
pub(crate) enum End {
    /// A clause, behind so many literals of clauses.
    Clause(u32),
    /// The group of this number, the first being 0.
    AtMostOne(u32),
}

/// Where a group stands.
#[derive(Clone, Copy, Debug)]
pub(crate) struct Group {
    /// How many literals the clauses before it have.
    pub lits: u32,
    /// The place of its first variable.
    pub start: u32,
    /// The place behind its last variable.
    pub end: u32,
}

/// A list of constraints, which contracts see as such. It holds fewer than 2^32 literals, and as many variables of groups.
#[derive(Debug)]
pub struct Constraints {
    lits: Vec<Lit>,
    variables: Vec<u32>,
    groups: Vec<Group>,
    ends: Vec<End>,
}

impl Drop for Constraints {
    fn drop(self) {
        let Constraints {
            lits: _,
            variables: _,
            groups: _,
            ends: _,
        } = self;
    }
}

impl Model for Constraints {
    ghost use Rattle.std.specs.Prelude.{List};
    ghost use Rattle.zi_formula.specs.declared.formula.Constraint.{Constraint};

    ghost Value = { List Constraint };

    ghost use Rattle.zi_formula.specs.Flat.{constraints_of, IsFlat};

    ghost view = { constraints_of };

    ghost invariant = { IsFlat };
}

// How many literals the clauses up to an end have.
fn lits_to(groups: &[Group], end: End) -> u32
    requires { IsThere groups.now end }
    ensures { result ≡ lits_to groups.now end }
{
    match end {
        End::Clause(lits) => lits,
        End::AtMostOne(number) => groups[number as usize].lits,
    }
}

// How many literals the clauses before a place have.
fn lits_before(groups: &[Group], ends: &[End], i: usize) -> u32
    requires place { i ≤ length ends.now }
    requires there { All (IsThere groups.now) ends.now }
    ensures { result ≡ lits_after groups.now 0 (take i ends.now) }
{
    if i == 0 {
        0
    } else {
        lits_to(groups, ends[i - 1])
    }
}

// The items from a place to another.
fn part<T>(items: &[T], start: u32, end: u32) -> &[T]
    requires low { start ≤ end }
    requires high { end ≤ length items.now }
    ensures { result.now ≡ slice_range items.now start end }
{
    &items[start as usize..end as usize]
}

// So many and so many more, where 32 bits hold their number.
fn place_behind(len: usize, more: usize) -> Result<u32, Memory>
    ensures { IfOk result (λ place. place ≡ len + more) }
{
    let most = u32::MAX as usize;
    if len > most || more > most - len {
        return Err(Memory);
    }
    Ok((len + more) as u32)
}

impl Constraints {
    /// No constraints, which grow by this allocator.
    pub fn new(alloc: Global) -> Constraints
        ensures { result ≡ [] }
    {
        Constraints {
            lits: Vec::new(alloc),
            variables: Vec::new(alloc),
            groups: Vec::new(alloc),
            ends: Vec::new(alloc),
        }
    }

    /// How many constraints there are.
    pub fn len(&self) -> usize
        ensures { result ≡ length self.now }
    {
        self.ends.len()
    }

    /// Whether there is none.
    pub fn is_empty(&self) -> bool
        ensures { IsTrue result ↔ (self.now ≡ []) }
    {
        self.len() == 0
    }
}

impl Constraints {
    ghost use Rattle.zi_formula.specs.Lent.{shows};

    /// The constraint at a place below the length, in constant time.
    pub fn at(&self, i: usize) -> Lent<'_>
        requires { i < length self.now }
        ensures { slice_get self.now i ≡ Some (shows result) }
    {
        let groups = self.groups.as_slice();
        let ends = self.ends.as_slice();
        prove!(i < ends.len());
        match ends[i] {
            End::Clause(end) => {
                let start = lits_before(groups, ends, i);
                Lent::Clause(part(self.lits.as_slice(), start, end))
            }
            End::AtMostOne(number) => {
                let group = groups[number as usize];
                Lent::AtMostOne(part(self.variables.as_slice(), group.start, group.end))
            }
        }
    }

    /// Gives back the room in which it could grow.
    pub fn fit(&mut self)
        ensures { self.new ≡ self.old }
    {
        self.lits.shrink_to_fit();
        self.variables.shrink_to_fit();
        self.groups.shrink_to_fit();
        self.ends.shrink_to_fit();
    }

    /// Adds a constraint at the end, as `push_clause` or `push_group` does.
    pub fn push(&mut self, c: Lent<'_>) -> Result<(), Memory>
        ensures ok { OnOk result (self.new ≡ self.old ++ shows c.entry ∷ []) }
        ensures err { OnErr result (self.new ≡ self.old) }
    {
        match c {
            Lent::Clause(lits) => self.push_clause(lits),
            Lent::AtMostOne(variables) => self.push_group(variables),
        }
    }

    /// Adds a clause at the end. Where memory is refused, or with these literals there would be 2^32 or more, the list stays
    /// as it was.
    pub fn push_clause(&mut self, lits: &[Lit]) -> Result<(), Memory>
        ensures ok { OnOk result (self.new ≡ self.old ++ constraint.Clause lits.now ∷ []) }
        ensures err { OnErr result (self.new ≡ self.old) }
    {
        let end = place_behind(self.lits.len(), lits.len())?;
        self.ends.reserve(1)?;
        self.lits.extend_from_slice(lits)?;
        self.ends.push_reserved(End::Clause(end));
        Ok(())
    }

    /// Adds a group at the end. Where memory is refused, or with these variables there would be 2^32 or more in groups, the
    /// list stays as it was.
    pub fn push_group(&mut self, variables: &[u32]) -> Result<(), Memory>
        ensures ok { OnOk result (self.new ≡ self.old ++ constraint.AtMostOne variables.now ∷ []) }
        ensures err { OnErr result (self.new ≡ self.old) }
    {
        let number = place_behind(self.groups.len(), 0)?;
        let lits = place_behind(self.lits.len(), 0)?;
        let start = place_behind(self.variables.len(), 0)?;
        let end = place_behind(self.variables.len(), variables.len())?;
        self.ends.reserve(1)?;
        self.groups.reserve(1)?;
        self.variables.extend_from_slice(variables)?;
        self.groups.push_reserved(Group { lits, start, end });
        self.ends.push_reserved(End::AtMostOne(number));
        Ok(())
    }
}
