//! The parts of a formula.
//! A literal is a variable or its opposite, a constraint is a clause or a group, a formula is a list of constraints.
//! The numbers of variables and of constraints begin at 1.

ghost use Rattle.std.specs.Prelude.{◌≡◌};
ghost use Rattle.zi_formula.specs.Truth.{opposite};

use crate::Constraints;
use zi_text::List;

/// A literal: a variable, by its number from 1 on, or its opposite.
#[derive(Clone, Copy, Debug, PartialEq, Eq)]
pub struct Lit {
    /// The variable's number.
    pub variable: u32,
    /// Whether the literal is the variable itself, and not its opposite.
    pub positive: bool,
}

/// What a formula asks of an assignment, as contracts speak of it: `Constraints` holds a list of these, and `Lent` shows one.
pub enum Constraint {
    /// At least one of these literals is true.
    Clause(List<Lit>),
    /// At most one of these variables is true.
    AtMostOne(List<u32>),
}

/// Constraints over the variables 1 to `variables`.
#[derive(Debug, Drop)]
pub struct Formula {
    /// How many variables there are.
    pub variables: u32,
    /// The constraints, of which the first has the number 1 where a proof cites it.
    pub constraints: Constraints,
}

impl Lit {
    /// The literal of the same variable that says the contrary.
    pub fn opposite(self) -> Lit
        ensures { result ≡ opposite self }
    {
        Lit {
            variable: self.variable,
            positive: !self.positive,
        }
    }
}
