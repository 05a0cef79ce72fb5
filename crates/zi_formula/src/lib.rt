//! Constraints over numbered variables, and what it is to be a model of them.
//! A formula is a list of clauses, of which some literal is to be true, and of groups, of which at most one variable is.
//! Its variables are numbered from 1, as in DIMACS CNF; its constraints too, where a proof cites them.
//!
//! Read specs/Truth.antt first (what it is to be a model), then Form.antt (what a formula must be for a call to take it).
//! `constraints` holds a formula's constraints flat; specs/Lent.antt says what each that is lent is.
#![tactic(auto)]

mod constraints;
mod form;
mod formula;
mod truth;

pub use constraints::{Constraints, Lent};
pub use form::is_well_formed;
pub use formula::{Constraint, Formula, Lit};
pub use truth::models;
