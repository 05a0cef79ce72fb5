//! The constraints of a universe and a requirement, and what they say of choices: a choice is valid exactly where it is part
//! of a model of them. Variables and constraints are numbered, since proofs cite them by their numbers.
//!
//! specs/Clauses.antt has the constraints by what their literals say (`Var`, `Says`, `Rule`), kind by kind, and the formula
//! by numbers last; Laws.antt what they say of choices. proofs: Read (the list says what the families of facts in Meaning
//! say), ValidMeans and MeansValid (a valid choice gives an assignment of them, and a choice of true candidates that has all
//! on its walk is valid), Model (a model cut to what its walk reaches), Numbers (what stands at a variable's number), Central
//! (the laws); Shapes and Table are for the layers above.
//!
//! Code: `variables` (the numbers as a table), `writing` (the literals so far, and the constraints where they are kept),
//! `kinds` (a function for each kind of constraint), `building` (`build`). `build` goes over the constraints twice: first it
//! counts their literals and keeps none, then it keeps them. specs/Writing.antt says what a writer holds: below the limit
//! exactly the constraints so far, and behind it that they are too many; each function says what it adds.
#![tactic(auto)]

mod building;
mod kinds;
pub mod laws;
mod variables;
mod writing;

pub use building::{BuildFault, build};
