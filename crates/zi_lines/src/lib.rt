//! Lines of questions with their answers, as the programs of rows read and write them: a sheet that answers are put on, and the pieces of a
//! line.
#![tactic(auto)]

mod pieces;
mod sheet;

pub use pieces::{halves, quoted, take_numbers};
pub use sheet::Sheet;
