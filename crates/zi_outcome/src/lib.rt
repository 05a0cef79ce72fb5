//! How a call of the program ends: its outcome, the exit status of that, and the line that tells it. Texts are put piece by
//! piece, and a contract says of each what the sink gained, whole or a front, and that memory was wanted or its count rose.
//!
//! `outcome` has the outcomes and their statuses, `line` puts the line of each (`tell`), `writing` puts a text.
//! specs/Line.antt has the line of each (`text_of`) and its status (`code_of`), Writing.antt what is promised of a text that
//! is put, Refused.antt the outcome of each refusal of a loading.
#![tactic(auto)]

mod line;
mod outcome;
mod writing;

pub use line::{put_around, tell};
pub use outcome::{Outcome, refused};
pub use writing::{put_piece, put_text};
