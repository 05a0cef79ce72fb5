//! Where words of the command line stop being right: what may stand there, what to write instead, and what users of 0install write
//! there.
//!
//! `place` follows the words to the wrong one, by a place for each (specs/Places.antt has what each word leads to). `standings` says
//! what may stand at a place (Standing.antt), `advice` what to do (Advice.antt), and `formers` which words of 0install stand in its
//! table, and what zi has for each (Former.antt).
#![tactic(auto)]

mod advice;
mod formers;
mod place;
mod standings;

pub use advice::{Advice, advise};
pub use formers::former;
pub use place::{Argument, Behind, Place, wrong_at};
pub use standings::standing;
