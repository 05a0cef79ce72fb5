//! The small types that contracts see as lists: a text, bytes, a list, and the fault of refused memory.
//! Beside them stand the definitions that every reader cites: the place at which a text stops being right, a text cut at
//! a separator, decimal numerals.
//!
//! specs/Front.antt says once, for all readers, what the place of a fault is: the length of the longest front of the input
//! that is also a front of some right input. Read it first; specs/Numeral.antt and Pieces.antt have numerals and texts that
//! are cut.
#![tactic(auto)]

mod bytes;
mod held;
mod list;
mod memory;
mod numerals;
mod text;

pub use bytes::Bytes;
pub use list::List;
pub use memory::Memory;
pub use numerals::numeral;
pub use text::Text;
