//! Why implementations that the feeds of an interface have are no candidates for it: of six reasons the first that holds. Each
//! implementation is a candidate or has one (`laws`).
//!
//! Read specs/Refused.antt (the reasons, over what zi_universe says of candidates) and Words.antt (their text). Code: `terms` (by what
//! implementations are judged), `standing` (what decides of one), `refusing` (`refused`, feed by feed), `writing` (its text).
#![tactic(auto)]

pub mod laws;
mod refusal;
mod refusing;
mod standing;
mod terms;
mod writing;

pub use refusal::{Reason, Refusal};
pub use refusing::refused;
pub use terms::Terms;
pub use writing::put_refusals;
