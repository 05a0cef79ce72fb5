//! Which implementations may be used, and which stands before which.
//! Both follow the order of preference that the documentation of the 0install solver publishes, as this project narrows
//! it: five reasons by which one isn't usable, and fourteen components that rank the others. No call takes memory.
//!
//! The definitions are two tables: specs/Reasons.antt has a line for each reason, specs/Rank.antt a line for each component,
//! which says `smaller`, `greater` or `marked` (first the one with the mark); `in_turn` reads that table from the top. They
//! are closed to proofs above (`unfoldable`): a layer that sorts by `compare` cites `RankOrder.rank_total`, that the order is
//! total, and the law. The first dotted list of the version stands before the whole version, since packages go between.
//!
//! Code: `types` (what decides), `reasons` (`usable`), `languages`, `components` (the value of each), `rating` (what a policy makes
//! of one, computed once), `order` (`compare_rated` component by component, `compare` and `before`), `laws`. Who sorts rates each
//! implementation once, numbers its version once for all that share it (its first dotted list, and the whole), and compares by
//! ratings and numbers (`compare_numbered`).
#![tactic(auto)]

mod components;
mod languages;
pub mod laws;
mod order;
mod rating;
mod reasons;
mod types;

pub use languages::place_among;
pub use order::{before, compare, compare_numbered};
pub use rating::{Places, Rating, VersionNumber};
pub use reasons::usable;
pub use types::{Origin, Standing, WhyNot};
