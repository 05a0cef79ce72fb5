//! That the demonstration can be loaded and solved, whatever its number from 1 to 1,000: its loading is never refused, its constraints are
//! few enough for a search, and some choice from it is valid. The laws stand over the definitions that `zi_demo::universe_of`,
//! `zi_universe::load`, `zi_build::build` and `zi_solve::solve` cite.
//!
//! It has no code. specs/Solved has the statements. The proof goes over the rows of a table (RowLemmas), of which no address stands
//! twice (ApartLemmas). LikeLemmas says what is read of a text that was written; PieceLemmas, VersionLemmas and FeedLemmas what the feed
//! of a row's text says, and that it has no fault; LengthLemmas how long the text is; CandidateLemmas which candidates that gives, in
//! which order, and what they ask for. RightLemmas has that each row of the demonstration meets what these take.
//!
//! LoadLemmas has that feeds of which the first alone asks for others are loaded as a universe, FewLemmas how many literals the
//! constraints of such a universe have, WalkLemmas and ValidLemmas that the choice of the rows is valid. SolvedLemmas joins them.
#![tactic(auto)]

mod laws;

pub use laws::{demo_is_clear, demo_is_solvable};
