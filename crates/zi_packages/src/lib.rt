//! The table of packages that the user hands in: which packages of the operating system there are, in which versions, and
//! whether they are installed; and what its rows make of the packages that a feed names.
//!
//! specs/Table.antt has the form of the text. `cut` cuts it into lines and a line into items, `items` has the tests of items, `rows`
//! reads a line, `reading` the whole; a bad text is told with the number of its first bad line. specs/Natives.antt has what rows make:
//! `named` is a row with its implementation, `by_package` the table with its rows found by their packages, `picking` finds which rows
//! join a feed's implementations, in linear time. `laws` has what holds of these as such.
#![tactic(auto)]

mod by_package;
mod cut;
mod fault;
mod items;
pub mod laws;
mod named;
mod picking;
mod reading;
mod rows;
mod types;

pub use by_package::Rows;
pub use fault::PackagesFault;
pub use named::{NamedRow, Pick};
pub use types::{PackageRow, Packages};
