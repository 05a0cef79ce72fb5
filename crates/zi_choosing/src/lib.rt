//! The commands that load a universe: `select` finds the best choice from it, or a proof that there is none,
//! `why` tells why each candidate that the best choice passes over isn't chosen, `conflict` which facts leave none, `check` says whether
//! selections are those of the best choice, `refute` whether a proof shows that there is none, and `demo` counts what the best
//! choice of a demonstration selects.
//! `find_best` is the beginning of the commands that do more with the best choice than to write it.
//! Each command is one function over the objects outside, whose clause says what each outcome means and what became of them.
//!
//! Each command has a file of its own: `selecting` (what it `shows`), `explaining`, `conflicting`, `checking` (with `named`, the choice that selections name, and `own`,
//! whether selections are those of a choice), `refuting`, `demonstrating` (with `counting`), `finding` (`find_best`,
//! which gives a `chosen`).
//! `asked` is what a command takes: what the words ask for, and the file with the table of packages. `wanted` takes the requirement and the
//! policy out of the first, `known` finds out which digests are in which store and then, by `table`, which packages the operating system
//! has, and loads over these; `file` gets one file.
//! Read specs/Table.antt, Knowing.antt and Loaded.antt, which have what they have in common, then Select.antt, Check.antt,
//! Refute.antt, Demo.antt and Finding.antt, each a case for each outcome with its cause; the `..Parts` are what the functions inside
//! promise one another.
#![tactic(auto)]

mod asked;
mod checking;
mod chosen;
mod conflicting;
mod counting;
mod demonstrating;
mod explaining;
mod file;
mod finding;
mod formula;
mod known;
mod named;
mod own;
mod refuting;
mod selecting;
mod shows;
mod table;
mod wanted;

pub use asked::Asked;
pub use checking::check;
pub use chosen::Chosen;
pub use conflicting::tell_conflict;
pub use demonstrating::demonstrate;
pub use explaining::explain;
pub use finding::find_best;
pub use known::{Known, find_names};
pub use refuting::refute;
pub use selecting::{put_document, select};
pub use shows::Shows;
