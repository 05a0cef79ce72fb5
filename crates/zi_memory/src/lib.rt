//! The shelf in memory, for rows and tests: two forms of `zi_shelf::Shelf` that tell all that they hold.
//! `MemoryShelf` fails at the calls that were planned to fail, and may crash; `SureShelf` never fails at a call that fits.
//! Nothing of the program uses them.
//!
//! Both forms, `memory_shelf` and `sure_shelf`, hand each call on to one core (`held`), proved once; they differ in the plan of
//! faults and in the rule of the count. A call of the core takes all its memory first, is then recorded, and changes the shelf
//! last, by steps that take none; a filling call (`filling`) changes its tree last but one, by a step that leaves it as it was
//! where memory is refused, and its row is then taken out again. Top entries (`top_entry`) stand in byte order and are searched
//! by halves. specs: what the fields stand for (Memory.antt, Whole.antt), what is seen of both forms (InMemory.antt).
//!
//! A crash in memory (`crash`) goes once through what is pending, the oldest first, and keeps for each name the first rename
//! of what stands under it; then once through the entries. Each entry that may be left is offered to its name, where the one
//! with the oldest change stays: specs/Picked.antt says what that leaves, Comers.antt how it is found, Crashing.antt that this is
//! an outcome of the crash model of `zi_shelf`. Then all memory is there, and the trees move. proofs: FirstLemmas (the first
//! renames of an entry's names), ComingLemmas (the loops), PickedLemmas (what the pick leaves), OutcomeLemmas (that it is an
//! outcome of the crash model).
#![tactic(auto)]

mod crash;
mod filling;
mod held;
mod memory_shelf;
mod reading;
mod sure_shelf;
mod top_entry;

pub use memory_shelf::MemoryShelf;
pub use sure_shelf::SureShelf;
