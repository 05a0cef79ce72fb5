//! One adder of the shared store: a session adds one tree to a shelf.
//! It makes exactly one call of the shelf per step, the next of a list that its tree decides.
//! Several sessions on one shelf keep it sound, whatever the order of their steps.
//!
//! Adding a tree is a list of calls: `make_top` of the next temporary name until one is made, the calls that fill, `settle`,
//! `rename` to the digest name, then `settle_top` (Stored), or, where the name was there, `remove_top` and `settle_top`
//! (Present). After Failed an adder is ended by Fault; after Memory nothing has changed, and the same call comes next. The
//! calls that fill: for a folder its files and links in byte order, then each subfolder: the call that makes it, then those
//! for what is in it. A file is one call for each whole piece of 65,536 bytes that more bytes follow, one for what is left,
//! and one that sets the executable bit and the time; the file `.manifest` comes last. A phase is a position in that list
//! (`next_call`, `next_phase`).
//!
//! A session (`session`) keeps its digest name as a text, the whole list of its calls that fill (`work`), and where it
//! stands: a phase (`phase`), the number of its temporary name, how many calls are done, and the text of that name.
//! `stepping` has one method for each phase; each makes one call of the shelf and goes on as the answer says. The text of a
//! temporary name is made before the call that makes its entry, so a step that lacks memory for it has made no call, and no
//! later step takes memory of its own. `begin` says which tree may be added under which name, `works` and `files` list the
//! calls: specs/Works.antt says what the list is, by recursion on the tree, StoreWorks.antt which it is for a digest name,
//! Rebuilding.antt what the calls make.
//!
//! The machine of many adders stands in specs/Machine.antt: phases, the next call of a phase, the phase after a reply, the
//! events (an adder begins, makes its next call, stops; a crash, also within a call: before it, with the entry that it
//! touches unmarked, or after it; a call that makes an entry touches none). The invariant (`Inv`): the store is sound; each
//! pending rename is from a temporary name to a digest name that is there, each pending removal of a temporary name; each
//! running adder whose entry was made holds, under a temporary name that no other running adder owns, exactly the part of its
//! tree that its phase says, with the mark once it was settled; and an adder whose rename was answered has its name there.
//! Read it with Law.antt (what holds after every list of events), Invariant.antt, and StoreRules.antt (the store's own names
//! and trees). What is seen of a session is one record (Standing.antt), and `step` relates that and the shelf's before and
//! after (Stepping.antt), so no list of adders is in the code: the law `laws::step_is_event` carries a step to every list of
//! adders in which the session stands for one, and the clause `keeps` of `step` and `run` says of every such list that the
//! invariant is kept (Keeping.antt, Tie.antt).
//!
//! Somebody may take names away beside the adders. What an adder's calls keep is proved once, for any names that are being
//! purged (Beside.antt): of those nothing is promised, and what a crash may bring back under one of them is there, whole. The
//! machine of adders is the case in which none is.
//!
//! The proof of the law: one call moves only the entry that its adder owns, or makes, renames or removes it (CallsLemmas), so
//! the other adders' entries stay (MovingLemmas), and what a crash may bring back stays as it must be (PendingLemmas); what a
//! crash leaves under a digest name stood there, or is whole and being purged (CrashLemmas); every event of an adder keeps
//! what is said of the adders (AddersLemmas), and so the invariant (KeptLemmas); the store's own rules are lawful
//! (TiedLemmas). That the calls rebuild the tree goes by the entries that they place (Placing, Runs, Remade).
#![tactic(auto)]

pub mod alone_laws;
mod begin;
mod files;
pub mod laws;
mod phase;
mod put;
mod session;
mod step;
mod stepping;
mod work;
mod works;
pub mod works_laws;

pub use begin::BeginFault;
pub use session::Session;
pub use step::Step;
