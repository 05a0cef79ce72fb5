//! What a feed says: its imports and its implementations, with everything that they take from their groups; or its fault.
//! The format is the Zero Install feed format. Contracts see a feed as plain data, and cite one definition of what a tree
//! says, by paths, and one table of faults; the code carries inherited values inward.
//!
//! What an implementation says is defined by its path from the root (specs/Impls.antt), over the elements that are read, each with
//! the elements around it (`zi_faults/specs/Sites.antt`); the fault is the least of a table of kinds at elements
//! (`zi_faults/specs/Faults.antt`); the whole is in Feeds.antt, and what of it is active under a policy in Active.antt. Nothing is
//! carried inward in these definitions.
//!
//! `walking` has the one walk over a feed. It lists the elements that are read, of which `finding` has the fault of the whole and the
//! imports, and makes the implementations, for which it keeps what stands along a path (`around`): what is said, what each group adds
//! (`along`), and what is made of what is said, once for the element that says it (`made`). `impls` has implementations and imports, `shares` what implementations share, by numbers (specs/Shares.antt), `from_tree`
//! the public calls, with the readers of single elements. They carry by the lemma of `zi_faults` (ImplLaws). `laws` has a law of
//! where implementations stand (specs/Places.antt).
#![tactic(auto)]

mod along;
mod around;
mod feed;
mod finding;
mod from_tree;
mod impls;
mod laws;
mod made;
mod natives;
mod shares;
mod walking;

pub use feed::Feed;
pub use from_tree::{binding_of, command_of, counts_as, counts_as_binding, dep_of, digests_of};
pub use laws::impls_are_in_order;
pub use shares::{Level, NativeNumbers, Numbers, ReadFeed, Shares};
