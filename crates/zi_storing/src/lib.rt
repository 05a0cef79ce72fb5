//! The commands on the store: `store list` (`names`), `manifest` (`manifests`), `store verify` (`checked`, `difference`) and
//! `store add` (`gathering`, `adding`) and `store purge` (`purging`). Each is one call over the stores and what else it meets, and has
//! its definition in specs/: StoreList, ManifestCommand, StoreVerify, Adding, StorePurge.
//!
//! What is read is read in all stores, or in the first that has it; what is added goes to the one that is written, by
//! `zi_adding`, as what is fetched does, and what is taken away goes from that one, by `zi_purging`.
#![tactic(auto)]

mod adding;
mod checked;
mod difference;
mod gathering;
mod manifests;
mod names;
mod purging;

pub use adding::add;
pub use checked::verify_tree;
pub use manifests::manifest;
pub use names::list;
pub use purging::purge;
