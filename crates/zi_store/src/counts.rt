//! How much of a tree was met so far, and the limits of that.

ghost use Rattle.std.specs.Prelude.{◌≡◌, ◌≤◌, ◌<◌, [], ◌∷◌, OnOk, OnErr, Err};
ghost use Rattle.zi_shelf.specs.declared.shelf.ShelfFault.{ShelfFault as Fault};
ghost use Rattle.zi_store.specs.Entries.{Walks};

use crate::stop::Stop;
use zi_tree::{DEPTH_LIMIT, NODES_LIMIT, SIZE_LIMIT, TreeLimit};

/// The files, links and folders met so far, and the bytes of the files, each within its limit.
#[derive(Clone, Copy)]
pub(crate) struct Counts {
    pub(crate) nodes: u64,
    pub(crate) bytes: u64,
    ghost few: { nodes ≤ 100000 },
    ghost small: { bytes ≤ 268435456 },
}

impl Counts {
    /// Nothing met.
    pub(crate) fn new() -> Counts
        ensures nodes { result.nodes ≡ 0 }
        ensures bytes { result.bytes ≡ 0 }
    {
        Counts { nodes: 0, bytes: 0 }
    }

    /// Whether one entry more may come.
    pub(crate) fn room(&self) -> Result<(), Stop>
        ensures ok { OnOk result (self.now.nodes < 100000) }
        ensures err { OnErr result ((result ≡ Err (Stop.TooLarge TreeLimit.Nodes)) × (100000 ≤ self.now.nodes)) }
    {
        if self.nodes >= NODES_LIMIT {
            return Err(Stop::TooLarge(TreeLimit::Nodes));
        }
        Ok(())
    }

    /// Counts a folder that is so deep.
    #[tactic(auto, using(crate::proofs::WalkLemmas::stops_depth, crate::proofs::WalkLemmas::walks_deeper))]
    pub(crate) fn folder(&mut self, depth: u64) -> Result<(), Stop>
        ensures walks { Walks tt (record { depth = depth; size = 0 } ∷ []) self.old.nodes self.old.bytes result self.new.nodes self.new.bytes }
        ensures depth { OnOk result (depth ≤ 64) }
        ensures fault { (fault : Fault) → result ≡ Err (Stop.Fault fault) → ⊥ }
    {
        if depth > DEPTH_LIMIT {
            return Err(Stop::TooLarge(TreeLimit::Depth));
        }
        self.leaf(0)
    }

    /// Counts a file of so many bytes, or with 0 a link.
    #[tactic(auto, using(crate::proofs::WalkLemmas::stops_nodes, crate::proofs::WalkLemmas::stops_size, crate::proofs::WalkLemmas::passes_one))]
    pub(crate) fn leaf(&mut self, size: u64) -> Result<(), Stop>
        ensures fault { (fault : Fault) → result ≡ Err (Stop.Fault fault) → ⊥ }
        ensures walks { Walks tt (record { depth = 0; size = size } ∷ []) self.old.nodes self.old.bytes result self.new.nodes self.new.bytes }
    {
        self.room()?;
        if size > SIZE_LIMIT - self.bytes {
            return Err(Stop::TooLarge(TreeLimit::Size));
        }
        *self = Counts {
            nodes: self.nodes + 1,
            bytes: self.bytes + size,
        };
        Ok(())
    }
}
