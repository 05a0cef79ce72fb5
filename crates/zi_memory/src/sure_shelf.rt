//! The shelf in memory that fails at no call that fits.

ghost use Rattle.std.specs.Prelude.{◌≡◌, ◌<◌, ◌-◌, ◌^◌, [], true};

use crate::held::Held;
use std::alloc::Global;
use zi_shelf::{Listed, Moved, Shelf, ShelfCall, ShelfFault, TopMade};
use zi_text::{List, Memory, Text};
use zi_tree::{RelPath, Tree};

/// A shelf in memory that is sure: its count of faults rises at a call that doesn't fit, and at no other. Where the count
/// stands at 2^64 - 2 such a call answers Memory. A `read` gives every byte from the offset on, up to `max` of them.
#[derive(Drop)]
pub struct SureShelf {
    held: Held,
    ghost keeps: { held.sure ≡ true },
    ghost unplanned: { held.fail.items ≡ [] },
    ghost below_end: { held.faults < 2 ^ 64 - 1 },
}

impl SureShelf {
    ghost use Rattle.std.specs.Prelude.{IfOk, OnErr, OnOk, option_copied, codes};
    ghost use Rattle.zi_memory.specs.InMemory.{sure_told, sure_faults, sure_root};
    ghost use Rattle.zi_shelf.specs.Told.{nothing_told, placed, tree_at};

    /// An empty shelf with the root `/store`, without a fault. It grows by this allocator.
    pub fn new(alloc: Global) -> SureShelf
        ensures told { sure_told result ≡ nothing_told }
        ensures root { sure_root result ≡ codes "/store" }
        ensures faults { sure_faults result ≡ 0 }
    {
        SureShelf {
            held: Held::new(alloc, None, true),
        }
    }

    /// The same with another root. Memory is the one refusal.
    pub fn with_root(alloc: Global, root: &str) -> Result<SureShelf, Memory>
        ensures told { IfOk result (λ m. sure_told m ≡ nothing_told) }
        ensures root { IfOk result (λ m. sure_root m ≡ root.now) }
        ensures faults { IfOk result (λ m. sure_faults m ≡ 0) }
    {
        let root = Text::from_str(alloc, root)?;
        Ok(SureShelf {
            held: Held::new(alloc, Some(root), true),
        })
    }

    /// Puts a settled top entry there, in the place of one that has the name. The record stays as it is. Where memory is
    /// refused nothing changes.
    pub fn place(&mut self, top: &str, tree: Tree) -> Result<(), Memory>
        ensures ok { OnOk result (sure_told self.new ≡ placed (sure_told self.old) top.now tree) }
        ensures err { OnErr result (sure_told self.new ≡ sure_told self.old) }
        ensures root { sure_root self.new ≡ sure_root self.old }
        ensures faults { sure_faults self.new ≡ sure_faults self.old }
    {
        self.held.place(top, tree)
    }

    /// The tree of a top entry. None exactly where there is no such entry.
    pub fn top(&self, name: &str) -> Option<&Tree>
        ensures { option_copied result ≡ tree_at (sure_told self.now) name.now }
    {
        self.held.top(name)
    }

    /// The record of the calls so far, the oldest first.
    pub fn calls(&self) -> &List<ShelfCall>
        ensures { result.now ≡ (sure_told self.now).calls }
    {
        &self.held.calls
    }
}

impl Shelf for SureShelf {
    ghost use Rattle.std.specs.Prelude.{Some, refl};
    ghost use Rattle.zi_memory.specs.InMemory.{sure_seen};
    ghost use Rattle.zi_memory.specs.Whole.{tells_trees};

    ghost seen = { sure_seen };

    ghost sure_is = { λ s h. record { keeps = tt; tells = refl; below_end = s.below_end } };

    ghost holds_trees = { λ s h. tells_trees s.held.entries.items s.held.pending.items s.held.calls s.held.whole };

    fn root(&self) -> &str {
        self.held.root()
    }

    fn names(&mut self) -> Result<List<Text>, ShelfFault> {
        self.held.names()
    }

    fn entries(&mut self, top: &str, path: &RelPath) -> Result<Listed, ShelfFault> {
        self.held.entries(top, path)
    }

    fn read(
        &mut self,
        top: &str,
        path: &RelPath,
        offset: u64,
        max: u32,
        into: &mut Vec<u8>,
    ) -> Result<(), ShelfFault> {
        self.held.read(top, path, offset, max, into)
    }

    fn target(&mut self, top: &str, path: &RelPath) -> Result<Text, ShelfFault> {
        self.held.target(top, path)
    }

    fn make_top(&mut self, name: &str) -> Result<TopMade, ShelfFault> {
        self.held.make_top(name)
    }

    fn make_folder(&mut self, top: &str, path: &RelPath) -> Result<(), ShelfFault> {
        self.held.make_folder(top, path)
    }

    fn append(&mut self, top: &str, path: &RelPath, bytes: &[u8]) -> Result<(), ShelfFault> {
        self.held.append(top, path, bytes)
    }

    fn finish_file(
        &mut self,
        top: &str,
        path: &RelPath,
        exec: bool,
        mtime: i64,
    ) -> Result<(), ShelfFault> {
        self.held.finish_file(top, path, exec, mtime)
    }

    fn make_link(&mut self, top: &str, path: &RelPath, target: &str) -> Result<(), ShelfFault> {
        self.held.make_link(top, path, target)
    }

    fn settle(&mut self, top: &str) -> Result<(), ShelfFault> {
        self.held.settle(top)
    }

    fn rename(&mut self, from: &str, to: &str) -> Result<Moved, ShelfFault> {
        self.held.rename(from, to)
    }

    fn settle_top(&mut self) -> Result<(), ShelfFault> {
        self.held.settle_top()
    }

    fn remove_top(&mut self, name: &str) -> Result<(), ShelfFault> {
        self.held.remove_top(name)
    }
}
