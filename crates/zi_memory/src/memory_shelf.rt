//! The shelf in memory, whose calls fail where it was told so.

ghost use Rattle.std.specs.Prelude.{◌≡◌, [], Some, IfOk, OnErr, OnOk, option_copied, codes};
ghost use Rattle.zi_memory.specs.InMemory.{shelf_told, shelf_faults, shelf_plan, shelf_root, shelf_seen};
ghost use Rattle.zi_memory.specs.Picked.{pick_of, IsPicked};
ghost use Rattle.zi_memory.specs.Crashing.{Crashes};
ghost use Rattle.zi_shelf.specs.Shelving.{Stays};
ghost use Rattle.zi_shelf.specs.Told.{nothing_told, placed, tree_at};

use crate::held::Held;
use std::alloc::Global;
use zi_shelf::{Listed, Moved, Shelf, ShelfCall, ShelfFault, TopMade};
use zi_text::{List, Memory, Text};
use zi_tree::{RelPath, Tree};

/// A shelf in memory. A call that was told to fail, or that doesn't fit, leaves it as it was and is recorded.
/// A `read` gives every byte from the offset on, up to `max` of them.
#[derive(Drop)]
pub struct MemoryShelf {
    held: Held,
}

impl MemoryShelf {
    /// An empty shelf with the root `/store`, without a fault. It grows by this allocator.
    pub fn new(alloc: Global) -> MemoryShelf
        ensures told { shelf_told result ≡ nothing_told }
        ensures root { shelf_root result ≡ codes "/store" }
        ensures plan { shelf_plan result ≡ [] }
        ensures faults { shelf_faults result ≡ 0 }
    {
        MemoryShelf {
            held: Held::new(alloc, None, false),
        }
    }

    /// The same with another root. Memory is the one refusal.
    pub fn with_root(alloc: Global, root: &str) -> Result<MemoryShelf, Memory>
        ensures told { IfOk result (λ m. shelf_told m ≡ nothing_told) }
        ensures root { IfOk result (λ m. shelf_root m ≡ root.now) }
        ensures plan { IfOk result (λ m. shelf_plan m ≡ []) }
        ensures faults { IfOk result (λ m. shelf_faults m ≡ 0) }
    {
        let root = Text::from_str(alloc, root)?;
        Ok(MemoryShelf {
            held: Held::new(alloc, Some(root), false),
        })
    }

    /// Sets the numbers of the calls that are to fail, counted from 1. Where memory is refused nothing changes.
    pub fn fail_at(&mut self, calls: &[u32]) -> Result<(), Memory>
        ensures plan { OnOk result (shelf_plan self.new ≡ calls.now) }
        ensures told { shelf_told self.new ≡ shelf_told self.old }
        ensures root { shelf_root self.new ≡ shelf_root self.old }
        ensures faults { shelf_faults self.new ≡ shelf_faults self.old }
        ensures err { OnErr result (shelf_plan self.new ≡ shelf_plan self.old) }
    {
        self.held.fail = Vec::from_slice(self.held.alloc, calls)?;
        Ok(())
    }

    /// Puts a settled top entry there, in the place of one that has the name. The record stays as it is. Where memory is
    /// refused nothing changes.
    pub fn place(&mut self, top: &str, tree: Tree) -> Result<(), Memory>
        ensures ok { OnOk result (shelf_told self.new ≡ placed (shelf_told self.old) top.now tree) }
        ensures err { OnErr result (shelf_told self.new ≡ shelf_told self.old) }
        ensures root { shelf_root self.new ≡ shelf_root self.old }
        ensures plan { shelf_plan self.new ≡ shelf_plan self.old }
        ensures faults { shelf_faults self.new ≡ shelf_faults self.old }
    {
        self.held.place(top, tree)
    }

    /// The tree of a top entry. None exactly where there is no such entry.
    pub fn top(&self, name: &str) -> Option<&Tree>
        ensures { option_copied result ≡ tree_at (shelf_told self.now) name.now }
    {
        self.held.top(name)
    }

    /// Leaves one of the outcomes of the crash model, by the three low bits of a number. Where bit 0 is set all pending renames
    /// are taken back, where bit 1 is set all pending removals are. They are taken back newest first, each entry goes at once to
    /// the oldest of its names that is taken back, and takes that name from what stood there. Where bit 2 is set all unsettled
    /// entries are gone before that, else they stay as they are. Nothing is pending afterwards, and the record stays as it is.
    /// Where memory is refused nothing changes.
    pub fn crash(&mut self, pick: u64) -> Result<(), Memory>
        ensures picked { OnOk result (IsPicked (pick_of pick) (shelf_told self.old).shelf (shelf_told self.new).shelf.tops) }
        ensures outcome { OnOk result (Crashes (shelf_seen self.old) (shelf_seen self.new)) }
        ensures err { OnErr result (shelf_told self.new ≡ shelf_told self.old) }
        ensures stays { Stays (shelf_seen self.old) (shelf_seen self.new) }
        ensures faults { shelf_faults self.new ≡ shelf_faults self.old }
    {
        self.held.crash(pick)
    }

    /// The record of the calls so far, the oldest first.
    pub fn calls(&self) -> &List<ShelfCall>
        ensures { result.now ≡ (shelf_told self.now).calls }
    {
        &self.held.calls
    }
}

impl Shelf for MemoryShelf {
    ghost use Rattle.zi_memory.specs.Whole.{tells_trees};

    ghost seen = { shelf_seen };

    ghost sure_is = { λ s h. absurd h };

    ghost holds_trees = { λ s h. tells_trees s.held.entries.items s.held.pending.items s.held.calls s.held.whole };

    fn root(&self) -> &str {
        self.held.root()
    }

    fn names(&mut self) -> Result<List<Text>, ShelfFault> {
        self.held.names()
    }

    fn entries(&mut self, top: &str, path: &RelPath) -> Result<Listed, ShelfFault> {
        self.held.entries(top, path)
    }

    fn read(
        &mut self,
        top: &str,
        path: &RelPath,
        offset: u64,
        max: u32,
        into: &mut Vec<u8>,
    ) -> Result<(), ShelfFault> {
        self.held.read(top, path, offset, max, into)
    }

    fn target(&mut self, top: &str, path: &RelPath) -> Result<Text, ShelfFault> {
        self.held.target(top, path)
    }

    fn make_top(&mut self, name: &str) -> Result<TopMade, ShelfFault> {
        self.held.make_top(name)
    }

    fn make_folder(&mut self, top: &str, path: &RelPath) -> Result<(), ShelfFault> {
        self.held.make_folder(top, path)
    }

    fn append(&mut self, top: &str, path: &RelPath, bytes: &[u8]) -> Result<(), ShelfFault> {
        self.held.append(top, path, bytes)
    }

    fn finish_file(
        &mut self,
        top: &str,
        path: &RelPath,
        exec: bool,
        mtime: i64,
    ) -> Result<(), ShelfFault> {
        self.held.finish_file(top, path, exec, mtime)
    }

    fn make_link(&mut self, top: &str, path: &RelPath, target: &str) -> Result<(), ShelfFault> {
        self.held.make_link(top, path, target)
    }

    fn settle(&mut self, top: &str) -> Result<(), ShelfFault> {
        self.held.settle(top)
    }

    fn rename(&mut self, from: &str, to: &str) -> Result<Moved, ShelfFault> {
        self.held.rename(from, to)
    }

    fn settle_top(&mut self) -> Result<(), ShelfFault> {
        self.held.settle_top()
    }

    fn remove_top(&mut self, name: &str) -> Result<(), ShelfFault> {
        self.held.remove_top(name)
    }
}
