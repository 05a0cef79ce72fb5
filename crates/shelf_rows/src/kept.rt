use std::alloc::Global;
use zi_folder::FolderShelf;
use zi_memory::{MemoryShelf, SureShelf};
use zi_shelf::{Shelf, ShelfCall};
use zi_text::{Memory, Text};
use zi_tree::Tree;

/// A shelf of one of three forms.
#[derive(Drop)]
pub(crate) enum Kept {
    /// One in memory that fails where it was planned.
    Planned(MemoryShelf),
    /// One in memory that never fails.
    Sure(SureShelf),
    /// One in a folder of the current one, which plans and records nothing.
    Real(FolderShelf),
}

impl Kept {
    /// A shelf of this form with this root, empty but for a real one that is to be as it is found.
    pub(crate) fn with_root(rt: HostRuntime, form: &str, root: &str) -> Result<Kept, Memory> {
        Ok(match form {
            "sure" => Kept::Sure(SureShelf::with_root(rt.alloc(), root)?),
            "real" => Kept::Real(emptied(rt, root)?),
            "found" => Kept::Real(FolderShelf::new(rt, Text::from_str(rt.alloc(), root)?)),
            _ => Kept::Planned(MemoryShelf::with_root(rt.alloc(), root)?),
        })
    }

    /// Sets a top entry of one in memory.
    pub(crate) fn place(&mut self, top: &str, tree: Tree) -> Result<(), Memory> {
        match self {
            Kept::Planned(shelf) => shelf.place(top, tree),
            Kept::Sure(shelf) => shelf.place(top, tree),
            Kept::Real(_) => Ok(()),
        }
    }

    /// Sets the numbers of the calls that fail, of one that fails where it was planned.
    pub(crate) fn fail_at(&mut self, calls: &[u32]) -> Result<(), Memory> {
        match self {
            Kept::Planned(shelf) => shelf.fail_at(calls),
            Kept::Sure(_) | Kept::Real(_) => Ok(()),
        }
    }

    /// Leaves what the bits of a number say of a crash; of one that never fails it leaves all.
    pub(crate) fn crash(&mut self, pick: u64) -> Result<(), Memory> {
        match self {
            Kept::Planned(shelf) => shelf.crash(pick),
            Kept::Sure(_) | Kept::Real(_) => Ok(()),
        }
    }

    /// A top entry of one in memory, where it is there.
    pub(crate) fn top(&self, name: &str) -> Option<&Tree> {
        match self {
            Kept::Planned(shelf) => shelf.top(name),
            Kept::Sure(shelf) => shelf.top(name),
            Kept::Real(_) => None,
        }
    }

    /// The calls so far of one in memory, the oldest first.
    pub(crate) fn calls(&self) -> &[ShelfCall] {
        match self {
            Kept::Planned(shelf) => shelf.calls().as_slice(),
            Kept::Sure(shelf) => shelf.calls().as_slice(),
            Kept::Real(_) => &[],
        }
    }
}

/// The shelf in a folder, without what an earlier run left there.
fn emptied(rt: HostRuntime, root: &str) -> Result<FolderShelf, Memory> {
    let mut shelf = FolderShelf::new(rt, Text::from_str(rt.alloc(), root)?);
    if let Ok(names) = shelf.names() {
        for name in names.as_slice() {
            let _gone = shelf.remove_top(name.as_str());
        }
    }
    Ok(shelf)
}
