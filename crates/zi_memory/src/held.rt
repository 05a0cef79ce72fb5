//! What the shelves in memory hold, and what each call does to it.
//! A call first takes all memory that it needs, then is recorded, and changes the shelf last.
//! So a call without memory has changed nothing and stands in no record.

ghost use Rattle.std.specs.Prelude.{◌≡◌, ◌<◌, ◌≤◌, ◌-◌, ◌^◌, ◌++◌, ◌∷◌, [], true, Some, nat_eq, option_copied, IfOk, OnOk, OnErr, refl};
ghost use Rattle.std.specs.List.{list_any};
ghost use Rattle.zi_memory.specs.Memory.{are_apart, are_trees, told_of, root_of, StaysSure};
ghost use Rattle.zi_text.specs.Count.{Rose};
ghost use Rattle.zi_shelf.specs.Told.{plain_call, nothing_told, placed, tree_at};

use crate::filling::Filling;
use crate::reading::{
    file_in, folder_in, link_in, listing_of, names_of, piece_of, put_piece, room_in, spelled_path,
};
use crate::top_entry::{Later, TopEntry, find_top, put_in, put_newest, room, room_for};
use std::alloc::Global;
use zi_shelf::{CallKind, Listed, Moved, Shelf, ShelfCall, ShelfFault, TopMade};
use zi_text::{Bytes, List, Memory, Text};
use zi_tree::{RelPath, Tree};

/// What a shelf in memory holds. Each call of it is that of both forms.
#[derive(Drop)]
pub struct Held {
    pub alloc: Global,
    /// None stands for `/store`.
    pub root: Option<Text>,
    /// In byte order of their names, each of which stands once.
    pub entries: Vec<TopEntry>,
    /// The newest one last.
    pub pending: Vec<Later>,
    pub calls: List<ShelfCall>,
    /// The numbers of the calls that are to fail, counted from 1.
    pub fail: Vec<u32>,
    pub faults: u64,
    /// Whether the count of faults stays below its end.
    pub sure: bool,
    ghost apart: { are_apart entries.items ≡ true },
    ghost whole: { are_trees entries.items ≡ true },
}

impl Held {
    /// An empty shelf without a fault.
    pub fn new(alloc: Global, root: Option<Text>, sure: bool) -> Held
        ensures told { told_of result.entries.items result.pending.items result.calls ≡ nothing_told }
        ensures root { result.root ≡ root }
        ensures fail { result.fail.items ≡ [] }
        ensures faults { result.faults ≡ 0 }
        ensures sure { result.sure ≡ sure }
    {
        Held {
            alloc,
            root,
            entries: Vec::new(alloc),
            pending: Vec::new(alloc),
            calls: List::new(alloc),
            fail: Vec::new(alloc),
            faults: 0,
            sure,
        }
    }

    /// Puts a settled top entry there, in the place of one that has the name. Where memory is refused nothing changes.
    pub fn place(&mut self, top: &str, tree: Tree) -> Result<(), Memory>
        ensures ok { OnOk result (told_of self.new.entries.items self.new.pending.items self.new.calls ≡ placed (told_of self.old.entries.items self.old.pending.items self.old.calls) top.now tree) }
        ensures err { OnErr result (told_of self.new.entries.items self.new.pending.items self.new.calls ≡ told_of self.old.entries.items self.old.pending.items self.old.calls) }
        ensures root { self.new.root ≡ self.old.root }
        ensures fail { self.new.fail ≡ self.old.fail }
        ensures faults { self.new.faults ≡ self.old.faults }
        ensures sure { self.new.sure ≡ self.old.sure }
    {
        tree.is_whole();
        match find_top(self.entries.as_slice(), top) {
            Some(i) => {
                let entry = &mut self.entries[i];
                entry.tree = tree;
                entry.settled = true;
            }
            None => {
                let name = Text::from_str(self.alloc, top)?;
                self.entries.reserve(1)?;
                let entry = TopEntry {
                    name,
                    tree,
                    settled: true,
                };
                put_in(&mut self.entries, entry);
            }
        }
        Ok(())
    }

    /// The tree of a top entry. None exactly where there is no such entry.
    pub fn top(&self, name: &str) -> Option<&Tree>
        ensures { option_copied result ≡ tree_at (told_of self.now.entries.items self.now.pending.items self.now.calls) name.now }
    {
        match find_top(self.entries.as_slice(), name) {
            Some(i) => Some(&self.entries[i].tree),
            None => None,
        }
    }
}

/// The call of this kind on this entry, with the other fields that a call may lack.
pub fn call_on(
    alloc: Global,
    kind: CallKind,
    top: &str,
    path: &str,
) -> Result<ShelfCall, ShelfFault>
    ensures ok { IfOk result (λ c. c ≡ plain_call kind top.now path.now) }
    ensures err { result ≡ Err ShelfFault.Failed → ⊥ }
{
    let top = Text::from_str(alloc, top)?;
    let path = Text::from_str(alloc, path)?;
    Ok(ShelfCall {
        kind,
        top,
        path,
        offset: 0,
        max: 0,
        bytes: Bytes::new(alloc),
        exec: false,
        mtime: 0,
    })
}

/// Whether the call of this number is to fail.
pub fn is_to_fail(fail: &[u32], number: usize) -> bool
    ensures { result ≡ list_any (λ n. nat_eq n number) fail.now }
{
    fail.iter().any(|n| *n as usize == number)
}

/// Records a call that fails, and counts it. A sure shelf has no fault more where the count would come to its end.
pub fn fail(
    calls: &mut List<ShelfCall>,
    faults: &mut u64,
    sure: bool,
    call: ShelfCall,
) -> ShelfFault
    ensures failed { result ≡ ShelfFault.Failed → (calls.new ≡ calls.old ++ call ∷ []) × Rose faults.old faults.new }
    ensures memory { result ≡ ShelfFault.Memory → (calls.new ≡ calls.old) × (faults.new ≡ faults.old) }
    ensures later { faults.old ≤ faults.new }
    ensures below { sure ≡ true → faults.old < 2 ^ 64 - 1 → faults.new < 2 ^ 64 - 1 }
{
    if sure && *faults >= u64::MAX - 1 {
        return ShelfFault::Memory;
    }
    match calls.push(call) {
        Ok(()) => {
            *faults = faults.saturating_add(1);
            ShelfFault::Failed
        }
        Err(_) => ShelfFault::Memory,
    }
}

impl Shelf for Held {
    ghost use Rattle.zi_memory.specs.InMemory.{held_seen};
    ghost use Rattle.zi_memory.specs.Whole.{tells_trees};

    ghost seen = { held_seen };

    ghost sure_is = { λ s h. record { keeps = tt; tells = refl; below_end = h.below_end } };

    ghost holds_trees = { λ s h. tells_trees s.entries.items s.pending.items s.calls s.whole };

    fn root(&self) -> &str {
        match &self.root {
            Some(root) => root.as_str(),
            None => "/store",
        }
    }

    fn names(&mut self) -> Result<List<Text>, ShelfFault> {
        let call = call_on(self.alloc, CallKind::Names, "", "")?;
        if is_to_fail(self.fail.as_slice(), self.calls.as_slice().len() + 1) {
            return Err(fail(&mut self.calls, &mut self.faults, self.sure, call));
        }
        let names = names_of(self.alloc, self.entries.as_slice())?;
        self.calls.push(call)?;
        Ok(names)
    }

    fn entries(&mut self, top: &str, path: &RelPath) -> Result<Listed, ShelfFault> {
        let place = spelled_path(self.alloc, path)?;
        let call = call_on(self.alloc, CallKind::Entries, top, place.as_str())?;
        if is_to_fail(self.fail.as_slice(), self.calls.as_slice().len() + 1) {
            return Err(fail(&mut self.calls, &mut self.faults, self.sure, call));
        }
        let Some(i) = find_top(self.entries.as_slice(), top) else {
            self.calls.push(call)?;
            return Ok(Listed::Absent);
        };
        let Some(folder) = folder_in(&self.entries[i].tree, path) else {
            return Err(fail(&mut self.calls, &mut self.faults, self.sure, call));
        };
        let listing = listing_of(self.alloc, folder)?;
        self.calls.push(call)?;
        Ok(Listed::Entries(listing))
    }

    fn read(
        &mut self,
        top: &str,
        path: &RelPath,
        offset: u64,
        max: u32,
        into: &mut Vec<u8>,
    ) -> Result<(), ShelfFault> {
        let place = spelled_path(self.alloc, path)?;
        let mut call = call_on(self.alloc, CallKind::Read, top, place.as_str())?;
        call.offset = offset;
        call.max = max;
        if is_to_fail(self.fail.as_slice(), self.calls.as_slice().len() + 1) {
            return Err(fail(&mut self.calls, &mut self.faults, self.sure, call));
        }
        let Some(i) = find_top(self.entries.as_slice(), top) else {
            return Err(fail(&mut self.calls, &mut self.faults, self.sure, call));
        };
        let Some(bytes) = file_in(&self.entries[i].tree, path) else {
            return Err(fail(&mut self.calls, &mut self.faults, self.sure, call));
        };
        let piece = piece_of(bytes.as_slice(), offset, max);
        room_in(into, piece.len())?;
        self.calls.push(call)?;
        put_piece(into, piece);
        Ok(())
    }

    fn target(&mut self, top: &str, path: &RelPath) -> Result<Text, ShelfFault> {
        let place = spelled_path(self.alloc, path)?;
        let call = call_on(self.alloc, CallKind::Target, top, place.as_str())?;
        if is_to_fail(self.fail.as_slice(), self.calls.as_slice().len() + 1) {
            return Err(fail(&mut self.calls, &mut self.faults, self.sure, call));
        }
        let Some(i) = find_top(self.entries.as_slice(), top) else {
            return Err(fail(&mut self.calls, &mut self.faults, self.sure, call));
        };
        let Some(target) = link_in(&self.entries[i].tree, path) else {
            return Err(fail(&mut self.calls, &mut self.faults, self.sure, call));
        };
        let target = target.copy(self.alloc)?;
        self.calls.push(call)?;
        Ok(target)
    }

    fn make_top(&mut self, name: &str) -> Result<TopMade, ShelfFault> {
        let call = call_on(self.alloc, CallKind::MakeTop, name, "")?;
        if is_to_fail(self.fail.as_slice(), self.calls.as_slice().len() + 1) {
            return Err(fail(&mut self.calls, &mut self.faults, self.sure, call));
        }
        if find_top(self.entries.as_slice(), name).is_some() {
            self.calls.push(call)?;
            return Ok(TopMade::Exists);
        }
        let entry = TopEntry {
            name: Text::from_str(self.alloc, name)?,
            tree: Tree::new(self.alloc),
            settled: false,
        };
        room(&mut self.entries)?;
        self.calls.push(call)?;
        put_in(&mut self.entries, entry);
        Ok(TopMade::Made)
    }

    fn make_folder(&mut self, top: &str, path: &RelPath) -> Result<(), ShelfFault> {
        let place = spelled_path(self.alloc, path)?;
        let call = call_on(self.alloc, CallKind::MakeFolder, top, place.as_str())?;
        self.fill(call, top, path, Filling::MakeFolder)
    }

    fn append(&mut self, top: &str, path: &RelPath, bytes: &[u8]) -> Result<(), ShelfFault> {
        let place = spelled_path(self.alloc, path)?;
        let mut call = call_on(self.alloc, CallKind::Append, top, place.as_str())?;
        call.bytes = Bytes::from_slice(self.alloc, bytes)?;
        self.fill(call, top, path, Filling::Append(bytes))
    }

    fn finish_file(
        &mut self,
        top: &str,
        path: &RelPath,
        exec: bool,
        mtime: i64,
    ) -> Result<(), ShelfFault> {
        let place = spelled_path(self.alloc, path)?;
        let mut call = call_on(self.alloc, CallKind::FinishFile, top, place.as_str())?;
        call.exec = exec;
        call.mtime = mtime;
        self.fill(call, top, path, Filling::FinishFile { exec, mtime })
    }

    fn make_link(&mut self, top: &str, path: &RelPath, target: &str) -> Result<(), ShelfFault> {
        let place = spelled_path(self.alloc, path)?;
        let mut call = call_on(self.alloc, CallKind::MakeLink, top, place.as_str())?;
        call.bytes = Bytes::from_slice(self.alloc, target.as_bytes())?;
        self.fill(call, top, path, Filling::MakeLink(target))
    }

    fn settle(&mut self, top: &str) -> Result<(), ShelfFault> {
        let call = call_on(self.alloc, CallKind::Settle, top, "")?;
        if is_to_fail(self.fail.as_slice(), self.calls.as_slice().len() + 1) {
            return Err(fail(&mut self.calls, &mut self.faults, self.sure, call));
        }
        let Some(i) = find_top(self.entries.as_slice(), top) else {
            return Err(fail(&mut self.calls, &mut self.faults, self.sure, call));
        };
        self.calls.push(call)?;
        self.entries[i].settled = true;
        Ok(())
    }

    fn rename(&mut self, from: &str, to: &str) -> Result<Moved, ShelfFault> {
        let call = call_on(self.alloc, CallKind::Rename, from, to)?;
        if is_to_fail(self.fail.as_slice(), self.calls.as_slice().len() + 1) {
            return Err(fail(&mut self.calls, &mut self.faults, self.sure, call));
        }
        let Some(i) = find_top(self.entries.as_slice(), from) else {
            return Err(fail(&mut self.calls, &mut self.faults, self.sure, call));
        };
        if find_top(self.entries.as_slice(), to).is_some() {
            self.calls.push(call)?;
            return Ok(Moved::Exists);
        }
        let name = Text::from_str(self.alloc, to)?;
        let old = Text::from_str(self.alloc, from)?;
        let new = Text::from_str(self.alloc, to)?;
        room_for(&mut self.pending)?;
        self.calls.push(call)?;
        put_newest(&mut self.pending, Later::RenamedTop(old, new));
        let mut entry = self.entries.remove(i);
        entry.name = name;
        put_in(&mut self.entries, entry);
        Ok(Moved::Renamed)
    }

    fn settle_top(&mut self) -> Result<(), ShelfFault> {
        let call = call_on(self.alloc, CallKind::SettleTop, "", "")?;
        if is_to_fail(self.fail.as_slice(), self.calls.as_slice().len() + 1) {
            return Err(fail(&mut self.calls, &mut self.faults, self.sure, call));
        }
        self.calls.push(call)?;
        self.pending.clear();
        Ok(())
    }

    fn remove_top(&mut self, name: &str) -> Result<(), ShelfFault> {
        let call = call_on(self.alloc, CallKind::RemoveTop, name, "")?;
        if is_to_fail(self.fail.as_slice(), self.calls.as_slice().len() + 1) {
            return Err(fail(&mut self.calls, &mut self.faults, self.sure, call));
        }
        let Some(i) = find_top(self.entries.as_slice(), name) else {
            return Err(fail(&mut self.calls, &mut self.faults, self.sure, call));
        };
        room_for(&mut self.pending)?;
        self.calls.push(call)?;
        let entry = self.entries.remove(i);
        put_newest(&mut self.pending, Later::RemovedTop(entry));
        Ok(())
    }
}
