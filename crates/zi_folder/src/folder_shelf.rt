//! A shelf in a folder: each top entry is a folder in it.
ghost use Rattle.std.specs.Prelude.{◌≡◌, ◌≤◌, ◌∷◌, IfOk, OnOk, Ok, string_bytes};
ghost use Rattle.zi_shelf.specs.Told.{HasCause, plain_reply};
ghost use Rattle.zi_shelf.specs.declared.shelf.ShelfFault.TheVariants.{Failed as HasFailed, Memory as NoMemory};
ghost use Rattle.zi_folder.specs.Opened.{Enters, Lists, Reads, way};
ghost use Rattle.zi_folder.specs.Paths.{in_folder, path_on};

use crate::folder_calls::{
    append, finish_file, is_folder, is_there, link_target, list_names, make_folder, make_link,
    make_top, remove, rename, settle, settle_names,
};
use crate::log::Log;
use crate::open_folders::OpenFolders;
use crate::strangers::stranger;
use crate::trouble::{Reason, Trouble};
use zi_shelf::{Listed, Moved, Shelf, ShelfFault, TopMade};
use zi_text::{List, Memory, Text};
use zi_tree::RelPath;

// The names of top entries that are being filled begin so.
const TEMPORARY: &str = "tmp-";

// What is asked for is a top entry itself.
const NO_TREE: Trouble = Trouble::Failed(Reason::IsNot("inside a tree"));

/// A shelf in a folder, which doesn't tell what it holds. The folder is made when the first top entry is.
///
/// A top entry that is made or renamed is under a lock on the folder, so that no other launcher's new entry is written over.
/// Times of change are whole seconds since 1970, rounded down; a file is executable where one of its three bits says so.
#[derive(Drop)]
pub struct FolderShelf {
    rt: HostRuntime,
    root: Text,
    faults: u64,
    log: Log,
    held: OpenFolders,
}

impl FolderShelf {
    /// The shelf in this folder, without a fault.
    pub fn new(rt: HostRuntime, root: Text) -> FolderShelf
        ensures root { result.root ≡ root }
        ensures faults { result.faults ≡ 0 }
    {
        FolderShelf {
            rt,
            root,
            faults: 0,
            log: Log::new(rt.alloc()),
            held: OpenFolders::new(rt.alloc()),
        }
    }

    /// What failed.
    pub fn log(&self) -> &Log {
        &self.log
    }

    // The path of a top entry.
    fn top_path(&self, top: &str) -> Result<String, Memory>
        ensures { IfOk result (λ path. string_bytes path ≡ in_folder self.now.root top.now) }
    {
        let mut path = String::from_str(self.rt.alloc(), self.root.as_str())?;
        path.push('/')?;
        path.push_str(top)?;
        Ok(path)
    }

    // The path to which these parts lead from a top entry. All on the way is folders, and no links to such.
    fn way_to(&self, top: &str, inside: &[Text]) -> Result<String, Trouble>
        ensures { IfOk result (λ path. string_bytes path ≡ path_on (in_folder self.now.root top.now) inside.now) }
    {
        let mut path = self.top_path(top)?;
        for part in inside {
            if !is_folder(&self.rt, path.as_str())? {
                return Err(Trouble::Failed(Reason::IsNot("inside a folder")));
            }
            path.push('/')?;
            path.push_str(part.as_str())?;
        }
        Ok(path)
    }

    // The path of an entry in a top entry, which isn't the top entry itself.
    fn way_inside(&self, top: &str, inside: &RelPath) -> Result<String, Trouble>
        ensures { IfOk result (λ path. string_bytes path ≡ path_on (in_folder self.now.root top.now) inside.now) }
    {
        let parts = inside.parts().as_slice();
        if parts.is_empty() {
            return Err(NO_TREE);
        }
        self.way_to(top, parts)
    }

    // Opens the folders on the way that these parts lead from a top entry.
    fn enter(&mut self, top: &str, parts: &[Text]) -> Result<(), Trouble>
        ensures way { OnOk result (way self.new.held ≡ top.now ∷ parts.now) }
        ensures file { OnOk result (Enters self.old.held self.new.held) }
        ensures faults { self.new.faults ≡ self.old.faults }
        ensures root { self.new.root ≡ self.old.root }
    {
        if !self.held.is_in(top) {
            let path = self.top_path(top)?;
            self.held.open_top(&self.rt, path, top)?;
        }
        self.held.enter(&self.rt, parts)
    }

    // Whether a top entry is there.
    fn has_top(&self, top: &str) -> Result<bool, Trouble> {
        is_there(&self.rt, self.top_path(top)?.as_str())
    }

    // The entries of a folder in a top entry; the top entry itself is looked up anew.
    fn listed(&mut self, top: &str, inside: &RelPath) -> Result<Listed, Trouble>
        ensures there { IfOk result (λ listed. Lists listed (way self.new.held) (top.now ∷ inside.now)) }
        ensures faults { self.new.faults ≡ self.old.faults }
        ensures root { self.new.root ≡ self.old.root }
    {
        let parts = inside.parts().as_slice();
        self.held.keep(parts.len());
        if !self.held.is_in(top) && !self.has_top(top)? {
            return Ok(Listed::Absent);
        }
        self.enter(top, parts)?;
        Ok(Listed::Entries(self.held.list(&self.rt)?))
    }

    // Reads bytes of a file in a top entry; how many came.
    fn piece(
        &mut self,
        top: &str,
        inside: &RelPath,
        offset: u64,
        max: u32,
    ) -> Result<usize, Trouble>
        ensures few { IfOk result (λ count. count ≤ max) }
        ensures there { OnOk result (Reads self.new.held (top.now ∷ inside.now)) }
        ensures faults { self.new.faults ≡ self.old.faults }
        ensures root { self.new.root ≡ self.old.root }
    {
        let Some((name, above)) = inside.parts().as_slice().split_last() else {
            return Err(NO_TREE);
        };
        self.enter(top, above)?;
        self.held.read(&self.rt, name.as_str(), offset, max)
    }

    // The text of a link in a top entry.
    fn link(&mut self, top: &str, inside: &RelPath) -> Result<Text, Trouble>
        ensures faults { self.new.faults ≡ self.old.faults }
        ensures root { self.new.root ≡ self.old.root }
    {
        let Some((name, above)) = inside.parts().as_slice().split_last() else {
            return Err(NO_TREE);
        };
        self.enter(top, above)?;
        let path = self.held.path_of(&self.rt, name.as_str())?;
        link_target(&self.rt, path.as_str())
    }

    // A new top entry.
    fn new_top(&self, name: &str) -> Result<TopMade, Trouble> {
        let path = self.top_path(name)?;
        make_top(&self.rt, self.root.as_str(), path.as_str())
    }

    // A new folder in a top entry.
    fn new_folder(&self, top: &str, inside: &RelPath) -> Result<(), Trouble> {
        let path = self.way_inside(top, inside)?;
        make_folder(&self.rt, path.as_str())
    }

    // More bytes of a file in a top entry.
    fn more(&self, top: &str, inside: &RelPath, bytes: &[u8]) -> Result<(), Trouble> {
        let path = self.way_inside(top, inside)?;
        append(&self.rt, path.as_str(), bytes)
    }

    // The end of a file in a top entry.
    fn finished(&self, top: &str, inside: &RelPath, exec: bool, mtime: i64) -> Result<(), Trouble> {
        let path = self.way_inside(top, inside)?;
        finish_file(&self.rt, path.as_str(), exec, mtime)
    }

    // A new link in a top entry.
    fn new_link(&self, top: &str, inside: &RelPath, target: &str) -> Result<(), Trouble> {
        let path = self.way_inside(top, inside)?;
        make_link(&self.rt, target, path.as_str())
    }

    // A top entry made to last.
    fn settled(&self, top: &str) -> Result<(), Trouble> {
        let path = self.top_path(top)?;
        settle(&self.rt, path.as_str())
    }

    // A top entry under another name.
    fn renamed(&self, from: &str, to: &str) -> Result<Moved, Trouble> {
        let from = self.top_path(from)?;
        let to = self.top_path(to)?;
        rename(&self.rt, self.root.as_str(), from.as_str(), to.as_str())
    }

    // No top entry of this name.
    fn removed(&self, name: &str) -> Result<(), Trouble> {
        let path = self.top_path(name)?;
        remove(&self.rt, path.as_str())
    }

    // The path of the folder, of a top entry, or of what stands in one.
    fn told_path(&self, top: &[&str], inside: &[Text]) -> Result<String, Memory> {
        let mut path = String::from_str(self.rt.alloc(), self.root.as_str())?;
        for part in top {
            path.push('/')?;
            path.push_str(part)?;
        }
        for part in inside {
            path.push('/')?;
            path.push_str(part.as_str())?;
        }
        Ok(path)
    }

    // The name at a path that is no text, where a call failed because of one.
    fn strange_name(&self, path: &str, reason: Reason) -> Option<Vec<u8>> {
        if !reason.is_of_a_name() {
            return None;
        }
        stranger(&self.rt, path).unwrap_or(None)
    }

    // Tells a failure at a path; where a name there is no text, that too.
    fn tell_at(&mut self, path: &str, reason: Reason)
        ensures faults { self.new.faults ≡ self.old.faults }
        ensures root { self.new.root ≡ self.old.root }
    {
        match self.strange_name(path, reason) {
            Some(name) => self.log.tell(path, Some(name.as_slice()), reason),
            None => self.log.tell(path, None, reason),
        }
    }

    // Tells a failure.
    fn tell(&mut self, top: &[&str], inside: &[Text], reason: Reason)
        ensures faults { self.new.faults ≡ self.old.faults }
        ensures root { self.new.root ≡ self.old.root }
    {
        match self.told_path(top, inside) {
            Ok(path) => self.tell_at(path.as_str(), reason),
            Err(Memory) => self.log.tell("", None, reason),
        }
    }

    // Counts a failure, and tells it with the path of the folder, of a top entry, or of what stands in one.
    fn answer<T>(
        &mut self,
        top: &[&str],
        inside: &[Text],
        outcome: Result<T, Trouble>,
    ) -> Result<T, ShelfFault>
        ensures cause { HasCause self.old.faults self.new.faults (plain_reply result) }
        ensures same { IfOk result (λ value. (outcome ≡ Ok value) × (self.new.faults ≡ self.old.faults)) }
        ensures root { self.new.root ≡ self.old.root }
    {
        match outcome {
            Ok(value) => Ok(value),
            Err(Trouble::Memory) => Err(ShelfFault::Memory),
            Err(Trouble::Failed(reason)) => {
                self.faults = self.faults.saturating_add(1);
                self.tell(top, inside, reason);
                Err(ShelfFault::Failed)
            }
        }
    }
}

impl FolderShelf {
    // Answers a call that fills a top entry. After one that failed a temporary entry is removed as far as it can be: what is in it is of no
    // use to anybody, and may be what fills the disk.
    fn filled(
        &mut self,
        top: &str,
        inside: &[Text],
        outcome: Result<(), Trouble>,
    ) -> Result<(), ShelfFault>
        ensures cause { HasCause self.old.faults self.new.faults (plain_reply result) }
        ensures root { self.new.root ≡ self.old.root }
    {
        let answer = self.answer(&[top], inside, outcome);
        if matches!(answer, Err(ShelfFault::Failed)) && top.starts_with(TEMPORARY) {
            self.held.close();
            let _ = self.removed(top);
        }
        answer
    }
}

// The calls that read are never put into who calls them: a walk through folders goes as deep as they do, and would hold their room
// at each level.
impl Shelf for FolderShelf {
    ghost use Rattle.zi_folder.specs.Seen.{folder_seen};

    ghost seen = { λ s. folder_seen s.faults s.root };

    ghost sure_is = { λ s no. absurd no };

    ghost holds_trees = { λ s no. absurd no };

    fn root(&self) -> &str {
        self.root.as_str()
    }

    #[tactic(auto, using(crate::proofs::FolderLemmas::folding))]
    fn names(&mut self) -> Result<List<Text>, ShelfFault> {
        let found = list_names(&self.rt, self.root.as_str());
        self.answer(&[], &[], found)
    }

    #[inline(never)]
    #[tactic(auto, using(crate::proofs::FolderLemmas::folding))]
    fn entries(&mut self, top: &str, path: &RelPath) -> Result<Listed, ShelfFault> {
        let found = self.listed(top, path);
        self.answer(&[top], path.parts().as_slice(), found)
    }

    #[inline(never)]
    #[tactic(auto, using(crate::proofs::FolderLemmas::folding))]
    fn read(
        &mut self,
        top: &str,
        path: &RelPath,
        offset: u64,
        max: u32,
        into: &mut Vec<u8>,
    ) -> Result<(), ShelfFault> {
        let found = self.piece(top, path, offset, max);
        let count = self.answer(&[top], path.parts().as_slice(), found)?;
        match into.extend_from_slice(self.held.read_last(count)) {
            Ok(()) => Ok(()),
            Err(_) => Err(ShelfFault::Memory),
        }
    }

    #[inline(never)]
    #[tactic(auto, using(crate::proofs::FolderLemmas::folding))]
    fn target(&mut self, top: &str, path: &RelPath) -> Result<Text, ShelfFault> {
        let found = self.link(top, path);
        self.answer(&[top], path.parts().as_slice(), found)
    }

    #[tactic(auto, using(crate::proofs::FolderLemmas::folding))]
    fn make_top(&mut self, name: &str) -> Result<TopMade, ShelfFault> {
        self.held.close();
        let made = self.new_top(name);
        self.answer(&[name], &[], made)
    }

    #[tactic(auto, using(crate::proofs::FolderLemmas::folding))]
    fn make_folder(&mut self, top: &str, path: &RelPath) -> Result<(), ShelfFault> {
        let made = self.new_folder(top, path);
        self.filled(top, path.parts().as_slice(), made)
    }

    #[tactic(auto, using(crate::proofs::FolderLemmas::folding))]
    fn append(&mut self, top: &str, path: &RelPath, bytes: &[u8]) -> Result<(), ShelfFault> {
        let done = self.more(top, path, bytes);
        self.filled(top, path.parts().as_slice(), done)
    }

    #[tactic(auto, using(crate::proofs::FolderLemmas::folding))]
    fn finish_file(
        &mut self,
        top: &str,
        path: &RelPath,
        exec: bool,
        mtime: i64,
    ) -> Result<(), ShelfFault> {
        let done = self.finished(top, path, exec, mtime);
        self.filled(top, path.parts().as_slice(), done)
    }

    #[tactic(auto, using(crate::proofs::FolderLemmas::folding))]
    fn make_link(&mut self, top: &str, path: &RelPath, target: &str) -> Result<(), ShelfFault> {
        let made = self.new_link(top, path, target);
        self.filled(top, path.parts().as_slice(), made)
    }

    #[tactic(auto, using(crate::proofs::FolderLemmas::folding))]
    fn settle(&mut self, top: &str) -> Result<(), ShelfFault> {
        let done = self.settled(top);
        self.filled(top, &[], done)
    }

    #[tactic(auto, using(crate::proofs::FolderLemmas::folding))]
    fn rename(&mut self, from: &str, to: &str) -> Result<Moved, ShelfFault> {
        self.held.close();
        let done = self.renamed(from, to);
        self.answer(&[from], &[], done)
    }

    #[tactic(auto, using(crate::proofs::FolderLemmas::folding))]
    fn settle_top(&mut self) -> Result<(), ShelfFault> {
        let done = settle_names(&self.rt, self.root.as_str());
        self.answer(&[], &[], done)
    }

    #[tactic(auto, using(crate::proofs::FolderLemmas::folding))]
    fn remove_top(&mut self, name: &str) -> Result<(), ShelfFault> {
        self.held.close();
        let done = self.removed(name);
        self.answer(&[name], &[], done)
    }
}
