//! The manifest of a tree on a shelf, written while the tree is read.

ghost use Rattle.std.specs.Prelude.{◌≡◌, ◌≤◌, ◌<◌, ◌++◌, ◌∷◌, [], ℕ, Bool, true, false, List, Err, OnOk, None};
ghost use Rattle.std.specs.Option.{option_or};
ghost use Rattle.zi_tree.specs.Dir.{Dir};
ghost use Rattle.zi_tree.specs.Order.{is_tree};
ghost use Rattle.zi_tree.specs.Views.{node_is_tree};
ghost use Rattle.zi_tree.specs.declared.tree.TreeNode.{TreeNode as Node};
ghost use Rattle.zi_tree.specs.declared.tree.TreeNode.TheVariants.{File, Link};
ghost use Rattle.zi_text.specs.Count.{Rose};
ghost use Rattle.zi_manifest.specs.Sketch.{hash_text, sketch, leaf_text, folder_text, file_line, folder_line};
ghost use Rattle.zi_manifest.specs.Manifest.{leaf_bad, folder_bad};
ghost use Rattle.zi_manifest.specs.Walk.{shown, node_bad, node_text, inner_bad, inner_text, bad_name};
ghost use Rattle.zi_store.specs.Keeping.{Keeps, is_reading};
ghost use Rattle.zi_store.specs.Standing.{Stands, StandsNode, IsListed};
ghost use Rattle.zi_store.specs.Walking.{met, leaves_met};
ghost use Rattle.zi_store.specs.Entries.{entries_of, leaf_met, inner_met, Walks};
ghost use Rattle.zi_store.specs.Written.{Adds, AddsAll, AddsFolder, AddsFolders, AddsLeaves};

use crate::calls::ask_target;
use crate::counts::Counts;
use crate::listings::{is_folder, listing};
use crate::pieces::{Hashed, hash_file};
use crate::stop::Stop;
use std::alloc::Global;
use zi_digest::Algorithm;
use zi_manifest::{folder_line, hashed_line, is_bad, joined, link_line};
use zi_shelf::{Entry, EntryKind, Shelf, ShelfFault};
use zi_text::{Memory, Text};
use zi_tree::{RelPath, SIZE_LIMIT};

/// What was written of a manifest so far.
#[derive(Drop)]
pub(crate) struct Written {
    /// What was met, each number within its limit.
    pub(crate) counts: Counts,
    /// The lines of all that was met.
    pub(crate) text: Vec<u8>,
    /// The path of the first bad name.
    pub(crate) bad: Option<Text>,
    /// The piece of a file that came last.
    pub(crate) piece: Vec<u8>,
}

/// A folder on its way: how its tree is called on the shelf, where it stands in it as a path and as a text, and how deep.
#[derive(Clone, Copy)]
pub(crate) struct Place<'a> {
    pub(crate) top: &'a str,
    pub(crate) path: &'a RelPath,
    pub(crate) text: &'a str,
    pub(crate) depth: u64,
}

impl Written {
    /// Nothing met.
    pub(crate) fn new(alloc: Global) -> Written
        ensures nodes { result.counts.nodes ≡ 0 }
        ensures bytes { result.counts.bytes ≡ 0 }
        ensures text { result.text.items ≡ [] }
        ensures bad { result.bad ≡ None }
    {
        Written {
            counts: Counts::new(),
            text: Vec::new(alloc),
            bad: None,
            piece: Vec::new(alloc),
        }
    }

    /// Notes a name that no manifest has, where it is the first one.
    #[tactic(auto, using(crate::proofs::WritingLemmas::noted_late, crate::proofs::WritingLemmas::noted_good, crate::proofs::WritingLemmas::noted_bad))]
    fn note(&mut self, alloc: Global, place: &str, name: &str) -> Result<(), Memory>
        ensures noted { OnOk result (Adds self.old self.new [] (bad_name place.now name.now)) }
        ensures counts { self.new.counts ≡ self.old.counts }
    {
        if self.bad.is_some() {
            return Ok(());
        }
        if !is_bad(name) {
            return Ok(());
        }
        self.bad = Some(joined(alloc, place, name)?);
        Ok(())
    }

    /// Counts a file of so many bytes, or with 0 a link, and notes its name.
    fn meet(&mut self, alloc: Global, size: u64, place: &str, name: &str) -> Result<(), Stop>
        ensures walks { Walks tt (record { depth = 0; size = size } ∷ []) self.old.counts.nodes self.old.counts.bytes result self.new.counts.nodes self.new.counts.bytes }
        ensures noted { OnOk result (Adds self.old self.new [] (bad_name place.now name.now)) }
        ensures fault { result ≡ Err (Stop.Fault ShelfFault.Failed) → ⊥ }
    {
        self.counts.leaf(size)?;
        self.note(alloc, place, name)?;
        Ok(())
    }

    /// Adds the line of a link.
    #[tactic(auto, using(crate::proofs::WritingLemmas::adds_line))]
    fn put_link(
        &mut self,
        alloc: Global,
        a: Algorithm,
        name: &str,
        target: &str,
    ) -> Result<(), Memory>
        ensures line { OnOk result (Adds self.old self.new (node_text a false name.now (Link target.now)) None) }
        ensures counts { self.new.counts ≡ self.old.counts }
    {
        let line = link_line(alloc, a, name, target)?;
        self.text.extend_from_slice(line.as_slice())?;
        Ok(())
    }

    /// Adds the line of a file.
    #[tactic(auto, using(crate::proofs::WritingLemmas::adds_line))]
    fn put_file(
        &mut self,
        alloc: Global,
        hashed: &Hashed,
        name: &str,
        exec: bool,
        mtime: i64,
    ) -> Result<(), Memory>
        ensures line { OnOk result (Adds self.old self.new (file_line (hash_text hashed.now.hash) exec mtime hashed.now.size name.now) None) }
        ensures counts { self.new.counts ≡ self.old.counts }
    {
        let line = hashed_line(alloc, &hashed.hash, hashed.size, name, exec, mtime)?;
        self.text.extend_from_slice(line.as_slice())?;
        Ok(())
    }

    /// Adds the line of the folder at this path.
    #[tactic(auto, using(crate::proofs::WritingLemmas::adds_line))]
    fn put_folder(&mut self, alloc: Global, path: &str) -> Result<(), Memory>
        ensures line { OnOk result (Adds self.old self.new (folder_line path.now) None) }
        ensures counts { self.new.counts ≡ self.old.counts }
    {
        let line = folder_line(alloc, path)?;
        self.text.extend_from_slice(line.as_slice())?;
        Ok(())
    }
}

/// Writes what stands in a folder that has these entries, with all in it: its files and links, then each subfolder.
#[cycle(writing)]
pub(crate) fn write_folder<K: Shelf>(
    alloc: Global,
    a: Algorithm,
    at: Place,
    entries: &[Entry],
    written: &mut Written,
    k: &mut K,
) -> Result<(), Stop>
    requires { at.depth ≤ 64 }
    ensures walks { (whole : Bool) (d : Dir) → Stands ((K.seen k.old).honest) ((K.seen k.old).told) at.entry.top.now at.entry.path.now d → is_tree d ≡ true → entries.now ≡ entries_of (shown whole d) → Walks tt (met at.entry.depth (shown whole d)) written.old.counts.nodes written.old.counts.bytes result written.new.counts.nodes written.new.counts.bytes }
    ensures adds { (whole : Bool) (d : Dir) → Stands ((K.seen k.old).honest) ((K.seen k.old).told) at.entry.top.now at.entry.path.now d → is_tree d ≡ true → entries.now ≡ entries_of (shown whole d) → OnOk result (Adds written.old written.new (leaf_text (sketch a (shown whole d)) ++ folder_text at.entry.text.now (sketch a (shown whole d))) (option_or (leaf_bad at.entry.text.now (shown whole d)) (folder_bad at.entry.text.now (shown whole d)))) }
    ensures tree { OnOk result (AddsAll a at.entry.text.now written.old written.new) }
    ensures keeps { Keeps is_reading (K.seen k.old) (K.seen k.new) }
    ensures cause { result ≡ Err (Stop.Fault ShelfFault.Failed) → Rose ((K.seen k.old).faults) ((K.seen k.new).faults) }
    ensures count { (result ≡ Err (Stop.Fault ShelfFault.Failed) → ⊥) → (K.seen k.new).faults ≡ (K.seen k.old).faults }
    ensures sure { (K.seen k.old).sure → (whole : Bool) (d : Dir) → Stands ((K.seen k.old).honest) ((K.seen k.old).told) at.entry.top.now at.entry.path.now d → is_tree d ≡ true → entries.now ≡ entries_of (shown whole d) → result ≡ Err (Stop.Fault ShelfFault.Failed) → ⊥ }
{
    write_leaves(alloc, a, at, entries, written, k)?;
    for entry in entries {
        write_inner(alloc, a, at, entry, written, k)?;
    }
    Ok(())
}

/// Writes the lines of a folder's files and links.
fn write_leaves<K: Shelf>(
    alloc: Global,
    a: Algorithm,
    at: Place,
    entries: &[Entry],
    written: &mut Written,
    k: &mut K,
) -> Result<(), Stop>
    ensures walks { (whole : Bool) (d : Dir) → Stands ((K.seen k.old).honest) ((K.seen k.old).told) at.entry.top.now at.entry.path.now d → is_tree d ≡ true → entries.now ≡ entries_of (shown whole d) → Walks tt (leaves_met (shown whole d)) written.old.counts.nodes written.old.counts.bytes result written.new.counts.nodes written.new.counts.bytes }
    ensures adds { (whole : Bool) (d : Dir) → Stands ((K.seen k.old).honest) ((K.seen k.old).told) at.entry.top.now at.entry.path.now d → is_tree d ≡ true → entries.now ≡ entries_of (shown whole d) → OnOk result (Adds written.old written.new (leaf_text (sketch a (shown whole d))) (leaf_bad at.entry.text.now (shown whole d))) }
    ensures tree { OnOk result (AddsLeaves a at.entry.text.now written.old written.new) }
    ensures keeps { Keeps is_reading (K.seen k.old) (K.seen k.new) }
    ensures cause { result ≡ Err (Stop.Fault ShelfFault.Failed) → Rose ((K.seen k.old).faults) ((K.seen k.new).faults) }
    ensures count { (result ≡ Err (Stop.Fault ShelfFault.Failed) → ⊥) → (K.seen k.new).faults ≡ (K.seen k.old).faults }
    ensures sure { (K.seen k.old).sure → (whole : Bool) (d : Dir) → Stands ((K.seen k.old).honest) ((K.seen k.old).told) at.entry.top.now at.entry.path.now d → is_tree d ≡ true → entries.now ≡ entries_of (shown whole d) → result ≡ Err (Stop.Fault ShelfFault.Failed) → ⊥ }
{
    for entry in entries {
        write_leaf(alloc, a, at, entry, written, k)?;
    }
    Ok(())
}

/// Writes the line of a file or link, which is counted; nothing of a folder. An entry whose text is no name, which no honest
/// shelf gives, is passed over.
fn write_leaf<K: Shelf>(
    alloc: Global,
    a: Algorithm,
    at: Place,
    entry: &Entry,
    written: &mut Written,
    k: &mut K,
) -> Result<(), Stop>
    ensures walks { (x : Node) → IsListed ((K.seen k.old).honest) ((K.seen k.old).told) at.entry.top.now at.entry.path.now entry.now x → Walks tt (leaf_met x) written.old.counts.nodes written.old.counts.bytes result written.new.counts.nodes written.new.counts.bytes }
    ensures adds { (x : Node) → IsListed ((K.seen k.old).honest) ((K.seen k.old).told) at.entry.top.now at.entry.path.now entry.now x → OnOk result (Adds written.old written.new (node_text a false entry.now.name x) (node_bad false at.entry.text.now entry.now.name x)) }
    ensures tree { OnOk result (AddsLeaves a at.entry.text.now written.old written.new) }
    ensures keeps { Keeps is_reading (K.seen k.old) (K.seen k.new) }
    ensures cause { result ≡ Err (Stop.Fault ShelfFault.Failed) → Rose ((K.seen k.old).faults) ((K.seen k.new).faults) }
    ensures count { (result ≡ Err (Stop.Fault ShelfFault.Failed) → ⊥) → (K.seen k.new).faults ≡ (K.seen k.old).faults }
    ensures sure { (K.seen k.old).sure → (x : Node) → IsListed ((K.seen k.old).honest) ((K.seen k.old).told) at.entry.top.now at.entry.path.now entry.now x → result ≡ Err (Stop.Fault ShelfFault.Failed) → ⊥ }
{
    let name = entry.name.as_str();
    let Some(path) = at.path.child(alloc, name)? else {
        return Ok(());
    };
    match entry.kind {
        EntryKind::Folder => Ok(()),
        EntryKind::Link => write_link(alloc, a, at, &path, name, written, k),
        EntryKind::File { exec, mtime, .. } => {
            write_file(alloc, a, at, &path, name, exec, mtime, written, k)
        }
    }
}

/// Writes the line of the link at a path, which is counted.
fn write_link<K: Shelf>(
    alloc: Global,
    a: Algorithm,
    at: Place,
    path: &RelPath,
    name: &str,
    written: &mut Written,
    k: &mut K,
) -> Result<(), Stop>
    ensures walks { (target : List ℕ) → StandsNode ((K.seen k.old).honest) ((K.seen k.old).told) at.entry.top.now path.now (Link target) → Walks tt (leaf_met (Link target)) written.old.counts.nodes written.old.counts.bytes result written.new.counts.nodes written.new.counts.bytes }
    ensures adds { (target : List ℕ) → StandsNode ((K.seen k.old).honest) ((K.seen k.old).told) at.entry.top.now path.now (Link target) → OnOk result (Adds written.old written.new (node_text a false name.now (Link target)) (node_bad false at.entry.text.now name.now (Link target))) }
    ensures tree { OnOk result (AddsLeaves a at.entry.text.now written.old written.new) }
    ensures keeps { Keeps is_reading (K.seen k.old) (K.seen k.new) }
    ensures cause { result ≡ Err (Stop.Fault ShelfFault.Failed) → Rose ((K.seen k.old).faults) ((K.seen k.new).faults) }
    ensures count { (result ≡ Err (Stop.Fault ShelfFault.Failed) → ⊥) → (K.seen k.new).faults ≡ (K.seen k.old).faults }
    ensures sure { (K.seen k.old).sure → (target : List ℕ) → StandsNode ((K.seen k.old).honest) ((K.seen k.old).told) at.entry.top.now path.now (Link target) → result ≡ Err (Stop.Fault ShelfFault.Failed) → ⊥ }
{
    written.meet(alloc, 0, at.text, name)?;
    let target = ask_target(at.top, path, k)?;
    written.put_link(alloc, a, name, target.as_str())?;
    Ok(())
}

/// Writes the line of the file at a path, which is counted. Where no entry more may come, its bytes aren't read.
fn write_file<K: Shelf>(
    alloc: Global,
    a: Algorithm,
    at: Place,
    path: &RelPath,
    name: &str,
    exec: bool,
    mtime: i64,
    written: &mut Written,
    k: &mut K,
) -> Result<(), Stop>
    ensures walks { (bytes : List ℕ) → StandsNode ((K.seen k.old).honest) ((K.seen k.old).told) at.entry.top.now path.now (File bytes exec mtime) → Walks tt (leaf_met (File bytes exec mtime)) written.old.counts.nodes written.old.counts.bytes result written.new.counts.nodes written.new.counts.bytes }
    ensures adds { (bytes : List ℕ) → StandsNode ((K.seen k.old).honest) ((K.seen k.old).told) at.entry.top.now path.now (File bytes exec mtime) → OnOk result (Adds written.old written.new (node_text a false name.now (File bytes exec mtime)) (node_bad false at.entry.text.now name.now (File bytes exec mtime))) }
    ensures tree { OnOk result (AddsLeaves a at.entry.text.now written.old written.new) }
    ensures keeps { Keeps is_reading (K.seen k.old) (K.seen k.new) }
    ensures cause { result ≡ Err (Stop.Fault ShelfFault.Failed) → Rose ((K.seen k.old).faults) ((K.seen k.new).faults) }
    ensures count { (result ≡ Err (Stop.Fault ShelfFault.Failed) → ⊥) → (K.seen k.new).faults ≡ (K.seen k.old).faults }
    ensures sure { (K.seen k.old).sure → (bytes : List ℕ) → StandsNode ((K.seen k.old).honest) ((K.seen k.old).told) at.entry.top.now path.now (File bytes exec mtime) → result ≡ Err (Stop.Fault ShelfFault.Failed) → ⊥ }
{
    written.counts.room()?;
    let limit = SIZE_LIMIT - written.counts.bytes;
    let hashed = hash_file(a, at.top, path, limit, &mut written.piece, k)?;
    written.meet(alloc, hashed.size, at.text, name)?;
    written.put_file(alloc, &hashed, name, exec, mtime)?;
    Ok(())
}

/// Writes a subfolder with all in it; nothing of a file or link. An entry whose text is no name, which no honest shelf gives,
/// is passed over.
#[cycle(writing)]
fn write_inner<K: Shelf>(
    alloc: Global,
    a: Algorithm,
    at: Place,
    entry: &Entry,
    written: &mut Written,
    k: &mut K,
) -> Result<(), Stop>
    requires { at.depth ≤ 64 }
    ensures walks { (x : Node) → IsListed ((K.seen k.old).honest) ((K.seen k.old).told) at.entry.top.now at.entry.path.now entry.now x → node_is_tree x ≡ true → Walks tt (inner_met at.entry.depth x) written.old.counts.nodes written.old.counts.bytes result written.new.counts.nodes written.new.counts.bytes }
    ensures adds { (x : Node) → IsListed ((K.seen k.old).honest) ((K.seen k.old).told) at.entry.top.now at.entry.path.now entry.now x → node_is_tree x ≡ true → OnOk result (Adds written.old written.new (inner_text a at.entry.text.now entry.now.name x) (inner_bad at.entry.text.now entry.now.name x)) }
    ensures tree { OnOk result (AddsFolders a at.entry.text.now written.old written.new) }
    ensures keeps { Keeps is_reading (K.seen k.old) (K.seen k.new) }
    ensures cause { result ≡ Err (Stop.Fault ShelfFault.Failed) → Rose ((K.seen k.old).faults) ((K.seen k.new).faults) }
    ensures count { (result ≡ Err (Stop.Fault ShelfFault.Failed) → ⊥) → (K.seen k.new).faults ≡ (K.seen k.old).faults }
    ensures sure { (K.seen k.old).sure → (x : Node) → IsListed ((K.seen k.old).honest) ((K.seen k.old).told) at.entry.top.now at.entry.path.now entry.now x → node_is_tree x ≡ true → result ≡ Err (Stop.Fault ShelfFault.Failed) → ⊥ }
{
    if !is_folder(entry) {
        return Ok(());
    }
    let name = entry.name.as_str();
    let Some(path) = at.path.child(alloc, name)? else {
        return Ok(());
    };
    written.note(alloc, at.text, name)?;
    let text = joined(alloc, at.text, name)?;
    let inner = Place {
        top: at.top,
        path: &path,
        text: text.as_str(),
        depth: at.depth + 1,
    };
    write_deeper(alloc, a, inner, written, k)
}

/// Writes the line of a folder, which is counted first, and all in it.
#[cycle(writing)]
fn write_deeper<K: Shelf>(
    alloc: Global,
    a: Algorithm,
    at: Place,
    written: &mut Written,
    k: &mut K,
) -> Result<(), Stop>
    requires { at.depth ≤ 65 }
    ensures walks { (inside : Dir) → Stands ((K.seen k.old).honest) ((K.seen k.old).told) at.entry.top.now at.entry.path.now inside → is_tree inside ≡ true → Walks tt (record { depth = at.entry.depth; size = 0 } ∷ met at.entry.depth inside) written.old.counts.nodes written.old.counts.bytes result written.new.counts.nodes written.new.counts.bytes }
    ensures adds { (inside : Dir) → Stands ((K.seen k.old).honest) ((K.seen k.old).told) at.entry.top.now at.entry.path.now inside → is_tree inside ≡ true → OnOk result (Adds written.old written.new (folder_line at.entry.text.now ++ (leaf_text (sketch a inside) ++ folder_text at.entry.text.now (sketch a inside))) (option_or (leaf_bad at.entry.text.now inside) (folder_bad at.entry.text.now inside))) }
    ensures tree { OnOk result (AddsFolder a at.entry.text.now written.old written.new) }
    ensures keeps { Keeps is_reading (K.seen k.old) (K.seen k.new) }
    ensures cause { result ≡ Err (Stop.Fault ShelfFault.Failed) → Rose ((K.seen k.old).faults) ((K.seen k.new).faults) }
    ensures count { (result ≡ Err (Stop.Fault ShelfFault.Failed) → ⊥) → (K.seen k.new).faults ≡ (K.seen k.old).faults }
    ensures sure { (K.seen k.old).sure → (inside : Dir) → Stands ((K.seen k.old).honest) ((K.seen k.old).told) at.entry.top.now at.entry.path.now inside → is_tree inside ≡ true → result ≡ Err (Stop.Fault ShelfFault.Failed) → ⊥ }
{
    written.counts.folder(at.depth)?;
    written.put_folder(alloc, at.text)?;
    let entries = listing(at.top, at.path, false, k)?;
    write_folder(alloc, a, at, entries.as_slice(), written, k)
}
