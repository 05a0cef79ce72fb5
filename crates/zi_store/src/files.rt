//! A file on a shelf.

ghost use Rattle.std.specs.Prelude.{◌≡◌, List, [], ◌∷◌, ◌++◌, true, Ok, Err, Some, None, IfOk, MatchOption, is_some, option_map};
ghost use Rattle.zi_tree.specs.Dir.{Dir};
ghost use Rattle.zi_tree.specs.Order.{is_plain};
ghost use Rattle.zi_tree.specs.Paths.{items, node_in};
ghost use Rattle.zi_shelf.specs.Names.{Name, IsIn};
ghost use Rattle.zi_text.specs.Count.{Rose};
ghost use Rattle.zi_shelf.specs.Told.{Told};
ghost use Rattle.zi_shelf.specs.Reading.{Entries, kind_of};
ghost use Rattle.zi_shelf.specs.declared.shelf.EntryKind.{EntryKind as Kind};
ghost use Rattle.zi_store.specs.Keeping.{Keeps, is_reading};
ghost use Rattle.zi_store.specs.Standing.{Stands};
ghost use Rattle.zi_store.specs.Entries.{Fits};
ghost use Rattle.zi_store.specs.FileAnswers.{ReadsFile, file_at, Leads};

use crate::bytes::read_bytes;
use crate::calls::ask_entries;
use std::alloc::Global;
use zi_shelf::{Entry, EntryKind, Listed, Shelf, ShelfFault};
use zi_text::Bytes;
use zi_tree::RelPath;

/// What reading a file came to.
#[derive(Drop)]
pub enum FileRead {
    /// Its bytes.
    Read(Bytes),
    /// No file stands there: there is no such top entry, nothing at the path, or a link or a folder.
    Missing,
    /// It has more bytes than the limit.
    TooLong,
}

/// The bytes of a file at a path in a top entry, at most so many.
///
/// Missing comes exactly where no file stands there, TooLong exactly where it has more bytes than the limit. Failed comes only
/// where the shelf's count of faults rose, Memory where memory is refused.
pub fn read_file<K: Shelf>(
    alloc: Global,
    top: &str,
    path: &RelPath,
    limit: u64,
    k: &mut K,
) -> Result<FileRead, ShelfFault>
    ensures file { (s : Told) → (K.seen k.old).honest → (K.seen k.old).told ≡ Some s → ReadsFile top.now path.now limit result s.shelf }
    ensures keeps { Keeps is_reading (K.seen k.old) (K.seen k.new) }
    ensures cause { result ≡ Err ShelfFault.Failed → Rose ((K.seen k.old).faults) ((K.seen k.new).faults) }
    ensures count { (result ≡ Err ShelfFault.Failed → ⊥) → (K.seen k.new).faults ≡ (K.seen k.old).faults }
    ensures sure { (K.seen k.old).sure → result ≡ Err ShelfFault.Failed → ⊥ }
{
    if !is_file(alloc, top, path, k)? {
        return Ok(FileRead::Missing);
    }
    match read_bytes(alloc, top, path, limit, k)? {
        Some(bytes) => Ok(FileRead::Read(bytes)),
        None => Ok(FileRead::TooLong),
    }
}

/// Whether a file stands at a path in a top entry. It is found by listing the folders that lead to it, the top one first.
fn is_file<K: Shelf>(
    alloc: Global,
    top: &str,
    path: &RelPath,
    k: &mut K,
) -> Result<bool, ShelfFault>
    ensures file { (s : Told) → (K.seen k.old).honest → (K.seen k.old).told ≡ Some s → IfOk result (λ there. there ≡ is_some (file_at top.now path.now s.shelf)) }
    ensures keeps { Keeps is_reading (K.seen k.old) (K.seen k.new) }
    ensures cause { result ≡ Err ShelfFault.Failed → Rose ((K.seen k.old).faults) ((K.seen k.new).faults) }
    ensures count { (result ≡ Err ShelfFault.Failed → ⊥) → (K.seen k.new).faults ≡ (K.seen k.old).faults }
    ensures sure { (K.seen k.old).sure → result ≡ Err ShelfFault.Failed → ⊥ }
{
    let parts = path.parts().as_slice();
    let mut folder = RelPath::root(alloc);
    for (i, part) in parts.iter().enumerate() {
        match way_from(alloc, top, &folder, part.as_str(), k)? {
            Way::Into(inner) => folder = inner,
            Way::File => return Ok(i + 1 == parts.len()),
            Way::Nowhere => return Ok(false),
        }
    }
    Ok(false)
}

/// Where a part of a path leads from the folder before it.
enum Way {
    /// Into a folder, at this path.
    Into(RelPath),
    /// To a file.
    File,
    /// To nothing, or to a link.
    Nowhere,
}

/// Where a name leads from a folder.
fn way_from<K: Shelf>(
    alloc: Global,
    top: &str,
    folder: &RelPath,
    name: &str,
    k: &mut K,
) -> Result<Way, ShelfFault>
    requires { is_plain name.now ≡ true }
    ensures way { (d : Dir) → Stands ((K.seen k.old).honest) ((K.seen k.old).told) top.now folder.now d → IfOk result (λ way. Leads (node_in name.now (items d)) way) }
    ensures none { (s : Told) → (K.seen k.old).honest → (K.seen k.old).told ≡ Some s → s.shelf.tops top.now ≡ None → IfOk result (λ way. way ≡ Way.Nowhere) }
    ensures path { (inner : List Name) → result ≡ Ok (Way.Into inner) → inner ≡ folder.now ++ name.now ∷ [] }
    ensures keeps { Keeps is_reading (K.seen k.old) (K.seen k.new) }
    ensures cause { result ≡ Err ShelfFault.Failed → Rose ((K.seen k.old).faults) ((K.seen k.new).faults) }
    ensures count { (result ≡ Err ShelfFault.Failed → ⊥) → (K.seen k.new).faults ≡ (K.seen k.old).faults }
    ensures sure { (K.seen k.old).sure → Fits ((K.seen k.old).told) (Entries top.now folder.now) → result ≡ Err ShelfFault.Failed → ⊥ }
{
    match kind_under(top, folder, name, k)? {
        Some(EntryKind::Folder) => match folder.child(alloc, name)? {
            Some(inner) => Ok(Way::Into(inner)),
            None => Ok(Way::Nowhere),
        },
        Some(EntryKind::File { .. }) => Ok(Way::File),
        _ => Ok(Way::Nowhere),
    }
}

/// What an entry of a folder is, if there is one of this name.
fn kind_under<K: Shelf>(
    top: &str,
    path: &RelPath,
    name: &str,
    k: &mut K,
) -> Result<Option<EntryKind>, ShelfFault>
    ensures kind { (d : Dir) → Stands ((K.seen k.old).honest) ((K.seen k.old).told) top.now path.now d → IfOk result (λ kind. kind ≡ option_map kind_of (node_in name.now (items d))) }
    ensures none { (s : Told) → (K.seen k.old).honest → (K.seen k.old).told ≡ Some s → s.shelf.tops top.now ≡ None → IfOk result (λ kind. kind ≡ None) }
    ensures keeps { Keeps is_reading (K.seen k.old) (K.seen k.new) }
    ensures cause { result ≡ Err ShelfFault.Failed → Rose ((K.seen k.old).faults) ((K.seen k.new).faults) }
    ensures count { (result ≡ Err ShelfFault.Failed → ⊥) → (K.seen k.new).faults ≡ (K.seen k.old).faults }
    ensures sure { (K.seen k.old).sure → Fits ((K.seen k.old).told) (Entries top.now path.now) → result ≡ Err ShelfFault.Failed → ⊥ }
{
    match ask_entries(top, path, k)? {
        Listed::Absent => Ok(None),
        Listed::Entries(entries) => Ok(kind_in(entries.as_slice(), name)),
    }
}

/// What the entry of this name is.
fn kind_in(entries: &[Entry], name: &str) -> Option<EntryKind>
    ensures { MatchOption result ((kind : Kind) → IsIn (record { name = name.now; kind = kind }) entries.now → ⊥) (λ kind. IsIn (record { name = name.now; kind = kind }) entries.now) }
{
    for entry in entries {
        if entry.name.as_str() == name {
            return Some(entry.kind);
        }
    }
    None
}
