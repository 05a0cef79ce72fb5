//! What a folder on a shelf has.

ghost use Rattle.std.specs.Prelude.{◌≡◌, ◌∷◌, ◌++◌, [], Some, Ok, Err, IfOk, IsSome, true, IsPermutation, IsSortedBy, filter};
ghost use Rattle.std.specs.Ordering.{is_lt, nat_cmp};
ghost use Rattle.std.specs.Cmp.Lexicographic.{slice_cmp};
ghost use Rattle.zi_tree.specs.Dir.{Dir};
ghost use Rattle.zi_tree.specs.Order.{is_tree};
ghost use Rattle.zi_tree.specs.declared.change.TreeLimit.{TreeLimit as Limit};
ghost use Rattle.zi_text.specs.Count.{Rose};
ghost use Rattle.zi_shelf.specs.Told.{Told};
ghost use Rattle.zi_shelf.specs.Reading.{Entries};
ghost use Rattle.zi_manifest.specs.Walk.{shown};
ghost use Rattle.zi_store.specs.Keeping.{Keeps, is_reading};
ghost use Rattle.zi_store.specs.Standing.{Stands};
ghost use Rattle.zi_store.specs.Entries.{entries_of, is_own, is_shown, is_folder_kind, Fits};

use crate::calls::ask_entries;
use crate::stop::Stop;
use zi_shelf::{Entry, EntryKind, Listed, Shelf, ShelfFault};
use zi_tree::RelPath;

/// The entries of a folder in byte order of their names. Where it is the top one, a file `.manifest` isn't among them.
pub(crate) fn listing<K: Shelf>(
    top: &str,
    path: &RelPath,
    whole: bool,
    k: &mut K,
) -> Result<Vec<Entry>, Stop>
    ensures entries { (d : Dir) → Stands ((K.seen k.old).honest) ((K.seen k.old).told) top.now path.now d → is_tree d ≡ true → IfOk result (λ v. v.items ≡ entries_of (shown whole d)) }
    ensures missing { (s : Told) → (K.seen k.old).honest → (K.seen k.old).told ≡ Some s → result ≡ Err Stop.Missing → s.shelf.tops top.now ≡ None }
    ensures there { (s : Told) → (K.seen k.old).honest → (K.seen k.old).told ≡ Some s → IfOk result (λ v. IsSome (s.shelf.tops top.now)) }
    ensures limit { (what : Limit) → result ≡ Err (Stop.TooLarge what) → ⊥ }
    ensures keeps { Keeps is_reading (K.seen k.old) (K.seen k.new) }
    ensures cause { result ≡ Err (Stop.Fault ShelfFault.Failed) → Rose ((K.seen k.old).faults) ((K.seen k.new).faults) }
    ensures count { (result ≡ Err (Stop.Fault ShelfFault.Failed) → ⊥) → (K.seen k.new).faults ≡ (K.seen k.old).faults }
    ensures sure { (K.seen k.old).sure → Fits ((K.seen k.old).told) (Entries top.now path.now) → result ≡ Err (Stop.Fault ShelfFault.Failed) → ⊥ }
{
    match ask_entries(top, path, k)? {
        Listed::Absent => Err(Stop::Missing),
        Listed::Entries(entries) => Ok(in_order(entries.into_vec(), whole)),
    }
}

/// The entries in byte order of their names, in the top folder without a file `.manifest`.
fn in_order(entries: Vec<Entry>, whole: bool) -> Vec<Entry>
    ensures same { IsPermutation (filter (λ e. is_shown whole e) entries.items) result.items }
    ensures sorted { IsSortedBy (λ a b. is_lt (slice_cmp nat_cmp a.name b.name)) result.items }
{
    let mut shown = entries;
    if whole {
        shown.retain(|e| !is_own(e));
    }
    shown.sort_unstable_by(|a, b| a.name.as_str().cmp(b.name.as_str()));
    shown
}

/// Whether an entry is a file `.manifest`.
fn is_own(entry: &Entry) -> bool
    ensures { result ≡ is_own entry.now }
{
    match entry.kind {
        EntryKind::File { .. } => entry.name.as_str() == ".manifest",
        EntryKind::Link => false,
        EntryKind::Folder => false,
    }
}

/// Whether an entry is a folder.
pub(crate) fn is_folder(entry: &Entry) -> bool
    ensures { result ≡ is_folder_kind entry.now.kind }
{
    match entry.kind {
        EntryKind::File { .. } => false,
        EntryKind::Link => false,
        EntryKind::Folder => true,
    }
}
