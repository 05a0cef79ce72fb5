//! The calls on a shelf that read, each with what it leaves of the shelf and when it fails.

ghost use Rattle.std.specs.Prelude.{◌≡◌, Err, Some};
ghost use Rattle.zi_text.specs.Count.{Rose};
ghost use Rattle.zi_shelf.specs.Told.{Told};
ghost use Rattle.zi_shelf.specs.Reading.{Entries, Read, Target, NamesAnswer, EntriesAnswer, ReadAnswer, TargetAnswer, Grows};
ghost use Rattle.zi_store.specs.Keeping.{Keeps, is_names, is_reading};
ghost use Rattle.zi_store.specs.Entries.{Fits};

use zi_shelf::{Listed, Shelf, ShelfFault};
use zi_text::{List, Text};
use zi_tree::RelPath;

/// The names of all top entries.
pub(crate) fn ask_names<K: Shelf>(k: &mut K) -> Result<List<Text>, ShelfFault>
    ensures answer { (s : Told) → (K.seen k.old).honest → (K.seen k.old).told ≡ Some s → NamesAnswer result s.shelf }
    ensures keeps { Keeps is_names (K.seen k.old) (K.seen k.new) }
    ensures cause { result ≡ Err ShelfFault.Failed → Rose ((K.seen k.old).faults) ((K.seen k.new).faults) }
    ensures count { (result ≡ Err ShelfFault.Failed → ⊥) → (K.seen k.new).faults ≡ (K.seen k.old).faults }
    ensures sure { (K.seen k.old).sure → result ≡ Err ShelfFault.Failed → ⊥ }
{
    k.names()
}

/// The entries of a folder.
pub(crate) fn ask_entries<K: Shelf>(
    top: &str,
    path: &RelPath,
    k: &mut K,
) -> Result<Listed, ShelfFault>
    ensures answer { (s : Told) → (K.seen k.old).honest → (K.seen k.old).told ≡ Some s → EntriesAnswer top.now path.now result s.shelf }
    ensures keeps { Keeps is_reading (K.seen k.old) (K.seen k.new) }
    ensures cause { result ≡ Err ShelfFault.Failed → Rose ((K.seen k.old).faults) ((K.seen k.new).faults) }
    ensures count { (result ≡ Err ShelfFault.Failed → ⊥) → (K.seen k.new).faults ≡ (K.seen k.old).faults }
    ensures sure { (K.seen k.old).sure → Fits ((K.seen k.old).told) (Entries top.now path.now) → result ≡ Err ShelfFault.Failed → ⊥ }
{
    k.entries(top, path)
}

/// A piece of a file.
pub(crate) fn ask_bytes<K: Shelf>(
    top: &str,
    path: &RelPath,
    offset: u64,
    max: u32,
    into: &mut Vec<u8>,
    k: &mut K,
) -> Result<(), ShelfFault>
    ensures answer { (s : Told) → (K.seen k.old).honest → (K.seen k.old).told ≡ Some s → ReadAnswer (Read top.now path.now offset max) into.old.items result into.new.items s.shelf }
    ensures grows { Grows max into.old.items result into.new.items }
    ensures keeps { Keeps is_reading (K.seen k.old) (K.seen k.new) }
    ensures cause { result ≡ Err ShelfFault.Failed → Rose ((K.seen k.old).faults) ((K.seen k.new).faults) }
    ensures count { (result ≡ Err ShelfFault.Failed → ⊥) → (K.seen k.new).faults ≡ (K.seen k.old).faults }
    ensures sure { (K.seen k.old).sure → Fits ((K.seen k.old).told) (Read top.now path.now offset max) → result ≡ Err ShelfFault.Failed → ⊥ }
{
    k.read(top, path, offset, max, into)
}

/// The text of a link.
pub(crate) fn ask_target<K: Shelf>(top: &str, path: &RelPath, k: &mut K) -> Result<Text, ShelfFault>
    ensures answer { (s : Told) → (K.seen k.old).honest → (K.seen k.old).told ≡ Some s → TargetAnswer top.now path.now result s.shelf }
    ensures keeps { Keeps is_reading (K.seen k.old) (K.seen k.new) }
    ensures cause { result ≡ Err ShelfFault.Failed → Rose ((K.seen k.old).faults) ((K.seen k.new).faults) }
    ensures count { (result ≡ Err ShelfFault.Failed → ⊥) → (K.seen k.new).faults ≡ (K.seen k.old).faults }
    ensures sure { (K.seen k.old).sure → Fits ((K.seen k.old).told) (Target top.now path.now) → result ≡ Err ShelfFault.Failed → ⊥ }
{
    k.target(top, path)
}
