//! A tree on a shelf.

ghost use Rattle.std.specs.Prelude.{◌≡◌, Err, Some};
ghost use Rattle.zi_text.specs.Count.{Rose};
ghost use Rattle.zi_shelf.specs.Told.{Told};
ghost use Rattle.zi_store.specs.Keeping.{Keeps, is_reading};
ghost use Rattle.zi_store.specs.TreeAnswers.{ReadsTree, ReadsWhole};

use crate::counts::Counts;
use crate::folder::read_folder;
use crate::listings::listing;
use crate::stop::Stop;
use std::alloc::Global;
use zi_shelf::{Shelf, ShelfFault};
use zi_tree::{RelPath, Tree, TreeLimit};

/// What reading a tree came to.
#[derive(Drop)]
pub enum TreeRead {
    /// The tree, without a regular file `.manifest` in its top folder.
    Read(Tree),
    /// There is no such top entry.
    Missing,
    /// The tree has more than this limit of what it names: bytes, entries, or folders one in another.
    TooLarge { what: TreeLimit, limit: u64 },
}

/// The tree of a top entry, as it is read: a regular file `.manifest` in the top folder is left out, and its bytes aren't read.
/// A file's bytes are what its reads gave, up to the first read that gave none.
///
/// Missing comes exactly where there is no such entry. TooLarge comes exactly where a tree has folders more than 64 deep (the
/// top one has the depth 0), more than 100,000 files, links and folders, or more than 256 MiB in its files, with the first
/// limit that is passed: the entries are counted in the order of the manifest, and at each the depth goes first, then the
/// number of entries, then the bytes. Failed comes only where the shelf's count of faults rose, Memory where memory is refused.
pub fn read_tree<K: Shelf>(alloc: Global, top: &str, k: &mut K) -> Result<TreeRead, ShelfFault>
    ensures tree { (s : Told) → (K.seen k.old).honest → (K.seen k.old).told ≡ Some s → ReadsTree top.now result s.shelf }
    ensures keeps { Keeps is_reading (K.seen k.old) (K.seen k.new) }
    ensures cause { result ≡ Err ShelfFault.Failed → Rose ((K.seen k.old).faults) ((K.seen k.new).faults) }
    ensures count { (result ≡ Err ShelfFault.Failed → ⊥) → (K.seen k.new).faults ≡ (K.seen k.old).faults }
    ensures sure { (K.seen k.old).sure → result ≡ Err ShelfFault.Failed → ⊥ }
{
    match whole_tree(alloc, top, k) {
        Ok(tree) => Ok(TreeRead::Read(tree)),
        Err(Stop::Missing) => Ok(TreeRead::Missing),
        Err(Stop::TooLarge(what)) => Ok(TreeRead::TooLarge {
            what,
            limit: what.most(),
        }),
        Err(Stop::Fault(fault)) => Err(fault),
    }
}

/// The tree of a top entry, or why there is none.
fn whole_tree<K: Shelf>(alloc: Global, top: &str, k: &mut K) -> Result<Tree, Stop>
    ensures tree { (s : Told) → (K.seen k.old).honest → (K.seen k.old).told ≡ Some s → ReadsWhole top.now result s.shelf }
    ensures keeps { Keeps is_reading (K.seen k.old) (K.seen k.new) }
    ensures cause { result ≡ Err (Stop.Fault ShelfFault.Failed) → Rose ((K.seen k.old).faults) ((K.seen k.new).faults) }
    ensures count { (result ≡ Err (Stop.Fault ShelfFault.Failed) → ⊥) → (K.seen k.new).faults ≡ (K.seen k.old).faults }
    ensures sure { (K.seen k.old).sure → result ≡ Err (Stop.Fault ShelfFault.Failed) → ⊥ }
{
    let path = RelPath::root(alloc);
    let entries = listing(top, &path, true, k)?;
    let mut counts = Counts::new();
    read_folder(alloc, top, &path, 0, entries.as_slice(), &mut counts, k)
}
