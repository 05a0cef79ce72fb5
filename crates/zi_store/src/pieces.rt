//! A file on a shelf, hashed piece by piece.

ghost use Rattle.std.specs.Prelude.{◌≡◌, ◌≤◌, ◌<◌, ◌++◌, ◌∷◌, [], Err, ℕ, ℤ, Bool, List, length, IfOk};
ghost use Rattle.zi_tree.specs.declared.tree.TreeNode.TheVariants.{File};
ghost use Rattle.zi_text.specs.Count.{Rose};
ghost use Rattle.zi_store.specs.Keeping.{Keeps, is_reading};
ghost use Rattle.zi_store.specs.Standing.{StandsNode};
ghost use Rattle.zi_store.specs.Written.{HashesBytes, HashesSome};

use crate::calls::ask_bytes;
use crate::stop::Stop;
use zi_digest::{Algorithm, DigestName, Hasher};
use zi_shelf::{Shelf, ShelfFault};
use zi_tree::{RelPath, TreeLimit};

/// How many bytes one read asks for at most.
pub(crate) const PIECE: u32 = 65_536;

/// A file's hash and how many bytes it has.
#[derive(Clone, Copy)]
pub(crate) struct Hashed {
    pub(crate) hash: DigestName,
    pub(crate) size: u64,
}

/// The hash of a file's bytes: what its reads give, at rising offsets, up to the first that gives none. Each piece comes in the
/// place of the one before it. TooLarge exactly where the bytes are more than the limit.
pub(crate) fn hash_file<K: Shelf>(
    a: Algorithm,
    top: &str,
    path: &RelPath,
    limit: u64,
    piece: &mut Vec<u8>,
    k: &mut K,
) -> Result<Hashed, Stop>
    requires { limit ≤ 268435456 }
    ensures hash { (bytes : List ℕ) (exec : Bool) (mtime : ℤ) → StandsNode ((K.seen k.old).honest) ((K.seen k.old).told) top.now path.now (File bytes exec mtime) → HashesBytes a bytes limit result }
    ensures some { IfOk result (λ hashed. HashesSome a hashed) }
    ensures size { IfOk result (λ hashed. hashed.size ≤ limit) }
    ensures keeps { Keeps is_reading (K.seen k.old) (K.seen k.new) }
    ensures cause { result ≡ Err (Stop.Fault ShelfFault.Failed) → Rose ((K.seen k.old).faults) ((K.seen k.new).faults) }
    ensures count { (result ≡ Err (Stop.Fault ShelfFault.Failed) → ⊥) → (K.seen k.new).faults ≡ (K.seen k.old).faults }
    ensures sure { (K.seen k.old).sure → (bytes : List ℕ) (exec : Bool) (mtime : ℤ) → StandsNode ((K.seen k.old).honest) ((K.seen k.old).told) top.now path.now (File bytes exec mtime) → result ≡ Err (Stop.Fault ShelfFault.Failed) → ⊥ }
{
    let mut hasher = Hasher::new(a);
    let mut size = 0;
    while size <= limit {
        piece.clear();
        ask_bytes(top, path, size, PIECE, piece, k)?;
        if piece.is_empty() {
            return Ok(Hashed {
                hash: hasher.finish(),
                size,
            });
        }
        hasher.update(piece.as_slice());
        size += piece.len() as u64;
    }
    Err(Stop::TooLarge(TreeLimit::Size))
}
