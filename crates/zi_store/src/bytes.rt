//! The bytes of a file on a shelf.

ghost use Rattle.std.specs.Prelude.{◌≡◌, ◌+◌, ◌<◌, ◌≤◌, Err, ℕ, ℤ, Bool, List, IfOk, MatchBool, vec_len};
ghost use Rattle.zi_tree.specs.declared.tree.TreeNode.TheVariants.{File};
ghost use Rattle.zi_text.specs.Count.{Rose};
ghost use Rattle.zi_store.specs.Keeping.{Keeps, is_reading};
ghost use Rattle.zi_store.specs.Standing.{StandsNode};
ghost use Rattle.zi_store.specs.Entries.{ReadsBytes, IsFront};

use crate::calls::ask_bytes;
use std::alloc::Global;
use zi_shelf::{Shelf, ShelfFault};
use zi_text::Bytes;
use zi_tree::RelPath;

/// How many bytes one read asks for at most.
const PIECE: u64 = 1024 * 1024;

/// The bytes of a file: what its reads give up to the first that gives none. None exactly where they are more than the limit;
/// then no more than one byte past the limit was read.
pub(crate) fn read_bytes<K: Shelf>(
    alloc: Global,
    top: &str,
    path: &RelPath,
    limit: u64,
    k: &mut K,
) -> Result<Option<Bytes>, ShelfFault>
    ensures bytes { (bytes : List ℕ) (exec : Bool) (mtime : ℤ) → StandsNode ((K.seen k.old).honest) ((K.seen k.old).told) top.now path.now (File bytes exec mtime) → ReadsBytes bytes limit result }
    ensures keeps { Keeps is_reading (K.seen k.old) (K.seen k.new) }
    ensures cause { result ≡ Err ShelfFault.Failed → Rose ((K.seen k.old).faults) ((K.seen k.new).faults) }
    ensures count { (result ≡ Err ShelfFault.Failed → ⊥) → (K.seen k.new).faults ≡ (K.seen k.old).faults }
    ensures sure { (K.seen k.old).sure → (bytes : List ℕ) (exec : Bool) (mtime : ℤ) → StandsNode ((K.seen k.old).honest) ((K.seen k.old).told) top.now path.now (File bytes exec mtime) → result ≡ Err ShelfFault.Failed → ⊥ }
{
    let mut bytes = Vec::new(alloc);
    while bytes.len() as u64 <= limit {
        if !read_more(top, path, limit, &mut bytes, k)? {
            return Ok(Some(Bytes::from_vec(bytes)));
        }
    }
    Ok(None)
}

/// Reads the next piece of a file behind the bytes so far, of no more than one byte past the limit; whether one came.
fn read_more<K: Shelf>(
    top: &str,
    path: &RelPath,
    limit: u64,
    bytes: &mut Vec<u8>,
    k: &mut K,
) -> Result<bool, ShelfFault>
    requires { vec_len bytes.old ≤ limit }
    ensures front { (all : List ℕ) (exec : Bool) (mtime : ℤ) → StandsNode ((K.seen k.old).honest) ((K.seen k.old).told) top.now path.now (File all exec mtime) → IsFront bytes.old.items all → IfOk result (λ more. MatchBool more (IsFront bytes.new.items all) (bytes.old.items ≡ all)) }
    ensures more { IfOk result (λ more. MatchBool more (vec_len bytes.old < vec_len bytes.new) (bytes.new.items ≡ bytes.old.items)) }
    ensures keeps { Keeps is_reading (K.seen k.old) (K.seen k.new) }
    ensures cause { result ≡ Err ShelfFault.Failed → Rose ((K.seen k.old).faults) ((K.seen k.new).faults) }
    ensures count { (result ≡ Err ShelfFault.Failed → ⊥) → (K.seen k.new).faults ≡ (K.seen k.old).faults }
    ensures sure { (K.seen k.old).sure → (all : List ℕ) (exec : Bool) (mtime : ℤ) → StandsNode ((K.seen k.old).honest) ((K.seen k.old).told) top.now path.now (File all exec mtime) → result ≡ Err ShelfFault.Failed → ⊥ }
{
    let had = bytes.len();
    let room = (limit - had as u64).saturating_add(1).min(PIECE);
    ask_bytes(top, path, had as u64, room as u32, bytes, k)?;
    Ok(bytes.len() > had)
}
