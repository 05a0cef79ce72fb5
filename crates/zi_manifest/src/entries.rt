//! The line of a manifest, taken apart.

ghost use Rattle.std.specs.Prelude.{◌≡◌, ◌++◌, ◌∷◌, [], ℕ, List, Bool, false, MatchOption, IfOk, codes, if◌then◌else◌};
ghost use Rattle.zi_tree.specs.Order.{has_byte};
ghost use Rattle.zi_manifest.specs.Sketch.{joined};
ghost use Rattle.zi_manifest.specs.Listing.{IsEntryName};
ghost use Rattle.zi_manifest.specs.Reading.{Tells};

use crate::cutting::cut_last;
use crate::words::{entry_name, hash_word, size_word, time_word};
use std::alloc::Global;
use zi_digest::Algorithm;
use zi_text::{Bytes, Memory, Text};

/// What a line tells: a file or link of the folder whose lines are being read, or the folder of this name in the folder
/// at that path.
#[derive(Drop)]
pub(crate) enum Entry {
    File {
        name: Text,
        hash: Text,
        exec: bool,
        mtime: i64,
        size: u64,
    },
    Link {
        name: Text,
        hash: Text,
        size: u64,
    },
    Folder {
        parent: Bytes,
        name: Text,
    },
}

/// What this line tells, which is given without its LF. None where no entry is written so.
pub(crate) fn entry_of(alloc: Global, a: Algorithm, line: &[u8]) -> Result<Option<Entry>, Memory>
    requires { has_byte 10 line.now ≡ false }
    ensures { IfOk result (Tells a line.now) }
{
    if let Some(rest) = behind(line, b"F ") {
        return file_of(alloc, a, false, rest);
    }
    if let Some(rest) = behind(line, b"X ") {
        return file_of(alloc, a, true, rest);
    }
    if let Some(rest) = behind(line, b"S ") {
        return link_of(alloc, a, rest);
    }
    if let Some(path) = behind(line, b"D /") {
        return folder_of(alloc, a, path);
    }
    Ok(None)
}

/// What stands behind this mark. None where the line doesn't begin with it.
fn behind<'a>(line: &'a [u8], mark: &[u8]) -> Option<&'a [u8]>
    ensures { MatchOption result ((r : List ℕ) → line.now ≡ mark.now ++ r → ⊥) (λ r. line.now ≡ mark.now ++ r.now) }
{
    line.strip_prefix(mark)
}

/// The file whose line goes on so behind its mark.
fn file_of(alloc: Global, a: Algorithm, exec: bool, rest: &[u8]) -> Result<Option<Entry>, Memory>
    ensures { IfOk result (Tells a ((if exec then codes "X " else codes "F ") ++ rest.now)) }
{
    let Some((hash, behind_hash)) = hash_word(a, rest) else {
        return Ok(None);
    };
    let Some((mtime, behind_time)) = time_word(behind_hash) else {
        return Ok(None);
    };
    let Some((size, behind_size)) = size_word(behind_time) else {
        return Ok(None);
    };
    let Some(name) = entry_name(behind_size) else {
        return Ok(None);
    };
    Ok(Some(Entry::File {
        name: Text::from_str(alloc, name)?,
        hash: Text::from_str(alloc, hash)?,
        exec,
        mtime,
        size,
    }))
}

/// The link whose line goes on so behind its mark.
fn link_of(alloc: Global, a: Algorithm, rest: &[u8]) -> Result<Option<Entry>, Memory>
    ensures { IfOk result (Tells a (codes "S " ++ rest.now)) }
{
    let Some((hash, behind_hash)) = hash_word(a, rest) else {
        return Ok(None);
    };
    let Some((size, behind_size)) = size_word(behind_hash) else {
        return Ok(None);
    };
    let Some(name) = entry_name(behind_size) else {
        return Ok(None);
    };
    Ok(Some(Entry::Link {
        name: Text::from_str(alloc, name)?,
        hash: Text::from_str(alloc, hash)?,
        size,
    }))
}

/// The folder at this path, which stands behind a slash.
fn folder_of(alloc: Global, a: Algorithm, path: &[u8]) -> Result<Option<Entry>, Memory>
    requires { has_byte 10 path.now ≡ false }
    ensures { IfOk result (Tells a (codes "D /" ++ path.now)) }
{
    let Some((parent, last)) = parts_of(path) else {
        return Ok(None);
    };
    let Some(name) = entry_name(last) else {
        return Ok(None);
    };
    Ok(Some(Entry::Folder {
        parent: Bytes::from_slice(alloc, parent)?,
        name: Text::from_str(alloc, name)?,
    }))
}

/// The path of a folder's parent, and its name.
fn parts_of(path: &[u8]) -> Option<(&[u8], &[u8])>
    ensures { MatchOption result ((p n : List ℕ) → has_byte 47 n ≡ false → path.now ≡ joined p n → ⊥) (λ q. (path.now ≡ joined q.0.now q.1.now) × (has_byte 47 q.1.now ≡ false)) }
{
    match cut_last(path, b'/') {
        None => Some((b"", path)),
        Some((parent, name)) => {
            if parent.is_empty() {
                None
            } else {
                Some((parent, name))
            }
        }
    }
}
