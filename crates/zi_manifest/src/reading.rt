//! Reading a manifest.

ghost use Rattle.std.specs.Prelude.{◌≡◌, ◌++◌, ◌∷◌, [], ℕ, List, true, false, reverse, IfOk, Err};
ghost use Rattle.zi_tree.specs.Order.{has_byte};
ghost use Rattle.zi_manifest.specs.Listing.{ReadsAs, IsBadAt};
ghost use Rattle.zi_manifest.specs.Reading.{with_path, all_rise, NextLine};
ghost use Rattle.zi_manifest.specs.declared.reading.ManifestFault.TheVariants.{Bad};

use crate::cutting::cut;
use crate::entries::{Entry, entry_of};
use crate::listing::{Line, Listing};
use crate::open::{Open, step, top};
use std::alloc::Global;
use thiserror::Error;
use zi_digest::Algorithm;
use zi_text::{List, Memory, Text};

/// Why a text isn't read as a listing.
#[derive(Debug, Drop, Error)]
pub enum ManifestFault {
    /// It is the manifest of no listing. The line is the first, from 1, after which no continuation is one; where the
    /// text ends inside a line, that is the number of its whole lines and one.
    #[error("the manifest is bad at line {line}")]
    Bad { line: u64 },
    /// Memory was refused.
    #[error("out of memory")]
    Memory,
}

impl From<Memory> for ManifestFault {
    ghost use Rattle.std.specs.Prelude.{◌≡◌};
    ghost use Rattle.zi_manifest.specs.declared.reading.ManifestFault.TheVariants as fault;

    ghost from_gives = { λ _ e. e ≡ fault.Memory };

    fn from(_: Memory) -> Self {
        ManifestFault::Memory
    }
}

/// The listing whose manifest by this algorithm a text is.
///
/// In a listing each name is UTF-8, not empty, `.`, `..` or `.manifest`, and has no `/`, NUL or LF; the names in one
/// folder are distinct and stand in the manifest's order; each folder's lines follow its own; each hash has the
/// algorithm's number of lower-case digits, sizes are below 2^64, times are signed numbers of 64 bits, and each number
/// has its one spelling. The empty text is the empty listing.
///
/// Bad comes exactly where the text is the manifest of no listing, with the first line, from 1, after which no
/// continuation is one; Memory where memory is refused. The work is that of the bytes, and of a search by halves among
/// the names of a folder's files for each of its subfolders.
pub fn read(alloc: Global, bytes: &[u8], a: Algorithm) -> Result<Listing, ManifestFault>
    ensures ok { IfOk result (λ l. ReadsAs a bytes.now l.lines) }
    ensures bad { (k : ℕ) → result ≡ Err (Bad k) → IsBadAt a bytes.now k }
{
    let mut folders = top(alloc)?;
    let mut lines = List::new(alloc);
    let mut rest = bytes;
    let mut number: u64 = 1;
    while !rest.is_empty() {
        let Some((line, behind)) = cut(rest, b'\n') else {
            return Err(ManifestFault::Bad { line: number });
        };
        let Some(next) = next_line(alloc, a, &mut folders, line)? else {
            return Err(ManifestFault::Bad { line: number });
        };
        lines.push(next)?;
        rest = behind;
        number += 1;
    }
    Ok(Listing { lines })
}

/// Goes on by one line, and answers it as a value. None where it may not stand here.
fn next_line(
    alloc: Global,
    a: Algorithm,
    folders: &mut Vec<Open>,
    line: &[u8],
) -> Result<Option<Line>, Memory>
    requires line { has_byte 10 line.now ≡ false }
    requires rising { all_rise (reverse folders.old.items) ≡ true }
    ensures { IfOk result (λ next. NextLine a line.now (reverse folders.old.items) next (reverse folders.new.items)) }
{
    let Some(entry) = entry_of(alloc, a, line)? else {
        return Ok(None);
    };
    let Some(path) = step(alloc, folders, &entry)? else {
        return Ok(None);
    };
    Ok(Some(line_at(path, entry)))
}

/// The line of an entry at this path.
fn line_at(path: Text, entry: Entry) -> Line
    ensures { result ≡ with_path path entry }
{
    match entry {
        Entry::File {
            hash,
            exec,
            mtime,
            size,
            ..
        } => Line::File {
            path,
            hash,
            exec,
            mtime,
            size,
        },
        Entry::Link { hash, size, .. } => Line::Link { path, hash, size },
        Entry::Folder { .. } => Line::Folder { path },
    }
}
