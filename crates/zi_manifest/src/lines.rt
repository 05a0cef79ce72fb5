//! The lines of a manifest, each with its LF.

ghost use Rattle.std.specs.Prelude.{◌≡◌, ◌++◌, length, IfOk};
ghost use Rattle.zi_digest.specs.Name.{name_of};
ghost use Rattle.zi_manifest.specs.Sketch.{hash_of, hash_text, file_line, link_line, folder_line};

use itoa::Buffer;
use std::alloc::Global;
use zi_digest::{Algorithm, DigestName, Hasher};
use zi_text::Memory;

/// The name of these bytes.
fn hashed(a: Algorithm, bytes: &[u8]) -> DigestName
    ensures { result ≡ name_of a bytes.now }
{
    let mut hasher = Hasher::new(a);
    hasher.update(bytes);
    hasher.finish()
}

/// The line of a file.
#[tactic(auto, unfolding(crate::specs::Sketch::hash_of))]
pub(crate) fn file_line(
    alloc: Global,
    a: Algorithm,
    name: &str,
    bytes: &[u8],
    exec: bool,
    mtime: i64,
) -> Result<Vec<u8>, Memory>
    ensures { IfOk result (λ line. line.items ≡ file_line (hash_of a bytes.now) exec mtime (length bytes.now) name.now) }
{
    hashed_line(
        alloc,
        &hashed(a, bytes),
        bytes.len() as u64,
        name,
        exec,
        mtime,
    )
}

/// The line of a file whose bytes, so many, have this hash.
pub fn hashed_line(
    alloc: Global,
    hash: &DigestName,
    size: u64,
    name: &str,
    exec: bool,
    mtime: i64,
) -> Result<Vec<u8>, Memory>
    ensures { IfOk result (λ line. line.items ≡ file_line (hash_text hash.now) exec mtime size name.now) }
{
    let hash = hash.hex(alloc)?;
    let mut buffer = Buffer::new();
    let mut line = if exec {
        Vec::from_slice(alloc, b"X ")?
    } else {
        Vec::from_slice(alloc, b"F ")?
    };
    line.extend_from_slice(hash.as_str().as_bytes())?;
    line.extend_from_slice(b" ")?;
    line.extend_from_slice(buffer.format(mtime).as_bytes())?;
    line.extend_from_slice(b" ")?;
    line.extend_from_slice(buffer.format(size).as_bytes())?;
    line.extend_from_slice(b" ")?;
    line.extend_from_slice(name.as_bytes())?;
    line.extend_from_slice(b"\n")?;
    Ok(line)
}

/// The line of a link.
#[tactic(auto, unfolding(crate::specs::Sketch::hash_of))]
pub fn link_line(alloc: Global, a: Algorithm, name: &str, target: &str) -> Result<Vec<u8>, Memory>
    ensures { IfOk result (λ line. line.items ≡ link_line (hash_of a target.now) (length target.now) name.now) }
{
    let hash = hashed(a, target.as_bytes()).hex(alloc)?;
    let mut buffer = Buffer::new();
    let mut line = Vec::from_slice(alloc, b"S ")?;
    line.extend_from_slice(hash.as_str().as_bytes())?;
    line.extend_from_slice(b" ")?;
    line.extend_from_slice(buffer.format(target.len()).as_bytes())?;
    line.extend_from_slice(b" ")?;
    line.extend_from_slice(name.as_bytes())?;
    line.extend_from_slice(b"\n")?;
    Ok(line)
}

/// The line of the folder at this path.
pub fn folder_line(alloc: Global, path: &str) -> Result<Vec<u8>, Memory>
    ensures { IfOk result (λ line. line.items ≡ folder_line path.now) }
{
    let mut line = Vec::from_slice(alloc, b"D /")?;
    line.extend_from_slice(path.as_bytes())?;
    line.extend_from_slice(b"\n")?;
    Ok(line)
}
