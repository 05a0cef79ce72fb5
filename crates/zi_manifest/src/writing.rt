//! Writing a manifest, and its digest.

ghost use Rattle.std.specs.Prelude.{◌≡◌, ℕ, List, Err, None, Some, IfOk};
ghost use Rattle.zi_manifest.specs.Manifest.{first_bad, as_read, manifest, digest_of};
ghost use Rattle.zi_manifest.specs.declared.writing.ManifestOutFault.TheVariants.{BadName};

use crate::at_place::place_line;
use std::alloc::Global;
use thiserror::Error;
use zi_digest::{Algorithm, DigestName, Hasher};
use zi_text::{Memory, Text};
use zi_tree::{Tree, places};

/// Why a tree has no manifest.
#[derive(Debug, Drop, Error)]
pub enum ManifestOutFault {
    /// A name that no manifest has: one with a newline, or `.manifest` anywhere but as a file in the top folder. The path
    /// is that of the first one in the order of the manifest's lines, its parts joined by `/`.
    #[error("a name that no manifest has")]
    BadName { path: Text },
    /// Memory was refused.
    #[error("out of memory")]
    Memory,
}

impl From<Memory> for ManifestOutFault {
    ghost use Rattle.zi_manifest.specs.declared.writing.ManifestOutFault.TheVariants as fault;

    ghost from_gives = { λ _ e. e ≡ fault.Memory };

    fn from(_: Memory) -> Self {
        ManifestOutFault::Memory
    }
}

/// The manifest of a tree: in byte order of names the lines of a folder's files and links, then each subfolder in byte
/// order with all in it. A regular file `.manifest` in the top folder isn't in it.
///
/// BadName comes exactly where a name is bad, with the path of the first one; Memory where memory is refused.
pub fn write(alloc: Global, t: &Tree, a: Algorithm) -> Result<Vec<u8>, ManifestOutFault>
    ensures text { IfOk result (λ m. (first_bad (as_read t.now) ≡ None) × (m.items ≡ manifest a t.now)) }
    ensures bad { (p : List ℕ) → result ≡ Err (BadName p) → first_bad (as_read t.now) ≡ Some p }
{
    let places = places(alloc, t)?;
    let mut out: Vec<u8> = Vec::new(alloc);
    for place in &places {
        match place_line(alloc, a, place) {
            Err(fault) => return Err(fault),
            Ok(line) => {
                let Ok(()) = out.extend_from_slice(line.as_slice()) else {
                    return Err(ManifestOutFault::Memory);
                };
            }
        }
    }
    Ok(out)
}

/// The digest of a tree: the hash of its manifest by this algorithm. The manifest is hashed line by line as it is made.
///
/// BadName and Memory come as in `write`.
pub fn digest(alloc: Global, t: &Tree, a: Algorithm) -> Result<DigestName, ManifestOutFault>
    ensures name { IfOk result (λ n. (first_bad (as_read t.now) ≡ None) × (n ≡ digest_of a t.now)) }
    ensures bad { (p : List ℕ) → result ≡ Err (BadName p) → first_bad (as_read t.now) ≡ Some p }
{
    let places = places(alloc, t)?;
    let mut hasher = Hasher::new(a);
    for place in &places {
        match place_line(alloc, a, place) {
            Err(fault) => return Err(fault),
            Ok(line) => hasher.update(line.as_slice()),
        }
    }
    Ok(hasher.finish())
}
