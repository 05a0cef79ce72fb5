//! Prints the digest name of standard input by the algorithm that the word names: sha1new, sha256 or sha256new.
//! It reads pieces of 64 KiB and gives them to the hasher, so its time is that of the hash.
//! `bench/hash.py` holds it against `sha1sum` and `sha256sum`.

use crate::line;
use std::io::{self, Read};
use zi_digest::{Algorithm, DigestName, Hasher};

/// The algorithm of a word.
fn algorithm_of(word: &str) -> Option<Algorithm> {
    if word == "sha1new" {
        Some(Algorithm::Sha1new)
    } else if word == "sha256" {
        Some(Algorithm::Sha256)
    } else if word == "sha256new" {
        Some(Algorithm::Sha256new)
    } else {
        None
    }
}

/// The name of all bytes that the source still has.
fn name_of<R: Read>(
    source: &mut R,
    piece: &mut [u8],
    algorithm: Algorithm,
) -> io::Result<DigestName> {
    let mut hasher = Hasher::new(algorithm);
    for _ in 0..u64::MAX {
        let count = source.read(piece)?;
        if count == 0 {
            break;
        }
        hasher.update(&piece[..count]);
    }
    Ok(hasher.finish())
}

pub fn named(rt: &HostRuntime, word: &str) -> io::Result<Option<Vec<u8>>> {
    let Some(algorithm) = algorithm_of(word) else {
        return Ok(None);
    };
    let mut piece = vec![in rt.alloc(); 0u8; 65_536]?;
    let name = name_of(&mut rt.stdin(), piece.as_mut_slice(), algorithm)?;
    let told = match name.text(rt.alloc()) {
        Ok(text) => line(rt.alloc(), text.as_str())?,
        Err(_) => line(rt.alloc(), "out of memory")?,
    };
    Ok(Some(told))
}
