//! The names of digests: an algorithm with the hash of a message.
//! How each name is spelled and read, one spelling each, and the hasher that makes the name of bytes given in pieces.
//! SHA-1 and SHA-256 are those of FIPS 180-4, base 32 is that of RFC 4648.
//!
//! Read specs/Name.antt first: what each name is spelled as, and which bytes it stands for. Code: this file has the types and
//! their spellings, `hexadecimal` and `base32` the two ways to spell bytes, `hasher` the hasher.
#![tactic(auto)]

ghost use Rattle.std.specs.Prelude.{◌≡◌, ◌≢◌, ◌++◌, ℕ, List, IfSome, IfNone, MatchOption, IfOk};
ghost use Rattle.zi_digest.specs.Name.{spelling, algorithm_of, hash_in, IsDigest, base32};
ghost use Rattle.hex.specs.Hex.{encode_lower};
ghost use Rattle.zi_digest.specs.declared.DigestName.{DigestName as Name};

mod base32;
mod hasher;
mod hexadecimal;
pub mod laws;

pub use hasher::Hasher;
use std::alloc::Global;
use zi_text::{Memory, Text};

/// How a message is hashed and how the hash is spelled, as the manifest format of Zero Install names it.
#[derive(Clone, Copy, Debug, PartialEq, Eq)]
pub enum Algorithm {
    /// SHA-1, in lower-case hexadecimal behind `sha1new=`.
    Sha1new,
    /// SHA-256, in lower-case hexadecimal behind `sha256=`.
    Sha256,
    /// SHA-256, in upper-case base 32 without padding behind `sha256new_`.
    Sha256new,
}

/// A hash with its algorithm. Each has one spelling.
#[derive(Clone, Copy, Debug, PartialEq, Eq)]
pub enum DigestName {
    /// The 160 bits of a SHA-1.
    Sha1new([u8; 20]),
    /// The 256 bits of a SHA-256, spelled in hexadecimal.
    Sha256([u8; 32]),
    /// The 256 bits of a SHA-256, spelled in base 32.
    Sha256new([u8; 32]),
}

impl DigestName {
    /// The digest that is spelled so. None exactly where no digest is. It takes no memory.
    pub fn parse(text: &str) -> Option<DigestName>
        ensures spelled { IfSome result (λ name. spelling name ≡ text.now) }
        ensures digest { IfSome result IsDigest }
        ensures refused { IfNone result ((name : Name) → IsDigest name → spelling name ≢ text.now) }
    {
        let text = text.as_bytes();
        if let Some(digits) = after(text, b"sha1new=") {
            return hexadecimal::read::<20, 40>(digits).map(DigestName::Sha1new);
        }
        if let Some(digits) = after(text, b"sha256=") {
            return hexadecimal::read::<32, 64>(digits).map(DigestName::Sha256);
        }
        if let Some(letters) = after(text, b"sha256new_") {
            return base32::read(letters).map(DigestName::Sha256new);
        }
        None
    }

    /// The algorithm that it names.
    pub fn algorithm(&self) -> Algorithm
        ensures { result ≡ algorithm_of self.now }
    {
        match self {
            DigestName::Sha1new(_) => Algorithm::Sha1new,
            DigestName::Sha256(_) => Algorithm::Sha256,
            DigestName::Sha256new(_) => Algorithm::Sha256new,
        }
    }

    /// The hash itself: 20 bytes of a SHA-1, 32 of a SHA-256.
    pub fn hash(&self) -> &[u8]
        ensures { result.now ≡ hash_in self.now }
    {
        match self {
            DigestName::Sha1new(bytes) => bytes.as_slice(),
            DigestName::Sha256(bytes) => bytes.as_slice(),
            DigestName::Sha256new(bytes) => bytes.as_slice(),
        }
    }

    /// The hash in lower-case hexadecimal, whatever the algorithm's own spelling is. Memory is its one refusal.
    pub fn hex(&self, alloc: Global) -> Result<Text, Memory>
        ensures { IfOk result (λ text. text ≡ encode_lower (hash_in self.now)) }
    {
        with_digits(alloc, "", self.hash())
    }

    /// The one spelling of the digest, which `parse` reads back. Memory is its one refusal.
    pub fn text(&self, alloc: Global) -> Result<Text, Memory>
        ensures { IfOk result (λ text. text ≡ spelling self.now) }
    {
        match self {
            DigestName::Sha1new(bytes) => with_digits(alloc, "sha1new=", bytes.as_slice()),
            DigestName::Sha256(bytes) => with_digits(alloc, "sha256=", bytes.as_slice()),
            DigestName::Sha256new(bytes) => with_letters(alloc, "sha256new_", bytes),
        }
    }
}

/// What comes after the front of a text.
fn after<'a>(text: &'a [u8], front: &[u8]) -> Option<&'a [u8]>
    ensures { MatchOption result ((rest : List ℕ) → text.now ≢ front.now ++ rest)
        (λ rest. text.now ≡ front.now ++ rest.now) }
{
    text.strip_prefix(front)
}

/// The front and the bytes in hexadecimal.
fn with_digits(alloc: Global, front: &str, bytes: &[u8]) -> Result<Text, Memory>
    ensures { IfOk result (λ text. text ≡ front.now ++ encode_lower bytes.now) }
{
    let digits = hex::encode(alloc, bytes)?;
    let mut text = Text::from_str(alloc, front)?;
    text.push_str(digits.as_str())?;
    Ok(text)
}

/// The front and the bytes in base 32.
fn with_letters(alloc: Global, front: &str, bytes: &[u8; 32]) -> Result<Text, Memory>
    ensures { IfOk result (λ text. text ≡ front.now ++ base32 bytes.now) }
{
    let letters = base32::write(bytes);
    let mut text = Text::from_str(alloc, front)?;
    text.push_str(str::from_utf8(&letters).unwrap())?;
    Ok(text)
}
