//! The words of a manifest's line: hashes, numbers and names.

ghost use Rattle.std.specs.Prelude.{◌≡◌, ◌<◌, ◌^◌, ◌++◌, ◌∷◌, ℕ, ℤ, List, MatchOption, decimal, IsTrue, ◌↔◌};
ghost use Rattle.std.specs.List.{list_all};
ghost use Rattle.zi_tree.specs.Order.{is_plain};
ghost use Rattle.std.specs.Fmt.{signed_decimal};
ghost use Rattle.zi_manifest.specs.Listing.{IsHash, IsSigned64, IsEntryName, digits_of, is_lower_digit};

use crate::at_place::is_bad;
use crate::cutting::cut;
use itoa::Buffer;
use zi_digest::Algorithm;

/// The hash with which a text begins, and what stands behind the space after it.
pub(crate) fn hash_word(a: Algorithm, text: &[u8]) -> Option<(&str, &[u8])>
    ensures { MatchOption result ((h r : List ℕ) → IsHash a h → text.now ≡ h ++ 32 ∷ r → ⊥) (λ p. IsHash a p.0.now × (text.now ≡ p.0.now ++ 32 ∷ p.1.now)) }
{
    let (word, behind) = cut(text, b' ')?;
    let Ok(hash) = str::from_utf8(word) else {
        return None;
    };
    if is_hash(a, word) {
        Some((hash, behind))
    } else {
        None
    }
}

/// The number below 2^64 with which a text begins, and what stands behind the space after it.
pub(crate) fn size_word(text: &[u8]) -> Option<(u64, &[u8])>
    ensures { MatchOption result ((n : ℕ) (r : List ℕ) → n < 2 ^ 64 → text.now ≡ decimal n ++ 32 ∷ r → ⊥) (λ p. (p.0 < 2 ^ 64) × (text.now ≡ decimal p.0 ++ 32 ∷ p.1.now)) }
{
    let (word, behind) = cut(text, b' ')?;
    match size_of(word) {
        None => None,
        Some(n) => Some((n, behind)),
    }
}

/// The signed number of 64 bits with which a text begins, and what stands behind the space after it.
pub(crate) fn time_word(text: &[u8]) -> Option<(i64, &[u8])>
    ensures { MatchOption result ((z : ℤ) (r : List ℕ) → IsSigned64 z → text.now ≡ signed_decimal z ++ 32 ∷ r → ⊥) (λ p. IsSigned64 p.0 × (text.now ≡ signed_decimal p.0 ++ 32 ∷ p.1.now)) }
{
    let (word, behind) = cut(text, b' ')?;
    match time_of(word) {
        None => None,
        Some(n) => Some((n, behind)),
    }
}

/// The number below 2^64 that is written so.
fn size_of(word: &[u8]) -> Option<u64>
    ensures { MatchOption result ((n : ℕ) → n < 2 ^ 64 → word.now ≡ decimal n → ⊥) (λ n. (n < 2 ^ 64) × (word.now ≡ decimal n)) }
{
    let Ok(text) = str::from_utf8(word) else {
        return None;
    };
    let Ok(n) = text.parse::<u64>() else {
        return None;
    };
    let mut buffer = Buffer::new();
    if buffer.format(n).as_bytes() == word {
        Some(n)
    } else {
        None
    }
}

/// The signed number of 64 bits that is written so.
fn time_of(word: &[u8]) -> Option<i64>
    ensures { MatchOption result ((z : ℤ) → IsSigned64 z → word.now ≡ signed_decimal z → ⊥) (λ z. IsSigned64 z × (word.now ≡ signed_decimal z)) }
{
    let Ok(text) = str::from_utf8(word) else {
        return None;
    };
    let Ok(n) = text.parse::<i64>() else {
        return None;
    };
    let mut buffer = Buffer::new();
    if buffer.format(n).as_bytes() == word {
        Some(n)
    } else {
        None
    }
}

/// Whether a text is a hash of this algorithm in lower-case hexadecimal.
fn is_hash(a: Algorithm, word: &[u8]) -> bool
    ensures { IsTrue result ↔ IsHash a word.now }
{
    word.len() == digits_of(a) && are_digits(word)
}

/// So many digits has a hash.
fn digits_of(a: Algorithm) -> usize
    ensures { result ≡ digits_of a }
{
    match a {
        Algorithm::Sha1new => 40,
        Algorithm::Sha256 => 64,
        Algorithm::Sha256new => 64,
    }
}

/// Whether all these are digits of lower-case hexadecimal.
fn are_digits(word: &[u8]) -> bool
    ensures { result ≡ list_all is_lower_digit word.now }
{
    for c in word {
        if !is_lower_digit(*c) {
            return false;
        }
    }
    true
}

/// Whether a byte is a digit of lower-case hexadecimal.
fn is_lower_digit(c: u8) -> bool
    ensures { result ≡ is_lower_digit c }
{
    (b'0' <= c && c <= b'9') || (b'a' <= c && c <= b'f')
}

/// The name that these bytes are, where one is that stands in a manifest.
pub(crate) fn entry_name(bytes: &[u8]) -> Option<&str>
    ensures { MatchOption result (IsEntryName bytes.now → ⊥) (λ n. (n.now ≡ bytes.now) × IsEntryName bytes.now) }
{
    let Ok(name) = str::from_utf8(bytes) else {
        return None;
    };
    if is_plain(name) && !is_bad(name) {
        Some(name)
    } else {
        None
    }
}

/// Whether a text isn't empty, `.` or `..`, and has no `/` and no NUL.
fn is_plain(text: &str) -> bool
    ensures { result ≡ is_plain text.now }
{
    let bytes = text.as_bytes();
    text != "" && text != "." && text != ".." && !bytes.contains(&b'/') && !bytes.contains(&0)
}
