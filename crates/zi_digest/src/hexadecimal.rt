//! Digests in lower-case hexadecimal, by the crate `hex`.
//! The crate reads both cases of letters, so what it reads is written again and compared.
//! No memory is taken.
ghost use Rattle.std.specs.Prelude.{◌≡◌, ◌≢◌, ◌*◌, ◌≤◌, ◌↔◌, ℕ, List, length, IsTrue, IfSome, IfNone};
ghost use Rattle.hex.specs.Hex.{encode_lower};
ghost use Rattle.zi_digest.specs.Name.{IsBytesOf};

use hex::FromHex;

/// Whether these are the digits of the bytes.
fn are_digits_of<const N: usize, const M: usize>(digits: &[u8], bytes: &[u8; N]) -> bool
    requires twice { M ≡ 2 * N }
    requires small { N ≤ 32 }
    ensures { IsTrue result ↔ (encode_lower bytes.now ≡ digits.now) }
{
    let mut expected = [0u8; M];
    match hex::encode_to_slice(bytes.as_slice(), &mut expected) {
        Ok(()) => expected.as_slice() == digits,
        Err(_) => false,
    }
}

/// The N bytes whose lower-case digits these are.
pub(crate) fn read<const N: usize, const M: usize>(digits: &[u8]) -> Option<[u8; N]>
    requires twice { M ≡ 2 * N }
    requires small { N ≤ 32 }
    ensures spelled { IfSome result (λ bytes. encode_lower bytes ≡ digits.now) }
    ensures bytes { IfSome result (IsBytesOf N) }
    ensures refused { IfNone result
        ((bytes : List ℕ) → IsBytesOf N bytes → encode_lower bytes ≢ digits.now) }
{
    match <[u8; N]>::from_hex(digits) {
        Ok(bytes) => {
            if are_digits_of::<N, M>(digits, &bytes) {
                Some(bytes)
            } else {
                None
            }
        }
        Err(_) => None,
    }
}
