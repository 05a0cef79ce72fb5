//! Digests of 32 bytes in base 32, by RFC 4648, section 6, without padding.
//! The bits move from bytes to groups of five and back, a byte or a group at a time, and no memory is taken.
//! The four bits behind the last byte are zero: a text in which they are not is refused.
ghost use Rattle.std.specs.Prelude.{◌≡◌, ◌≢◌, ◌+◌, ◌*◌, ◌/◌, ◌%◌, ◌^◌, ◌<◌, ℕ, List, All, length, map, IfSome, IfNone, IsAscii};
ghost use Rattle.std.specs.Int.Digits.{number_from_digits};
ghost use Rattle.zi_digest.specs.Name.{IsBytesOf, base32, base32_letter, last_digits};

const ALPHABET: [u8; 32] = *b"ABCDEFGHIJKLMNOPQRSTUVWXYZ234567";

/// The bits above the lowest `count` ones, and these.
fn split(bits: u32, count: u32) -> (u8, u32)
    requires few { count < 8 }
    requires small { bits < 256 * 2 ^ count }
    ensures high { result.0 ≡ bits / 2 ^ count }
    ensures low { result.1 ≡ bits % 2 ^ count }
{
    let weight = 1u32 << count;
    ((bits / weight) as u8, bits % weight)
}

/// The bits of the bytes and four zero bits, in groups of five.
fn groups_of(bytes: &[u8; 32]) -> [u8; 52]
    ensures { result ≡ last_digits 32 52 (number_from_digits 256 bytes.now * 16) }
{
    let mut padded = [0u8; 33];
    padded[..32].copy_from_slice(bytes);
    let mut groups = [0u8; 52];
    let mut taken = 0usize;
    let mut pending = 0u32;
    let mut count = 0u32;
    'groups: for i in 0..52 {
        if count < 5 {
            pending = pending * 256 + u32::from(padded[taken]);
            taken += 1;
            count += 8;
        }
        count -= 5;
        let (group, rest) = split(pending, count);
        groups[i] = group;
        pending = rest;
    }
    groups
}

/// The first 256 bits of the groups as bytes, and the number that the last four bits make.
fn bytes_of(groups: &[u8; 52]) -> ([u8; 32], u32)
    requires { All (λ group. group < 32) groups.now }
    ensures bits { number_from_digits 256 result.0 * 16 + result.1 ≡ number_from_digits 32 groups.now }
    ensures rest { result.1 < 16 }
{
    let mut bytes = [0u8; 32];
    let mut made = 0usize;
    let mut pending = 0u32;
    let mut count = 0u32;
    'groups: for i in 0..52 {
        pending = pending * 32 + u32::from(groups[i]);
        count += 5;
        if count >= 8 {
            count -= 8;
            let (byte, rest) = split(pending, count);
            bytes[made] = byte;
            pending = rest;
            made += 1;
        }
    }
    (bytes, pending)
}

fn letter_of(group: u8) -> u8
    requires { group < 32 }
    ensures { result ≡ base32_letter group }
{
    ALPHABET[group as usize]
}

fn group_of(letter: u8) -> Option<u8>
    ensures found { IfSome result (λ group. (group < 32) × (base32_letter group ≡ letter)) }
    ensures none { IfNone result ((group : ℕ) → group < 32 → base32_letter group ≢ letter) }
{
    match letter {
        b'A'..=b'Z' => Some(letter - b'A'),
        b'2'..=b'7' => Some(letter - b'2' + 26),
        _ => None,
    }
}

/// The letters of 32 bytes.
pub(crate) fn write(bytes: &[u8; 32]) -> [u8; 52]
    ensures value { result ≡ base32 bytes.now }
    ensures ascii { IsAscii result }
{
    let groups = groups_of(bytes);
    let mut text = [0u8; 52];
    'letters: for i in 0..52 {
        text[i] = letter_of(groups[i]);
    }
    text
}

/// The groups that the letters stand for.
fn groups_read(text: &[u8]) -> Option<[u8; 52]>
    requires { length text.now ≡ 52 }
    ensures small { IfSome result (λ groups. All (λ group. group < 32) groups) }
    ensures spelled { IfSome result (λ groups. map base32_letter groups ≡ text.now) }
    ensures refused { IfNone result ((groups : List ℕ) → All (λ group. group < 32) groups
        → map base32_letter groups ≢ text.now) }
{
    let mut groups = [0u8; 52];
    'letters: for i in 0..52 {
        let Some(group) = group_of(text[i]) else {
            return None;
        };
        groups[i] = group;
    }
    Some(groups)
}

/// The bytes whose letters these are.
pub(crate) fn read(text: &[u8]) -> Option<[u8; 32]>
    ensures spelled { IfSome result (λ bytes. base32 bytes ≡ text.now) }
    ensures bytes { IfSome result (IsBytesOf 32) }
    ensures refused { IfNone result ((bytes : List ℕ) → IsBytesOf 32 bytes → base32 bytes ≢ text.now) }
{
    if text.len() != 52 {
        return None;
    }
    let Some(groups) = groups_read(text) else {
        return None;
    };
    let (bytes, rest) = bytes_of(&groups);
    if rest == 0 { Some(bytes) } else { None }
}
