ghost use Rattle.std.specs.Prelude.{◌≡◌, ◌+◌, ◌≤◌, ◌<◌, ◌^◌, IfOk, encode_utf8, encode_utf8_all, codes};
ghost use Rattle.zi_xml.specs.Chars.{same_letters as alike, small as lower};
ghost use Rattle.zi_xml.specs.Machine.{common, is_xml as names_xml};
ghost use Rattle.zi_doc.specs.Moves.{near_bytes};

use crate::fault::{DocFault, DocKind};
use crate::letters::Letters;
use std::alloc::Global;
use zi_text::Memory;

/// An ASCII letter as a small one.
#[tactic(auto, unfolding(zi_xml::specs::Chars::small))]
fn small(b: u8) -> u8
    ensures { result ≡ lower b }
{
    if 65 <= b && b <= 90 { b + 32 } else { b }
}

/// Whether two texts are the same, ASCII case aside.
#[tactic(auto, using(crate::proofs::TextLemmas::other_length, crate::proofs::TextLemmas::letters_on, crate::proofs::TextLemmas::letters_off, crate::proofs::TextLemmas::letters_end))]
pub fn same_letters(a: &[u8], b: &[u8]) -> bool
    ensures { result ≡ alike a.now b.now }
{
    if a.len() != b.len() {
        return false;
    }
    for i in 0..a.len() {
        if small(a[i]) != small(b[i]) {
            return false;
        }
    }
    true
}

/// Whether a target is `xml` in any case.
pub fn is_xml(target: &str) -> bool
    ensures { result ≡ names_xml target.now }
{
    same_letters(target.as_bytes(), b"xml")
}

/// These characters as letters.
#[tactic(auto, using(crate::proofs::TextLemmas::encodes_push))]
pub fn letters_of(alloc: Global, chars: &[char]) -> Result<Letters, Memory>
    ensures { IfOk result (λ t. t ≡ encode_utf8_all chars.now) }
{
    let mut letters = Letters::with_room(alloc, chars.len())?;
    for c in chars {
        letters.push(*c)?;
    }
    Ok(letters)
}

/// How many bytes two texts share at their front.
#[tactic(auto, using(crate::proofs::TextLemmas::common_on, crate::proofs::TextLemmas::common_off, crate::proofs::TextLemmas::common_left, crate::proofs::TextLemmas::common_right))]
fn shared_front(xs: &[u8], ys: &[u8]) -> usize
    ensures { result ≡ common xs.now ys.now }
{
    let mut n = 0;
    while n < xs.len() && n < ys.len() && xs[n] == ys[n] {
        n += 1;
    }
    n
}

/// How many bytes two characters share at their front.
#[tactic(auto, using(crate::proofs::TextLemmas::common_few))]
fn shared(x: char, y: char) -> usize
    ensures same { result ≡ common (encode_utf8 x) (encode_utf8 y) }
    ensures few { result ≤ 4 }
{
    let mut first = [0; 4];
    let mut second = [0; 4];
    let xs = x.encode_utf8(&mut first);
    let ys = y.encode_utf8(&mut second);
    shared_front(xs.as_bytes(), ys.as_bytes())
}

/// A character is refused that stands behind `at` bytes; near may stand there, and the two share their first bytes.
pub fn refuse(near: Option<char>, at: u64, c: char) -> Result<(), DocFault>
    requires { at < 2 ^ 63 }
    ensures { result ≡ Err (DocFault.Bad DocKind.Syntax (at + common (near_bytes near) (encode_utf8 c))) }
{
    let lag = match near {
        Some(x) => shared(x, c),
        None => 0,
    };
    Err(DocFault::Bad {
        kind: DocKind::Syntax,
        place: at + lag as u64,
    })
}
