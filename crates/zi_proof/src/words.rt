//! Reading the words of a line: numbers, literals, hints, lemmas and blocks.
//! Each function reads from the words that are left, and gives nothing where they aren't of its form.
//! A number is decimal, from 1 to 2^32 - 1, without a leading zero.

ghost use Rattle.std.specs.Prelude.{◌≡◌, IfOk, Option, Some, None};
ghost use Rattle.std.specs.Option.{option_map};
ghost use Rattle.zi_proof.specs.Reading.{digits_on, number_of, signed, lit_of, is_zero, last_hint, hints_of, lits_of, lemma_of, first_number, block_of};

use crate::cut::Cut;
use crate::{Block, Lemma};
use std::alloc::Global;
use zi_formula::Lit;
use zi_text::{List, Memory};

fn read_digits(digits: &[u8]) -> Option<u32>
    ensures { result ≡ digits_on 0 digits.now }
{
    let mut n: u64 = 0;
    for b in digits {
        if !b.is_ascii_digit() {
            return None;
        }
        n = 10 * n + u64::from(*b - b'0');
        if n > u64::from(u32::MAX) {
            return None;
        }
    }
    Some(n as u32)
}

fn read_number(word: &[u8]) -> Option<u32>
    ensures { result ≡ number_of word.now }
{
    match word {
        [] => None,
        [b'0', ..] => None,
        _ => read_digits(word),
    }
}

fn read_signed(digits: &[u8], positive: bool) -> Option<Lit>
    ensures { result ≡ signed positive (number_of digits.now) }
{
    match read_number(digits) {
        None => None,
        Some(variable) => Some(Lit { variable, positive }),
    }
}

fn read_lit(word: &[u8]) -> Option<Lit>
    ensures { result ≡ lit_of word.now }
{
    match word {
        [b'-', digits @ ..] => read_signed(digits, false),
        _ => read_signed(word, true),
    }
}

fn is_zero(word: &[u8]) -> bool
    ensures { result ≡ is_zero word.now }
{
    match word {
        [b] => *b == b'0',
        _ => false,
    }
}

// No hints, where no word is left.
fn end_hints(words: &Cut<'_>, hints: List<u32>) -> Option<List<u32>>
    ensures { result ≡ option_map (λ _. hints) (last_hint words.now) }
{
    if words.is_empty() { Some(hints) } else { None }
}

#[tactic(auto, using(crate::proofs::ReadingLaws::steps))]
fn read_hints(alloc: Global, words: &mut Cut<'_>) -> Result<Option<List<u32>>, Memory>
    ensures { IfOk result (λ hs. hs ≡ hints_of words.old) }
{
    let mut hints = List::new(alloc);
    while let Some(word) = words.next() {
        if is_zero(word) {
            return Ok(end_hints(words, hints));
        }
        match read_number(word) {
            None => return Ok(None),
            Some(n) => hints.push(n)?,
        }
    }
    Ok(None)
}

#[tactic(auto, using(crate::proofs::ReadingLaws::steps))]
fn read_lits(alloc: Global, words: &mut Cut<'_>) -> Result<Option<List<Lit>>, Memory>
    ensures { IfOk result (λ ls. option_map (λ l. (l, words.new)) ls ≡ lits_of words.old) }
{
    let mut lits = List::new(alloc);
    while let Some(word) = words.next() {
        if is_zero(word) {
            return Ok(Some(lits));
        }
        match read_lit(word) {
            None => return Ok(None),
            Some(l) => lits.push(l)?,
        }
    }
    Ok(None)
}

// The lemma of the words behind `l`.
pub(crate) fn read_lemma(alloc: Global, words: &mut Cut<'_>) -> Result<Option<Lemma>, Memory>
    ensures { IfOk result (λ m. m ≡ lemma_of words.old) }
{
    let lits = match read_lits(alloc, words)? {
        None => return Ok(None),
        Some(lits) => lits,
    };
    match read_hints(alloc, words)? {
        None => Ok(None),
        Some(hints) => Ok(Some(Lemma { lits, hints })),
    }
}

fn next_number(words: &mut Cut<'_>) -> Option<u32>
    ensures { option_map (λ n. (n, words.new)) result ≡ first_number words.old }
{
    match words.next() {
        None => None,
        Some(word) => read_number(word),
    }
}

// The block of the words behind `b`.
pub(crate) fn read_block(alloc: Global, words: &mut Cut<'_>) -> Result<Option<Block>, Memory>
    ensures { IfOk result (λ b. b ≡ block_of words.old) }
{
    let place = match next_number(words) {
        None => return Ok(None),
        Some(place) => place,
    };
    let candidate = match next_number(words) {
        None => return Ok(None),
        Some(candidate) => candidate,
    };
    match read_hints(alloc, words)? {
        None => Ok(None),
        Some(hints) => Ok(Some(Block {
            place,
            candidate,
            hints,
        })),
    }
}
