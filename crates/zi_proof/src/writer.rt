//! Writing a proof text.
//! It is added at the end of some bytes, line by line.
//! Where memory is refused, what was added is taken back.

ghost use Rattle.std.specs.Prelude.{◌≡◌, ◌++◌, ◌∷◌, [], map, decimal, OnOk, OnErr};
ghost use Rattle.zi_proof.specs.ProofText.{behind, zero_word, lit_word, hint_words, lemma_line, block_line, header, end_line, lines_text, certificate_text};
ghost use Rattle.zi_proof.specs.Writing.{Puts};

use crate::{Block, Certificate, Lemma};
use zi_formula::Lit;
use zi_text::Memory;

fn put(bytes: &[u8], into: &mut Vec<u8>) -> Result<(), Memory>
    ensures { Puts into.old.items bytes.now result into.new.items }
{
    into.extend_from_slice(bytes)?;
    Ok(())
}

fn put_byte(byte: u8, into: &mut Vec<u8>) -> Result<(), Memory>
    ensures { Puts into.old.items (byte ∷ []) result into.new.items }
{
    into.push(byte)?;
    Ok(())
}

#[tactic(auto, using(crate::proofs::WriteLaws::numbers))]
fn put_number(n: u32, into: &mut Vec<u8>) -> Result<(), Memory>
    ensures { Puts into.old.items (decimal n) result into.new.items }
{
    if n < 10 {
        return put_byte(b'0' + n as u8, into);
    }
    put_number(n / 10, into)?;
    put_byte(b'0' + (n % 10) as u8, into)
}

#[tactic(auto, using(crate::proofs::WriteLaws::pieces))]
fn put_lit(l: Lit, into: &mut Vec<u8>) -> Result<(), Memory>
    ensures { Puts into.old.items (lit_word l) result into.new.items }
{
    if l.positive {
        return put_number(l.variable, into);
    }
    put_byte(b'-', into)?;
    put_number(l.variable, into)
}

#[tactic(auto, using(crate::proofs::WriteLaws::pieces))]
fn put_item(n: u32, into: &mut Vec<u8>) -> Result<(), Memory>
    ensures { Puts into.old.items (behind 32 (decimal n ∷ [])) result into.new.items }
{
    put_byte(b' ', into)?;
    put_number(n, into)
}

#[tactic(auto, using(crate::proofs::WriteLaws::pieces))]
fn put_lit_item(l: Lit, into: &mut Vec<u8>) -> Result<(), Memory>
    ensures { Puts into.old.items (behind 32 (lit_word l ∷ [])) result into.new.items }
{
    put_byte(b' ', into)?;
    put_lit(l, into)
}

#[tactic(auto, using(crate::proofs::WriteLaws::pieces))]
fn put_lits(lits: &[Lit], into: &mut Vec<u8>) -> Result<(), Memory>
    ensures { Puts into.old.items (behind 32 (map lit_word lits.now)) result into.new.items }
{
    for l in lits {
        match put_lit_item(*l, into) {
            Ok(()) => {}
            Err(e) => return Err(e),
        }
    }
    Ok(())
}

#[tactic(auto, using(crate::proofs::WriteLaws::pieces))]
fn put_items(items: &[u32], into: &mut Vec<u8>) -> Result<(), Memory>
    ensures { Puts into.old.items (behind 32 (map decimal items.now)) result into.new.items }
{
    for n in items {
        match put_item(*n, into) {
            Ok(()) => {}
            Err(e) => return Err(e),
        }
    }
    Ok(())
}

// The hints, the 0 behind them and LF.
#[tactic(auto, using(crate::proofs::WriteLaws::pieces))]
fn put_hints(hints: &[u32], into: &mut Vec<u8>) -> Result<(), Memory>
    ensures { Puts into.old.items (behind 32 (hint_words hints.now) ++ 10 ∷ []) result into.new.items }
{
    put_items(hints, into)?;
    put(b" 0\n", into)
}

#[tactic(auto, using(crate::proofs::WriteLaws::pieces))]
fn put_lits_end(lits: &[Lit], into: &mut Vec<u8>) -> Result<(), Memory>
    ensures { Puts into.old.items (behind 32 (map lit_word lits.now ++ zero_word ∷ [])) result into.new.items }
{
    put_lits(lits, into)?;
    put(b" 0", into)
}

#[tactic(auto, using(crate::proofs::WriteLaws::pieces))]
fn put_lemma(m: &Lemma, into: &mut Vec<u8>) -> Result<(), Memory>
    ensures { Puts into.old.items (lemma_line m.now ++ 10 ∷ []) result into.new.items }
{
    put_byte(b'l', into)?;
    put_lits_end(m.lits.as_slice(), into)?;
    put_hints(m.hints.as_slice(), into)
}

#[tactic(auto, using(crate::proofs::WriteLaws::pieces))]
fn put_place(b: &Block, into: &mut Vec<u8>) -> Result<(), Memory>
    ensures { Puts into.old.items (behind 32 (decimal b.now.place ∷ decimal b.now.candidate ∷ [])) result into.new.items }
{
    put_item(b.place, into)?;
    put_item(b.candidate, into)
}

#[tactic(auto, using(crate::proofs::WriteLaws::pieces))]
fn put_block(b: &Block, into: &mut Vec<u8>) -> Result<(), Memory>
    ensures { Puts into.old.items (block_line b.now ++ 10 ∷ []) result into.new.items }
{
    put_byte(b'b', into)?;
    put_place(b, into)?;
    put_hints(b.hints.as_slice(), into)
}

#[tactic(auto, using(crate::proofs::WriteLaws::pieces))]
fn put_lemmas(lemmas: &[Lemma], into: &mut Vec<u8>) -> Result<(), Memory>
    ensures { Puts into.old.items (lines_text (map lemma_line lemmas.now)) result into.new.items }
{
    for m in lemmas {
        match put_lemma(m, into) {
            Ok(()) => {}
            Err(e) => return Err(e),
        }
    }
    Ok(())
}

#[tactic(auto, using(crate::proofs::WriteLaws::pieces))]
fn put_blocks(blocks: &[Block], into: &mut Vec<u8>) -> Result<(), Memory>
    ensures { Puts into.old.items (lines_text (map block_line blocks.now)) result into.new.items }
{
    for b in blocks {
        match put_block(b, into) {
            Ok(()) => {}
            Err(e) => return Err(e),
        }
    }
    Ok(())
}

#[tactic(auto, using(crate::proofs::WriteLaws::pieces))]
fn put_certificate(c: &Certificate, into: &mut Vec<u8>) -> Result<(), Memory>
    ensures { Puts into.old.items (certificate_text c.now) result into.new.items }
{
    put(b"zi-proof 1\n", into)?;
    put_lemmas(c.proof.lemmas.as_slice(), into)?;
    put_blocks(c.blocks.as_slice(), into)?;
    put(b"e\n", into)
}

/// Adds the text of the certificate. Where every variable, place and hint is at least 1 this is a proof text, and `read`
/// gives the same certificate back (`laws::a_text_has_one_certificate`). Where memory is refused the bytes stay as they
/// were. The work is linear in the text.
#[tactic(auto, using(crate::proofs::WriteLaws::taken_back))]
pub fn write(c: &Certificate, into: &mut Vec<u8>) -> Result<(), Memory>
    ensures ok { OnOk result (into.new.items ≡ into.old.items ++ certificate_text c.now) }
    ensures err { OnErr result (into.new.items ≡ into.old.items) }
{
    let start = into.len();
    match put_certificate(c, into) {
        Ok(()) => Ok(()),
        Err(e) => {
            into.truncate(start);
            Err(e)
        }
    }
}
