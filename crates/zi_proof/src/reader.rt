//! Reading a proof text.
//! It goes line by line: the header, lemmas, blocks, the end, and nothing behind it.
//! A fault is at the first line up to which no right text begins so.

ghost use Rattle.std.specs.Prelude.{◌≡◌, ◌<◌, ◌+◌, ◌++◌, ◌∷◌, [], length, IfOk, IsTrue, MatchOption, MatchResult, ◌↔◌};
ghost use Rattle.zi_proof.specs.ProofText.{all_pieces, but_last, header, end_line, IsProofText, FaultMeans};
ghost use Rattle.zi_proof.specs.Reading.{lemma_of, block_of, Says, Took, front_lines, PartsNumbered};

use crate::cut::Cut;
use crate::line::{Line, Step};
use crate::words::{read_block, read_lemma};
use crate::{Block, Certificate, Lemma, Proof, ProofFault};
use std::alloc::Global;
use zi_text::{List, Memory};

fn is_letter(word: &[u8], letter: u8) -> bool
    ensures { IsTrue result ↔ (word.now ≡ letter ∷ []) }
{
    match word {
        [b] => *b == letter,
        _ => false,
    }
}

#[tactic(auto, using(crate::proofs::LineLaws::says_lemma, crate::proofs::LineLaws::says_no_lemma))]
fn lemma_or_other(alloc: Global, line: &[u8], mut words: Cut<'_>) -> Result<Line, Memory>
    requires { all_pieces 32 line.now ≡ (108 ∷ []) ∷ words }
    ensures { IfOk result (Says line.now) }
{
    match read_lemma(alloc, &mut words)? {
        None => Ok(Line::Other),
        Some(m) => Ok(Line::Lemma(m)),
    }
}

#[tactic(auto, using(crate::proofs::LineLaws::says_block, crate::proofs::LineLaws::says_no_block))]
fn block_or_other(alloc: Global, line: &[u8], mut words: Cut<'_>) -> Result<Line, Memory>
    requires { all_pieces 32 line.now ≡ (98 ∷ []) ∷ words }
    ensures { IfOk result (Says line.now) }
{
    match read_block(alloc, &mut words)? {
        None => Ok(Line::Other),
        Some(b) => Ok(Line::Block(b)),
    }
}

#[tactic(auto, using(crate::proofs::LineLaws::says_end, crate::proofs::LineLaws::says_other))]
fn read_line(alloc: Global, line: &[u8]) -> Result<Line, Memory>
    ensures { IfOk result (Says line.now) }
{
    let mut words = Cut::new(line, b' ');
    let Some(first) = words.next() else {
        return Ok(Line::Other);
    };
    if is_letter(first, b'l') {
        return lemma_or_other(alloc, line, words);
    }
    if is_letter(first, b'b') {
        return block_or_other(alloc, line, words);
    }
    if !is_letter(first, b'e') {
        return Ok(Line::Other);
    }
    if words.is_empty() {
        return Ok(Line::End);
    }
    Ok(Line::Other)
}

#[tactic(auto, using(crate::proofs::TookLaws::laws))]
fn take_line(
    alloc: Global,
    line: &[u8],
    lemmas: &mut List<Lemma>,
    blocks: &mut List<Block>,
) -> Result<Step, Memory>
    ensures { Took line.now lemmas.old blocks.old result lemmas.new blocks.new }
{
    match read_line(alloc, line)? {
        Line::Lemma(m) => {
            if !blocks.is_empty() {
                return Ok(Step::Bad);
            }
            lemmas.push(m)?;
            Ok(Step::More)
        }
        Line::Block(b) => {
            blocks.push(b)?;
            Ok(Step::More)
        }
        Line::End => Ok(Step::End),
        Line::Other => Ok(Step::Bad),
    }
}

// The next whole line.
fn next_line<'a>(lines: &mut Cut<'a>) -> Option<&'a [u8]>
    ensures { MatchOption result (but_last lines.old ≡ []) (λ l. (lines.old ≡ l.now ∷ lines.new) × (0 < length lines.new)) }
{
    let line = lines.next()?;
    if lines.is_empty() {
        return None;
    }
    Some(line)
}

// Whether nothing stands behind the last LF.
fn ends_here(mut lines: Cut<'_>) -> bool
    ensures { IsTrue result ↔ (lines.entry ≡ [] ∷ []) }
{
    match lines.next() {
        None => false,
        Some(rest) => rest.is_empty() && lines.is_empty(),
    }
}

// The certificate, where the end line was read and nothing stands behind it.
#[tactic(auto, using(crate::proofs::LineLaws::good_text, crate::proofs::LineLaws::bad_after))]
fn finish(
    bytes: &[u8],
    lines: Cut<'_>,
    lemmas: List<Lemma>,
    blocks: List<Block>,
    line: u64,
) -> Result<Certificate, ProofFault>
    requires cut { all_pieces 10 bytes.now ≡ front_lines lemmas blocks ++ end_line ∷ lines }
    requires numbered { PartsNumbered lemmas blocks }
    requires some { 0 < length lines }
    requires line { line ≡ length (front_lines lemmas blocks) + 2 }
    ensures { MatchResult result (IsProofText bytes.now) (FaultMeans bytes.now) }
{
    if ends_here(lines) {
        return Ok(Certificate {
            proof: Proof { lemmas },
            blocks,
        });
    }
    Err(ProofFault::Bad { line })
}

// Reads the lines behind the header.
#[tactic(auto, using(crate::proofs::BodyLaws::laws))]
fn read_body(alloc: Global, bytes: &[u8], mut lines: Cut<'_>) -> Result<Certificate, ProofFault>
    requires cut { all_pieces 10 bytes.now ≡ header ∷ lines }
    requires some { 0 < length lines }
    ensures { MatchResult result (IsProofText bytes.now) (FaultMeans bytes.now) }
{
    let mut lemmas = List::new(alloc);
    let mut blocks = List::new(alloc);
    let mut taken: u64 = 1;
    while let Some(line) = next_line(&mut lines) {
        match take_line(alloc, line, &mut lemmas, &mut blocks)? {
            Step::More => taken += 1,
            Step::End => return finish(bytes, lines, lemmas, blocks, taken + 2),
            Step::Bad => return Err(ProofFault::Bad { line: taken + 1 }),
        }
    }
    Err(ProofFault::Bad { line: taken + 1 })
}

fn is_header(line: &[u8]) -> bool
    ensures { IsTrue result ↔ (line.now ≡ header) }
{
    line == b"zi-proof 1".as_slice()
}

/// Reads a proof text. A fault is bad exactly where the text is that of no certificate, with the first line up to which
/// no right text begins so. The work and the memory are linear in the bytes.
#[tactic(auto, using(crate::proofs::LineLaws::bad_start, crate::proofs::LineLaws::bad_header))]
pub fn read(alloc: Global, bytes: &[u8]) -> Result<Certificate, ProofFault>
    ensures { MatchResult result (IsProofText bytes.now) (FaultMeans bytes.now) }
{
    let mut lines = Cut::new(bytes, b'\n');
    let Some(first) = next_line(&mut lines) else {
        return Err(ProofFault::Bad { line: 1 });
    };
    if !is_header(first) {
        return Err(ProofFault::Bad { line: 1 });
    }
    read_body(alloc, bytes, lines)
}
