//! A text that is cut at a separator, piece by piece.
//! Contracts see the list of the pieces that are left; the last is what stands behind the last separator.
//! It serves the lines of a text and the words of a line.

ghost use Rattle.std.specs.Prelude.{◌≡◌, ◌<◌, ◌↔◌, ◌∷◌, [], IsTrue, length, take, drop, MatchOption};
ghost use Rattle.zi_proof.specs.ProofText.{all_pieces};

use std::marker::Model;

// The pieces that are left.
#[derive(Drop)]
pub(crate) struct Cut<'a> {
    rest: &'a [u8],
    is_done: bool,
    separator: u8,
}

impl<'a> Model for Cut<'a> {
    ghost use Rattle.std.specs.Prelude.{ℕ, List};
    ghost use Rattle.zi_proof.specs.Cutting.{pieces_left};

    ghost Value = { List (List ℕ) };

    ghost view = { λ c. pieces_left c.is_done c.separator c.rest.now };
}

// The place of the first separator.
#[tactic(auto, using(crate::proofs::CutLaws::reading_step, crate::proofs::CutLaws::pieces_whole, crate::proofs::CutLaws::pieces_at))]
fn place_of(text: &[u8], separator: u8) -> Option<usize>
    ensures { MatchOption result (all_pieces separator text.now ≡ text.now ∷ []) (λ i. (i < length text.now) × (all_pieces separator text.now ≡ take i text.now ∷ all_pieces separator (drop 1 (drop i text.now)))) }
{
    for (i, b) in text.iter().enumerate() {
        if *b == separator {
            return Some(i);
        }
    }
    None
}

impl<'a> Cut<'a> {
    pub(crate) fn new(text: &'a [u8], separator: u8) -> Cut<'a>
        ensures { result ≡ all_pieces separator text.now }
    {
        Cut {
            rest: text,
            is_done: false,
            separator,
        }
    }

    // Whether no piece is left.
    pub(crate) fn is_empty(&self) -> bool
        ensures { IsTrue result ↔ (self.now ≡ []) }
    {
        self.is_done
    }

    // The next piece.
    pub(crate) fn next(&mut self) -> Option<&'a [u8]>
        ensures { MatchOption result ((self.old ≡ []) × (self.new ≡ [])) (λ w. self.old ≡ w.now ∷ self.new) }
    {
        if self.is_done {
            return None;
        }
        let text = self.rest;
        match place_of(text, self.separator) {
            None => {
                self.is_done = true;
                Some(text)
            }
            Some(i) => {
                let (piece, behind) = text.split_at(i);
                let (_, rest) = behind.split_at(1);
                self.rest = rest;
                Some(piece)
            }
        }
    }
}
