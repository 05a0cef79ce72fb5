//! Laws of where feeds are, and of a line that is put in pieces, over definitions alone.
ghost use Rattle.std.specs.Prelude.{◌≡◌, ◌++◌, ℕ, List, All, IsUtf8};
ghost use Rattle.zi_edge.specs.FileName.{file_name, IsByte};
ghost use Rattle.zi_edge.specs.Lines.{ends_line, held_after, line_so_far, written_of};

/// No two addresses have one file.
#[tactic(auto, using(crate::proofs::FileNameLaws::same_file))]
pub fn files_differ()
    ensures { (a b : List ℕ) → All IsByte a → All IsByte b → file_name a ≡ file_name b → a ≡ b }
{}

/// A line is the same whatever the texts in which it is put: with each that is put, what is written grows to what it is of them all.
#[tactic(auto, using(crate::proofs::LineLemmas::one_piece_more, crate::proofs::LineLemmas::held_one_more))]
pub fn a_line_in_pieces()
    ensures written { (all piece : List ℕ) → IsUtf8 all → IsUtf8 piece → line_so_far (all ++ piece) ≡ line_so_far all ++ written_of (ends_line all) piece }
    ensures held { (all piece : List ℕ) → ends_line (all ++ piece) ≡ held_after (ends_line all) piece }
{}
