ghost use Rattle.std.specs.Prelude.{ℕ, List};
ghost use Rattle.zi_doc.specs.Laws.{IsSettled};

use zi_xml::{answers_are_right, one_meaning};

/// Bytes spell one tree or have one fault, and never both: no bytes spell two trees, and none have two faults.
pub fn one_answer()
    ensures { (w : List ℕ) → IsSettled w }
{
    answers_are_right();
    one_meaning();
}
