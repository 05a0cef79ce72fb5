//! What holds of selections documents as such.
//! Each law is a function without parameters and with no work to do, whose clause is the law.
//! `read` and `write` cite the same definitions.
ghost use Rattle.std.specs.Prelude.{ℕ, List};
ghost use Rattle.zi_sels.specs.Reading.{IsSettled};

use zi_doc::one_answer;

/// Bytes say one value or have one fault, and never both: no bytes say two values, and none have two faults.
pub fn one_reading()
    ensures { (bytes : List ℕ) → IsSettled bytes }
{
    one_answer();
}
