//! Reading up to a limit.
ghost use Rattle.std.specs.Prelude.{◌≡◌, IfOk, OnErr};
ghost use Rattle.zi_edge.specs.Reads.{TakesIn};

use crate::trouble::Trouble;
use std::io::Read;

/// How much of a reader was within a limit.
#[derive(Clone, Copy, PartialEq, Eq)]
pub enum Taken {
    Whole,
    TooMuch,
}

/// Appends all that a reader gives, where that is within the limit; else the buffer is as before. At most one byte past the limit
/// is read.
pub fn take_in<R: Read + Drop>(reader: R, limit: u64, into: &mut Vec<u8>) -> Result<Taken, Trouble>
    ensures taken { IfOk result (λ taken. TakesIn (R.remaining reader) limit into.old.items taken into.new.items) }
    ensures refused { OnErr result (into.new.items ≡ into.old.items) }
{
    let start = into.len();
    let mut reader = reader.take(limit.saturating_add(1));
    match reader.read_to_end(into) {
        Ok(count) if count as u64 <= limit => Ok(Taken::Whole),
        Ok(_) => {
            into.truncate(start);
            Ok(Taken::TooMuch)
        }
        Err(error) => {
            into.truncate(start);
            Err(Trouble::from(error))
        }
    }
}
