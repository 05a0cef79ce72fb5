//! Reading in pieces up to a limit.
ghost use Rattle.std.specs.Prelude.{◌≡◌, ℕ, List, None, IfSome, IfOk, IfErr, OnErr};
ghost use Rattle.zi_edge.specs.Found.{Delivers, FitsIn, IsNotInterrupted, IsReadOf};
ghost use Rattle.zi_outside.specs.Outside.{Finds};

use crate::trouble::{Reason, Trouble};
use std::alloc::Global;
use std::io::{self, Read};
use zi_outside::{FeedsFault, Got};

// The most bytes that are read at once.
const PIECE: usize = 4_096;

/// What stands under a name.
#[derive(Drop)]
pub enum Found {
    Bytes(Vec<u8>),
    Absent,
    TooLong,
}

/// All that a file gives, where that is within the limit. At most one piece past the limit is read. Where the file is said to hold
/// something and that much was read, a piece that isn't full is its last, so that its end isn't asked for once more. A read that
/// was interrupted is tried again.
pub fn read_up_to<R: Read>(
    alloc: Global,
    reader: &mut R,
    length: u64,
    limit: u64,
) -> Result<Found, Trouble>
    ensures fits { IfOk result (FitsIn limit) }
    ensures exact { IfOk result (λ found. IfSome (R.remaining reader.old) (IsReadOf length limit found)) }
    ensures retried { IfErr result IsNotInterrupted }
{
    let mut bytes = Vec::new(alloc);
    let mut piece = [0u8; PIECE];
    for _ in 0..u64::MAX {
        match reader.read(&mut piece) {
            Ok(0) => return Ok(Found::Bytes(bytes)),
            Ok(count) => {
                if (bytes.len() as u64).saturating_add(count as u64) > limit {
                    return Ok(Found::TooLong);
                }
                bytes.extend_from_slice(&piece[..count])?;
                if count < PIECE && length > 0 && bytes.len() as u64 >= length {
                    return Ok(Found::Bytes(bytes));
                }
            }
            Err(error) => {
                if error.kind() != io::ErrorKind::Interrupted {
                    return Err(Trouble::from(error));
                }
            }
        }
    }
    Err(Trouble::Failed(Reason::IsNot("a file that ends")))
}

/// Adds what was found to the buffer.
pub fn deliver(found: &Found, limit: u64, into: &mut Vec<u8>) -> Result<Got, FeedsFault>
    requires { FitsIn limit found.now }
    ensures found { (key : List ℕ) → IfOk result (λ got. Finds None (record { key = key; limit = limit; buffer = into.old.items }) got into.new.items) }
    ensures exact { IfOk result (λ got. Delivers found.now got into.old.items into.new.items) }
    ensures refused { OnErr result (into.new.items ≡ into.old.items) }
    ensures cause { IfErr result (λ fault. fault ≡ FeedsFault.Memory) }
{
    match found {
        Found::Bytes(bytes) => match into.extend_from_slice(bytes.as_slice()) {
            Ok(()) => Ok(Got::Held),
            Err(_) => Err(FeedsFault::Memory),
        },
        Found::Absent => Ok(Got::Absent),
        Found::TooLong => Ok(Got::TooLong),
    }
}
