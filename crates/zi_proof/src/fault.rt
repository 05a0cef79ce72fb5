//! Why a proof text isn't read.
//! A bad text has the line at which it stops being one; want of memory is a fault of its own.
//! Lines are numbered from 1.

use std::alloc::AllocFailed;
use thiserror::Error;
use zi_text::Memory;

/// Why a proof text isn't read.
#[derive(Clone, Copy, Debug, PartialEq, Eq, Error)]
pub enum ProofFault {
    /// The text isn't of the form. The line is the first, from 1, up to which no right text begins so, or one more than
    /// the number of whole lines where the text ends early.
    #[error("the proof text is bad at line {line}")]
    Bad {
        /// The line's number.
        line: u64,
    },
    /// Memory was refused.
    #[error("out of memory")]
    Memory,
}

impl From<Memory> for ProofFault {
    ghost use Rattle.std.specs.Prelude.{◌≡◌};
    ghost use Rattle.zi_proof.specs.declared.fault.ProofFault.TheVariants as fault;

    ghost from_gives = { λ _ e. e ≡ fault.Memory };

    fn from(_: Memory) -> ProofFault {
        ProofFault::Memory
    }
}
