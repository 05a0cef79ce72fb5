//! What comes of calls of the system.
ghost use Rattle.std.specs.Prelude.{◌≡◌};

use std::alloc::{AllocError, AllocFailed};
use std::fmt::{self, Display, Formatter, Write};
use std::io::{self, ErrorKind};
use std::process::ExitStatus;
use zi_text::Memory;

/// Why a call failed.
#[derive(Clone, Copy)]
pub enum Reason {
    /// The system refused it.
    System(io::Error),
    /// The program ended so.
    Ended(ExitStatus),
    /// What was named isn't what is asked for: it is not this.
    IsNot(&'static str),
    /// There is no program that fetches.
    NoHelper,
    /// How long that may take isn't clear.
    NoLimit,
}

impl Display for Reason {
    fn fmt<W: Write>(&self, f: &mut Formatter<W>) -> fmt::Result {
        match self {
            Reason::System(error) => write!(f, "{error}"),
            Reason::Ended(status) => write!(f, "ended with {status}"),
            Reason::IsNot(kind) => write!(f, "is not {kind}"),
            Reason::NoHelper => write!(f, "is not fetched, since ZI_FETCH names no program"),
            Reason::NoLimit => write!(
                f,
                "is not fetched, since ZI_FETCH_SECONDS is no number from 1 to 1000000"
            ),
        }
    }
}

/// Why a call of the system did nothing useful.
#[derive(Clone, Copy)]
pub enum Trouble {
    /// The system refused it, or what was found doesn't fit.
    Failed(Reason),
    /// Memory was refused.
    Memory,
}

impl From<io::Error> for Trouble {
    ghost use Rattle.zi_edge.specs.Troubles.{IsTroubleOf};

    ghost from_gives = { IsTroubleOf };

    fn from(error: io::Error) -> Trouble {
        if error.kind() == ErrorKind::OutOfMemory {
            Trouble::Memory
        } else {
            Trouble::Failed(Reason::System(error))
        }
    }
}

impl From<Memory> for Trouble {
    ghost use Rattle.std.specs.Prelude.{◌≡◌};
    ghost use Rattle.zi_edge.specs.declared.trouble.Trouble.TheVariants.{Memory as NoMemory};

    ghost from_gives = { λ _ trouble. trouble ≡ NoMemory };

    fn from(_: Memory) -> Trouble {
        Trouble::Memory
    }
}

impl From<AllocError> for Trouble {
    ghost use Rattle.std.specs.Prelude.{◌≡◌};
    ghost use Rattle.zi_edge.specs.declared.trouble.Trouble.TheVariants.{Memory as NoMemory};

    ghost from_gives = { λ _ trouble. trouble ≡ NoMemory };

    fn from(_: AllocError) -> Trouble {
        Trouble::Memory
    }
}
