//! What comes of calls of the system.

use std::alloc::{AllocError, AllocFailed};
use std::fmt::{self, Display, Formatter, Write};
use std::io::{self, ErrorKind};
use zi_text::Memory;

/// Why a call failed.
#[derive(Clone, Copy, Debug)]
pub enum Reason {
    /// The system refused it.
    System(io::Error),
    /// The system refused a lock.
    Lock(io::Error),
    /// What stands there isn't what was asked for: it is not this.
    IsNot(&'static str),
    /// A time of change was set, and the file has another.
    OtherTime,
}

impl Reason {
    /// Whether it is that a name is no text (UTF-8).
    pub fn is_of_a_name(&self) -> bool {
        matches!(self, Reason::System(error) if error.kind() == ErrorKind::InvalidFilename)
    }
}

impl Display for Reason {
    fn fmt<W: Write>(&self, f: &mut Formatter<W>) -> fmt::Result {
        match self {
            Reason::System(error) => write!(f, "{error}"),
            Reason::Lock(error) => write!(f, "can't be locked: {error}"),
            Reason::IsNot(kind) => write!(f, "is not {kind}"),
            Reason::OtherTime => write!(f, "doesn't keep its time of change"),
        }
    }
}

/// Why a call of the system did nothing useful.
#[derive(Clone, Copy, Debug)]
pub enum Trouble {
    /// The system refused it, or what was found doesn't fit.
    Failed(Reason),
    /// Memory was refused.
    Memory,
}

impl From<io::Error> for Trouble {
    ghost use Rattle.std.specs.Prelude.{◌≡◌, ◌≢◌};
    ghost use Rattle.std.specs.IoError.{error_kind};
    ghost use Rattle.std.specs.declared.io.ErrorKind.TheVariants.{OutOfMemory};
    ghost use Rattle.zi_folder.specs.declared.trouble.Reason.TheVariants.{System};
    ghost use Rattle.zi_folder.specs.declared.trouble.Trouble.TheVariants.{Failed, Memory as NoMemory};

    ghost from_gives = { λ error e. (error_kind error ≡ OutOfMemory → e ≡ NoMemory) × (error_kind error ≢ OutOfMemory → e ≡ Failed (System error)) };

    fn from(error: io::Error) -> Trouble {
        if error.kind() == ErrorKind::OutOfMemory {
            Trouble::Memory
        } else {
            Trouble::Failed(Reason::System(error))
        }
    }
}

impl From<Memory> for Trouble {
    ghost use Rattle.std.specs.Prelude.{◌≡◌};
    ghost use Rattle.zi_folder.specs.declared.trouble.Trouble.TheVariants.{Memory as NoMemory};

    ghost from_gives = { λ _ e. e ≡ NoMemory };

    fn from(_: Memory) -> Trouble {
        Trouble::Memory
    }
}

impl From<AllocError> for Trouble {
    ghost use Rattle.std.specs.Prelude.{◌≡◌};
    ghost use Rattle.zi_folder.specs.declared.trouble.Trouble.TheVariants.{Memory as NoMemory};

    ghost from_gives = { λ _ e. e ≡ NoMemory };

    fn from(_: AllocError) -> Trouble {
        Trouble::Memory
    }
}

impl<T: Drop> From<AllocFailed<T>> for Trouble {
    ghost use Rattle.std.specs.Prelude.{◌≡◌};
    ghost use Rattle.zi_folder.specs.declared.trouble.Trouble.TheVariants.{Memory as NoMemory};

    ghost from_gives = { λ _ e. e ≡ NoMemory };

    fn from(_: AllocFailed<T>) -> Trouble {
        Trouble::Memory
    }
}
