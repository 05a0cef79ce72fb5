use std::alloc::{AllocError, AllocFailed};
use thiserror::Error;
use zi_doc::{DocFault, DocKind};
use zi_faults::FeedKind;
use zi_text::{Memory, Text};

/// Why bytes are no selections document: the first that holds, in the order NotSelections, Feed, Twice, NoRoot, Unclosed behind Doc.
#[derive(Debug, Drop, Error)]
pub enum SelsFault {
    /// They are no document: the fault's kind, and its place in bytes from 0.
    #[error("no document: {kind:?} at byte {place}")]
    Doc { kind: DocKind, place: u64 },
    /// The root isn't `selections` in the namespace of feeds, or names no interface.
    #[error("no selections")]
    NotSelections,
    /// Nothing is selected for the root's interface.
    #[error("nothing is selected for the root")]
    NoRoot,
    /// Two selections are for one interface; this is the first one that is repeated.
    #[error("two selections for {interface:?}")]
    Twice { interface: Text },
    /// A selection or a part of it isn't of the form: of all such faults the one of least place, and there the one of least kind.
    /// The place is that of the element that it stands at, in bytes from 0.
    #[error("a fault of kind {kind:?} at byte {place}")]
    Feed { kind: FeedKind, place: u64 },
    /// An essential `requires` or a `runner` asks for an interface for which nothing is selected; this is the first in the order of the
    /// document.
    #[error("nothing is selected for {interface:?}")]
    Unclosed { interface: Text },
    /// Memory was refused, which says nothing of the bytes.
    #[error("out of memory")]
    Memory,
}

impl From<Memory> for SelsFault {
    ghost use Rattle.std.specs.Prelude.{◌≡◌};
    ghost use Rattle.zi_sels.specs.declared.fault.SelsFault.TheVariants.{Memory as NoMemory};

    ghost from_gives = { λ _ e. e ≡ NoMemory };

    fn from(_: Memory) -> SelsFault {
        SelsFault::Memory
    }
}

impl From<AllocError> for SelsFault {
    ghost use Rattle.std.specs.Prelude.{◌≡◌};
    ghost use Rattle.zi_sels.specs.declared.fault.SelsFault.TheVariants.{Memory as NoMemory};

    ghost from_gives = { λ _ e. e ≡ NoMemory };

    fn from(_: AllocError) -> SelsFault {
        SelsFault::Memory
    }
}

impl<T: Drop> From<AllocFailed<T>> for SelsFault {
    ghost use Rattle.std.specs.Prelude.{◌≡◌};
    ghost use Rattle.zi_sels.specs.declared.fault.SelsFault.TheVariants.{Memory as NoMemory};

    ghost from_gives = { λ _ e. e ≡ NoMemory };

    fn from(_: AllocFailed<T>) -> SelsFault {
        SelsFault::Memory
    }
}

impl From<DocFault> for SelsFault {
    ghost use Rattle.zi_sels.specs.Reading.{IsOfDocument};

    ghost from_gives = { IsOfDocument };

    fn from(fault: DocFault) -> SelsFault {
        match fault {
            DocFault::Bad { kind, place } => SelsFault::Doc { kind, place },
            DocFault::Memory => SelsFault::Memory,
        }
    }
}
