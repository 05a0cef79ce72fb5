ghost use Rattle.std.specs.Prelude.{◌≡◌};
ghost use Rattle.zi_doc.specs.Kinds.{number_of};

use std::alloc::{AllocError, AllocFailed};
use zi_text::Memory;

/// The kinds of faults of a document. Where two faults end at the same byte, the one of the least number is answered.
#[derive(Clone, Copy, Debug, PartialEq, Eq)]
pub enum DocKind {
    /// The input isn't UTF-8 (RFC 3629). The place is the first byte that doesn't belong to a well-formed character.
    NotUtf8,
    /// The declared encoding isn't UTF-8. The place is the first byte of its value.
    Encoding,
    /// A document type declaration stands before the root. The place is its `<`.
    Doctype,
    /// The bytes aren't a document of XML 1.0. The place is the length of the longest front that some document has.
    Syntax,
    /// A reference names no predefined entity, or a character that XML can't carry. The place is its `&`.
    Entity,
    /// A prefix is undeclared, or a name or a declaration breaks Namespaces in XML 1.0. The place is the element's `<`.
    Prefix,
    /// An element has one attribute twice, as written or by namespace and local name. The place is the element's `<`.
    Repeated,
    /// An element stands at depth 65. The place is its `<`.
    Depth,
}

/// Why bytes give no tree.
#[derive(Clone, Copy, Debug, PartialEq, Eq)]
pub enum DocFault {
    /// The bytes have this fault at this place, in bytes from 0.
    Bad { kind: DocKind, place: u64 },
    /// Memory was refused, which says nothing of the bytes.
    Memory,
}

impl DocKind {
    /// The number of the kind, 1 to 8 in the order in which they are listed.
    pub fn number(self) -> u8
        ensures { result ≡ number_of self }
    {
        match self {
            DocKind::NotUtf8 => 1,
            DocKind::Encoding => 2,
            DocKind::Doctype => 3,
            DocKind::Syntax => 4,
            DocKind::Entity => 5,
            DocKind::Prefix => 6,
            DocKind::Repeated => 7,
            DocKind::Depth => 8,
        }
    }
}

impl From<Memory> for DocFault {
    ghost use Rattle.std.specs.Prelude.{◌≡◌};
    ghost use Rattle.zi_doc.specs.declared.fault.DocFault.TheVariants.{Memory as Lacking};

    ghost from_gives = { λ _ e. e ≡ Lacking };

    fn from(_: Memory) -> DocFault {
        DocFault::Memory
    }
}

impl From<AllocError> for DocFault {
    ghost use Rattle.std.specs.Prelude.{◌≡◌};
    ghost use Rattle.zi_doc.specs.declared.fault.DocFault.TheVariants.{Memory as Lacking};

    ghost from_gives = { λ _ e. e ≡ Lacking };

    fn from(_: AllocError) -> DocFault {
        DocFault::Memory
    }
}

impl<T: Drop> From<AllocFailed<T>> for DocFault {
    ghost use Rattle.std.specs.Prelude.{◌≡◌};
    ghost use Rattle.zi_doc.specs.declared.fault.DocFault.TheVariants.{Memory as Lacking};

    ghost from_gives = { λ _ e. e ≡ Lacking };

    fn from(_: AllocFailed<T>) -> DocFault {
        DocFault::Memory
    }
}
