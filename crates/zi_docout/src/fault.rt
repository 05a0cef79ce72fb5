use zi_text::Memory;

/// Why a tree isn't written.
#[derive(Clone, Copy, Debug, PartialEq, Eq)]
pub enum WriteFault {
    /// The element of this number can't be written, counted from 0 in the order of start tags, and none before it is so.
    Unwritable { place: u64 },
    /// Memory was refused, which says nothing of the tree.
    Memory,
}

impl From<Memory> for WriteFault {
    ghost use Rattle.std.specs.Prelude.{◌≡◌};
    ghost use Rattle.zi_docout.specs.declared.fault.WriteFault.TheVariants.{Memory as Lacking};

    ghost from_gives = { λ _ e. e ≡ Lacking };

    fn from(_: Memory) -> WriteFault {
        WriteFault::Memory
    }
}
