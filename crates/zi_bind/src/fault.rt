use zi_text::{Memory, Text};

/// Why bindings weren't applied.
#[derive(Drop)]
pub enum ApplyFault {
    /// A binding by this element isn't built.
    Unbuilt { element: Text },
    /// What is inserted is no relative path.
    BadPath { text: Text },
    /// Memory was refused, which says nothing of the bindings.
    Memory,
}

impl From<Memory> for ApplyFault {
    ghost use Rattle.std.specs.Prelude.{◌≡◌};
    ghost use Rattle.zi_bind.specs.declared.fault.ApplyFault.TheVariants.{Memory as Lacking};

    ghost from_gives = { λ _ e. e ≡ Lacking };

    fn from(_: Memory) -> ApplyFault {
        ApplyFault::Memory
    }
}

/// Why an argument stands for nothing.
#[derive(Drop)]
pub enum BindFault {
    /// A variable that isn't set is referred to.
    Unset { name: Text },
    /// The dollar at this offset of the argument refers to nothing.
    BadDollar { place: u64 },
    /// Memory was refused, which says nothing of the argument.
    Memory,
}

impl From<Memory> for BindFault {
    ghost use Rattle.std.specs.Prelude.{◌≡◌};
    ghost use Rattle.zi_bind.specs.declared.fault.BindFault.TheVariants.{Memory as Lacking};

    ghost from_gives = { λ _ e. e ≡ Lacking };

    fn from(_: Memory) -> BindFault {
        BindFault::Memory
    }
}
