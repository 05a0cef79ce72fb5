//! Why the walk through a tree on a shelf stops.

use zi_shelf::ShelfFault;
use zi_text::Memory;
use zi_tree::TreeLimit;

/// Why there is no tree.
#[derive(Clone, Copy)]
pub(crate) enum Stop {
    /// There is no such top entry.
    Missing,
    /// The tree passes this limit.
    TooLarge(TreeLimit),
    /// The shelf failed, or memory was refused.
    Fault(ShelfFault),
}

impl From<ShelfFault> for Stop {
    ghost use Rattle.std.specs.Prelude.{◌≡◌};
    ghost use Rattle.zi_store.specs.declared.stop.Stop.TheVariants.{Fault};

    ghost from_gives = { λ fault e. e ≡ Fault fault };

    fn from(fault: ShelfFault) -> Stop {
        Stop::Fault(fault)
    }
}

impl From<Memory> for Stop {
    ghost use Rattle.std.specs.Prelude.{◌≡◌};
    ghost use Rattle.zi_store.specs.declared.stop.Stop.TheVariants.{Fault};
    ghost use Rattle.zi_shelf.specs.declared.shelf.ShelfFault.TheVariants.{Memory as NoMemory};

    ghost from_gives = { λ _ e. e ≡ Fault NoMemory };

    fn from(_: Memory) -> Stop {
        Stop::Fault(ShelfFault::Memory)
    }
}
