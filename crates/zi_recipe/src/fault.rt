use std::alloc::AllocFailed;
use zi_text::{Memory, Text};
use zi_tree::TreeLimit;

/// Why a way to fetch makes no tree: the first fault in the order of `make_tree`.
#[derive(Drop)]
pub enum RecipeFault {
    /// The web failed at this address: its count of faults rose.
    FetchRead { href: Text },
    /// Nothing is at this address.
    NoRemote { href: Text },
    /// There are other bytes at this address than were said to be: so many, or one more than was said where there are more
    /// than that.
    WrongSize { href: Text, said: u64, got: u64 },
    /// Something stands at this path already, or a part of the way to it is no folder.
    Overlap { path: Text },
    /// Nothing stands at this path.
    NoPath { path: Text },
    /// The tree has more than this limit of what it names: bytes, entries, or folders one in another.
    TooLarge { what: TreeLimit, limit: u64 },
    /// Memory was refused.
    Memory,
}

impl From<Memory> for RecipeFault {
    ghost use Rattle.std.specs.Prelude.{◌≡◌};
    ghost use Rattle.zi_recipe.specs.declared.fault.RecipeFault.TheVariants.{Memory as NoMemory};

    ghost from_gives = { λ _ e. e ≡ NoMemory };

    fn from(_: Memory) -> RecipeFault {
        RecipeFault::Memory
    }
}

impl<T: Drop> From<AllocFailed<T>> for RecipeFault {
    ghost use Rattle.std.specs.Prelude.{◌≡◌};
    ghost use Rattle.zi_recipe.specs.declared.fault.RecipeFault.TheVariants.{Memory as NoMemory};

    ghost from_gives = { λ _ e. e ≡ NoMemory };

    fn from(_: AllocFailed<T>) -> RecipeFault {
        RecipeFault::Memory
    }
}
