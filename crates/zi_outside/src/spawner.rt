ghost use Rattle.zi_outside.specs.Launched.{Spawning, Launches};

use crate::launch::Launch;
use zi_text::Memory;

/// Why a program wasn't started.
#[derive(Clone, Copy, Debug, PartialEq, Eq)]
pub enum SpawnFault {
    /// The object failed: its count of faults rose, and nothing was launched.
    Failed,
    /// Memory was refused: nothing changed.
    Memory,
}

impl From<Memory> for SpawnFault {
    ghost use Rattle.std.specs.Prelude.{◌≡◌};
    ghost use Rattle.zi_outside.specs.declared.spawner.SpawnFault.TheVariants.{Memory as NoMemory};

    ghost from_gives = { λ _ e. e ≡ NoMemory };

    fn from(_: Memory) -> SpawnFault {
        SpawnFault::Memory
    }
}

/// What starts programs and waits for their end.
pub trait Spawner {
    /// What is seen of it: the launches so far, each with its status, and the number of calls, where it tells them, its count
    /// of faults, which stands still at 2^64 - 1, and the calls that are planned to fail.
    ghost seen: { Self → Spawning };

    /// Starts a program, waits for its end, and gives its status.
    fn launch(&mut self, launch: &Launch) -> Result<u8, SpawnFault>
        ensures launches { Launches (seen self.old) launch.now result (seen self.new) };
}
