//! The start of the program.
ghost use Rattle.zi_launching.specs.Launching.{Starts};

use zi_outcome::Outcome;
use zi_outside::{Launch, SpawnFault, Spawner};

/// Starts a program, waits for its end, and answers its status.
pub(crate) fn start<P: Spawner>(launch: &Launch, spawner: &mut P) -> Outcome
    ensures { Starts launch.now (P.seen spawner.old) (P.seen spawner.new) result }
{
    match spawner.launch(launch) {
        Ok(status) => Outcome::Child { status },
        Err(SpawnFault::Failed) => Outcome::SpawnFault,
        Err(SpawnFault::Memory) => Outcome::Memory,
    }
}
