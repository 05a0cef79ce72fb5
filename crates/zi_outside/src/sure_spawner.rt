ghost use Rattle.std.specs.Prelude.{◌≡◌, length, map, IfOk, OnOk, OnErr};
ghost use Rattle.zi_outside.specs.Launched.{Launches};
ghost use Rattle.zi_outside.specs.Paired.{status_at};
ghost use Rattle.zi_outside.specs.MemorySpawners.{no_launches, sure_launched, sure_answering, sure_spawner_seen};

use crate::log::Log;
use crate::memory_spawner::status_of;
use crate::{Launch, SpawnFault, Spawner};
use std::alloc::Global;
use zi_text::{List, Memory};

/// A spawner in memory that never fails and starts nothing: launches are answered statuses that it was told.
#[derive(Debug, Drop)]
pub struct SureSpawner {
    alloc: Global,
    statuses: Vec<u8>,
    log: Log,
    calls: u64,
}

impl SureSpawner {
    /// No launch and no call; launches are answered 0.
    pub fn new(alloc: Global) -> SureSpawner
        ensures { sure_spawner_seen result ≡ no_launches }
    {
        SureSpawner {
            alloc,
            statuses: Vec::new(alloc),
            log: Log::new(alloc),
            calls: 0,
        }
    }

    /// Sets the statuses that launches are answered, from the first launch on; behind their end it is 0. Where memory is
    /// refused nothing changes.
    pub fn answer(&mut self, statuses: &[u8]) -> Result<(), Memory>
        ensures ok { OnOk result (sure_answering self.new ≡ statuses.now) }
        ensures err { OnErr result (sure_answering self.new ≡ sure_answering self.old) }
        ensures seen { sure_spawner_seen self.new ≡ sure_spawner_seen self.old }
    {
        self.statuses = Vec::from_slice(self.alloc, statuses)?;
        Ok(())
    }

    /// The launches so far, the oldest first.
    pub fn launches(&self) -> &List<Launch>
        ensures { result.now ≡ map (λ ran. ran.launch) (sure_launched self.now) }
    {
        self.log.launches()
    }

    /// The statuses that they were answered.
    pub fn answers(&self) -> &List<u8>
        ensures { result.now ≡ map (λ ran. ran.status) (sure_launched self.now) }
    {
        self.log.answers()
    }
}

impl Spawner for SureSpawner {
    ghost seen = { sure_spawner_seen };

    fn launch(&mut self, launch: &Launch) -> Result<u8, SpawnFault>
        ensures launches { Launches (sure_spawner_seen self.old) launch.now result (sure_spawner_seen self.new) }
        ensures status { IfOk result (λ status. status ≡ status_at (sure_answering self.old) (length (sure_launched self.old))) }
        ensures answers { sure_answering self.new ≡ sure_answering self.old }
    {
        let status = status_of(self.statuses.as_slice(), self.log.len());
        let launch = launch.copy(self.alloc)?;
        self.log.push(launch, status)?;
        self.calls = self.calls.saturating_add(1);
        Ok(status)
    }
}
