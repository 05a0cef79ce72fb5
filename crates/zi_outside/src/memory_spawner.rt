ghost use Rattle.std.specs.Prelude.{◌≡◌, length, map, IfOk, OnOk, OnErr};
ghost use Rattle.zi_outside.specs.Launched.{Launches};
ghost use Rattle.zi_outside.specs.Paired.{status_at};
ghost use Rattle.zi_outside.specs.MemorySpawners.{no_launches, launched, answering, spawner_seen};

use crate::failing::Failing;
use crate::log::Log;
use crate::{Launch, SpawnFault, Spawner};
use std::alloc::Global;
use zi_text::{List, Memory};

/// A spawner in memory, which starts nothing: launches are answered statuses that it was told, and calls fail where it was
/// told so, and nowhere else.
#[derive(Debug, Drop)]
pub struct MemorySpawner {
    alloc: Global,
    statuses: Vec<u8>,
    log: Log,
    calls: u64,
    failing: Failing,
}

/// The status of the launch at a place: that of the list, and behind its end 0.
pub fn status_of(statuses: &[u8], place: usize) -> u8
    ensures { result ≡ status_at statuses.now place }
{
    statuses.get(place).copied().unwrap_or(0)
}

impl MemorySpawner {
    /// No launch, no call and no fault; launches are answered 0.
    pub fn new(alloc: Global) -> MemorySpawner
        ensures { spawner_seen result ≡ no_launches }
    {
        MemorySpawner {
            alloc,
            statuses: Vec::new(alloc),
            log: Log::new(alloc),
            calls: 0,
            failing: Failing::new(alloc),
        }
    }

    /// Sets the statuses that launches are answered, from the first launch on; behind their end it is 0. Where memory is
    /// refused nothing changes.
    pub fn answer(&mut self, statuses: &[u8]) -> Result<(), Memory>
        ensures ok { OnOk result (answering self.new ≡ statuses.now) }
        ensures err { OnErr result (answering self.new ≡ answering self.old) }
        ensures seen { spawner_seen self.new ≡ spawner_seen self.old }
    {
        self.statuses = Vec::from_slice(self.alloc, statuses)?;
        Ok(())
    }

    /// Sets the numbers of the calls that are to fail, counted from 1. Where memory is refused nothing changes.
    pub fn fail_at(&mut self, calls: &[u32]) -> Result<(), Memory>
        ensures ok { OnOk result (spawner_seen self.new ≡ record (spawner_seen self.old) { plan = calls.now }) }
        ensures err { OnErr result (spawner_seen self.new ≡ spawner_seen self.old) }
        ensures answers { answering self.new ≡ answering self.old }
    {
        self.failing.set(calls)
    }

    /// The launches so far, the oldest first.
    pub fn launches(&self) -> &List<Launch>
        ensures { result.now ≡ map (λ ran. ran.launch) (launched self.now) }
    {
        self.log.launches()
    }

    /// The statuses that they were answered.
    pub fn answers(&self) -> &List<u8>
        ensures { result.now ≡ map (λ ran. ran.status) (launched self.now) }
    {
        self.log.answers()
    }
}

impl Spawner for MemorySpawner {
    ghost seen = { spawner_seen };

    fn launch(&mut self, launch: &Launch) -> Result<u8, SpawnFault>
        ensures launches { Launches (spawner_seen self.old) launch.now result (spawner_seen self.new) }
        ensures status { IfOk result (λ status. status ≡ status_at (answering self.old) (length (launched self.old))) }
        ensures answers { answering self.new ≡ answering self.old }
    {
        let number = self.calls.saturating_add(1);
        if self.failing.fails(number) {
            self.calls = number;
            return Err(SpawnFault::Failed);
        }
        let status = status_of(self.statuses.as_slice(), self.log.len());
        let launch = launch.copy(self.alloc)?;
        self.log.push(launch, status)?;
        self.calls = number;
        Ok(status)
    }
}
