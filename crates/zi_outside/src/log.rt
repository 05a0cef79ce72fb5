ghost use Rattle.std.specs.Prelude.{◌≡◌, [], ◌∷◌, ◌++◌, length, map, OnOk, OnErr};

use crate::launch::Launch;
use std::alloc::Global;
use std::marker::Model;
use std::mem::replace;
use zi_text::{List, Memory};

/// Launches and their statuses, which contracts see as one list.
#[derive(Debug, Drop)]
pub struct Log {
    alloc: Global,
    launches: List<Launch>,
    answers: List<u8>,
}

impl Model for Log {
    ghost use Rattle.std.specs.Prelude.{List as Items, ◌≡◌, length};
    ghost use Rattle.zi_outside.specs.Launched.{Ran};
    ghost use Rattle.zi_outside.specs.Paired.{paired};

    ghost Value = { Items Ran };

    ghost view = { λ l. paired l.launches l.answers };

    // there are as many of both
    ghost invariant = { λ l. length l.launches ≡ length l.answers };
}

impl Log {
    /// No launch.
    pub fn new(alloc: Global) -> Log
        ensures { result ≡ [] }
    {
        Log {
            alloc,
            launches: List::new(alloc),
            answers: List::new(alloc),
        }
    }

    /// The number of launches.
    pub fn len(&self) -> usize
        ensures { result ≡ length self.now }
    {
        self.answers.len()
    }

    /// The launches, the oldest first.
    pub fn launches(&self) -> &List<Launch>
        ensures { result.now ≡ map (λ ran. ran.launch) self.now }
    {
        &self.launches
    }

    /// Their statuses.
    pub fn answers(&self) -> &List<u8>
        ensures { result.now ≡ map (λ ran. ran.status) self.now }
    {
        &self.answers
    }

    /// Adds a launch and its status. Where memory is refused nothing changes.
    pub fn push(&mut self, launch: Launch, status: u8) -> Result<(), Memory>
        ensures ok { OnOk result (self.new ≡ self.old ++ record { launch = launch; status = status } ∷ []) }
        ensures err { OnErr result (self.new ≡ self.old) }
    {
        self.answers.push(status)?;
        match self.launches.push(launch) {
            Ok(()) => Ok(()),
            Err(refused) => {
                let mut answers = replace(&mut self.answers, List::new(self.alloc)).into_vec();
                answers.pop();
                self.answers = List::from_vec(answers);
                Err(refused)
            }
        }
    }
}
