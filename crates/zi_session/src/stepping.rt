//! The steps of a session: in each phase one call of the shelf, and where its answer leads.
//! A step after an end makes no call.
//! Where the shelf is honest and tells what it holds, each step is one event of the machine of adders.

ghost use Rattle.std.specs.Prelude.{◌≡◌, ◌≢◌, true, false, option_copied, option_map, IfOk};
ghost use Rattle.zi_session.specs.Phases.{tmp_name, blamed_name, is_over};
ghost use Rattle.zi_session.specs.Standing.{standing, blamed};
ghost use Rattle.zi_session.specs.Keeping.{KeepsShelf};
ghost use Rattle.zi_session.specs.Stepping.{IsStep, IsRun, Advances, Blames};
ghost use Rattle.zi_session.specs.declared.phase.Phase.TheVariants.{Makes, Fills, Settles, Renames, Stores, Removes, Leaves};

use crate::phase::Phase;
use crate::put::put_work;
use crate::session::Session;
use crate::step::Step;
use std::alloc::Global;
use zi_shelf::{Moved, Shelf, ShelfFault, TopMade};
use zi_text::{Memory, Text};

/// So many temporary names are tried.
const TRIES: u32 = 10_000;

impl Session {
    /// Makes the next call of the shelf, or none where it lacks memory, or none after an end.
    pub fn step<K: Shelf>(&mut self, alloc: Global, k: &mut K) -> Step
        ensures steps { is_over self.old.phase ≡ false → IsStep (standing self.old) (K.seen k.old) result (standing self.new) (K.seen k.new) }
        ensures over { is_over self.old.phase ≡ true → (result ≡ Step.Over) × (k.new ≡ k.old) × (self.new ≡ self.old) }
        ensures advances { Advances self.old result self.new }
        ensures keeps { KeepsShelf (standing self.old) (K.seen k.old) result (standing self.new) (K.seen k.new) }
    {
        match self.phase {
            Phase::Makes => self.make(alloc, k),
            Phase::Fills => self.fill(k),
            Phase::Settles => self.settle(k),
            Phase::Renames => self.rename(k),
            Phase::Stores => self.store(k),
            Phase::Removes => self.remove(k),
            Phase::Leaves => self.leave(k),
            _ => Step::Over,
        }
    }

    /// Steps until the answer isn't More. Its answer is that of the last step.
    pub fn run<K: Shelf>(&mut self, alloc: Global, k: &mut K) -> Step
        ensures end { result ≢ Step.More }
        ensures runs { is_over self.old.phase ≡ false → IsRun (standing self.old) (K.seen k.old) result (standing self.new) (K.seen k.new) }
        ensures over { is_over self.old.phase ≡ true → (result ≡ Step.Over) × (k.new ≡ k.old) × (self.new ≡ self.old) }
        ensures blames { Blames result (blamed self.new) }
        ensures keeps { KeepsShelf (standing self.old) (K.seen k.old) result (standing self.new) (K.seen k.new) }
    {
        if is_over(self.phase) {
            return Step::Over;
        }
        loop {
            let step = self.step(alloc, k);
            match step {
                Step::More => {}
                _ => return step,
            }
        }
    }

    /// The temporary name whose entry this session made, until that was renamed or removed; else None. It takes no memory.
    pub fn residue(&self) -> Option<&str>
        ensures { option_copied result ≡ option_map tmp_name (standing self.now).residue }
    {
        match self.phase {
            Phase::Fills | Phase::Settles | Phase::Renames | Phase::Removes | Phase::IsStuck => {
                Some(self.tmp.as_str())
            }
            _ => None,
        }
    }

    /// The temporary name that the call named at which the shelf failed. The text is empty where it named none, and where the
    /// session hasn't ended by a fault. It takes no memory.
    pub fn into_blamed(self, alloc: Global) -> Text
        ensures { result ≡ blamed_name (blamed self) }
    {
        let Session { phase, tmp, .. } = self;
        match phase {
            Phase::IsUnmade | Phase::IsStuck => tmp,
            _ => Text::new(alloc),
        }
    }

    /// Makes an entry under the next temporary name.
    fn make<K: Shelf>(&mut self, alloc: Global, k: &mut K) -> Step
        requires { self.old.phase ≡ Makes }
        ensures steps { IsStep (standing self.old) (K.seen k.old) result (standing self.new) (K.seen k.new) }
        ensures advances { Advances self.old result self.new }
    {
        let Ok(tmp) = name_of(alloc, self.number) else {
            return Step::Memory;
        };
        match k.make_top(tmp.as_str()) {
            Ok(TopMade::Made) => {
                self.tmp = tmp;
                self.done = 0;
                self.phase = if self.works.is_empty() {
                    Phase::Settles
                } else {
                    Phase::Fills
                };
                Step::More
            }
            Ok(TopMade::Exists) => {
                if self.number + 1 < TRIES {
                    self.number += 1;
                    Step::More
                } else {
                    self.phase = Phase::IsCrowded;
                    Step::Crowded { tried: TRIES }
                }
            }
            Err(ShelfFault::Memory) => Step::Memory,
            Err(ShelfFault::Failed) => {
                self.tmp = tmp;
                self.phase = Phase::IsUnmade;
                Step::Fault {
                    tmp: Some(self.number),
                }
            }
        }
    }

    /// Makes the next call that fills the entry.
    fn fill<K: Shelf>(&mut self, k: &mut K) -> Step
        requires { self.old.phase ≡ Fills }
        ensures steps { IsStep (standing self.old) (K.seen k.old) result (standing self.new) (K.seen k.new) }
        ensures advances { Advances self.old result self.new }
    {
        match put_work(k, self.tmp.as_str(), &self.works[self.done]) {
            Ok(()) => {
                let next = self.done + 1;
                self.phase = if next < self.works.len() {
                    Phase::Fills
                } else {
                    Phase::Settles
                };
                self.done = next;
                Step::More
            }
            Err(ShelfFault::Memory) => Step::Memory,
            Err(ShelfFault::Failed) => {
                self.phase = Phase::IsStuck;
                Step::Fault {
                    tmp: Some(self.number),
                }
            }
        }
    }

    /// Settles the entry.
    fn settle<K: Shelf>(&mut self, k: &mut K) -> Step
        requires { self.old.phase ≡ Settles }
        ensures steps { IsStep (standing self.old) (K.seen k.old) result (standing self.new) (K.seen k.new) }
        ensures advances { Advances self.old result self.new }
    {
        match k.settle(self.tmp.as_str()) {
            Ok(()) => {
                self.phase = Phase::Renames;
                Step::More
            }
            Err(ShelfFault::Memory) => Step::Memory,
            Err(ShelfFault::Failed) => {
                self.phase = Phase::IsStuck;
                Step::Fault {
                    tmp: Some(self.number),
                }
            }
        }
    }

    /// Renames the entry to the digest name.
    fn rename<K: Shelf>(&mut self, k: &mut K) -> Step
        requires { self.old.phase ≡ Renames }
        ensures steps { IsStep (standing self.old) (K.seen k.old) result (standing self.new) (K.seen k.new) }
        ensures advances { Advances self.old result self.new }
    {
        match k.rename(self.tmp.as_str(), self.name.as_str()) {
            Ok(Moved::Renamed) => {
                self.phase = Phase::Stores;
                Step::More
            }
            Ok(Moved::Exists) => {
                self.phase = Phase::Removes;
                Step::More
            }
            Err(ShelfFault::Memory) => Step::Memory,
            Err(ShelfFault::Failed) => {
                self.phase = Phase::IsStuck;
                Step::Fault {
                    tmp: Some(self.number),
                }
            }
        }
    }

    /// Settles the rename.
    fn store<K: Shelf>(&mut self, k: &mut K) -> Step
        requires { self.old.phase ≡ Stores }
        ensures steps { IsStep (standing self.old) (K.seen k.old) result (standing self.new) (K.seen k.new) }
        ensures advances { Advances self.old result self.new }
    {
        match k.settle_top() {
            Ok(()) => {
                self.phase = Phase::IsStored;
                Step::Stored
            }
            Err(ShelfFault::Memory) => Step::Memory,
            Err(ShelfFault::Failed) => {
                self.phase = Phase::IsFaulty;
                Step::Fault { tmp: None }
            }
        }
    }

    /// Removes the entry, whose digest name was there already.
    fn remove<K: Shelf>(&mut self, k: &mut K) -> Step
        requires { self.old.phase ≡ Removes }
        ensures steps { IsStep (standing self.old) (K.seen k.old) result (standing self.new) (K.seen k.new) }
        ensures advances { Advances self.old result self.new }
    {
        match k.remove_top(self.tmp.as_str()) {
            Ok(()) => {
                self.phase = Phase::Leaves;
                Step::More
            }
            Err(ShelfFault::Memory) => Step::Memory,
            Err(ShelfFault::Failed) => {
                self.phase = Phase::IsStuck;
                Step::Fault {
                    tmp: Some(self.number),
                }
            }
        }
    }

    /// Settles the removal.
    fn leave<K: Shelf>(&mut self, k: &mut K) -> Step
        requires { self.old.phase ≡ Leaves }
        ensures steps { IsStep (standing self.old) (K.seen k.old) result (standing self.new) (K.seen k.new) }
        ensures advances { Advances self.old result self.new }
    {
        match k.settle_top() {
            Ok(()) => {
                self.phase = Phase::IsPresent;
                Step::Present
            }
            Err(ShelfFault::Memory) => Step::Memory,
            Err(ShelfFault::Failed) => {
                self.phase = Phase::IsFaulty;
                Step::Fault { tmp: None }
            }
        }
    }
}

/// Whether a session has ended.
fn is_over(phase: Phase) -> bool
    ensures { result ≡ is_over phase }
{
    match phase {
        Phase::IsStored
        | Phase::IsPresent
        | Phase::IsCrowded
        | Phase::IsUnmade
        | Phase::IsStuck
        | Phase::IsFaulty => true,
        _ => false,
    }
}

/// The temporary name of this number.
#[tactic(auto, unfolding(crate::specs::Phases::tmp_name))]
fn name_of(alloc: Global, number: u32) -> Result<Text, Memory>
    ensures { IfOk result (λ t. t ≡ tmp_name number) }
{
    match format!(in alloc; "tmp-{number}") {
        Ok(text) => Text::from_str(alloc, text.as_str()),
        Err(_) => Err(Memory),
    }
}
