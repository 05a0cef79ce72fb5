//! The steps of a purger: in each phase one call of the shelf, and where its answer leads.

ghost use Rattle.std.specs.Prelude.{◌≡◌, ◌++◌, ◌∷◌, [], ◌<◌, true, false, IfOk, OnOk};
ghost use Rattle.std.specs.Vec.{vec_len, vec_capacity};
ghost use Rattle.zi_session.specs.Phases.{tmp_name, blamed_name};
ghost use Rattle.zi_purge.specs.Stepping.{standing, IsStep};
ghost use Rattle.zi_purge.specs.Blaming.{blamed, Blames};
ghost use Rattle.zi_purge.specs.Progress.{has_ended, Advances};
ghost use Rattle.zi_purge.specs.Keeping.{KeepsShelf};
ghost use Rattle.zi_purge.specs.declared.phase.Phase.TheVariants.{Moves, Seals, Clears, Closes};

use crate::phase::Phase;
use crate::purge::Purge;
use crate::step::PurgeStep;
use std::alloc::Global;
use std::mem::replace;
use zi_digest::DigestName;
use zi_shelf::{Moved, Shelf, ShelfFault};
use zi_text::{List, Memory, Text};

/// So many temporary names are tried for each name.
const TRIES: u32 = 10_000;

impl Purge {
    /// Makes the next call of the shelf, or none where it lacks memory, or none after an end.
    pub fn step<K: Shelf>(&mut self, alloc: Global, k: &mut K) -> PurgeStep
        ensures steps { has_ended (standing self.old).phase ≡ false → IsStep (standing self.old) (K.seen k.old) result (standing self.new) (K.seen k.new) }
        ensures over { has_ended (standing self.old).phase ≡ true → (result ≡ PurgeStep.Over) × (k.new ≡ k.old) × (self.new ≡ self.old) }
        ensures advances { Advances (standing self.old) result (standing self.new) }
        ensures blames { Blames result (blamed self.new) }
        ensures keeps { KeepsShelf (standing self.old) (K.seen k.old) result (standing self.new) (K.seen k.new) }
    {
        match self.phase {
            Phase::Moves => self.take_away(alloc, k),
            Phase::Seals => self.seal(k),
            Phase::Clears => self.clear(k),
            Phase::Closes => self.close(k),
            _ => PurgeStep::Over,
        }
    }

    /// The temporary name that the call named at which the shelf failed. The text is empty where it named none, and where the
    /// purger hasn't ended by a fault. It takes no memory.
    pub fn into_blamed(self, alloc: Global) -> Text
        ensures { result ≡ blamed_name (blamed self) }
    {
        let Purge { phase, tmp, .. } = self;
        match phase {
            Phase::IsStuck => tmp,
            _ => Text::new(alloc),
        }
    }

    /// Renames the next name to the next temporary name.
    fn take_away<K: Shelf>(&mut self, alloc: Global, k: &mut K) -> PurgeStep
        requires { self.old.phase ≡ Moves }
        ensures steps { IsStep (standing self.old) (K.seen k.old) result (standing self.new) (K.seen k.new) }
        ensures blames { Blames result (blamed self.new) }
    {
        let Ok(tmp) = name_of(alloc, self.number) else {
            return PurgeStep::Memory;
        };
        let mut gone = replace(&mut self.gone, List::new(alloc)).into_vec();
        if room_for(&mut gone).is_err() {
            self.gone = List::from_vec(gone);
            return PurgeStep::Memory;
        }
        match k.rename(self.texts[self.place].as_str(), tmp.as_str()) {
            Ok(Moved::Renamed) => {
                note(&mut gone, self.names[self.place]);
                self.gone = List::from_vec(gone);
                self.tmp = tmp;
                self.phase = Phase::Seals;
                PurgeStep::More
            }
            Ok(Moved::Exists) => {
                self.gone = List::from_vec(gone);
                if self.number + 1 < TRIES {
                    self.number += 1;
                    PurgeStep::More
                } else {
                    self.phase = Phase::IsCrowded;
                    PurgeStep::Crowded { tried: TRIES }
                }
            }
            Err(ShelfFault::Memory) => {
                self.gone = List::from_vec(gone);
                PurgeStep::Memory
            }
            Err(ShelfFault::Failed) => {
                self.gone = List::from_vec(gone);
                self.tmp = tmp;
                self.phase = Phase::IsStuck;
                PurgeStep::Fault {
                    tmp: Some(self.number),
                }
            }
        }
    }

    /// Settles the rename.
    fn seal<K: Shelf>(&mut self, k: &mut K) -> PurgeStep
        requires { self.old.phase ≡ Seals }
        ensures steps { IsStep (standing self.old) (K.seen k.old) result (standing self.new) (K.seen k.new) }
        ensures blames { Blames result (blamed self.new) }
    {
        match k.settle_top() {
            Ok(()) => {
                self.phase = Phase::Clears;
                PurgeStep::More
            }
            Err(ShelfFault::Memory) => PurgeStep::Memory,
            Err(ShelfFault::Failed) => {
                self.phase = Phase::IsFaulty;
                PurgeStep::Fault { tmp: None }
            }
        }
    }

    /// Removes the temporary entry.
    fn clear<K: Shelf>(&mut self, k: &mut K) -> PurgeStep
        requires { self.old.phase ≡ Clears }
        ensures steps { IsStep (standing self.old) (K.seen k.old) result (standing self.new) (K.seen k.new) }
        ensures blames { Blames result (blamed self.new) }
    {
        match k.remove_top(self.tmp.as_str()) {
            Ok(()) => {
                let next = self.place + 1;
                self.phase = if next < self.texts.len() {
                    Phase::Moves
                } else {
                    Phase::Closes
                };
                self.place = next;
                self.number = 0;
                PurgeStep::More
            }
            Err(ShelfFault::Memory) => PurgeStep::Memory,
            Err(ShelfFault::Failed) => {
                self.phase = Phase::IsStuck;
                PurgeStep::Fault {
                    tmp: Some(self.number),
                }
            }
        }
    }

    /// Settles the top, as the last call.
    fn close<K: Shelf>(&mut self, k: &mut K) -> PurgeStep
        requires { self.old.phase ≡ Closes }
        ensures steps { IsStep (standing self.old) (K.seen k.old) result (standing self.new) (K.seen k.new) }
        ensures blames { Blames result (blamed self.new) }
    {
        match k.settle_top() {
            Ok(()) => {
                self.phase = Phase::IsDone;
                PurgeStep::Done
            }
            Err(ShelfFault::Memory) => PurgeStep::Memory,
            Err(ShelfFault::Failed) => {
                self.phase = Phase::IsFaulty;
                PurgeStep::Fault { tmp: None }
            }
        }
    }
}

/// Makes room for one name more.
fn room_for(gone: &mut Vec<DigestName>) -> Result<(), Memory>
    ensures ok { OnOk result (vec_len gone.new < vec_capacity gone.new) }
    ensures same { gone.new.items ≡ gone.old.items }
{
    gone.reserve(1)?;
    Ok(())
}

/// Notes a name, where there is room.
fn note(gone: &mut Vec<DigestName>, name: DigestName)
    requires { vec_len gone.old < vec_capacity gone.old }
    ensures { gone.new.items ≡ gone.old.items ++ name ∷ [] }
{
    match gone.push(name) {
        Ok(()) => (),
        Err(_) => unreachable!(),
    }
}

/// The temporary name of this number.
#[tactic(auto, unfolding(zi_session::specs::Phases::tmp_name))]
fn name_of(alloc: Global, number: u32) -> Result<Text, Memory>
    ensures { IfOk result (λ t. t ≡ tmp_name number) }
{
    match format!(in alloc; "tmp-{number}") {
        Ok(text) => Text::from_str(alloc, text.as_str()),
        Err(_) => Err(Memory),
    }
}
