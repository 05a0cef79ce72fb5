//! Laws of the machine of one purger beside many adders, and how a purger's step is tied to it. Each function does nothing; its
//! clause is the law. The machine stands in specs/Machine.antt, its invariant in specs/Invariant.antt, what the law says in
//! specs/Law.antt.

ghost use Rattle.zi_purge.specs.Alone.{AloneLaw, BeginsAlone};
ghost use Rattle.zi_purge.specs.Counting.{Crowds, FewCalls, StepIsMade};
ghost use Rattle.zi_purge.specs.StoreLaws.{DoneLaw, EventsKeep, PurgeLaw, StepIsEvent, StepKeeps};

/// A step of a purger is the event of each purger that it stands for, whoever adds beside it.
#[tactic(auto, using(crate::proofs::StoreLemmas::step_is_event))]
pub fn step_is_event()
    ensures { StepIsEvent }
{}

/// A step keeps the invariant of the machine, so a sound store stays sound, whoever adds beside it.
#[tactic(auto, using(crate::proofs::StoreLemmas::step_keeps))]
pub fn step_keeps()
    ensures { StepKeeps }
{}

/// Every event keeps the invariant: of an adder, of the purger, and a crash.
#[tactic(auto, using(crate::proofs::StoreLemmas::events_keep))]
pub fn events_keep()
    ensures { EventsKeep }
{}

/// After every list of events the store is sound, and a name that is kept, or that came later, keeps its tree as without a purger.
#[tactic(auto, using(crate::proofs::StoreLemmas::purge_law))]
pub fn store()
    ensures { PurgeLaw }
{}

/// Once the purger answered Done, its names are gone but for those that an adder has renamed to since, and that lasts.
#[tactic(auto, using(crate::proofs::StoreLemmas::done_law))]
pub fn after_done()
    ensures { DoneLaw }
{}

/// A purger makes at most three calls for each of its names, one more, and one for each temporary name found taken, those that were
/// refused for want of memory aside.
#[tactic(auto, using(crate::proofs::CountingLemmas::few_calls))]
pub fn few_calls()
    ensures { FewCalls }
{}

/// A step answers Crowded exactly where it and those before it found 10,000 temporary names taken, one after the other, for one name.
#[tactic(auto, using(crate::proofs::CountingLemmas::crowds))]
pub fn crowded()
    ensures { Crowds }
{}

/// A step over an honest shelf that doesn't answer Memory is one of the steps of which the two laws before this one speak.
#[tactic(auto, using(crate::proofs::CountingLemmas::step_is_made))]
pub fn step_is_made()
    ensures { StepIsMade }
{}

/// Before its first call a purger hasn't ended. Over a store in which the names are that it is told to be there it works alone.
#[tactic(auto, using(crate::proofs::AloneLemmas::begins_alone))]
pub fn begins_alone()
    ensures { BeginsAlone }
{}

/// A purger that has worked alone and is done: its names are gone, under each other name stands what stood there, and nothing is
/// pending. It ends as Crowded only where each temporary name was taken when it began; where one was free it is done, or a call
/// failed.
#[tactic(auto, using(crate::proofs::AloneLemmas::ends_alone))]
pub fn ends_alone()
    ensures { AloneLaw }
{}
