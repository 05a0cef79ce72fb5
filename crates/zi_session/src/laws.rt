//! Laws of the machine of adders, and how a session's step is tied to it. Each function does nothing; its clause is the law.
//! The machine stands in specs/Machine.antt, its invariant in specs/Invariant.antt, the rules of the store in
//! specs/StoreRules.antt, and what the law says in specs/Law.antt.

ghost use Rattle.zi_session.specs.Lasting.{AnswersLast};
ghost use Rattle.zi_session.specs.Tie.{CrashKeeps, EventsKeep, StepIsEvent, StepKeeps, StoreLaw};

/// A step of a session is the event step of each adder that it stands for.
pub fn step_is_event()
    ensures { StepIsEvent }
{}

/// A step keeps the invariant of the machine, so a sound store stays sound.
pub fn step_keeps()
    ensures { StepKeeps }
{}

/// Every event keeps the invariant: the beginning, a step and the stop of an adder, and a crash.
pub fn events_keep()
    ensures { EventsKeep }
{}

/// A crash keeps the invariant, whatever outcome of the crash model it leaves; so a sound store stays sound.
pub fn crash_keeps()
    ensures { CrashKeeps }
{}

/// After every list of events the store is sound. Who answered Stored or Present has its name, also after a later crash.
pub fn store()
    ensures { StoreLaw }
{}

/// What was answered Stored or Present lasts: after every list of later events, crashes among them, the same tree stands whole
/// under the name.
pub fn answers_last()
    ensures { AnswersLast }
{}
