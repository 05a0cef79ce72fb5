//! Laws of a session that runs alone. Each function does nothing; its clause is the law.
//! What such a session leaves, by its answer, stands in specs/Alone.antt.

ghost use Rattle.zi_session.specs.Alone.{AloneLaw, AsLeftLaw};

/// Where nobody else changes the shelf, a session adds its tree under a name that was free, finds the name there, or finds
/// each temporary name taken, and nothing else changes. Where it stops by a fault or for want of memory, what was there
/// stays, and nothing has come but a temporary entry or the whole tree.
pub fn ends_alone()
    ensures { AloneLaw }
{}

/// Where nobody else changes the shelf, each step finds the temporary entry as the session left it. So over a sure shelf no
/// call of the session fails.
pub fn finds_own()
    ensures { AsLeftLaw }
{}
