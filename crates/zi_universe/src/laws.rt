//! What holds of loadings as such: each function's clause is a law, proved over the definitions alone.
ghost use Rattle.zi_universe.specs.Laws.{HasOneUniverse, UniverseExcludes, HasOneRefusal, LoadsOrIsRefused};

use zi_doc::one_answer;
use zi_rank::laws::ranks_are_strict;

/// Over feeds that tell what they hold there is one universe at most, so what `load` answers is the universe.
pub fn one_universe()
    ensures { HasOneUniverse }
{
    one_answer();
    ranks_are_strict();
}

/// Over feeds that tell what they hold, where there is a universe no refusal has its cause but a failed call and want of
/// memory: so bad feeds, an absent root and passed limits are refused exactly where they stand in the way of one.
pub fn universe_excludes()
    ensures { UniverseExcludes }
{
    one_answer();
    ranks_are_strict();
}

/// Over feeds that tell what they hold there is one refusal at most, but for a failed call and want of memory: so with
/// `universe_excludes` each of them is answered exactly where it has its cause.
pub fn one_refusal()
    ensures { HasOneRefusal }
{
    one_answer();
    ranks_are_strict();
}

/// Over feeds that tell what they hold there is a universe or such a refusal: with the other laws exactly one of all these
/// answers is right.
pub fn some_answer()
    ensures { LoadsOrIsRefused }
{
    one_answer();
    ranks_are_strict();
}
