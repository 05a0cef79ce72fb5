//! What holds of the demonstration.
//! Each law is a function without parameters and with no work to do, whose clause is the law.
ghost use Rattle.zi_demo_laws.specs.Solved.{OfEachNumber, IsSolvable, IsClear};

use zi_docout::what_is_written_is_read;
use zi_universe::laws::{one_universe, universe_excludes};

/// Over the feeds of the demonstration of each number from 1 to 1,000, and no others, under every policy that overrides no stability,
/// whatever trees and packages a machine has: the root of the demonstration has a universe, the literals of its constraints are
/// within the limit, and some choice from it is valid.
pub fn demo_is_solvable()
    ensures { OfEachNumber IsSolvable }
{
    what_is_written_is_read();
}

/// So over these feeds no refusal of a loading has its cause, but for a failed call and want of memory; and whatever universe is loaded,
/// its constraints are few enough, and there is a valid choice.
pub fn demo_is_clear()
    ensures { OfEachNumber IsClear }
{
    demo_is_solvable();
    one_universe();
    universe_excludes();
}
