//! What holds of walks and of the best choice as such: each function's clause is a law, proved over the definitions alone.

ghost use Rattle.zi_choice.specs.Laws.{WalkIsOne, WalkIsThere, StopsAreThere, StopsAreOne, EarlierIsStrict, OneRanksEarlier, BestIsOne, BestIsThere, FirstAloneIsBest, NoRootNoChoice};

/// A choice has one walk at most.
pub fn walk_is_one()
    ensures { WalkIsOne }
{}

/// A choice has a walk.
pub fn walk_is_there()
    ensures { WalkIsThere }
{}

/// A walk has stops: what it comes to, in one list. Told apart they are its places and its used commands.
pub fn stops_are_there()
    ensures { StopsAreThere }
{}

/// A choice has no other stops.
pub fn stops_are_one()
    ensures { StopsAreOne }
{}

/// "Ranks earlier" is a strict order.
pub fn earlier_is_strict()
    ensures { EarlierIsStrict }
{}

/// Of two different valid choices one ranks earlier than the other.
pub fn one_ranks_earlier()
    ensures { OneRanksEarlier }
{}

/// At most one choice is the best.
pub fn best_is_one()
    ensures { BestIsOne }
{}

/// Where any choice is valid, one is the best.
pub fn best_is_there()
    ensures { BestIsThere }
{}

/// Where no command is wanted, and no candidate of the root has a dependency of its own, the root's first candidate alone is
/// the best choice, if the root has one.
pub fn first_alone_is_best()
    ensures { FirstAloneIsBest }
{}

/// Where the root has no candidate, no choice is valid.
pub fn no_root_no_choice()
    ensures { NoRootNoChoice }
{}
