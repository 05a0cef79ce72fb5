//! How a place of the walk stands by what is known.
ghost use Rattle.std.specs.Prelude.{◌≡◌, ◌≤◌};
ghost use Rattle.zi_sat.specs.Trail.{known_from};
ghost use Rattle.zi_choice.specs.Vars.{var_count};
ghost use Rattle.zi_walk.specs.Firm.{StandsSo};

use crate::open::{chosen_at, lit_at, undecided_at};
use zi_choice::Place;
use zi_formula::Lit;
use zi_numbering::Numbering;
use zi_sat::Trail;

/// Why a walk can't go on from a place.
#[derive(Clone, Copy)]
pub(crate) enum Blocked {
    /// None is chosen there, and this says that the first undecided candidate is.
    Open(Lit),
    /// One is chosen there, but one before it is undecided, so that may come to be chosen instead.
    Unsettled,
}

/// How a place stands.
#[derive(Clone, Copy)]
pub(crate) enum Standing {
    /// This is chosen there, whatever else comes to be known.
    Settled(Option<u32>),
    /// The walk can't go on from there.
    Stuck(Blocked),
}

/// How the place of an interface stands.
pub(crate) fn look_at(n: &Numbering, t: &Trail, i: u32) -> Standing
    requires room { var_count n.now ≤ t.now.variables }
    ensures { StandsSo n.now t.now.variables (known_from t.now.entries) i result }
{
    let pick = chosen_at(n, t, i);
    if let Some(l) = lit_at(n, t, &Place { interface: i, pick }) {
        return Standing::Stuck(Blocked::Open(l));
    }
    let Some(c) = pick else {
        return Standing::Settled(None);
    };
    let Some(o) = undecided_at(n, t, i) else {
        return Standing::Settled(Some(c));
    };
    if o < c {
        return Standing::Stuck(Blocked::Unsettled);
    }
    Standing::Settled(Some(c))
}
