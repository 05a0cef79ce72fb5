//! The decider.

use crate::rule::{Face, Turn, least_open, next_of};
use std::marker::Model;
use zi_formula::Lit;
use zi_sat::{Decider, Trail};
use zi_text::Memory;

/// It goes by a list of interfaces and an order of them, which it borrows. It keeps nothing between its picks.
#[derive(Drop)]
pub struct Reach<'r> {
    faces: &'r [Face],
    order: &'r [Turn],
}

impl<'r> Model for Reach<'r> {
    ghost use Rattle.zi_reach.specs.Seen.{ReachSeen};

    ghost Value = { ReachSeen };

    ghost view = { λ r. record { faces = r.faces.now; order = r.order.now } };
}

impl<'r> Reach<'r> {
    ghost use Rattle.std.specs.Prelude.{◌≡◌};

    /// A decider for these interfaces, in this order.
    pub fn new(faces: &'r [Face], order: &'r [Turn]) -> Reach<'r>
        ensures { result ≡ record { faces = faces.now; order = order.now } }
    {
        Reach { faces, order }
    }
}

impl<'r> Decider for Reach<'r> {
    ghost use Rattle.std.specs.Prelude.{[]};
    ghost use Rattle.zi_reach.specs.Rule.{reach_picks};

    ghost chooses = { λ r n k. reach_picks r.faces r.order n k };

    ghost needs = { λ _. 0 };

    ghost taken = { λ _. [] };

    fn pick(&mut self, t: &Trail) -> Result<Option<Lit>, Memory> {
        match next_of(t, self.faces, self.order) {
            Some(variable) => Ok(Some(Lit {
                variable,
                positive: true,
            })),
            None => Ok(least_open(t)),
        }
    }

    fn go_back(&mut self, _t: &Trail) {}
}
