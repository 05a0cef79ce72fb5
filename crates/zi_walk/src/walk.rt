//! The decider that goes by the walk.

use crate::kept::{Kept, Setting, go_back, next};
use std::alloc::Global;
use std::marker::Model;
use zi_choice::Names;
use zi_formula::Lit;
use zi_numbering::Numbering;
use zi_sat::{Decider, Trail};
use zi_text::Memory;
use zi_universe::{Requirement, Universe};

/// It picks the first undecided candidate in rank order at the first undecided place of the walk; once the walk is decided,
/// the opposite of the first undecided variable. It keeps the walk as far as it is decided, and takes it up where it stood: it goes
/// back with the trail, so that a pick costs what came since.
pub struct Walk<'u> {
    requirement: &'u Requirement,
    names: Names<'u>,
    numbering: Numbering<'u>,
    alloc: Global,
    kept: Kept<'u>,
}

// One call wherever one is dropped.
impl<'u> Drop for Walk<'u> {
    fn drop(self) {
        let Walk {
            requirement: _,
            names: _,
            numbering: _,
            alloc: _,
            kept: _,
        } = self;
    }
}

impl<'u> Model for Walk<'u> {
    ghost use Rattle.std.specs.Prelude.{◌≡◌};
    ghost use Rattle.zi_walk.specs.Seen.{WalkSeen};
    ghost use Rattle.zi_walk.specs.Firm.{KeptIs};

    ghost Value = { WalkSeen };

    ghost view = { λ w. record { universe = w.names; requirement = w.requirement.now; taken = w.kept.taken.items } };

    ghost invariant = { λ w. (w.numbering ≡ w.names) × KeptIs w.names w.requirement.now w.kept };
}

impl<'u> Walk<'u> {
    ghost use Rattle.std.specs.Prelude.{◌≡◌, [], IfOk};
    ghost use Rattle.zi_universe.specs.Whole.{BeginsWith};

    /// A decider for a universe and a requirement, which has taken in nothing. Its tables take time and memory linear in the
    /// universe.
    pub fn new(alloc: Global, u: &'u Universe, req: &'u Requirement) -> Result<Walk<'u>, Memory>
        requires rooted { BeginsWith u.now req.now.interface }
        ensures { IfOk result (λ w. w ≡ record { universe = u.now; requirement = req.now; taken = [] }) }
    {
        let names = Names::of(alloc, u)?;
        let numbering = Numbering::of(alloc, u)?;
        Ok(Walk {
            requirement: req,
            names,
            numbering,
            alloc,
            kept: Kept::new(alloc),
        })
    }
}

impl<'u> Decider for Walk<'u> {
    ghost use Rattle.zi_walk.specs.Rule.{walk_picks};
    ghost use Rattle.zi_choice.specs.Vars.{var_count};

    ghost chooses = { λ w n k. walk_picks w.universe w.requirement n k };

    ghost needs = { λ w. var_count w.universe };

    ghost taken = { λ w. w.taken };

    fn pick(&mut self, t: &Trail) -> Result<Option<Lit>, Memory> {
        let on = Setting {
            names: &self.names,
            numbering: &self.numbering,
            requirement: self.requirement,
            alloc: self.alloc,
        };
        match next(&on, t, &mut self.kept) {
            Ok(picked) => Ok(picked),
            Err(refused) => {
                self.kept = Kept::new(self.alloc);
                Err(refused)
            }
        }
    }

    fn go_back(&mut self, t: &Trail) {
        go_back(&mut self.kept, t);
    }
}
