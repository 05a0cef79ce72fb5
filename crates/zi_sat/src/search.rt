//! A search over one formula, with its trail and its log.
//! The log is a proof: its lemmas follow, and are fresh, whatever the answer.
//! The trail has each literal with its reason, whatever the answer.

use crate::decider::Decider;
use crate::found::Found;
use crate::rounds::seek;
use crate::trail::Trail;
use std::alloc::Global;
use std::marker::Model;
use zi_formula::Formula;
use zi_proof::Proof;
use zi_text::{List, Memory};

/// A search for a model of a formula.
#[derive(Drop)]
pub struct Search<'f> {
    formula: &'f Formula,
    trail: Trail,
    log: Proof,
}

impl<'f> Model for Search<'f> {
    ghost use Rattle.std.specs.Prelude.{◌≡◌};
    ghost use Rattle.std.specs.Prelude.{true};
    ghost use Rattle.zi_formula.specs.Form.{WellFormed};
    ghost use Rattle.zi_proof.specs.Accepted.{follows};
    ghost use Rattle.zi_proof.specs.Lean.{AreLean};
    ghost use Rattle.zi_sat.specs.Fresh.{AreFresh};
    ghost use Rattle.zi_sat.specs.View.{SearchSeen};

    ghost Value = { SearchSeen };

    ghost view = { λ s. record { formula = s.formula.now; trail = s.trail; log = s.log } };

    ghost invariant = { λ s. WellFormed s.formula.now × (s.trail.variables ≡ s.formula.now.variables) × (follows s.formula.now s.log.lemmas ≡ true) × AreFresh s.formula.now.constraints s.log.lemmas × AreLean s.formula.now.constraints s.log.lemmas };
}

impl<'f> Search<'f> {
    ghost use Rattle.std.specs.Prelude.{◌≡◌, ◌≤◌, ◌<◌, ◌+◌, ◌-◌, ◌^◌, [], length, true, IfOk};
    ghost use Rattle.zi_formula.specs.Form.{WellFormed};
    ghost use Rattle.zi_proof.specs.Known.{nothing};
    ghost use Rattle.zi_proof.specs.Accepted.{citable, follows};
    ghost use Rattle.zi_proof.specs.Lean.{AreLean};
    ghost use Rattle.zi_sat.specs.Moves.{Lawful};
    ghost use Rattle.zi_sat.specs.Fresh.{AreFresh, Filled};
    ghost use Rattle.zi_sat.specs.Entries.{HaveReasons, AreImplied};
    ghost use Rattle.zi_sat.specs.Ends.{Ended, Longer, MayGoOn};

    /// A search that has made no step yet.
    pub fn new(alloc: Global, f: &'f Formula) -> Result<Search<'f>, Memory>
        requires { WellFormed f.now }
        ensures { IfOk result (λ s. s ≡ record { formula = f.now; trail = record { variables = f.now.variables; entries = [] }; log = record { lemmas = [] } }) }
    {
        let trail = Trail::new(alloc, f.variables)?;
        let log = Proof {
            lemmas: List::new(alloc),
        };
        Ok(Search {
            formula: f,
            trail,
            log,
        })
    }

    /// The trail.
    pub fn trail(&self) -> &Trail
        ensures value { result.now ≡ self.now.trail }
        ensures variables { result.now.variables ≡ self.now.formula.variables }
    {
        &self.trail
    }

    /// The lemmas that were learned, as a proof.
    pub fn log(&self) -> &Proof
        ensures { result.now ≡ self.now.log }
    {
        &self.log
    }

    /// The lemmas that were learned, moved out. It takes no memory.
    pub fn into_log(self) -> Proof
        ensures { result ≡ self.entry.log }
    {
        let Search {
            formula: _,
            trail: _,
            log,
        } = self;
        log
    }

    /// Searches for a model, from no decision on, with the lemmas that the log has, and learns until it has `budget` lemmas that
    /// have a literal. Unless the formula is refuted or memory is refused it may be called again, also with another decider: the log goes
    /// on from where it is, and keeps the lemmas that it had.
    ///
    /// After every answer, want of memory too: the lemmas of the log follow, are fresh and lean; each decision on the trail was
    /// the decider's pick on the trail before it, on which no constraint of the formula has more to say; each other
    /// literal has the hint that makes it true, and follows from the formula and the decisions before it.
    ///
    /// Model comes only where every variable is decided and the trail's values are a model. Refuted comes only where the log refutes. Spent comes only
    /// with the budget as its count and as the number of lemmas, each with a literal, where no model has all literals of
    /// the trail, and never where the budget is at least 3 to the power of the number of variables.
    pub fn run<D: Decider>(
        &mut self,
        alloc: Global,
        d: &mut D,
        budget: u64,
    ) -> Result<Found, Memory>
        requires bound { length self.old.log.lemmas ≤ budget }
        requires filled { Filled self.old.log.lemmas }
        requires needs { D.needs d.old ≤ self.old.formula.variables }
        requires taken { D.taken d.old ≡ [] }
        requires few { length self.old.formula.constraints + budget < 2 ^ 32 - 1 }
        ensures formula { self.new.formula ≡ self.old.formula }
        ensures rule { D.chooses d.new ≡ D.chooses d.old }
        ensures needed { D.needs d.new ≡ D.needs d.old }
        ensures log { follows self.old.formula self.new.log.lemmas ≡ true }
        ensures fresh { AreFresh self.old.formula.constraints self.new.log.lemmas }
        ensures lean { AreLean self.old.formula.constraints self.new.log.lemmas }
        ensures moves { Lawful (citable self.old.formula.constraints self.new.log.lemmas) self.old.formula.constraints (D.chooses d.old self.old.formula.variables) self.new.trail.entries }
        ensures reasons { HaveReasons (citable self.old.formula.constraints self.new.log.lemmas) self.old.formula.constraints (D.chooses d.old self.old.formula.variables) nothing self.new.trail.entries }
        ensures implied { AreImplied self.old.formula [] self.new.trail.entries }
        ensures longer { Longer self.old.log.lemmas self.new.log.lemmas }
        ensures goes_on { IfOk result (MayGoOn self.new.log.lemmas budget) }
        ensures end { Ended self.old.formula self.new.log.lemmas self.new.trail.entries budget result }
    {
        self.trail.truncate(0);
        let found = seek(
            alloc,
            self.formula,
            &mut self.trail,
            &mut self.log,
            d,
            budget,
        );
        self.trail.are_new();
        found
    }
}
