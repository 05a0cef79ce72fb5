//! What a literal of a trail rests on, as far as what is assumed: found by going back over the reasons, each once.
//! Nothing is promised of what is found: it is offered to the check of blocks, which decides.

use std::alloc::Global;
use zi_formula::{Formula, Lent, Lit};
use zi_proof::Lemma;
use zi_sat::{Trail, Why};
use zi_text::{List, Memory};

// What is looked up of a variable.
#[derive(Clone, Copy)]
struct Ground {
    // its place on the trail, from 1, or 0
    place: u32,
    // whether an earlier place of the walk says it
    said: bool,
    // whether it was met on the way back
    met: bool,
}

/// Where each variable stands on a trail, and which are said by earlier places of the walk.
#[derive(Drop)]
pub(crate) struct Grounds {
    variables: Vec<Ground>,
}

/// What hints go by.
#[derive(Clone, Copy)]
pub(crate) struct Hinted<'a> {
    pub formula: &'a Formula,
    pub lemmas: &'a [Lemma],
    pub trail: &'a Trail,
}

// For so many variables nothing is known yet.
fn bare(alloc: Global, variables: u32) -> Result<Vec<Ground>, Memory> {
    let mut all = Vec::new(alloc);
    for _x in 0..variables {
        all.push(Ground {
            place: 0,
            said: false,
            met: false,
        })?;
    }
    Ok(all)
}

impl Grounds {
    /// Those of a trail.
    pub fn of(alloc: Global, t: &Trail) -> Result<Grounds, Memory> {
        let mut all = Grounds {
            variables: bare(alloc, t.variables())?,
        };
        for i in 0..t.len() {
            if let Some(ground) = all.at(t.at(i).lit.variable) {
                ground.place = i + 1;
            }
        }
        Ok(all)
    }

    // What is looked up of a variable.
    fn at(&mut self, variable: u32) -> Option<&mut Ground> {
        if variable == 0 {
            return None;
        }
        self.variables.get_mut(variable as usize - 1)
    }

    /// It is said from here on.
    pub fn say(&mut self, variable: u32) {
        if let Some(ground) = self.at(variable) {
            ground.said = true;
        }
    }

    // It was not met.
    fn forget(&mut self, variable: u32) {
        if let Some(ground) = self.at(variable) {
            ground.met = false;
        }
    }

    // The place of a variable on the trail, from 0, unless it is said, or was met.
    fn meet(&mut self, variable: u32) -> Option<u32> {
        let ground = self.at(variable)?;
        if ground.said || ground.met || ground.place == 0 {
            return None;
        }
        ground.met = true;
        Some(ground.place - 1)
    }

    // The other variables of a clause.
    fn meet_others(&mut self, own: u32, lits: &[Lit], found: &mut Vec<u32>) -> Result<(), Memory> {
        for l in lits {
            if l.variable != own {
                if let Some(place) = self.meet(l.variable) {
                    found.push(place)?;
                }
            }
        }
        Ok(())
    }

    // The true variable of a group.
    fn meet_true(&mut self, t: &Trail, xs: &[u32], found: &mut Vec<u32>) -> Result<(), Memory> {
        for x in xs {
            if is_true(t, *x) {
                if let Some(place) = self.meet(*x) {
                    found.push(place)?;
                }
                return Ok(());
            }
        }
        Ok(())
    }

    // What a hint uses.
    fn meet_hinted(
        &mut self,
        by: &Hinted,
        own: u32,
        hint: u32,
        found: &mut Vec<u32>,
    ) -> Result<(), Memory> {
        if hint == 0 {
            return Ok(());
        }
        let place = hint as usize - 1;
        let constraints = &by.formula.constraints;
        let count = constraints.len();
        if place < count {
            return match constraints.at(place) {
                Lent::Clause(lits) => self.meet_others(own, lits, found),
                Lent::AtMostOne(xs) => self.meet_true(by.trail, xs, found),
            };
        }
        match by.lemmas.get(place - count) {
            None => Ok(()),
            Some(m) => self.meet_others(own, m.lits.as_slice(), found),
        }
    }

    // What the literal at a place uses.
    fn meet_used(&mut self, by: &Hinted, place: u32, found: &mut Vec<u32>) -> Result<(), Memory> {
        if place >= by.trail.len() {
            return Ok(());
        }
        let e = by.trail.at(place);
        match e.why {
            Why::Decision => Ok(()),
            Why::Hint(hint) => self.meet_hinted(by, e.lit.variable, hint, found),
        }
    }

    // The places of the trail on which a variable rests, its own among them, without an order.
    fn places_under(
        &mut self,
        alloc: Global,
        by: &Hinted,
        variable: u32,
    ) -> Result<Vec<u32>, Memory> {
        let mut found = Vec::new(alloc);
        if let Some(place) = self.meet(variable) {
            found.push(place)?;
        }
        for k in 0..by.trail.len() as usize {
            match found.get(k).copied() {
                None => return Ok(found),
                Some(place) => self.meet_used(by, place, &mut found)?,
            }
        }
        Ok(found)
    }

    /// The hints on which a variable rests, in the trail's order, each once. It takes time in proportion to the constraints
    /// that they name.
    pub fn hints_under(
        &mut self,
        alloc: Global,
        by: &Hinted,
        variable: u32,
    ) -> Result<List<u32>, Memory> {
        let mut places = self.places_under(alloc, by, variable)?;
        places.sort()?;
        let mut hints = List::new(alloc);
        let mut last = 0;
        for place in &places {
            if let Some((x, hint)) = hint_at(by.trail, *place) {
                self.forget(x);
                if hint != 0 && hint != last {
                    hints.push(hint)?;
                    last = hint;
                }
            }
        }
        Ok(hints)
    }
}

/// Whether a variable is true; none is that the trail hasn't.
pub(crate) fn is_true(t: &Trail, x: u32) -> bool {
    if x == 0 || x > t.variables() {
        return false;
    }
    t.value(Lit {
        variable: x,
        positive: true,
    }) == Some(true)
}

// The variable of an entry, and its hint, or 0 for a decision.
fn hint_at(t: &Trail, place: u32) -> Option<(u32, u32)> {
    if place >= t.len() {
        return None;
    }
    let e = t.at(place);
    match e.why {
        Why::Decision => Some((e.lit.variable, 0)),
        Why::Hint(hint) => Some((e.lit.variable, hint)),
    }
}
