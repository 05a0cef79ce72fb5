//! How long the runs of a search are.
//! Nothing is promised of the numbers.

// So many lemmas a run of the second decider learns in each unit of the sequence.
const UNIT: u64 = 32;
// So many lemmas the first run of the walk's decider learns.
pub(crate) const FIRST: u64 = 1000;
// The second decider learns this part of what the walk's one may learn in its turn, and then it is the turn of that one again. Where the
// walk's order is the better one, as with pigeons in too few holes, the search needs about a third more lemmas than it alone.
pub(crate) const PART: u64 = 4;

/// The place in the sequence 1, 1, 2, 1, 1, 2, 4, .. of Luby, Sinclair and Zuckerman (Optimal speedup of Las Vegas algorithms, 1993),
/// as Knuth makes it from two numbers.
#[derive(Clone, Copy)]
pub(crate) struct Pace {
    count: u64,
    units: u64,
}

impl Pace {
    /// The first place.
    pub fn new() -> Pace {
        Pace { count: 1, units: 1 }
    }

    /// How many lemmas the next run may learn.
    pub fn lemmas(&self) -> u64 {
        self.units.saturating_mul(UNIT)
    }

    /// The next place.
    pub fn step(&mut self) {
        let double = self.units.saturating_mul(2);
        if double != 0 && self.count % double == self.units {
            self.count = self.count.saturating_add(1);
            self.units = 1;
        } else {
            self.units = double;
        }
    }
}
