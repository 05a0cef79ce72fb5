//! What the tries have shown, and how much they may still take.
//! Nothing is promised of it: it decides which constraints are tried, and no more.

ghost use Rattle.std.specs.Prelude.{◌≤◌};

use std::alloc::Global;
use zi_text::Memory;

// How many lemmas one try may learn.
const MOST: u64 = 1000;

// How many lemmas the tries may learn together, beside those for each lemma of the refutation.
const LEMMAS: u64 = 1000;

// How many they may for each lemma of the refutation.
const FOR_EACH: u64 = 2;

/// By the number of a constraint, whether a valuation makes all others true that are kept, so that it can't be left out; and
/// how many lemmas may still be learned.
#[derive(Drop)]
pub(crate) struct Tries {
    needed: Vec<bool>,
    left: u64,
}

impl Tries {
    /// Nothing was tried of so many constraints, of which a refutation of so many lemmas is known.
    pub fn new(alloc: Global, count: u32, lemmas: usize) -> Result<Tries, Memory> {
        let mut needed = Vec::new(alloc);
        for _n in 0..count {
            needed.push(false)?;
        }
        let more = FOR_EACH.saturating_mul(lemmas as u64);
        Ok(Tries {
            needed,
            left: LEMMAS.saturating_add(more),
        })
    }

    /// Whether the constraint of a number is to be tried.
    pub fn is_open(&self, n: u32) -> bool {
        if self.left == 0 {
            return false;
        }
        match self.needed.get(n as usize) {
            Some(is_needed) => !*is_needed,
            None => false,
        }
    }

    /// The constraint of a number is needed; says whether that is new.
    pub fn find(&mut self, n: u32) -> bool {
        match self.needed.get_mut(n as usize) {
            Some(is_needed) => {
                let is_new = !*is_needed;
                *is_needed = true;
                is_new
            }
            None => false,
        }
    }

    /// How many lemmas the next try may learn.
    pub fn most(&self) -> u64
        ensures { result ≤ 1000 }
    {
        if self.left < MOST { self.left } else { MOST }
    }

    /// A try learned so many lemmas.
    pub fn spend(&mut self, lemmas: usize) {
        self.left = self.left.saturating_sub(lemmas as u64);
    }
}
