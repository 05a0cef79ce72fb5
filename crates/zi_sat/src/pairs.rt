//! The pairs that clauses watch, by place. A place takes 4 bytes, and a pair 16 more, so that clauses of one literal cost little.
//! Contracts see, of each place, its pair or none.

ghost use Rattle.std.specs.Prelude.{◌≡◌, ◌<◌, ◌+◌, ◌++◌, ◌∷◌, [], length, slice_set, Some, None, IfOk, OnOk, OnErr, IsSome};
ghost use Rattle.zi_sat.specs.Guard.{pair_at};

use crate::pair::Pair;
use std::alloc::Global;
use std::marker::Model;
use zi_text::Memory;

// Of each place its pair, or none.
pub(crate) struct Pairs {
    // Of each place 0 where it has no pair, or else one more than where its pair stands.
    places: Vec<u32>,
    // The pairs, in the order of their places.
    pairs: Vec<Pair>,
}

impl Drop for Pairs {
    fn drop(self) {
        let Pairs {
            places: _,
            pairs: _,
        } = self;
    }
}

impl Model for Pairs {
    ghost use Rattle.std.specs.Prelude.{List, Option};
    ghost use Rattle.zi_sat.specs.declared.pair.Pair.{Pair as APair};

    ghost Value = { List (Option APair) };

    ghost use Rattle.zi_sat.specs.Pairs.{pairs_of, AreApart};

    ghost view = { pairs_of };

    ghost invariant = { AreApart };
}

impl Pairs {
    // No places.
    pub(crate) fn new(alloc: Global) -> Pairs
        ensures { result ≡ [] }
    {
        Pairs {
            places: Vec::new(alloc),
            pairs: Vec::new(alloc),
        }
    }

    // How many places there are.
    pub(crate) fn len(&self) -> usize
        ensures { result ≡ length self.now }
    {
        self.places.len()
    }

    // The pair of a place, where it has one.
    pub(crate) fn at(&self, i: usize) -> Option<Pair>
        requires { i < length self.now }
        ensures { result ≡ pair_at self.now i }
    {
        prove!(i < self.places.len());
        let number = self.places[i];
        if number == 0 {
            return None;
        }
        Some(self.pairs[number as usize - 1])
    }

    // Puts another pair in place of the one that a place has.
    pub(crate) fn put(&mut self, i: usize, pair: Pair)
        requires low { i < length self.old }
        requires some { IsSome (pair_at self.old i) }
        ensures { self.new ≡ slice_set self.old i (Some pair) }
    {
        prove!(i < self.places.len());
        let number = self.places[i];
        prove!(number > 0);
        self.pairs[number as usize - 1] = pair;
    }

    // Adds a place without a pair.
    pub(crate) fn push_none(&mut self) -> Result<(), Memory>
        ensures items { OnOk result (self.new ≡ self.old ++ None ∷ []) }
        ensures err { OnErr result (self.new ≡ self.old) }
    {
        self.places.push(0)?;
        Ok(())
    }

    // Adds a place with a pair. Where memory is refused, or there would be 2^32 pairs, all stays as it was.
    pub(crate) fn push(&mut self, pair: Pair) -> Result<(), Memory>
        ensures items { OnOk result (self.new ≡ self.old ++ Some pair ∷ []) }
        ensures err { OnErr result (self.new ≡ self.old) }
    {
        let number = number_behind(self.pairs.len())?;
        self.places.reserve(1)?;
        self.pairs.push(pair)?;
        self.places.push_reserved(number);
        Ok(())
    }
}

// The number of the pair behind so many, where 32 bits hold it.
fn number_behind(len: usize) -> Result<u32, Memory>
    ensures { IfOk result (λ n. n ≡ len + 1) }
{
    if len >= u32::MAX as usize {
        return Err(Memory);
    }
    Ok(len as u32 + 1)
}
