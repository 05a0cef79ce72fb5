//! What a solver hands out so that others can check it.
//! A lemma is a clause with the numbers of what it follows from; a proof is a list of lemmas, each after those that it uses.
//! A certificate adds blocks, which say for one place of a walk why a candidate was passed over.

use zi_formula::Lit;
use zi_text::List;

/// A clause, and the numbers of the constraints and earlier lemmas from which it follows.
#[derive(Debug, Drop, PartialEq, Eq)]
pub struct Lemma {
    /// The clause's literals; a lemma with none is a contradiction.
    pub lits: List<Lit>,
    /// The constraints are numbered from 1, and the lemmas after them.
    pub hints: List<u32>,
}

/// Lemmas in order.
#[derive(Debug, Drop, PartialEq, Eq)]
pub struct Proof {
    /// Each lemma may use the constraints and the lemmas before it.
    pub lemmas: List<Lemma>,
}

/// Why a candidate was passed over at a place.
#[derive(Debug, Drop, PartialEq, Eq)]
pub struct Block {
    /// The place, which counts from 1.
    pub place: u32,
    /// The candidate, by the number of its variable.
    pub candidate: u32,
    /// The constraints and lemmas by which it can't be chosen there.
    pub hints: List<u32>,
}

/// Lemmas, and the blocks that use them.
#[derive(Debug, Drop, PartialEq, Eq)]
pub struct Certificate {
    /// The lemmas.
    pub proof: Proof,
    /// The blocks, each of which may use all lemmas.
    pub blocks: List<Block>,
}
