//! How active each variable has been: what the lemmas say of it, the latest ones the most.
//! Nothing is promised of the numbers: they decide in which order interfaces are taken, and no more.

use std::alloc::Global;
use zi_proof::Lemma;
use zi_reach::Face;
use zi_text::Memory;

// What one literal of a lemma adds.
const WEIGHT: u64 = 1024;

/// For each variable a number, and how many lemmas were taken in.
#[derive(Drop)]
pub(crate) struct Scores {
    of: Vec<u64>,
    taken: usize,
}

impl Scores {
    /// All variables are as active, and the first lemmas are passed over.
    pub fn new(alloc: Global, variables: u32, lemmas: usize) -> Result<Scores, Memory> {
        let mut of = Vec::new(alloc);
        for _x in 0..variables {
            of.push(0)?;
        }
        Ok(Scores { of, taken: lemmas })
    }

    // A literal of the variable stands in a lemma.
    fn raise(&mut self, x: u32) {
        if x == 0 {
            return;
        }
        if let Some(score) = self.of.get_mut(x as usize - 1) {
            *score = score.saturating_add(WEIGHT);
        }
    }

    // The literals of a lemma.
    fn take_one(&mut self, m: &Lemma) {
        for l in m.lits.as_slice() {
            self.raise(l.variable);
        }
    }

    /// Takes in the lemmas that weren't yet; says how many they were.
    pub fn take_in(&mut self, lemmas: &[Lemma]) -> u64 {
        let more = lemmas.len().saturating_sub(self.taken);
        for i in self.taken..lemmas.len() {
            self.take_one(&lemmas[i]);
        }
        self.taken = lemmas.len();
        more as u64
    }

    /// What was said counts for less.
    pub fn fade(&mut self) {
        for score in self.of.iter_mut() {
            *score = *score / 4 * 3;
        }
    }

    // That of a variable.
    fn at(&self, x: u32) -> u64 {
        if x == 0 {
            return 0;
        }
        match self.of.get(x as usize - 1) {
            None => 0,
            Some(score) => *score,
        }
    }

    /// That of an interface: of all its candidates.
    pub fn of_face(&self, face: &Face) -> u64 {
        let mut sum: u64 = 0;
        for x in face.variables.as_slice() {
            sum = sum.saturating_add(self.at(*x));
        }
        sum
    }
}
