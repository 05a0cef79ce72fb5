//! What is kept between the runs of a search: the interfaces with their activity, what was last chosen of each, and how far the walk
//! of the last model was proven.
//! Nothing is promised of it: it decides what is tried next, and no more.

use crate::faces::faces_of;
use crate::grounds::is_true;
use crate::pace::{FIRST, PART, Pace};
use crate::scores::Scores;
use std::alloc::Global;
use zi_choice::Names;
use zi_numbering::Numbering;
use zi_proof::Lemma;
use zi_reach::{Face, Turn};
use zi_sat::Trail;
use zi_text::Memory;

/// What the next run is told.
#[derive(Drop)]
pub(crate) struct Learner {
    faces: Vec<Face>,
    scores: Scores,
    // of each interface what was chosen of it last
    wishes: Vec<Option<u32>>,
    // whether there was a model: only models tell then
    modelled: bool,
    // the interfaces to which the walk of the last model comes
    walk: Vec<u32>,
    // how many of these are proven, and how many more are tried at once
    proven: usize,
    gap: usize,
    pace: Pace,
    // how many lemmas the walk's decider may learn in a turn, and how many the other one has learned since
    slice: u64,
    learned: u64,
}

// Where an interface stands: the less it was idle the earlier, and by its number where two were as idle.
#[derive(Clone, Copy, PartialEq, Eq, PartialOrd, Ord)]
struct Rank {
    idle: u64,
    face: u32,
}

// What is chosen of an interface, where one of its candidates is.
fn chosen_of(t: &Trail, face: &Face) -> Option<u32> {
    for x in face.variables.as_slice() {
        if is_true(t, *x) {
            return Some(*x);
        }
    }
    None
}

// For each interface, none.
fn no_wishes(alloc: Global, len: usize) -> Result<Vec<Option<u32>>, Memory> {
    let mut wishes = Vec::new(alloc);
    for _i in 0..len {
        wishes.push(None)?;
    }
    Ok(wishes)
}

// How many items two lists have in common before they part.
fn common(xs: &[u32], ys: &[u32]) -> usize {
    for i in 0..xs.len() {
        if xs.get(i) != ys.get(i) {
            return i;
        }
    }
    xs.len()
}

// What is chosen on a trail is wished for.
fn wish(t: &Trail, faces: &[Face], wishes: &mut Vec<Option<u32>>) {
    for (i, face) in faces.iter().enumerate() {
        if let Some(x) = chosen_of(t, face) {
            if let Some(wish) = wishes.get_mut(i) {
                *wish = Some(x);
            }
        }
    }
}

impl Learner {
    /// Nothing was learned yet, but for so many lemmas that don't count.
    pub fn new(
        alloc: Global,
        names: &Names,
        numbering: &Numbering,
        t: &Trail,
        lemmas: usize,
    ) -> Result<Learner, Memory> {
        let faces = faces_of(alloc, names, numbering)?;
        let mut wishes = no_wishes(alloc, faces.len())?;
        wish(t, faces.as_slice(), &mut wishes);
        let scores = Scores::new(alloc, t.variables(), lemmas)?;
        Ok(Learner {
            faces,
            scores,
            wishes,
            modelled: false,
            walk: Vec::new(alloc),
            proven: 0,
            gap: 0,
            pace: Pace::new(),
            slice: FIRST,
            learned: 0,
        })
    }

    /// The interfaces.
    pub fn faces(&self) -> &[Face] {
        self.faces.as_slice()
    }

    /// Whether it is the turn of the walk's decider.
    pub fn is_walks_turn(&self) -> bool {
        self.learned >= self.slice / PART
    }

    /// How many lemmas it may learn in its turn, twice as many as in the last one.
    pub fn begin_walks_turn(&mut self) -> u64 {
        self.slice = self.slice.saturating_mul(2);
        self.learned = 0;
        self.slice
    }

    /// How many lemmas the other decider may learn in its next run.
    pub fn lemmas(&self) -> u64 {
        self.pace.lemmas()
    }

    // The wish for an interface.
    fn wish_for(&self, i: u32) -> Option<u32> {
        match self.wishes.get(i as usize) {
            None => None,
            Some(wish) => *wish,
        }
    }

    // The places of the last model's walk that are proven, and the next ones.
    fn first_turns(&self, turns: &mut Vec<Turn>) -> Result<(), Memory> {
        let places = self.proven.saturating_add(self.gap);
        for i in self.walk.iter().take(places) {
            turns.push(Turn {
                face: *i,
                wish: None,
            })?;
        }
        Ok(())
    }

    // The interfaces, the most active first.
    fn ranked(&self, alloc: Global) -> Result<Vec<Rank>, Memory> {
        let mut ranked = Vec::new(alloc);
        let mut number: u32 = 0;
        for face in &self.faces {
            ranked.push(Rank {
                idle: u64::MAX - self.scores.of_face(face),
                face: number,
            })?;
            number = number.saturating_add(1);
        }
        ranked.sort_unstable();
        Ok(ranked)
    }

    /// The order for the next run: the first places of the last model's walk, each by rank, then all interfaces, the most active
    /// first, by what is wished for.
    pub fn order(&self, alloc: Global) -> Result<Vec<Turn>, Memory> {
        let mut turns = Vec::new(alloc);
        self.first_turns(&mut turns)?;
        let ranked = self.ranked(alloc)?;
        for rank in &ranked {
            turns.push(Turn {
                face: rank.face,
                wish: self.wish_for(rank.face),
            })?;
        }
        Ok(turns)
    }

    /// Takes in the lemmas of the walk's decider.
    pub fn after_walk(&mut self, lemmas: &[Lemma]) {
        self.scores.take_in(lemmas);
    }

    // Takes in the lemmas of the other decider.
    fn take_in(&mut self, lemmas: &[Lemma]) {
        let more = self.scores.take_in(lemmas);
        self.learned = self.learned.saturating_add(more);
    }

    /// After a run that was paused.
    pub fn after_pause(&mut self, t: &Trail, lemmas: &[Lemma]) {
        self.take_in(lemmas);
        self.scores.fade();
        if !self.modelled {
            wish(t, self.faces.as_slice(), &mut self.wishes);
        }
        if self.gap > 1 {
            self.gap = 1;
            self.pace = Pace::new();
        } else {
            self.pace.step();
        }
    }

    /// After a run that found a model, by the interfaces to which its walk comes. Where all of these are proven, the walk's decider has
    /// the last turn.
    pub fn after_model(&mut self, t: &Trail, lemmas: &[Lemma], walk: Vec<u32>) {
        self.take_in(lemmas);
        wish(t, self.faces.as_slice(), &mut self.wishes);
        self.modelled = true;
        let tried = self.proven.saturating_add(self.gap);
        self.proven = common(walk.as_slice(), self.walk.as_slice()).min(tried);
        self.gap = if self.gap == 0 {
            1
        } else {
            self.gap.saturating_mul(2)
        };
        self.pace = Pace::new();
        if self.proven >= walk.len() {
            self.slice = u64::MAX;
            self.learned = u64::MAX;
        }
        self.walk = walk;
    }
}
