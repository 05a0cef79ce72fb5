//! A call over objects that are told anew.
use crate::calling::put_quiet;
use crate::told::{Told, tells};
use std::alloc::Global;
use zi_lines::{Sheet, halves};

/// The words of a call, and the paragraph that tells what it is over.
#[derive(Clone, Copy)]
pub(crate) struct Again<'p> {
    pub paragraph: &'p str,
    pub words: &'p str,
}

/// How a call ended: its status and line, and the objects behind it.
#[derive(Drop)]
pub(crate) struct Run {
    pub ending: Sheet,
    pub told: Told,
}

impl<'p> Again<'p> {
    /// Takes all that the paragraph tells.
    pub(crate) fn tell(&self, alloc: Global, out: &mut Sheet) -> Told {
        let mut told = Told::new(alloc);
        for line in self.paragraph.lines() {
            let (word, rest) = halves(line);
            tells(alloc, out, word, rest, &mut told);
        }
        told
    }

    /// Makes the call over what was told.
    pub(crate) fn run(&self, alloc: Global, mut told: Told) -> Run {
        let mut ending = Sheet::new(alloc);
        put_quiet(alloc, &mut ending, self.words, &mut told);
        Run { ending, told }
    }
}
