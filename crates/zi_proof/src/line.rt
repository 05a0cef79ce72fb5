//! What a line of a proof text is.
//! The kinds stand apart from the reader, since its definitions speak of them.
//! They are the reader's own.

use crate::{Block, Lemma};

// What a line is.
#[derive(Drop)]
pub(crate) enum Line {
    Lemma(Lemma),
    Block(Block),
    End,
    Other,
}

// What one more line came to.
#[derive(Clone, Copy)]
pub(crate) enum Step {
    More,
    End,
    Bad,
}
