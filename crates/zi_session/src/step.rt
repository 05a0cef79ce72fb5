//! What a step of a session answers.
//! The first six tell what became of one call of the shelf, or that it wasn't made for want of memory.
//! The last is the answer of every step after an end.

/// What a step answers.
#[derive(Clone, Copy, Debug, PartialEq, Eq)]
pub enum Step {
    /// The call was made, and others are to come.
    More,
    /// The end: the tree is there under its digest name, and that lasts through a crash.
    Stored,
    /// The end: the digest name was there already, and nothing was changed under it.
    Present,
    /// The end: so many temporary names were found taken.
    Crowded { tried: u32 },
    /// The end: the shelf failed. The number is that of the temporary name that the call named, None where it named none.
    Fault { tmp: Option<u32> },
    /// Memory was refused: nothing changed, and the step may be tried again.
    Memory,
    /// The session had ended before, and no call was made.
    Over,
}
