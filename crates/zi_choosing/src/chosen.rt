//! The best choice, as the commands that do more with it take it.
ghost use Rattle.std.specs.Prelude.{◌≡◌, None};
ghost use Rattle.zi_docout.specs.Amiss.{first_amiss};
ghost use Rattle.zi_sels.specs.Written.{tree};

use crate::known::Known;
use zi_choice::Choice;
use zi_sels::Selections;
use zi_universe::{Requirement, Universe};

/// The best choice, and from what it was chosen.
pub struct Chosen {
    /// What was asked for.
    pub req: Requirement,
    /// What was known before: the digest names that were in each store.
    pub known: Known,
    /// The interfaces that may be needed, each with its candidates.
    pub universe: Universe,
    /// The best choice from them.
    pub choice: Choice,
    /// What it selects, in the order of the document.
    pub sels: Selections,
    /// Each element of its document can be written.
    pub ghost written: { first_amiss (tree sels) ≡ None },
}

// One call wherever one is dropped.
impl Drop for Chosen {
    fn drop(self) {
        let Chosen {
            req: _,
            known: _,
            universe: _,
            choice: _,
            sels: _,
        } = self;
    }
}
