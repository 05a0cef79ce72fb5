//! The names of a document, each held once.
ghost use Rattle.std.specs.Prelude.{◌≡◌, IfOk};

use std::alloc::Global;
use std::marker::Model;
use zi_text::{Memory, Text};

// So many names are held once, more than feeds have; of more each use is a text of its own.
const MOST: usize = 64;

// Names that were read, the first of them first: a tag has few of the few that a document has, and those are found sooner
// by looking at one behind the other than by their order. Contracts see nothing of it, since what it gives is the text that is
// asked for.
#[derive(Drop)]
pub struct Known {
    texts: Vec<Text>,
}

impl Model for Known {
    ghost Value = { Unit {0} };

    ghost view = { λ k. tt };
}

impl Known {
    // None is known.
    pub fn new(alloc: Global) -> Known {
        Known {
            texts: Vec::new(alloc),
        }
    }

    // The text of a name. It shares the bytes of the first of that name, as long as not too many are held.
    pub fn text(&mut self, alloc: Global, name: &str) -> Result<Text, Memory>
        ensures { IfOk result (λ t. t ≡ name.now) }
    {
        for text in &self.texts {
            if text.len() == name.len() && text.as_str() == name {
                return text.copy(alloc);
            }
        }
        let text = Text::from_str(alloc, name)?;
        if self.texts.len() < MOST {
            self.texts.push(text.copy(alloc)?)?;
        }
        Ok(text)
    }
}
