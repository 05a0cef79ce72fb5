ghost use Rattle.std.specs.Prelude.{◌≡◌, ◌↔◌, ◌++◌, [], IsTrue, IfOk, OnOk, encode_utf8};

use std::alloc::Global;
use std::marker::Model;
use zi_text::{Memory, Text};

// Letters that are being read, one behind the other. Contracts see their bytes in UTF-8. Nothing else shares them, so one more
// is added without a look at that, and their room is used again for the next ones.
#[derive(Drop)]
pub struct Letters {
    held: String,
}

impl Model for Letters {
    ghost use Rattle.std.specs.Prelude.{List, ℕ, string_bytes};

    ghost Value = { List ℕ };

    ghost view = { λ l. string_bytes l.held };
}

impl Letters {
    // No letter.
    pub fn new(alloc: Global) -> Letters
        ensures { result ≡ [] }
    {
        Letters {
            held: String::new(alloc),
        }
    }

    // No letter, and room for so many bytes.
    pub fn with_room(alloc: Global, room: usize) -> Result<Letters, Memory>
        ensures { IfOk result (λ l. l ≡ []) }
    {
        Ok(Letters {
            held: String::with_capacity(alloc, room)?,
        })
    }

    // Whether there is none.
    pub fn is_empty(&self) -> bool
        ensures { IsTrue result ↔ (self.now ≡ []) }
    {
        self.held.is_empty()
    }

    // The letters, lent.
    pub fn as_str(&self) -> &str
        ensures { result.now ≡ self.now }
    {
        self.held.as_str()
    }

    // One more letter.
    pub fn push(&mut self, c: char) -> Result<(), Memory>
        ensures ok { OnOk result (self.new ≡ self.old ++ encode_utf8 c) }
    {
        self.held.push(c)?;
        Ok(())
    }

    // Without all letters.
    pub fn clear(&mut self)
        ensures { self.new ≡ [] }
    {
        self.held.clear();
    }

    // The letters as a text, which are read anew from then on.
    pub fn take(&mut self, alloc: Global) -> Result<Text, Memory>
        ensures text { IfOk result (λ t. t ≡ self.old) }
        ensures none { OnOk result (self.new ≡ []) }
    {
        let text = Text::from_str(alloc, self.held.as_str())?;
        self.held.clear();
        Ok(text)
    }
}
