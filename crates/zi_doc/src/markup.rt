ghost use Rattle.std.specs.Prelude.{◌≡◌, ◌+◌, ◌<◌, ◌^◌, ◌==◌, ◌++◌, ◌∷◌, [], true, false, vec_len, Some, if◌then◌else◌, ℕ, OnOk, encode_utf8};
ghost use Rattle.zi_xml.specs.Chars.{width};
ghost use Rattle.zi_xml.specs.Meaning.{tick, fresh, line_end, value_end, framed, judged, adopt as adopts};
ghost use Rattle.zi_xml.specs.Machine.{state, common, is_xml as names_xml, instructing, has, top_name, inside as in_element, scope_of, emptied, after_word as words_after, markup as marks, enter as enters, leave as leaves, leave_name as leaves_name, refer as refers, closed as closes_in, front_step as steps_front, bang_word as bangs, back_to, declare as declares};
ghost use Rattle.zi_doc.specs.View.{IsKept, BareWord, level, outer, stack, tag, spot, host, doing_in, owner_in, word_in};
ghost use Rattle.zi_doc.specs.Moves.{Moves, Lands, Takes, near_bytes};

use crate::chars::{is_char, is_first, is_name, is_white};
use crate::fault::{DocFault, DocKind};
use crate::state::{Mode, Owner, Reader, Word};
use crate::texts::{is_xml, refuse};
use std::alloc::Global;
use zi_text::{List, Memory, Text};

const NEAR: Option<char> = Some('\u{FFFD}');

impl Reader {
    // A fixed text is to come: this character, and those behind it.
    pub fn expect(&mut self, word: Word, next: char, left: Vec<char>)
        ensures { self.new ≡ record self.old { mode = Mode.Wording; returned = false; word = word; next = next; left = left; matched = 0 } }
    {
        self.mode = Mode::Wording;
        self.returned = false;
        self.word = word;
        self.next = next;
        self.left = left;
        self.matched = 0;
    }

    pub fn begun(&mut self, at: u64, c: char) -> Result<(), DocFault>
        requires sound { IsKept self.old }
        requires room { at < 2 ^ 63 }
        requires front { self.old.rooted ≡ false }
        ensures { Takes (doing_in Mode.Begun self.old) self.old at c result self.new }
    {
        if c == '\u{FEFF}' {
            self.first = true;
            self.returned = false;
            self.mode = Mode::Front;
            Ok(())
        } else {
            self.front_step(true, Some('\u{FEFF}'), at, c)
        }
    }

    pub fn front(&mut self, at: u64, c: char) -> Result<(), DocFault>
        requires sound { IsKept self.old }
        requires room { at < 2 ^ 63 }
        requires front { self.old.rooted ≡ false }
        ensures { Takes (doing_in Mode.Front self.old) self.old at c result self.new }
    {
        let first = self.first;
        self.front_step(first, None, at, c)
    }

    fn front_step(
        &mut self,
        first: bool,
        near: Option<char>,
        at: u64,
        c: char,
    ) -> Result<(), DocFault>
        requires sound { IsKept self.old }
        requires room { at < 2 ^ 63 }
        requires front { self.old.rooted ≡ false }
        ensures { Moves (steps_front first (level self.old at) c) (at + common (near_bytes near) (encode_utf8 c)) (at + width c) result self.new }
    {
        if is_white(c) {
            self.first = false;
            self.returned = false;
            self.mode = Mode::Front;
            Ok(())
        } else if c == '<' {
            self.first = first;
            self.place = at;
            self.outer_returned = self.returned;
            self.returned = false;
            self.mode = Mode::Opened;
            Ok(())
        } else {
            refuse(near, at, c)
        }
    }

    // Whether an element is open.
    #[tactic(auto, using(crate::proofs::Stacks::has_stacked, crate::proofs::Stacks::none_stacked))]
    pub fn has_open(&self) -> bool
        ensures { result ≡ has (stack self.now) }
    {
        self.opens.len() > 0
    }

    pub fn opened(&mut self, alloc: Global, at: u64, c: char) -> Result<(), DocFault>
        requires sound { IsKept self.old }
        requires room { at < 2 ^ 63 }
        ensures { Takes (doing_in Mode.Opened self.old) self.old at c result self.new }
    {
        if !self.rooted {
            if is_first(c) {
                self.enter(alloc, at, c)
            } else {
                self.markup(NEAR, at, c)
            }
        } else if self.has_open() {
            self.opened_inside(alloc, at, c)
        } else {
            self.markup(None, at, c)
        }
    }

    fn opened_inside(&mut self, alloc: Global, at: u64, c: char) -> Result<(), DocFault>
        requires sound { IsKept self.old }
        requires room { at < 2 ^ 63 }
        requires rooted { self.old.rooted ≡ true }
        requires some { has (stack self.old) ≡ true }
        ensures { Takes (doing_in Mode.Opened self.old) self.old at c result self.new }
    {
        if is_first(c) {
            self.enter(alloc, at, c)
        } else if c == '/' {
            self.returned = false;
            self.matched = 0;
            self.mode = Mode::Closing;
            Ok(())
        } else {
            self.markup(NEAR, at, c)
        }
    }

    // An element begins.
    #[tactic(auto, using(crate::proofs::Stacks::length_stacked))]
    fn enter(&mut self, alloc: Global, at: u64, c: char) -> Result<(), DocFault>
        requires { IsKept self.old }
        ensures { Moves (enters (stack self.old) (outer self.old) (level self.old at) c) 0 (at + width c) result self.new }
    {
        if self.opens.len() >= 64 {
            return Err(DocFault::Bad {
                kind: DocKind::Depth,
                place: self.place,
            });
        }
        self.written.clear();
        self.written.push(c)?;
        self.raw = List::new(alloc);
        self.rooted = true;
        self.returned = false;
        self.mode = Mode::Naming;
        Ok(())
    }

    // `<!` or `<?`.
    fn markup(&mut self, near: Option<char>, at: u64, c: char) -> Result<(), DocFault>
        requires sound { IsKept self.old }
        requires room { at < 2 ^ 63 }
        ensures { Moves (marks (spot self.old) (outer self.old) (level self.old at) c) (at + common (near_bytes near) (encode_utf8 c)) (at + width c) result self.new }
    {
        if c == '!' {
            self.returned = false;
            self.mode = Mode::Banged;
            Ok(())
        } else if c == '?' {
            self.returned = false;
            self.mode = Mode::Asked;
            Ok(())
        } else {
            refuse(near, at, c)
        }
    }

    pub fn banged(&mut self, alloc: Global, at: u64, c: char) -> Result<(), DocFault>
        requires sound { IsKept self.old }
        requires room { at < 2 ^ 63 }
        ensures { Takes (doing_in Mode.Banged self.old) self.old at c result self.new }
    {
        if c == '-' {
            self.expect(Word::Comment, '-', Vec::new(alloc));
            Ok(())
        } else if !self.rooted {
            if c == 'D' {
                self.expect(
                    Word::Doctype,
                    'O',
                    Vec::from_array(alloc, ['C', 'T', 'Y', 'P', 'E'])?,
                );
                Ok(())
            } else {
                refuse(None, at, c)
            }
        } else if self.has_open() {
            if c == '[' {
                self.expect(
                    Word::Section,
                    'C',
                    Vec::from_array(alloc, ['D', 'A', 'T', 'A', '['])?,
                );
                Ok(())
            } else {
                refuse(None, at, c)
            }
        } else {
            refuse(None, at, c)
        }
    }

    pub fn comment(&mut self, at: u64, c: char) -> Result<(), DocFault>
        requires sound { IsKept self.old }
        requires room { at < 2 ^ 63 }
        ensures { Takes (doing_in Mode.Comment self.old) self.old at c result self.new }
    {
        if c == '-' {
            self.returned = false;
            self.mode = Mode::CommentDash;
            Ok(())
        } else if is_char(c) {
            self.returned = false;
            self.mode = Mode::Comment;
            Ok(())
        } else {
            refuse(NEAR, at, c)
        }
    }

    pub fn comment_dash(&mut self, alloc: Global, at: u64, c: char) -> Result<(), DocFault>
        requires sound { IsKept self.old }
        requires room { at < 2 ^ 63 }
        ensures { Takes (doing_in Mode.CommentDash self.old) self.old at c result self.new }
    {
        if c == '-' {
            self.expect(Word::Over, '>', Vec::new(alloc));
            Ok(())
        } else if is_char(c) {
            self.returned = false;
            self.mode = Mode::Comment;
            Ok(())
        } else {
            refuse(NEAR, at, c)
        }
    }

    pub fn asked(&mut self, alloc: Global, at: u64, c: char) -> Result<(), DocFault>
        requires sound { IsKept self.old }
        requires room { at < 2 ^ 63 }
        ensures { Takes (doing_in Mode.Asked self.old) self.old at c result self.new }
    {
        if is_first(c) {
            self.target = Text::new(alloc);
            self.target.push(c)?;
            self.returned = false;
            self.mode = Mode::Target;
            Ok(())
        } else {
            refuse(NEAR, at, c)
        }
    }

    pub fn target(&mut self, alloc: Global, at: u64, c: char) -> Result<(), DocFault>
        requires sound { IsKept self.old }
        requires room { at < 2 ^ 63 }
        ensures { Takes (doing_in Mode.Target self.old) self.old at c result self.new }
    {
        if is_name(c) {
            self.target.push(c)?;
            self.returned = false;
            self.mode = Mode::Target;
            Ok(())
        } else if c == '?' {
            if is_xml(self.target.as_str()) {
                return refuse(NEAR, at, c);
            }
            self.expect(Word::Over, '>', Vec::new(alloc));
            Ok(())
        } else if is_white(c) {
            self.target_end(at, c)
        } else {
            refuse(NEAR, at, c)
        }
    }

    // White space behind a target.
    fn target_end(&mut self, at: u64, c: char) -> Result<(), DocFault>
        requires sound { IsKept self.old }
        requires room { at < 2 ^ 63 }
        ensures { Moves (if names_xml self.old.target then declares (spot self.old) self.old.target (tick c (level self.old at)) else Some (state (instructing (spot self.old)) (tick c (level self.old at)))) (at + common (near_bytes (Some 65533)) (encode_utf8 c)) (at + width c) result self.new }
    {
        if !is_xml(self.target.as_str()) {
            self.returned = false;
            self.mode = Mode::Instruction;
            Ok(())
        } else if !self.rooted {
            if self.first {
                if self.target.as_str() == "xml" {
                    self.returned = false;
                    self.mode = Mode::Declaring;
                    Ok(())
                } else {
                    refuse(NEAR, at, c)
                }
            } else {
                refuse(NEAR, at, c)
            }
        } else {
            refuse(NEAR, at, c)
        }
    }

    pub fn instruction(&mut self, at: u64, c: char) -> Result<(), DocFault>
        requires sound { IsKept self.old }
        requires room { at < 2 ^ 63 }
        ensures { Takes (doing_in Mode.Instruction self.old) self.old at c result self.new }
    {
        if c == '?' {
            self.returned = false;
            self.mode = Mode::InstructionAsk;
            Ok(())
        } else if is_char(c) {
            self.returned = false;
            self.mode = Mode::Instruction;
            Ok(())
        } else {
            refuse(NEAR, at, c)
        }
    }

    pub fn instruction_ask(&mut self, at: u64, c: char) -> Result<(), DocFault>
        requires sound { IsKept self.old }
        requires room { at < 2 ^ 63 }
        ensures { Takes (doing_in Mode.InstructionAsk self.old) self.old at c result self.new }
    {
        if c == '>' {
            self.back();
            Ok(())
        } else if c == '?' {
            self.returned = false;
            self.mode = Mode::InstructionAsk;
            Ok(())
        } else if is_char(c) {
            self.returned = false;
            self.mode = Mode::Instruction;
            Ok(())
        } else {
            refuse(NEAR, at, c)
        }
    }

    // Behind a comment or an instruction.
    pub fn back(&mut self)
        requires { IsKept self.old }
        ensures { (at c : ℕ) → Lands (state (back_to (spot self.old)) (tick c (level self.old at))) (at + width c) (Ok tt) self.new }
    {
        self.returned = false;
        if self.rooted {
            self.brackets = 0;
            self.mode = Mode::Inside;
        } else {
            self.first = false;
            self.mode = Mode::Front;
        }
    }

    pub fn wording(&mut self, alloc: Global, at: u64, c: char) -> Result<(), DocFault>
        requires sound { IsKept self.old }
        requires room { at < 2 ^ 63 }
        requires bare { BareWord self.old.word self.old.owner self.old.rooted }
        ensures { Takes (doing_in Mode.Wording self.old) self.old at c result self.new }
    {
        if c != self.next {
            refuse(Some(self.next), at, c)
        } else if self.matched < self.left.len() {
            self.next = self.left[self.matched];
            self.matched += 1;
            self.returned = false;
            self.mode = Mode::Wording;
            Ok(())
        } else {
            self.after_word(alloc, at, c)
        }
    }

    // A fixed text is whole.
    fn after_word(&mut self, alloc: Global, at: u64, c: char) -> Result<(), DocFault>
        requires sound { IsKept self.old }
        requires bare { BareWord self.old.word self.old.owner self.old.rooted }
        ensures { Lands (words_after (word_in self.old.word self.old) (tick c (level self.old at))) (at + width c) result self.new }
    {
        self.returned = false;
        match self.word {
            Word::Doctype => Err(DocFault::Bad {
                kind: DocKind::Doctype,
                place: self.place,
            }),
            Word::Section => {
                self.mode = Mode::Section;
                Ok(())
            }
            Word::Comment => {
                self.mode = Mode::Comment;
                Ok(())
            }
            Word::Over => {
                self.back();
                Ok(())
            }
            Word::Key => {
                self.mode = Mode::Named;
                Ok(())
            }
            Word::Version => {
                self.mode = Mode::Numbering;
                Ok(())
            }
            Word::Reply => {
                self.mode = Mode::Headed;
                Ok(())
            }
            Word::Declared => {
                self.first = false;
                self.mode = Mode::Front;
                Ok(())
            }
            Word::Void => self.void(alloc, at, c),
        }
    }
}
