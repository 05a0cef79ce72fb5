ghost use Rattle.std.specs.Prelude.{◌≡◌, ◌+◌, ◌<◌, ◌^◌, ◌==◌, ◌++◌, ◌∷◌, [], true, false, vec_len, Some, if◌then◌else◌, ℕ, ◌≤◌, OnOk, encode_utf8};
ghost use Rattle.zi_xml.specs.Chars.{width};
ghost use Rattle.zi_xml.specs.Syntax.{is_said as said, brackets as counted};
ghost use Rattle.zi_xml.specs.Meaning.{tick, fresh, line_end, value_end, framed, judged, adopt as adopts};
ghost use Rattle.zi_xml.specs.Machine.{state, common, to, declared_end, has, top_name, inside as in_element, scope_of, emptied, after_word as words_after, markup as marks, enter as enters, leave as leaves, leave_name as leaves_name, refer as refers, closed as closes_in, opened as opens_at, among as among_in, front_step as steps_front, bang_word as bangs, back_to, declare as declares};
ghost use Rattle.zi_doc.specs.View.{IsKept, BareOwner, later, level, outer, stack, tag, spot, host, doing_in, owner_in, word_in};
ghost use Rattle.zi_doc.specs.Moves.{Moves, Lands, Takes, near_bytes};

use crate::chars::{is_char, is_plain, is_white};
use crate::fault::{DocFault, DocKind};
use crate::state::{Mode, Reader};
use crate::texts::refuse;
use zi_text::Memory;

const NEAR: Option<char> = Some('\u{FFFD}');

impl Reader {
    // A character of text: line ends become LF.
    #[tactic(auto, unfolding(zi_xml::specs::Meaning::line_end), using(crate::proofs::TextLemmas::line_feed))]
    fn hear(&mut self, c: char) -> Result<(), Memory>
        ensures { OnOk result (self.new ≡ record self.old { letters = self.old.letters ++ line_end self.old.returned c; returned = c == 13 }) }
    {
        if c == '\r' {
            self.letters.push('\n')?;
            self.returned = true;
        } else if c == '\n' && self.returned {
            self.returned = false;
        } else {
            self.letters.push(c)?;
            self.returned = false;
        }
        Ok(())
    }

    #[tactic(auto, using(crate::proofs::TextLemmas::bracket))]
    fn bracket(&mut self) -> Result<(), Memory>
        ensures { OnOk result (self.new ≡ record self.old { letters = self.old.letters ++ 93 ∷ [] }) }
    {
        self.letters.push(']')?;
        Ok(())
    }

    pub fn section(&mut self, at: u64, c: char) -> Result<(), DocFault>
        requires sound { IsKept self.old }
        requires room { at < 2 ^ 63 }
        ensures { Takes (doing_in Mode.Section self.old) self.old at c result self.new }
    {
        if c == ']' {
            self.returned = false;
            self.mode = Mode::SectionBracket;
            Ok(())
        } else if is_char(c) {
            self.hear(c)?;
            self.mode = Mode::Section;
            Ok(())
        } else {
            refuse(NEAR, at, c)
        }
    }

    pub fn section_bracket(&mut self, at: u64, c: char) -> Result<(), DocFault>
        requires sound { IsKept self.old }
        requires room { at < 2 ^ 63 }
        ensures { Takes (doing_in Mode.SectionBracket self.old) self.old at c result self.new }
    {
        if c == ']' {
            self.returned = false;
            self.mode = Mode::SectionBrackets;
            Ok(())
        } else if is_char(c) {
            self.bracket()?;
            self.hear(c)?;
            self.mode = Mode::Section;
            Ok(())
        } else {
            refuse(NEAR, at, c)
        }
    }

    pub fn section_brackets(&mut self, at: u64, c: char) -> Result<(), DocFault>
        requires sound { IsKept self.old }
        requires room { at < 2 ^ 63 }
        ensures { Takes (doing_in Mode.SectionBrackets self.old) self.old at c result self.new }
    {
        if c == '>' {
            self.returned = false;
            self.brackets = 0;
            self.mode = Mode::Inside;
            Ok(())
        } else if c == ']' {
            self.bracket()?;
            self.returned = false;
            self.mode = Mode::SectionBrackets;
            Ok(())
        } else if is_char(c) {
            self.bracket()?;
            self.bracket()?;
            self.hear(c)?;
            self.mode = Mode::Section;
            Ok(())
        } else {
            refuse(NEAR, at, c)
        }
    }

    // A `<` in content or behind the root.
    fn less(&mut self, at: u64)
        requires { IsKept self.old }
        ensures { (c : ℕ) → Lands (state (opens_at (among_in (stack self.old)) (level self.old at)) (tick c (level self.old at))) (at + width c) (Ok tt) self.new }
    {
        self.rooted = true;
        self.place = at;
        self.outer_returned = self.returned;
        self.returned = false;
        self.mode = Mode::Opened;
    }

    pub fn inside(&mut self, at: u64, c: char) -> Result<(), DocFault>
        requires sound { IsKept self.old }
        requires room { at < 2 ^ 63 }
        ensures { Takes (doing_in Mode.Inside self.old) self.old at c result self.new }
    {
        if self.has_open() {
            self.text(at, c)
        } else if is_white(c) {
            self.returned = false;
            self.brackets = 0;
            self.mode = Mode::Inside;
            Ok(())
        } else if c == '<' {
            self.less(at);
            Ok(())
        } else {
            refuse(None, at, c)
        }
    }

    fn text(&mut self, at: u64, c: char) -> Result<(), DocFault>
        requires sound { IsKept self.old }
        requires room { at < 2 ^ 63 }
        requires some { has (stack self.old) ≡ true }
        ensures { Takes (doing_in Mode.Inside self.old) self.old at c result self.new }
    {
        if is_said(self.brackets, c) {
            self.hear(c)?;
            self.brackets = brackets(self.brackets, c);
            self.mode = Mode::Inside;
            Ok(())
        } else if c == '<' {
            self.less(at);
            Ok(())
        } else if c == '&' {
            self.in_value = false;
            self.refer_at = at;
            self.returned = false;
            self.mode = Mode::Amped;
            Ok(())
        } else {
            refuse(NEAR, at, c)
        }
    }
}

// A character that stands for itself behind so many `]`.
fn is_said(count: u8, c: char) -> bool
    ensures { result ≡ said count c }
{
    is_plain(c) && !(count == 2 && c == '>')
}

// How many `]` stand behind this character, up to two.
fn brackets(count: u8, c: char) -> u8
    ensures { result ≡ counted count c }
{
    if c == ']' {
        if count == 0 { 1 } else { 2 }
    } else {
        0
    }
}
