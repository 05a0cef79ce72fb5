ghost use Rattle.std.specs.Prelude.{◌≡◌, ◌+◌, ◌<◌, ◌^◌, ◌==◌, ◌++◌, ◌∷◌, [], true, false, vec_len, Some, if◌then◌else◌, ℕ, ◌≤◌, OnOk, encode_utf8};
ghost use Rattle.zi_xml.specs.Chars.{width};
ghost use Rattle.zi_xml.specs.Meaning.{tick, fresh, line_end, value_end, framed, judged, adopt as adopts};
ghost use Rattle.zi_xml.specs.Machine.{state, common, to, declared_end, has, top_name, inside as in_element, scope_of, emptied, after_word as words_after, markup as marks, enter as enters, leave as leaves, leave_name as leaves_name, refer as refers, closed as closes_in, front_step as steps_front, bang_word as bangs, back_to, declare as declares};
ghost use Rattle.zi_doc.specs.View.{IsKept, BareOwner, later, level, outer, stack, tag, spot, host, doing_in, owner_in, word_in};
ghost use Rattle.zi_doc.specs.Moves.{Moves, Lands, Takes, near_bytes};

use crate::chars::{
    carried, digit_value, entity, grown, hex_value, is_digit, is_first, is_hex, is_name,
};
use crate::fault::{DocFault, DocKind};
use crate::state::{Mode, Reader};
use crate::texts::refuse;
use std::alloc::Global;
use zi_text::Text;

const NEAR: Option<char> = Some('\u{FFFD}');

impl Reader {
    pub fn amped(&mut self, alloc: Global, at: u64, c: char) -> Result<(), DocFault>
        requires sound { IsKept self.old }
        requires room { at < 2 ^ 63 }
        ensures { Takes (doing_in Mode.Amped self.old) self.old at c result self.new }
    {
        if is_first(c) {
            self.refer = Text::new(alloc);
            self.refer.push(c)?;
            self.returned = false;
            self.mode = Mode::Referring;
            Ok(())
        } else if c == '#' {
            self.returned = false;
            self.mode = Mode::Hashed;
            Ok(())
        } else {
            refuse(NEAR, at, c)
        }
    }

    pub fn referring(&mut self, at: u64, c: char) -> Result<(), DocFault>
        requires sound { IsKept self.old }
        requires room { at < 2 ^ 63 }
        ensures { Takes (doing_in Mode.Referring self.old) self.old at c result self.new }
    {
        if is_name(c) {
            self.refer.push(c)?;
            self.returned = false;
            self.mode = Mode::Referring;
            Ok(())
        } else if c == ';' {
            let meant = entity(self.refer.as_str());
            self.resolve(meant, at, c)
        } else {
            refuse(NEAR, at, c)
        }
    }

    pub fn hashed(&mut self, at: u64, c: char) -> Result<(), DocFault>
        requires sound { IsKept self.old }
        requires room { at < 2 ^ 63 }
        ensures { Takes (doing_in Mode.Hashed self.old) self.old at c result self.new }
    {
        if is_digit(c) {
            self.number = grown(10, 0, digit_value(c));
            self.returned = false;
            self.mode = Mode::Counting;
            Ok(())
        } else if c == 'x' {
            self.returned = false;
            self.mode = Mode::Hexed;
            Ok(())
        } else {
            refuse(None, at, c)
        }
    }

    pub fn counting(&mut self, at: u64, c: char) -> Result<(), DocFault>
        requires sound { IsKept self.old }
        requires room { at < 2 ^ 63 }
        ensures { Takes (doing_in Mode.Counting self.old) self.old at c result self.new }
    {
        if is_digit(c) {
            self.number = grown(10, self.number, digit_value(c));
            self.returned = false;
            self.mode = Mode::Counting;
            Ok(())
        } else if c == ';' {
            let meant = carried(self.number);
            self.resolve(meant, at, c)
        } else {
            refuse(None, at, c)
        }
    }

    pub fn hexed(&mut self, at: u64, c: char) -> Result<(), DocFault>
        requires sound { IsKept self.old }
        requires room { at < 2 ^ 63 }
        ensures { Takes (doing_in Mode.Hexed self.old) self.old at c result self.new }
    {
        if is_hex(c) {
            self.number = grown(16, 0, hex_value(c));
            self.returned = false;
            self.mode = Mode::Hexing;
            Ok(())
        } else {
            refuse(None, at, c)
        }
    }

    pub fn hexing(&mut self, at: u64, c: char) -> Result<(), DocFault>
        requires sound { IsKept self.old }
        requires room { at < 2 ^ 63 }
        ensures { Takes (doing_in Mode.Hexing self.old) self.old at c result self.new }
    {
        if is_hex(c) {
            self.number = grown(16, self.number, hex_value(c));
            self.returned = false;
            self.mode = Mode::Hexing;
            Ok(())
        } else if c == ';' {
            let meant = carried(self.number);
            self.resolve(meant, at, c)
        } else {
            refuse(None, at, c)
        }
    }

    // A reference is whole, and stands for this character or for none.
    fn resolve(&mut self, meant: Option<char>, at: u64, c: char) -> Result<(), DocFault>
        requires { IsKept self.old }
        ensures { Lands (refers (host self.old) meant self.old.refer_at (tick c (level self.old at))) (at + width c) result self.new }
    {
        self.returned = false;
        match meant {
            Some(x) => {
                if self.in_value {
                    self.value.push(x)?;
                    self.value_returned = false;
                    self.mode = Mode::Valuing;
                    Ok(())
                } else {
                    self.letters.push(x)?;
                    self.brackets = 0;
                    self.mode = Mode::Inside;
                    Ok(())
                }
            }
            None => Err(DocFault::Bad {
                kind: DocKind::Entity,
                place: self.refer_at,
            }),
        }
    }
}
