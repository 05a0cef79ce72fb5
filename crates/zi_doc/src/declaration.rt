ghost use Rattle.std.specs.Prelude.{◌≡◌, ◌+◌, ◌<◌, ◌^◌, ◌==◌, ◌++◌, ◌∷◌, [], true, false, vec_len, Some, if◌then◌else◌, ℕ, ◌≤◌, OnOk, IfOk, encode_utf8};
ghost use Rattle.zi_xml.specs.Chars.{width};
ghost use Rattle.zi_xml.specs.Meaning.{tick, fresh, line_end, value_end, framed, judged, adopt as adopts};
ghost use Rattle.zi_xml.specs.Machine.{state, common, to, declared_end, has, top_name, inside as in_element, scope_of, emptied, after_word as words_after, markup as marks, enter as enters, leave as leaves, leave_name as leaves_name, refer as refers, closed as closes_in, choose as chooses, quoted as quotes, front_step as steps_front, bang_word as bangs, back_to, declare as declares};
ghost use Rattle.zi_doc.specs.View.{IsKept, BareOwner, later, level, outer, stack, tag, spot, host, doing_in, owner_in, word_in};
ghost use Rattle.zi_doc.specs.Moves.{Moves, Lands, Takes, near_bytes};

use crate::chars::{is_digit, is_encoding, is_encoding_first, is_quote, is_white};
use crate::fault::{DocFault, DocKind};
use crate::state::{Mode, Owner, Reader, Word};
use crate::texts::{refuse, same_letters};
use std::alloc::Global;
use zi_text::{Memory, Text};

impl Reader {
    pub fn declaring(&mut self, alloc: Global, at: u64, c: char) -> Result<(), DocFault>
        requires sound { IsKept self.old }
        requires room { at < 2 ^ 63 }
        requires front { self.old.rooted ≡ false }
        ensures { Takes (doing_in Mode.Declaring self.old) self.old at c result self.new }
    {
        if is_white(c) {
            self.returned = false;
            self.mode = Mode::Declaring;
            Ok(())
        } else if c == 'v' {
            self.owner = Owner::Version;
            self.expect(
                Word::Key,
                'e',
                Vec::from_array(alloc, ['r', 's', 'i', 'o', 'n'])?,
            );
            Ok(())
        } else {
            refuse(None, at, c)
        }
    }

    pub fn heading(&mut self, alloc: Global, at: u64, c: char) -> Result<(), DocFault>
        requires sound { IsKept self.old }
        requires room { at < 2 ^ 63 }
        requires front { self.old.rooted ≡ false }
        ensures { Takes (doing_in Mode.Heading self.old) self.old at c result self.new }
    {
        if is_white(c) {
            self.returned = false;
            self.mode = Mode::Heading;
            Ok(())
        } else if c == '?' {
            self.expect(Word::Declared, '>', Vec::new(alloc));
            Ok(())
        } else {
            self.choose(alloc, at, c)
        }
    }

    // A setting begins.
    fn choose(&mut self, alloc: Global, at: u64, c: char) -> Result<(), DocFault>
        requires sound { IsKept self.old }
        requires room { at < 2 ^ 63 }
        requires front { self.old.rooted ≡ false }
        ensures { Moves (chooses (later self.old.owner) (level self.old at) c) (at + common [] (encode_utf8 c)) (at + width c) result self.new }
    {
        match self.owner {
            Owner::Version => {
                if c == 'e' {
                    self.owner = Owner::Encoding;
                    self.expect(
                        Word::Key,
                        'n',
                        Vec::from_array(alloc, ['c', 'o', 'd', 'i', 'n', 'g'])?,
                    );
                    Ok(())
                } else {
                    self.choose_standalone(alloc, at, c)
                }
            }
            Owner::Encoding => self.choose_standalone(alloc, at, c),
            Owner::Attr => refuse(None, at, c),
            Owner::Standalone => refuse(None, at, c),
        }
    }

    fn choose_standalone(&mut self, alloc: Global, at: u64, c: char) -> Result<(), DocFault>
        requires sound { IsKept self.old }
        requires room { at < 2 ^ 63 }
        requires front { self.old.rooted ≡ false }
        ensures { Moves (chooses (later Owner.Encoding) (level self.old at) c) (at + common [] (encode_utf8 c)) (at + width c) result self.new }
    {
        if c == 's' {
            self.owner = Owner::Standalone;
            self.expect(
                Word::Key,
                't',
                Vec::from_array(alloc, ['a', 'n', 'd', 'a', 'l', 'o', 'n', 'e'])?,
            );
            Ok(())
        } else {
            refuse(None, at, c)
        }
    }

    pub fn headed(&mut self, alloc: Global, at: u64, c: char) -> Result<(), DocFault>
        requires sound { IsKept self.old }
        requires room { at < 2 ^ 63 }
        requires front { self.old.rooted ≡ false }
        ensures { Takes (doing_in Mode.Headed self.old) self.old at c result self.new }
    {
        if is_white(c) {
            self.returned = false;
            self.mode = Mode::Heading;
            Ok(())
        } else if c == '?' {
            self.expect(Word::Declared, '>', Vec::new(alloc));
            Ok(())
        } else {
            refuse(None, at, c)
        }
    }

    pub fn numbering(&mut self, at: u64, c: char) -> Result<(), DocFault>
        requires sound { IsKept self.old }
        requires room { at < 2 ^ 63 }
        requires front { self.old.rooted ≡ false }
        ensures { Takes (doing_in Mode.Numbering self.old) self.old at c result self.new }
    {
        if is_digit(c) {
            self.returned = false;
            self.mode = Mode::Numbered;
            Ok(())
        } else {
            refuse(None, at, c)
        }
    }

    pub fn numbered(&mut self, at: u64, c: char) -> Result<(), DocFault>
        requires sound { IsKept self.old }
        requires room { at < 2 ^ 63 }
        requires front { self.old.rooted ≡ false }
        ensures { Takes (doing_in Mode.Numbered self.old) self.old at c result self.new }
    {
        if c == self.quote {
            self.returned = false;
            self.mode = Mode::Headed;
            Ok(())
        } else if is_digit(c) {
            self.returned = false;
            self.mode = Mode::Numbered;
            Ok(())
        } else {
            refuse(Some(self.quote), at, c)
        }
    }

    pub fn coding(&mut self, alloc: Global, at: u64, c: char) -> Result<(), DocFault>
        requires sound { IsKept self.old }
        requires room { at < 2 ^ 63 }
        requires front { self.old.rooted ≡ false }
        ensures { Takes (doing_in Mode.Coding self.old) self.old at c result self.new }
    {
        if is_encoding_first(c) {
            self.target = Text::new(alloc);
            self.target.push(c)?;
            self.coding_at = at;
            self.returned = false;
            self.mode = Mode::Coded;
            Ok(())
        } else {
            refuse(None, at, c)
        }
    }

    pub fn coded(&mut self, at: u64, c: char) -> Result<(), DocFault>
        requires sound { IsKept self.old }
        requires room { at < 2 ^ 63 }
        requires front { self.old.rooted ≡ false }
        ensures { Takes (doing_in Mode.Coded self.old) self.old at c result self.new }
    {
        if c == self.quote {
            if !same_letters(self.target.as_str().as_bytes(), b"UTF-8") {
                return Err(DocFault::Bad {
                    kind: DocKind::Encoding,
                    place: self.coding_at,
                });
            }
            self.returned = false;
            self.mode = Mode::Headed;
            Ok(())
        } else if is_encoding(c) {
            self.target.push(c)?;
            self.returned = false;
            self.mode = Mode::Coded;
            Ok(())
        } else {
            refuse(Some(self.quote), at, c)
        }
    }

    pub fn replying(&mut self, alloc: Global, at: u64, c: char) -> Result<(), DocFault>
        requires sound { IsKept self.old }
        requires room { at < 2 ^ 63 }
        requires front { self.old.rooted ≡ false }
        ensures { Takes (doing_in Mode.Replying self.old) self.old at c result self.new }
    {
        let quote = self.quote;
        if c == 'y' {
            self.expect(Word::Reply, 'e', two(alloc, 's', quote)?);
            Ok(())
        } else if c == 'n' {
            self.expect(Word::Reply, 'o', one(alloc, quote)?);
            Ok(())
        } else {
            refuse(None, at, c)
        }
    }

    // Behind a name that `=` is to follow.
    pub fn leave_name(&mut self, near: Option<char>, at: u64, c: char) -> Result<(), DocFault>
        requires sound { IsKept self.old }
        requires room { at < 2 ^ 63 }
        requires bare { BareOwner self.old.owner self.old.rooted }
        ensures { Moves (leaves_name (owner_in self.old.owner self.old) (level self.old at) c) (at + common (near_bytes near) (encode_utf8 c)) (at + width c) result self.new }
    {
        if is_white(c) {
            self.returned = false;
            self.mode = Mode::Named;
            Ok(())
        } else if c == '=' {
            self.returned = false;
            self.mode = Mode::Equalled;
            Ok(())
        } else {
            refuse(near, at, c)
        }
    }

    pub fn equalled(&mut self, alloc: Global, at: u64, c: char) -> Result<(), DocFault>
        requires sound { IsKept self.old }
        requires room { at < 2 ^ 63 }
        requires bare { BareOwner self.old.owner self.old.rooted }
        ensures { Takes (doing_in Mode.Equalled self.old) self.old at c result self.new }
    {
        if is_white(c) {
            self.returned = false;
            self.mode = Mode::Equalled;
            Ok(())
        } else if is_quote(c) {
            self.quoted(alloc, at, c)
        } else {
            refuse(None, at, c)
        }
    }

    // A value begins, in these quotes.
    fn quoted(&mut self, alloc: Global, at: u64, c: char) -> Result<(), DocFault>
        requires sound { IsKept self.old }
        requires bare { BareOwner self.old.owner self.old.rooted }
        ensures { Lands (state (quotes (owner_in self.old.owner self.old) c) (tick c (level self.old at))) (at + width c) result self.new }
    {
        self.quote = c;
        self.returned = false;
        match self.owner {
            Owner::Attr => {
                self.value.clear();
                self.value_returned = false;
                self.mode = Mode::Valuing;
                Ok(())
            }
            Owner::Version => {
                self.expect(Word::Version, '1', Vec::from_array(alloc, ['.'])?);
                Ok(())
            }
            Owner::Encoding => {
                self.mode = Mode::Coding;
                Ok(())
            }
            Owner::Standalone => {
                self.mode = Mode::Replying;
                Ok(())
            }
        }
    }
}

fn one(alloc: Global, x: char) -> Result<Vec<char>, Memory>
    ensures { IfOk result (λ v. v.items ≡ x ∷ []) }
{
    let mut letters = Vec::new(alloc);
    letters.push(x)?;
    Ok(letters)
}

fn two(alloc: Global, x: char, y: char) -> Result<Vec<char>, Memory>
    ensures { IfOk result (λ v. v.items ≡ x ∷ y ∷ []) }
{
    let mut letters = one(alloc, x)?;
    letters.push(y)?;
    Ok(letters)
}
