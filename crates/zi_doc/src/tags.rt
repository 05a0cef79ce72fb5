ghost use Rattle.std.specs.Prelude.{◌≡◌, ◌+◌, ◌<◌, ◌^◌, ◌==◌, ◌++◌, ◌∷◌, [], true, false, vec_len, Some, if◌then◌else◌, ℕ, ◌≤◌, OnOk, encode_utf8};
ghost use Rattle.zi_xml.specs.Chars.{width};
ghost use Rattle.zi_xml.specs.Meaning.{tick, fresh, line_end, value_end, flush, framed, judged, adopt as adopts};
ghost use Rattle.zi_xml.specs.Machine.{state, common, to, declared_end, has, top_name, inside as in_element, scope_of, emptied, after_word as words_after, markup as marks, enter as enters, leave as leaves, leave_name as leaves_name, refer as refers, closed as closes_in, front_step as steps_front, bang_word as bangs, back_to, declare as declares};
ghost use Rattle.zi_doc.specs.View.{IsKept, BareOwner, later, level, outer, stack, tag, spot, host, doing_in, owner_in, word_in};
ghost use Rattle.std.specs.Prelude.{slice_get, IfOk, IfSome, drop, length, reverse, List};
ghost use Rattle.zi_names.specs.declared.attributes.Binding.{Binding};
ghost use Rattle.zi_doc.specs.View.{scopes_of, stacked, frame_of};
ghost use Rattle.zi_elements.specs.declared.element.Node.TheVariants.{Child};
ghost use Rattle.zi_doc.specs.Moves.{Starts, Moves, Lands, Takes, near_bytes};

use crate::chars::{is_first, is_name, is_plain, is_white};
use crate::fault::{DocFault, DocKind};
use crate::letters::Letters;
use crate::state::{Mode, Open, Owner, Reader, Word};
use crate::texts::{letters_of, refuse};
use std::alloc::Global;
use std::mem;
use zi_elements::{Element, Node};
use zi_names::{Entered, Raw, Started};
use zi_text::{List, Memory, Text};

const NEAR: Option<char> = Some('\u{FFFD}');

// So many characters of a name, as many as most have, need no more room.
const NAME: usize = 16;

// Adds the letters as a text, unless there is none; they are read anew from then on.
#[tactic(auto, using(crate::proofs::Stacks::flush_some, crate::proofs::Stacks::flush_none))]
fn settle(alloc: Global, before: &mut List<Node>, letters: &mut Letters) -> Result<(), Memory>
    ensures flushed { OnOk result (before.new ≡ before.old ++ flush letters.old) }
    ensures none { OnOk result (letters.new ≡ []) }
{
    if !letters.is_empty() {
        let words = match again(alloc, before, letters.as_str())? {
            Some(words) => {
                letters.clear();
                words
            }
            None => letters.take(alloc)?,
        };
        before.push(Node::Words(words))?;
    }
    Ok(())
}

// The text before the last child, where it is this one: white space between elements is mostly alike.
fn again(alloc: Global, before: &List<Node>, letters: &str) -> Result<Option<Text>, Memory>
    ensures { IfOk result (λ found. IfSome found (λ text. text ≡ letters.now)) }
{
    if before.len() < 2 {
        return Ok(None);
    }
    match before.at(before.len() - 2) {
        Node::Words(words) => {
            if words.as_str() == letters {
                Ok(Some(words.copy(alloc)?))
            } else {
                Ok(None)
            }
        }
        Node::Child(_) => Ok(None),
    }
}

impl Reader {
    pub fn naming(&mut self, alloc: Global, at: u64, c: char) -> Result<(), DocFault>
        requires sound { IsKept self.old }
        requires room { at < 2 ^ 63 }
        ensures { Takes (doing_in Mode.Naming self.old) self.old at c result self.new }
    {
        if is_name(c) {
            self.written.push(c)?;
            self.returned = false;
            self.mode = Mode::Naming;
            Ok(())
        } else {
            self.leave(alloc, NEAR, at, c)
        }
    }

    // A tag goes on or ends.
    pub fn leave(
        &mut self,
        alloc: Global,
        near: Option<char>,
        at: u64,
        c: char,
    ) -> Result<(), DocFault>
        requires sound { IsKept self.old }
        requires room { at < 2 ^ 63 }
        ensures { Moves (leaves (stack self.old) (tag self.old) (level self.old at) c) (at + common (near_bytes near) (encode_utf8 c)) (at + width c) result self.new }
    {
        if is_white(c) {
            self.returned = false;
            self.mode = Mode::Spaced;
            Ok(())
        } else if c == '/' {
            self.expect(Word::Void, '>', Vec::new(alloc));
            Ok(())
        } else if c == '>' {
            self.open(alloc, at, c)
        } else {
            refuse(near, at, c)
        }
    }

    pub fn spaced(&mut self, alloc: Global, at: u64, c: char) -> Result<(), DocFault>
        requires sound { IsKept self.old }
        requires room { at < 2 ^ 63 }
        ensures { Takes (doing_in Mode.Spaced self.old) self.old at c result self.new }
    {
        if is_first(c) {
            self.attr.clear();
            self.attr.push(c)?;
            self.returned = false;
            self.mode = Mode::AttrNaming;
            Ok(())
        } else {
            self.leave(alloc, NEAR, at, c)
        }
    }

    pub fn attr_naming(&mut self, at: u64, c: char) -> Result<(), DocFault>
        requires sound { IsKept self.old }
        requires room { at < 2 ^ 63 }
        ensures { Takes (doing_in Mode.AttrNaming self.old) self.old at c result self.new }
    {
        if is_name(c) {
            self.attr.push(c)?;
            self.returned = false;
            self.mode = Mode::AttrNaming;
            Ok(())
        } else {
            self.owner = Owner::Attr;
            self.leave_name(NEAR, at, c)
        }
    }

    // A character of a value: white space becomes spaces, and CR LF one.
    #[tactic(auto, unfolding(zi_xml::specs::Meaning::value_end), using(crate::proofs::TextLemmas::space))]
    fn hear_value(&mut self, c: char) -> Result<(), Memory>
        ensures { OnOk result (self.new ≡ record self.old { value = self.old.value ++ value_end self.old.value_returned c; value_returned = c == 13 }) }
    {
        if c == '\n' && self.value_returned {
            self.value_returned = false;
        } else if is_white(c) {
            self.value.push(' ')?;
            self.value_returned = c == '\r';
        } else {
            self.value.push(c)?;
            self.value_returned = c == '\r';
        }
        Ok(())
    }

    pub fn valuing(&mut self, alloc: Global, at: u64, c: char) -> Result<(), DocFault>
        requires sound { IsKept self.old }
        requires room { at < 2 ^ 63 }
        ensures { Takes (doing_in Mode.Valuing self.old) self.old at c result self.new }
    {
        if is_plain(c) && c != self.quote {
            self.hear_value(c)?;
            self.returned = false;
            self.mode = Mode::Valuing;
            Ok(())
        } else if c == self.quote {
            let name = self.scopes.text(alloc, self.attr.as_str())?;
            self.attr.clear();
            let value = self.value.take(alloc)?;
            self.raw.push(Raw { name, value })?;
            self.returned = false;
            self.mode = Mode::Valued;
            Ok(())
        } else if c == '&' {
            self.in_value = true;
            self.refer_at = at;
            self.returned = false;
            self.mode = Mode::Amped;
            Ok(())
        } else {
            refuse(NEAR, at, c)
        }
    }

    // The names of the tag are resolved, and its declarations come into force.
    fn start(&mut self, alloc: Global) -> Result<Started, DocFault>
        requires { IsKept self.old }
        ensures { Starts self.old result self.new }
    {
        let name = letters_of(alloc, self.written.as_slice())?;
        let raw = mem::replace(&mut self.raw, List::new(alloc));
        match self.scopes.enter(alloc, name.as_str(), raw)? {
            Entered::Started(started) => Ok(started),
            Entered::BadPrefix => Err(DocFault::Bad {
                kind: DocKind::Prefix,
                place: self.place,
            }),
            Entered::Repeated => Err(DocFault::Bad {
                kind: DocKind::Repeated,
                place: self.place,
            }),
        }
    }

    // A start tag ends.
    fn open(&mut self, alloc: Global, at: u64, c: char) -> Result<(), DocFault>
        requires { IsKept self.old }
        ensures { Lands (state (in_element (framed (scope_of (stack self.old)) (tag self.old) ∷ stack self.old) 0) (fresh (judged (scope_of (stack self.old)) (tag self.old) (tick c (level self.old at))))) (at + width c) result self.new }
    {
        let started = match self.start(alloc) {
            Ok(started) => started,
            Err(e) => return Err(e),
        };
        let Started { space, name, attrs } = started;
        let attrs = fitted(attrs);
        let written = Vec::with_capacity(alloc, NAME)?;
        let open = Open {
            written: mem::replace(&mut self.written, written),
            space,
            local: name,
            attrs,
            before: mem::replace(&mut self.before, List::new(alloc)),
            letters: mem::replace(&mut self.letters, Letters::new(alloc)),
            returned: self.outer_returned,
            place: self.place,
        };
        self.opens.push(open)?;
        self.rooted = true;
        self.brackets = 0;
        self.returned = false;
        self.mode = Mode::Inside;
        Ok(())
    }

    // An empty tag ends.
    pub fn void(&mut self, alloc: Global, at: u64, c: char) -> Result<(), DocFault>
        requires { IsKept self.old }
        ensures { Lands (state (in_element (stack self.old) 0) (emptied (stack self.old) (tag self.old) (tick c (level self.old at)))) (at + width c) result self.new }
    {
        let started = match self.start(alloc) {
            Ok(started) => started,
            Err(e) => return Err(e),
        };
        let Started { space, name, attrs } = started;
        let attrs = fitted(attrs);
        self.leave_scope();
        let element = Element {
            space,
            name,
            attrs,
            children: List::new(alloc),
            place: self.place,
        };
        self.adopt(alloc, element)?;
        Ok(())
    }

    // An element is whole: it joins what is before it.
    fn adopt(&mut self, alloc: Global, element: Element) -> Result<(), Memory>
        ensures { OnOk result (self.new ≡ record self.old { before = self.old.before ++ flush self.old.letters ++ Child element ∷ []; letters = []; returned = false; brackets = 0; rooted = true; mode = Mode.Inside }) }
    {
        settle(alloc, &mut self.before, &mut self.letters)?;
        self.before.push(Node::Child(element))?;
        self.returned = false;
        self.brackets = 0;
        self.rooted = true;
        self.mode = Mode::Inside;
        Ok(())
    }

    pub fn closing(&mut self, alloc: Global, at: u64, c: char) -> Result<(), DocFault>
        requires sound { IsKept self.old }
        requires room { at < 2 ^ 63 }
        ensures { Takes (doing_in Mode.Closing self.old) self.old at c result self.new }
    {
        match self.next_letter() {
            Some(x) => {
                if c == x {
                    self.matched += 1;
                    self.returned = false;
                    self.mode = Mode::Closing;
                    Ok(())
                } else {
                    refuse(Some(x), at, c)
                }
            }
            None => {
                if c == '>' {
                    self.close(alloc, at, c)
                } else if is_white(c) {
                    self.returned = false;
                    self.mode = Mode::Closing;
                    Ok(())
                } else {
                    refuse(None, at, c)
                }
            }
        }
    }

    // The next letter of the innermost element's name.
    fn next_letter(&self) -> Option<char>
        ensures letter { result ≡ slice_get (top_name (stack self.now)) self.now.matched }
        ensures room { IfSome result (λ x. self.now.matched < 2 ^ 63) }
    {
        match self.opens.last() {
            Some(top) => letter_of(top, self.matched),
            None => None,
        }
    }

    // The scope of the innermost element goes.
    fn leave_scope(&mut self)
        requires { 1 < length self.old.scopes }
        ensures { self.new ≡ record self.old { scopes = drop 1 self.old.scopes } }
    {
        self.scopes.leave();
    }

    // An end tag ends.
    fn close(&mut self, alloc: Global, at: u64, c: char) -> Result<(), DocFault>
        requires { IsKept self.old }
        ensures { Lands (closes_in (stack self.old) (tick c (level self.old at))) (at + width c) result self.new }
    {
        match self.opens.pop() {
            Some(top) => self.close_top(alloc, top, at, c),
            None => {
                self.returned = false;
                self.brackets = 0;
                self.mode = Mode::Inside;
                Ok(())
            }
        }
    }

    // An element that is no longer open is whole.
    fn close_top(&mut self, alloc: Global, top: Open, at: u64, c: char) -> Result<(), DocFault>
        requires more { 1 < length self.old.scopes }
        requires kept { drop 1 self.old.scopes ≡ scopes_of (stacked (reverse self.old.opens.items) (drop 1 self.old.scopes)) }
        ensures { (scope : List Binding) → Lands (state (in_element (stacked (reverse self.old.opens.items) (drop 1 self.old.scopes)) 0) (adopts (frame_of top scope) (tick c (level self.old at)))) (at + width c) result self.new }
    {
        let Open {
            written: _,
            space,
            local,
            attrs,
            before,
            letters,
            returned: _,
            place,
        } = top;
        self.leave_scope();
        let mut children = mem::replace(&mut self.before, before);
        settle(alloc, &mut children, &mut self.letters)?;
        self.letters = letters;
        let children = fitted(children);
        let element = Element {
            space,
            name: local,
            attrs,
            children,
            place,
        };
        self.adopt(alloc, element)?;
        Ok(())
    }
}

// The same list, which takes less than twice the room of its items.
fn fitted<T>(list: List<T>) -> List<T>
    ensures { result ≡ list }
{
    let mut items = list.into_vec();
    if items.len() <= items.capacity() / 2 {
        items.shrink_to_fit();
    }
    List::from_vec(items)
}

fn letter_of(top: &Open, i: usize) -> Option<char>
    ensures letter { result ≡ slice_get top.now.written.items i }
    ensures room { IfSome result (λ x. i < 2 ^ 63) }
{
    if i < top.written.len() {
        Some(top.written[i])
    } else {
        None
    }
}
