//! Relative paths, as the names that lead down a tree.

ghost use Rattle.std.specs.Prelude.{◌≡◌, ◌<◌, [], ◌∷◌, ◌++◌, ◌||◌, true, Some, None, if◌then◌else◌, IfOk, IsUtf8};
ghost use Rattle.std.specs.List.{list_all};
ghost use Rattle.zi_tree.specs.Order.{is_name, is_plain, has_byte};
ghost use Rattle.zi_tree.specs.Parts.{parts_of, is_absolute, is_kept};

use std::alloc::Global;
use std::marker::Model;
use zi_text::{List, Memory, Text};

/// A relative path, which contracts see as the list of its parts. Each part is a name: it isn't empty, `.` or `..` and
/// has no `/` and no NUL.
#[derive(Debug, Drop)]
pub struct RelPath {
    parts: List<Text>,
}

impl Model for RelPath {
    ghost use Rattle.std.specs.Prelude.{◌≡◌, true, List as Items, ℕ};
    ghost use Rattle.std.specs.List.{list_all};
    ghost use Rattle.zi_tree.specs.Order.{is_name};

    ghost Value = { Items (Items ℕ) };

    ghost view = { λ p. p.parts };

    ghost invariant = { λ p. list_all is_name p.parts ≡ true };
}

impl RelPath {
    /// The path that a text spells: its parts between slashes, without those that are empty or `.`. None exactly for a
    /// text that begins with `/`, has a NUL or has a part `..`. Memory is the one refusal.
    pub fn parse(alloc: Global, text: &str) -> Result<Option<RelPath>, Memory>
        ensures { IfOk result (λ p. p ≡ parts_of text.now) }
    {
        if begins_wrong(text) {
            return Ok(None);
        }
        let mut parts = List::new(alloc);
        for part in text.split('/') {
            if part == ".." {
                return Ok(None);
            }
            if is_kept_part(part) {
                parts.push(Text::from_str(alloc, part)?)?;
            }
        }
        Ok(Some(RelPath { parts }))
    }

    /// The empty path, which grows by this allocator.
    pub fn root(alloc: Global) -> RelPath
        ensures { result ≡ [] }
    {
        RelPath {
            parts: List::new(alloc),
        }
    }

    /// The path with one part more. None exactly where the text is no name. Memory is the one refusal.
    pub fn child(&self, alloc: Global, name: &str) -> Result<Option<RelPath>, Memory>
        ensures { IfOk result (λ p. p ≡ (if is_plain name.now then Some (self.now ++ name.now ∷ []) else None)) }
    {
        if !is_plain_name(name) {
            return Ok(None);
        }
        let mut parts = copied(alloc, &self.parts)?;
        parts.push(Text::from_str(alloc, name)?)?;
        Ok(Some(RelPath { parts }))
    }

    /// The same path once more. Memory is its one refusal.
    pub fn copy(&self, alloc: Global) -> Result<RelPath, Memory>
        ensures { IfOk result (λ p. p ≡ self.now) }
    {
        let parts = copied(alloc, &self.parts)?;
        Ok(RelPath { parts })
    }

    /// Its parts, lent. Each is a name.
    pub fn parts(&self) -> &List<Text>
        ensures parts { result.now ≡ self.now }
        ensures names { list_all is_name self.now ≡ true }
    {
        &self.parts
    }
}

/// The same parts once more.
fn copied(alloc: Global, parts: &List<Text>) -> Result<List<Text>, Memory>
    ensures { IfOk result (λ l. l ≡ parts.now) }
{
    let mut copy = List::new(alloc);
    for part in parts.as_slice() {
        copy.push(part.copy(alloc)?)?;
    }
    Ok(copy)
}

/// Whether a text begins with a slash or has a NUL.
fn begins_wrong(text: &str) -> bool
    ensures { result ≡ (is_absolute text.now || has_byte 0 text.now) }
{
    let bytes = text.as_bytes();
    (!bytes.is_empty() && bytes[0] == b'/') || bytes.contains(&0)
}

/// Whether a part isn't passed over: it is neither empty nor `.`.
fn is_kept_part(part: &str) -> bool
    ensures kept { result ≡ is_kept part.now }
    ensures utf8 { IsUtf8 part.now }
{
    part != "" && part != "."
}

/// Whether a text is a name: not empty, `.` or `..`, without `/` and NUL.
fn is_plain_name(text: &str) -> bool
    ensures { result ≡ is_plain text.now }
{
    let bytes = text.as_bytes();
    text != "" && text != "." && text != ".." && !bytes.contains(&b'/') && !bytes.contains(&0)
}
