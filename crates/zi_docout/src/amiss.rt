ghost use Rattle.std.specs.Prelude.{◌≡◌, ◌||◌, not, nat_le, IfOk};
ghost use Rattle.std.specs.List.{list_any, list_all};
ghost use Rattle.zi_elements.specs.Forest.{node_view, nodes_view, element_view};
ghost use Rattle.zi_names.specs.Names.{has_twice};
ghost use Rattle.zi_xml.specs.Chars.{is_char as carried_char, is_letter as letter_byte};
ghost use Rattle.std.specs.Str.{bytes_eq};
ghost use Rattle.zi_elements.specs.Namespace.{injector};
ghost use Rattle.zi_docout.specs.Amiss.{is_name_byte as name_byte, is_plain_name as plain_name, is_carried as carried, is_amiss_attr as amiss_attr, is_amiss_text as amiss_text, same_name, texts, count, is_amiss as amiss, standing_of};

use std::alloc::Global;
use std::collections::BTreeSet;
use zi_elements::{Attr, Element, NAMESPACE, Node};
use zi_text::Memory;

/// How many elements may stand one in another.
pub const DEEPEST: u64 = 64;

// Whether XML can carry a character (XML 1.0, 2.2).
fn is_char(c: char) -> bool
    ensures { result ≡ carried_char c }
{
    zi_doc::is_char(c)
}

#[tactic(auto, unfolding(crate::specs::Amiss::is_carried))]
fn is_carried(text: &str) -> bool
    ensures { result ≡ carried text.now }
{
    text.chars().all(is_char)
}

fn is_letter(b: u8) -> bool
    ensures { result ≡ letter_byte b }
{
    b'A' <= b && b <= b'Z' || b'a' <= b && b <= b'z'
}

#[tactic(auto, unfolding(zi_xml::specs::Chars::is_digit))]
fn is_name_byte(b: u8) -> bool
    ensures { result ≡ name_byte b }
{
    is_letter(b) || b'0' <= b && b <= b'9' || b == b'-' || b == b'_'
}

fn are_name_bytes(bytes: &[u8]) -> bool
    ensures { result ≡ list_all name_byte bytes.now }
{
    bytes.iter().all(|b| is_name_byte(*b))
}

// Whether a name is ASCII letters, digits, `-` and `_`, a letter first.
#[tactic(auto, unfolding(crate::specs::Amiss::is_plain_name))]
fn is_plain_name(name: &str) -> bool
    ensures { result ≡ plain_name name.now }
{
    match name.as_bytes().split_first() {
        Some((first, others)) => is_letter(*first) && are_name_bytes(others),
        None => false,
    }
}

#[tactic(auto, unfolding(crate::specs::Amiss::is_amiss_attr))]
fn is_amiss_attr(attr: &Attr) -> bool
    ensures { result ≡ amiss_attr attr.now }
{
    !attr.space.is_empty()
        || !is_plain_name(attr.name.as_str())
        || attr.name.as_str() == "xmlns"
        || !is_carried(attr.value.as_str())
}

// Whether two attributes have one name.
fn has_name_twice(alloc: Global, attrs: &[Attr]) -> Result<bool, Memory>
    ensures { IfOk result (λ b. b ≡ has_twice same_name attrs.now) }
{
    let mut seen: BTreeSet<&str> = BTreeSet::new(alloc);
    for attr in attrs {
        if !seen.insert(attr.name.as_str())? {
            return Ok(true);
        }
    }
    Ok(false)
}

// Whether a text among these children can't be written.
fn has_amiss_text(children: &[Node]) -> bool
    ensures { result ≡ list_any (amiss_text (count (nodes_view children.now))) (texts (nodes_view children.now)) }
{
    for child in children {
        if is_amiss_child(children.len(), child) {
            return true;
        }
    }
    false
}

// Whether a child, one of so many, is a text that can't be written.
#[tactic(auto, unfolding(crate::specs::Amiss::is_amiss_text))]
fn is_amiss_child(count: usize, child: &Node) -> bool
    ensures { result ≡ list_any (amiss_text count) (texts (node_view child.now)) }
{
    match child {
        Node::Child(_) => false,
        Node::Words(text) => count > 1 || text.is_empty() || !is_carried(text.as_str()),
    }
}

#[tactic(auto, unfolding(zi_elements::specs::Namespace::injector))]
fn is_injector(space: &str) -> bool
    ensures { result ≡ bytes_eq space.now injector }
{
    space == NAMESPACE
}

fn has_amiss_attr(attrs: &[Attr]) -> bool
    ensures { result ≡ list_any amiss_attr attrs.now }
{
    attrs.iter().any(|attr| is_amiss_attr(attr))
}

// Whether an element can't be written, one attribute twice aside.
fn is_unfit(element: &Element, around: u64) -> bool
    ensures { let e = element_view element.now in
        result ≡ (nat_le 64 around
        || not (bytes_eq e.space injector)
        || not (plain_name e.name)
        || list_any amiss_attr e.attrs
        || list_any (amiss_text (count e.inside)) (texts e.inside)) }
{
    around >= DEEPEST
        || !is_injector(element.space.as_str())
        || !is_plain_name(element.name.as_str())
        || has_amiss_attr(element.attrs.as_slice())
        || has_amiss_text(element.children.as_slice())
}

/// Whether an element that so many stand around can't be written. Memory is its one refusal.
#[tactic(auto, unfolding(crate::specs::Amiss::is_amiss))]
pub fn is_amiss(alloc: Global, element: &Element, around: u64) -> Result<bool, Memory>
    ensures { IfOk result (λ b. b ≡ amiss (standing_of around (element_view element.now))) }
{
    if is_unfit(element, around) {
        return Ok(true);
    }
    has_name_twice(alloc, element.attrs.as_slice())
}
