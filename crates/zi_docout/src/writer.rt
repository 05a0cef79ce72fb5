ghost use Rattle.std.specs.Prelude.{◌≡◌, ◌++◌, suc, false, OnOk, OnErr};
ghost use Rattle.zi_elements.specs.Forest.{nodes_view, element_view};
ghost use Rattle.zi_docout.specs.Canonical.{document, lines_text, rest_text, attr_text, declaring};
ghost use Rattle.zi_docout.specs.Amiss.{first_amiss, standing, standing_of, alone, is_amiss as amiss};
ghost use Rattle.zi_docout.specs.Answers.{IsFirst, Writes};

use crate::amiss::is_amiss;
use crate::escapes::{put, put_attrs, put_end, put_indent, put_words};
use crate::fault::WriteFault;
use std::alloc::Global;
use zi_elements::{Element, Node};
use zi_text::Memory;

// Adds the rest of an element behind its attributes. The elements in it are counted on from `number`; the answer is the number
// behind the last.
#[cycle(lines)]
fn put_rest(
    alloc: Global,
    text: &mut Vec<u8>,
    element: &Element,
    around: u64,
    number: u64,
) -> Result<u64, WriteFault>
    requires { amiss (standing_of around (element_view element.now)) ≡ false }
    ensures { let e = element_view element.now in
        Writes number (standing (suc around) e.inside) (rest_text around e.name e.inside (lines_text (suc around) e.inside)) text.old.items text.new.items result }
{
    let name = element.name.as_str();
    let children = element.children.as_slice();
    match children.first() {
        None => {
            put(text, b"/>")?;
            Ok(number)
        }
        Some(Node::Words(words)) => {
            put(text, b">")?;
            put_words(text, words.as_str().as_bytes())?;
            put_end(text, name)?;
            Ok(number)
        }
        Some(Node::Child(_)) => {
            put(text, b">\n")?;
            let next = put_lines(alloc, text, children, around + 1, number)?;
            put_indent(text, around)?;
            put_end(text, name)?;
            Ok(next)
        }
    }
}

// Adds an element on a line of its own.
#[cycle(lines)]
fn put_line(
    alloc: Global,
    text: &mut Vec<u8>,
    element: &Element,
    around: u64,
    number: u64,
) -> Result<u64, WriteFault>
    ensures { let f = alone (element_view element.now) in Writes number (standing around f) (lines_text around f) text.old.items text.new.items result }
{
    if is_amiss(alloc, element, around)? {
        return Err(WriteFault::Unwritable { place: number });
    }
    put_indent(text, around)?;
    put(text, b"<")?;
    put(text, element.name.as_str().as_bytes())?;
    put_attrs(text, element.attrs.as_slice())?;
    let next = put_rest(alloc, text, element, around, number.saturating_add(1))?;
    put(text, b"\n")?;
    Ok(next)
}

// Adds the elements among nodes, each on a line of its own.
#[cycle(lines)]
fn put_lines(
    alloc: Global,
    text: &mut Vec<u8>,
    nodes: &[Node],
    around: u64,
    number: u64,
) -> Result<u64, WriteFault>
    ensures { let f = nodes_view nodes.now in Writes number (standing around f) (lines_text around f) text.old.items text.new.items result }
{
    let mut next = number;
    for node in nodes {
        match node {
            Node::Child(element) => match put_line(alloc, text, element, around, next) {
                Ok(after) => next = after,
                Err(fault) => return Err(fault),
            },
            Node::Words(_) => {}
        }
    }
    Ok(next)
}

// Adds the declaration of the namespace.
#[tactic(auto, unfolding(zi_elements::specs::Namespace::injector, crate::specs::Canonical::value_escaped, crate::specs::Canonical::word_escaped))]
fn put_declaring(text: &mut Vec<u8>) -> Result<(), Memory>
    ensures { OnOk result (text.new.items ≡ text.old.items ++ attr_text declaring) }
{
    put(
        text,
        b" xmlns=\"http://zero-install.sourceforge.net/2004/injector/interface\"",
    )
}

fn put_document(alloc: Global, text: &mut Vec<u8>, root: &Element) -> Result<u64, WriteFault>
    ensures { let e = element_view root.now in Writes 0 (standing 0 (alone e)) (document e) text.old.items text.new.items result }
{
    if is_amiss(alloc, root, 0)? {
        return Err(WriteFault::Unwritable { place: 0 });
    }
    put(text, b"<?xml version=\"1.0\" encoding=\"utf-8\"?>\n")?;
    put(text, b"<")?;
    put(text, root.name.as_str().as_bytes())?;
    put_declaring(text)?;
    put_attrs(text, root.attrs.as_slice())?;
    let next = put_rest(alloc, text, root, 0, 1)?;
    put(text, b"\n")?;
    Ok(next)
}

/// Adds the canonical text of a tree to `into`: the XML declaration on a line, the root with the declaration of its namespace
/// first, each element in an element on a line of its own, indented by two spaces for each element around it, and a line end.
///
/// `Unwritable` is answered exactly where an element can't be written: it has another namespace; an attribute of it has a
/// namespace, is named `xmlns` or stands twice; a name isn't ASCII letters, digits, `-` and `_`, a letter first; XML can't carry a
/// character of a value or of a text; a text is empty or stands beside another child; or the element stands at depth 65. Its
/// place is the number of the first such element in the order of start tags, from 0; a number past 2^64 - 1 stands still there.
/// `Memory` is answered where memory was refused. `into` gains the text, and stays as it was where a fault is answered.
pub fn write(alloc: Global, root: &Element, into: &mut Vec<u8>) -> Result<(), WriteFault>
    ensures written { OnOk result (into.new.items ≡ into.old.items ++ document (element_view root.now)) }
    ensures first { IsFirst (first_amiss (element_view root.now)) result }
    ensures unchanged { OnErr result (into.new.items ≡ into.old.items) }
{
    let mut text = Vec::new(alloc);
    match put_document(alloc, &mut text, root) {
        Ok(_) => {}
        Err(fault) => return Err(fault),
    }
    match into.extend_from_slice(text.as_slice()) {
        Ok(()) => Ok(()),
        Err(_) => Err(WriteFault::Memory),
    }
}
