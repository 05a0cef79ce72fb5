//! Attributes that are left out where they say nothing, and arguments.
ghost use Rattle.std.specs.Prelude.{◌≡◌, ◌++◌, IfOk, OnOk};
ghost use Rattle.zi_elements.specs.Forest.{element_view, nodes_view};
ghost use Rattle.zi_sels.specs.Written.{attr_of, attr_unless, text_node, arg_elem};

use std::alloc::Global;
use zi_docout::{Attr, Element, Node, element, put_attr};
use zi_text::{List, Memory, Text};

/// Adds an attribute where there is a value.
pub fn put_where_there(
    alloc: Global,
    attrs: &mut List<Attr>,
    name: &str,
    value: &Option<Text>,
) -> Result<(), Memory>
    ensures { OnOk result (attrs.new ≡ attrs.old ++ attr_of name.now value.now) }
{
    match value {
        None => Ok(()),
        Some(value) => put_attr(alloc, attrs, name, value.as_str()),
    }
}

/// Adds an attribute, unless its value is the default.
#[tactic(auto, using(crate::proofs::WritingLemmas::leaving_out))]
pub fn put_unless(
    alloc: Global,
    attrs: &mut List<Attr>,
    default: &str,
    name: &str,
    value: &str,
) -> Result<(), Memory>
    ensures { OnOk result (attrs.new ≡ attrs.old ++ attr_unless default.now name.now value.now) }
{
    if value == default {
        return Ok(());
    }
    put_attr(alloc, attrs, name, value)
}

// A text as what an element holds; the empty text is nothing.
#[tactic(auto, using(crate::proofs::WritingLemmas::texts))]
fn text_nodes(alloc: Global, text: &Text) -> Result<List<Node>, Memory>
    ensures { IfOk result (λ nodes. nodes_view nodes ≡ text_node text.now) }
{
    let mut nodes = List::new(alloc);
    if text.is_empty() {
        return Ok(nodes);
    }
    nodes.push(Node::Words(text.copy(alloc)?))?;
    Ok(nodes)
}

/// An argument; one that is the empty text holds nothing.
#[tactic(auto, unfolding(crate::specs::Written::arg_elem))]
pub fn arg_element(alloc: Global, text: &Text) -> Result<Element, Memory>
    ensures { IfOk result (λ e. element_view e ≡ arg_elem text.now) }
{
    let inside = text_nodes(alloc, text)?;
    element(alloc, "arg", List::new(alloc), inside)
}
