//! Elements of the injector's namespace, one by one: their attributes, and the elements in them.
ghost use Rattle.std.specs.Prelude.{◌≡◌, ◌∷◌, [], ◌++◌, IfOk, OnOk};
ghost use Rattle.zi_elements.specs.Forest.{element_view, nodes_view};
ghost use Rattle.zi_elements.specs.Namespace.{injector};
ghost use Rattle.zi_docout.specs.Elements.{attr, Adds};

use std::alloc::Global;
use zi_elements::{Attr, Element, NAMESPACE, Node};
use zi_text::{List, Memory, Text};

/// Adds an attribute without a namespace behind those that are there. Memory is its one refusal; what had been added then is
/// in no element yet.
pub fn put_attr(
    alloc: Global,
    attrs: &mut List<Attr>,
    name: &str,
    value: &str,
) -> Result<(), Memory>
    ensures { OnOk result (attrs.new ≡ attrs.old ++ attr name.now value.now ∷ []) }
{
    let space = Text::new(alloc);
    let name = Text::from_str(alloc, name)?;
    let value = Text::from_str(alloc, value)?;
    attrs.push(Attr { space, name, value })
}

/// An element of the injector's namespace with these attributes and these nodes in it, at the place 0. Memory is its one refusal.
#[tactic(auto, unfolding(zi_elements::specs::Namespace::injector))]
pub fn element(
    alloc: Global,
    name: &str,
    attrs: List<Attr>,
    children: List<Node>,
) -> Result<Element, Memory>
    ensures { IfOk result (λ e. element_view e ≡ record { space = injector; name = name.now; attrs = attrs; inside = nodes_view children; place = 0 }) }
{
    let space = Text::from_str(alloc, NAMESPACE)?;
    let name = Text::from_str(alloc, name)?;
    Ok(Element {
        space,
        name,
        attrs,
        children,
        place: 0,
    })
}

/// Adds an element behind the nodes that are there. Memory is its one refusal.
pub fn put_child(children: &mut List<Node>, child: Element) -> Result<(), Memory>
    ensures { OnOk result (Adds children.old children.new (element_view child ∷ [])) }
{
    children.push(Node::Child(child))
}
