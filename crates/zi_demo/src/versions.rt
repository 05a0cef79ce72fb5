//! Versions of the demonstration's interfaces, and what each says of other interfaces.
ghost use Rattle.std.specs.Prelude.{◌≡◌, ◌∷◌, [], ◌++◌, map, codes, IfOk, OnOk};
ghost use Rattle.zi_elements.specs.Forest.{none, element_view, nodes_view, node_view};
ghost use Rattle.zi_docout.specs.Amiss.{alone};
ghost use Rattle.zi_docout.specs.Elements.{Adds};
ghost use Rattle.zi_demo.specs.Feeds.{address, requires_elem, restricts_elem, version, two_versions, three_versions};

use std::alloc::Global;
use zi_docout::{Element, Node, element, put_attr, put_child};
use zi_text::{List, Memory, Text};

/// The address of an interface.
pub fn address(alloc: Global, name: &str) -> Result<Text, Memory>
    ensures { IfOk result (λ t. t ≡ address name.now) }
{
    let mut text = Text::from_str(alloc, "/demo/")?;
    text.push_str(name)?;
    text.push_str(".xml")?;
    Ok(text)
}

// That an interface is needed.
#[tactic(auto, unfolding(crate::specs::Feeds::requires_elem))]
fn need(alloc: Global, name: &str) -> Result<Element, Memory>
    ensures { IfOk result (λ e. element_view e ≡ requires_elem name.now) }
{
    let address = address(alloc, name)?;
    let mut attrs = List::new(alloc);
    put_attr(alloc, &mut attrs, "interface", address.as_str())?;
    element(alloc, "requires", attrs, List::new(alloc))
}

/// Adds that an interface is needed.
pub fn put_need(alloc: Global, inside: &mut List<Node>, name: &str) -> Result<(), Memory>
    ensures { OnOk result (Adds inside.old inside.new (requires_elem name.now ∷ [])) }
{
    put_child(inside, need(alloc, name)?)
}

// That an interface is to have one of these versions.
#[tactic(auto, unfolding(crate::specs::Feeds::restricts_elem))]
fn limit(alloc: Global, range: &str, name: &str) -> Result<Element, Memory>
    ensures { IfOk result (λ e. element_view e ≡ restricts_elem range.now name.now) }
{
    let address = address(alloc, name)?;
    let mut attrs = List::new(alloc);
    put_attr(alloc, &mut attrs, "interface", address.as_str())?;
    put_attr(alloc, &mut attrs, "version", range)?;
    element(alloc, "restricts", attrs, List::new(alloc))
}

// That each of the others is to have one of these versions.
fn limits(alloc: Global, range: &str, others: &[&str]) -> Result<List<Node>, Memory>
    ensures { IfOk result (λ inside. Adds [] inside (map (restricts_elem range.now) (map (λ x. x.now) others.now))) }
{
    let mut inside = List::new(alloc);
    for name in others {
        put_child(&mut inside, limit(alloc, range, name)?)?;
    }
    Ok(inside)
}

// A version, with what it says of other interfaces.
#[tactic(auto, unfolding(crate::specs::Feeds::version))]
fn version(alloc: Global, number: u64, inside: List<Node>) -> Result<Element, Memory>
    ensures { IfOk result (λ e. element_view e ≡ version number (nodes_view inside)) }
{
    let number = format!(in alloc; "{number}")?;
    let mut id = Text::from_str(alloc, "v")?;
    id.push_str(number.as_str())?;
    let mut attrs = List::new(alloc);
    put_attr(alloc, &mut attrs, "id", id.as_str())?;
    put_attr(alloc, &mut attrs, "version", number.as_str())?;
    put_attr(alloc, &mut attrs, "local-path", ".")?;
    element(alloc, "implementation", attrs, inside)
}

/// Adds a version, with what it says of other interfaces.
pub fn put_version(
    alloc: Global,
    versions: &mut List<Node>,
    number: u64,
    inside: List<Node>,
) -> Result<(), Memory>
    ensures { OnOk result (Adds versions.old versions.new (version number (nodes_view inside) ∷ [])) }
{
    put_child(versions, version(alloc, number, inside)?)
}

/// The versions 2 and 1; with 2 each of the others is to be 2 or more.
pub fn two_versions(alloc: Global, others: &[&str]) -> Result<List<Node>, Memory>
    ensures { IfOk result (λ versions. Adds [] versions (two_versions (map (λ x. x.now) others.now))) }
{
    let mut versions = List::new(alloc);
    let limits = limits(alloc, "2..", others)?;
    put_version(alloc, &mut versions, 2, limits)?;
    put_version(alloc, &mut versions, 1, List::new(alloc))?;
    Ok(versions)
}

/// The versions 3, 2 and 1; none of the others is to have the same where that is 3 or 2.
pub fn three_versions(alloc: Global, others: &[&str]) -> Result<List<Node>, Memory>
    ensures { IfOk result (λ versions. Adds [] versions (three_versions (map (λ x. x.now) others.now))) }
{
    let mut versions = List::new(alloc);
    let not_three = limits(alloc, "!3", others)?;
    put_version(alloc, &mut versions, 3, not_three)?;
    let not_two = limits(alloc, "!2", others)?;
    put_version(alloc, &mut versions, 2, not_two)?;
    put_version(alloc, &mut versions, 1, List::new(alloc))?;
    Ok(versions)
}
