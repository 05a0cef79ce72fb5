ghost use Rattle.std.specs.Prelude.{◌≡◌, IfOk};
ghost use Rattle.std.specs.List.{list_any};
ghost use Rattle.zi_names.specs.Names.{resolved, attributes_of, is_bad_name, is_bad_attribute, has_bad_prefix};
ghost use Rattle.zi_names.specs.Scopes.{Resolves};

use crate::attributes::Raw;
use crate::entered::Started;
use crate::known::Known;
use crate::names::{has_colon, is_bad_binding, is_declaration, is_qualified, split};
use crate::scope::Scope;
use std::alloc::Global;
use zi_elements::Attr;
use zi_text::{List, Memory, Text};

/// Whether a name isn't qualified, or has a prefix that isn't declared (Namespaces in XML 1.0, 4 and 5).
#[tactic(auto, unfolding(crate::specs::Names::is_bad_name, crate::specs::Names::is_qualified))]
fn is_bad_name(name: &str, scope: &Scope) -> bool
    ensures { result ≡ is_bad_name scope.now name.now }
{
    has_colon(name) && (!is_qualified(name) || scope.address(split(name).0).is_none())
}

/// Whether an attribute has a bad name or declares what may not be declared.
#[tactic(auto, unfolding(crate::specs::Names::is_bad_attribute))]
fn is_bad_attribute(attribute: &Raw, scope: &Scope) -> bool
    ensures { result ≡ is_bad_attribute scope.now attribute.now }
{
    if is_declaration(attribute) {
        !is_qualified(attribute.name.as_str()) || is_bad_binding(attribute)
    } else {
        is_bad_name(attribute.name.as_str(), scope)
    }
}

fn has_bad_attribute(raw: &[Raw], scope: &Scope) -> bool
    ensures { result ≡ list_any (is_bad_attribute scope.now) raw.now }
{
    raw.iter()
        .any(|attribute| is_bad_attribute(attribute, scope))
}

/// Whether a start tag has a bad name or a bad declaration, inside its own scope.
#[tactic(auto, unfolding(crate::specs::Names::has_bad_prefix))]
pub fn has_bad_prefix(name: &str, raw: &[Raw], scope: &Scope) -> bool
    ensures { result ≡ has_bad_prefix name.now raw.now scope.now }
{
    is_bad_name(name, scope) || has_bad_attribute(raw, scope)
}

// An attribute of the tree. Where it has no prefix, its name is its local name.
#[tactic(auto, unfolding(crate::specs::Names::resolved, crate::specs::Names::local))]
fn resolved(alloc: Global, attribute: Raw, scope: &Scope, known: &mut Known) -> Result<Attr, Memory>
    ensures { IfOk result (λ a. a ≡ resolved scope.now attribute) }
{
    let Raw { name, value } = attribute;
    if !has_colon(name.as_str()) {
        return Ok(Attr {
            space: Text::new(alloc),
            name,
            value,
        });
    }
    let (before, behind) = split(name.as_str());
    let space = scope.space(alloc, before)?;
    let local = known.text(alloc, behind)?;
    Ok(Attr {
        space,
        name: local,
        value,
    })
}

/// The attributes of the tree, in order, without the declarations.
#[tactic(auto, unfolding(crate::specs::Names::attributes_of))]
fn attributes(
    alloc: Global,
    raw: List<Raw>,
    scope: &Scope,
    known: &mut Known,
) -> Result<List<Attr>, Memory>
    ensures { IfOk result (λ a. a ≡ attributes_of raw scope.now) }
{
    let mut attributes = List::new(alloc);
    for attribute in raw.into_vec() {
        if !is_declaration(&attribute) {
            attributes.push(resolved(alloc, attribute, scope, known)?)?;
        }
    }
    Ok(attributes)
}

/// A start tag with its names resolved, inside its own scope.
pub fn started(
    alloc: Global,
    name: &str,
    raw: List<Raw>,
    scope: &Scope,
    known: &mut Known,
) -> Result<Started, Memory>
    ensures { IfOk result (Resolves name.now raw scope.now) }
{
    let (before, behind) = split(name);
    Ok(Started {
        space: scope.space(alloc, before)?,
        name: known.text(alloc, behind)?,
        attrs: attributes(alloc, raw, scope, known)?,
    })
}
