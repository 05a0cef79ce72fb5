ghost use Rattle.std.specs.Prelude.{◌≡◌, ◌&&◌, not};
ghost use Rattle.zi_names.specs.Names.{has_colon, prefix, local, is_qualified, is_declaration, binding_of, is_bad_binding, is_empty, is_reserved};

use crate::Raw;

const XML: &str = "http://www.w3.org/XML/1998/namespace";

const XMLNS: &str = "http://www.w3.org/2000/xmlns/";

/// Whether a name has a prefix, good or bad.
pub fn has_colon(name: &str) -> bool
    ensures { result ≡ has_colon name.now }
{
    name.as_bytes().contains(&b':')
}

/// The prefix of a name, empty where it has none, and its local name (Namespaces in XML 1.0, 4).
#[tactic(auto, using(crate::proofs::Colons::colons), unfolding(crate::specs::Names::prefix, crate::specs::Names::local))]
pub fn split(name: &str) -> (&str, &str)
    ensures before { result.0.now ≡ prefix name.now }
    ensures behind { result.1.now ≡ local name.now }
{
    match name.split_once(':') {
        Some((before, behind)) => (before, behind),
        None => ("", name),
    }
}

/// Whether a name is one part, or two that aren't empty (Namespaces in XML 1.0, 4).
#[tactic(auto, unfolding(crate::specs::Names::is_qualified))]
pub fn is_qualified(name: &str) -> bool
    ensures { result ≡ is_qualified name.now }
{
    let (before, behind) = split(name);
    !has_colon(name) || (!before.is_empty() && !behind.is_empty() && !has_colon(behind))
}

/// Whether an attribute declares a namespace (Namespaces in XML 1.0, 3).
#[tactic(auto, unfolding(crate::specs::Names::is_declaration))]
pub fn is_declaration(attribute: &Raw) -> bool
    ensures { result ≡ is_declaration attribute.now }
{
    let name = attribute.name.as_str();
    name == "xmlns" || name.as_bytes().starts_with(b"xmlns:".as_slice())
}

/// The prefix that a declaration declares, empty for the default namespace (Namespaces in XML 1.0, 3).
#[tactic(auto, unfolding(crate::specs::Names::binding_of))]
pub fn declared_prefix(attribute: &Raw) -> &str
    ensures { result.now ≡ (binding_of attribute.now).prefix }
{
    let name = attribute.name.as_str();
    if has_colon(name) { split(name).1 } else { "" }
}

/// Whether a declaration may not stand (Namespaces in XML 1.0, 3 and 5).
#[tactic(auto, unfolding(crate::specs::Names::is_bad_binding, crate::specs::Names::binding_of))]
pub fn is_bad_binding(attribute: &Raw) -> bool
    ensures { result ≡ is_bad_binding (binding_of attribute.now) }
{
    let prefix = declared_prefix(attribute);
    let address = attribute.value.as_str();
    is_undeclared(prefix, address) || is_reserved(prefix, address)
}

// A prefix can't be bound to no address (Namespaces in XML 1.0, 5).
fn is_undeclared(prefix: &str, address: &str) -> bool
    ensures { result ≡ (not (is_empty prefix.now) && is_empty address.now) }
{
    !prefix.is_empty() && address.is_empty()
}

// The prefixes `xml` and `xmlns` and their addresses are bound for good (Namespaces in XML 1.0, 3).
#[tactic(auto, unfolding(crate::specs::Names::is_reserved))]
fn is_reserved(prefix: &str, address: &str) -> bool
    ensures { result ≡ is_reserved prefix.now address.now }
{
    if prefix == "xmlns" || address == XMLNS {
        return true;
    }
    if prefix == "xml" {
        address != XML
    } else {
        address == XML
    }
}
