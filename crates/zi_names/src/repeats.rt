ghost use Rattle.std.specs.Prelude.{◌≡◌, filter, IfOk};
ghost use Rattle.zi_names.specs.Names.{is_prefixed, same_name, same_expanded, has_twice, has_repeated};

use crate::attributes::Raw;
use crate::names::{has_colon, is_declaration, split};
use crate::scope::Scope;
use std::alloc::Global;
use std::collections::BTreeSet;
use zi_text::Memory;

// Whether an attribute of the tree has a prefix.
fn is_prefixed(attribute: &Raw) -> bool
    ensures { result ≡ is_prefixed attribute.now }
{
    has_colon(attribute.name.as_str()) && !is_declaration(attribute)
}

// Whether two attributes have one name as it is written. Fewer than two aren't looked at.
#[tactic(auto, using(crate::proofs::Twice::few_once))]
fn has_name_twice(alloc: Global, raw: &[Raw]) -> Result<bool, Memory>
    ensures { IfOk result (λ b. b ≡ has_twice same_name raw.now) }
{
    if raw.len() < 2 {
        return Ok(false);
    }
    let mut seen: BTreeSet<&str> = BTreeSet::new(alloc);
    for attribute in raw {
        if !seen.insert(attribute.name.as_str())? {
            return Ok(true);
        }
    }
    Ok(false)
}

// Whether two attributes that have prefixes have one expanded name. Local names are compared first, since a long address
// may stand in many names.
fn has_expanded_twice(alloc: Global, raw: &[Raw], scope: &Scope) -> Result<bool, Memory>
    ensures { IfOk result (λ b. b ≡ has_twice (same_expanded scope.now) (filter is_prefixed raw.now)) }
{
    let mut seen: BTreeSet<(&str, &str)> = BTreeSet::new(alloc);
    for attribute in raw {
        if is_prefixed(attribute) {
            let (before, behind) = split(attribute.name.as_str());
            if !seen.insert((behind, scope.address_or_empty(before)))? {
                return Ok(true);
            }
        }
    }
    Ok(false)
}

/// Whether two attributes have one name, as written or expanded, inside the scope of their tag.
#[tactic(auto, unfolding(crate::specs::Names::has_repeated))]
pub fn has_repeated(alloc: Global, raw: &[Raw], scope: &Scope) -> Result<bool, Memory>
    ensures { IfOk result (λ b. b ≡ has_repeated raw.now scope.now) }
{
    Ok(has_name_twice(alloc, raw)? || has_expanded_twice(alloc, raw, scope)?)
}
