ghost use Rattle.std.specs.Prelude.{◌≡◌, ℕ, List, [], ◌∷◌, ◌++◌, if◌then◌else◌, IsSome, drop, length, unwrap_or, IfOk, OnOk, OnErr};
ghost use Rattle.std.specs.Option.{option_copied};
ghost use Rattle.std.specs.BTreeMap.{get_by_text};
ghost use Rattle.std.specs.Str.{bytes_eq};
ghost use Rattle.zi_names.specs.Names.{declared, lookup, scope_in, address_of, first_scope};

use crate::Raw;
use crate::attributes::Binding;
use crate::bound::Bound;
use crate::names::{declared_prefix, is_declaration};
use std::alloc::Global;
use std::collections::BTreeMap;
use std::marker::Model;
use zi_text::{Memory, Text};

// The bindings in force. Contracts see their list, the newest first.
#[derive(Drop)]
pub struct Scope {
    // The oldest first.
    bounds: Vec<Bound>,
    // The place of the newest binding of each prefix.
    newest: BTreeMap<String, usize>,
}

impl Model for Scope {
    ghost use Rattle.std.specs.Prelude.{List, reverse};
    ghost use Rattle.zi_names.specs.declared.attributes.Binding.{Binding};
    ghost use Rattle.zi_names.specs.Places.{bindings_of, IsIndexed};

    ghost Value = { List Binding };

    ghost view = { λ s. bindings_of (reverse s.bounds.items) };

    ghost invariant = { λ s. IsIndexed (reverse s.bounds.items) s.newest };
}

impl Scope {
    // What is in force before the root: nothing but `xml`.
    #[tactic(auto, unfolding(crate::specs::Names::first_scope))]
    pub fn new(alloc: Global) -> Result<Scope, Memory>
        ensures { IfOk result (λ s. s ≡ first_scope) }
    {
        let mut scope = Scope {
            bounds: Vec::new(alloc),
            newest: BTreeMap::new(alloc),
        };
        let address = Text::from_str(alloc, "http://www.w3.org/XML/1998/namespace")?;
        scope.push(alloc, "xml", &address)?;
        Ok(scope)
    }

    // The address that a prefix is bound to.
    pub fn address(&self, prefix: &str) -> Option<&Text>
        ensures { option_copied result ≡ lookup self.now prefix.now }
    {
        match self.newest.get(prefix) {
            Some(place) => Some(&self.bounds[*place].binding.address),
            None => None,
        }
    }

    // The address of a namespace, empty where the prefix has none.
    #[tactic(auto, unfolding(crate::specs::Names::address_of))]
    pub fn address_or_empty(&self, prefix: &str) -> &str
        ensures { result.now ≡ address_of self.now prefix.now }
    {
        match self.address(prefix) {
            Some(address) => address.as_str(),
            None => "",
        }
    }

    // The address of a namespace, empty where the prefix has none. It shares the bytes of the declaration's.
    #[tactic(auto, unfolding(crate::specs::Names::address_of))]
    pub fn space(&self, alloc: Global, prefix: &str) -> Result<Text, Memory>
        ensures { IfOk result (λ t. t ≡ address_of self.now prefix.now) }
    {
        match self.address(prefix) {
            Some(address) => address.copy(alloc),
            None => Ok(Text::new(alloc)),
        }
    }

    // One more binding, which hides an older one of its prefix. Where memory is refused it stays as it was.
    fn push(&mut self, alloc: Global, prefix: &str, address: &Text) -> Result<(), Memory>
        ensures ok { OnOk result (self.new ≡ record { prefix = prefix.now; address = address.now } ∷ self.old) }
        ensures err { OnErr result (self.new ≡ self.old) }
    {
        let binding = Binding {
            prefix: Text::from_str(alloc, prefix)?,
            address: address.copy(alloc)?,
        };
        let key = String::from_str(alloc, prefix)?;
        let hides = self.newest.get(prefix).copied();
        let place = self.bounds.len();
        self.bounds.push(Bound { binding, hides })?;
        if self.newest.insert(key, place).is_err() {
            self.bounds.truncate(place);
            return Err(Memory);
        }
        Ok(())
    }

    // Without the newest binding, so that the one that it hides is in force again.
    fn pop(&mut self)
        ensures { self.new ≡ drop 1 self.old }
    {
        match self.bounds.pop() {
            Some(bound) => restore(&mut self.newest, bound.binding.prefix.as_str(), bound.hides),
            None => {}
        }
    }

    // Without so many of the newest bindings.
    pub fn forget(&mut self, count: usize)
        ensures { self.new ≡ drop count self.old }
    {
        for _ in 0..count {
            self.pop();
        }
    }

    // The declarations of a start tag come into force, and the result is their number.
    #[tactic(auto, unfolding(crate::specs::Names::scope_in))]
    pub fn declare(&mut self, alloc: Global, raw: &[Raw]) -> Result<usize, Memory>
        ensures scope { OnOk result (self.new ≡ scope_in raw.now self.old) }
        ensures count { IfOk result (λ n. n ≡ length (declared raw.now)) }
    {
        let mut count = 0;
        for attribute in raw {
            if is_declaration(attribute) {
                self.push(alloc, declared_prefix(attribute), &attribute.value)?;
                count += 1;
            }
        }
        Ok(count)
    }
}

// Puts back what the index said of a prefix.
fn restore(newest: &mut BTreeMap<String, usize>, prefix: &str, place: Option<usize>)
    requires { IsSome (get_by_text newest.old prefix.now) }
    ensures { (p : List ℕ) → get_by_text newest.new p ≡ (if bytes_eq prefix.now p then place else get_by_text newest.old p) }
{
    match place {
        Some(place) => {
            if let Some(slot) = newest.get_mut(prefix) {
                *slot = place;
            }
        }
        None => {
            newest.remove(prefix);
        }
    }
}
