ghost use Rattle.std.specs.Prelude.{◌≡◌, [], ◌∷◌, ◌<◌, drop, length, IfOk};
ghost use Rattle.zi_names.specs.Names.{first_scope};
ghost use Rattle.zi_names.specs.Scopes.{Enters};

use crate::attributes::Raw;
use crate::entered::{Entered, Started};
use crate::known::Known;
use crate::repeats::has_repeated;
use crate::scope::Scope;
use crate::tags::{has_bad_prefix, started};
use std::alloc::Global;
use std::marker::Model;
use zi_text::{List, Memory, Text};

/// The scopes of the open elements (Namespaces in XML 1.0, 6.1). Contracts see them as a list: the innermost first, and
/// behind that of the root the one in which `xml` alone is bound. Each is the list of its bindings, the newest first.
#[derive(Drop)]
pub struct Scopes {
    scope: Scope,
    // How many bindings each open element declares, the outermost first.
    counts: Vec<usize>,
    // The names so far, each held once.
    known: Known,
}

impl Model for Scopes {
    ghost use Rattle.std.specs.Prelude.{List, reverse};
    ghost use Rattle.zi_names.specs.declared.attributes.Binding.{Binding};
    ghost use Rattle.zi_names.specs.Levels.{levels};

    ghost Value = { List (List Binding) };

    ghost view = { λ s. levels (reverse s.counts.items) s.scope };
}

impl Scopes {
    /// The scope before the root. Memory is its one refusal.
    pub fn new(alloc: Global) -> Result<Scopes, Memory>
        ensures { IfOk result (λ s. s ≡ first_scope ∷ []) }
    {
        let scope = Scope::new(alloc)?;
        Ok(Scopes {
            scope,
            counts: Vec::new(alloc),
            known: Known::new(alloc),
        })
    }

    /// Takes a start tag, of this name as it is written and with these attributes. Memory is its one refusal.
    /// After anything but `Started` nothing is promised of the scopes.
    pub fn enter(&mut self, alloc: Global, name: &str, raw: List<Raw>) -> Result<Entered, Memory>
        ensures { IfOk result (λ e. Enters name.now raw self.old self.new e) }
    {
        let count = self.scope.declare(alloc, raw.as_slice())?;
        self.counts.push(count)?;
        if has_bad_prefix(name, raw.as_slice(), &self.scope) {
            return Ok(Entered::BadPrefix);
        }
        if has_repeated(alloc, raw.as_slice(), &self.scope)? {
            return Ok(Entered::Repeated);
        }
        let tag = started(alloc, name, raw, &self.scope, &mut self.known)?;
        Ok(Entered::Started(tag))
    }

    /// The text of a name. It shares the bytes of the first of that name, as long as not too many are held. Memory is its one
    /// refusal.
    pub fn text(&mut self, alloc: Global, name: &str) -> Result<Text, Memory>
        ensures text { IfOk result (λ t. t ≡ name.now) }
        ensures same { self.new ≡ self.old }
    {
        self.known.text(alloc, name)
    }

    /// Takes the end tag of the innermost element. Where none is open, nothing changes.
    pub fn leave(&mut self)
        ensures inner { 1 < length self.old → self.new ≡ drop 1 self.old }
        ensures none { length self.old ≡ 1 → self.new ≡ self.old }
    {
        if let Some(count) = self.counts.pop() {
            self.scope.forget(count);
        }
    }
}
