ghost use Rattle.std.specs.Prelude.{◌≡◌, ◌<◌, ◌≤◌, ◌↔◌, [], true, length, slice_get, option_map, IsTrue, IfOk, IfErr, OnOk, OnErr};
ghost use Rattle.std.specs.Option.{option_copied};

use crate::place::place;
use crate::var::Var;
use std::alloc::Global;
use std::marker::Model;
use zi_text::{Memory, Text};

/// Variables, which contracts see as their list: names are distinct and stand in byte order.
#[derive(Debug, Drop)]
pub struct Vars {
    alloc: Global,
    all: Vec<Var>,
}

impl Model for Vars {
    ghost use Rattle.std.specs.Prelude.{◌≡◌, List, true};
    ghost use Rattle.zi_outside.specs.declared.var.Var.{Var};
    ghost use Rattle.zi_outside.specs.Vars.{are_in_order};

    ghost Value = { List Var };

    ghost view = { λ v. v.all.items };

    ghost invariant = { λ v. are_in_order v.all.items ≡ true };
}

impl Vars {
    ghost use Rattle.zi_outside.specs.Vars.{value_of, are_in_order, SetsOnly, with_var};

    /// No variables.
    pub fn new(alloc: Global) -> Vars
        ensures { result ≡ [] }
    {
        Vars {
            alloc,
            all: Vec::new(alloc),
        }
    }

    /// The number of variables.
    pub fn len(&self) -> usize
        ensures len { result ≡ length self.now }
        ensures ordered { are_in_order self.now ≡ true }
    {
        self.all.len()
    }

    /// Whether there is none.
    pub fn is_empty(&self) -> bool
        ensures { IsTrue result ↔ (self.now ≡ []) }
    {
        self.all.is_empty()
    }

    /// The name of a variable, by its place in byte order.
    pub fn name_at(&self, i: usize) -> &Text
        requires { i < length self.now }
        ensures { option_map (λ v. v.name) (slice_get self.now i) ≡ Some result.now }
    {
        &self.all[i].name
    }

    /// The value of a variable, by the place of its name in byte order.
    pub fn value_at(&self, i: usize) -> &Text
        requires { i < length self.now }
        ensures { option_map (λ v. v.value) (slice_get self.now i) ≡ Some result.now }
    {
        &self.all[i].value
    }

    /// The value of a name, where it is set.
    pub fn get(&self, name: &str) -> Option<&Text>
        ensures { option_copied result ≡ value_of self.now name.now }
    {
        match place(self.all.as_slice(), name) {
            Ok(at) => Some(&self.all[at].value),
            Err(_) => None,
        }
    }

    /// Sets a variable, in place of a value that is there. Where memory is refused nothing changes.
    pub fn set(&mut self, name: &str, value: &str) -> Result<(), Memory>
        ensures ok { OnOk result (SetsOnly self.old name.now value.now self.new) }
        ensures list { OnOk result (self.new ≡ with_var name.now value.now self.old) }
        ensures err { OnErr result (self.new ≡ self.old) }
    {
        let value = Text::from_str(self.alloc, value)?;
        match place(self.all.as_slice(), name) {
            Ok(at) => {
                self.all[at].value = value;
                Ok(())
            }
            Err(at) => {
                let name = Text::from_str(self.alloc, name)?;
                self.all.insert(at, Var { name, value })?;
                Ok(())
            }
        }
    }

    /// The same variables once more, which grow by this allocator. Memory is its one refusal.
    pub fn copy(&self, alloc: Global) -> Result<Vars, Memory>
        ensures { IfOk result (λ vars. vars ≡ self.now) }
    {
        let mut all = Vec::new(alloc);
        for var in self.all.iter() {
            all.push(var.copy(alloc)?)?;
        }
        Ok(Vars { alloc, all })
    }
}
