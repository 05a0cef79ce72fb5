//! The commands that a walk uses, by which each is found.
ghost use Rattle.std.specs.Prelude.{◌≡◌, IfOk};
ghost use Rattle.zi_choice.specs.Walk.{is_used};
ghost use Rattle.zi_sels.specs.Using.{walk_with};

use std::alloc::Global;
use std::collections::HashSet;
use std::marker::Model;
use zi_choice::Used;
use zi_text::Memory;

// A command's name, with the number of its interface.
#[derive(Clone, Copy, PartialEq, Eq, Hash)]
struct Key<'u> {
    interface: u32,
    command: &'u str,
}

/// The commands that are used. Each is found in constant time. Contracts see the list of them.
pub struct UsedTable<'u> {
    used: &'u [Used],
    keys: HashSet<Key<'u>>,
}

// One call wherever one is dropped.
impl<'u> Drop for UsedTable<'u> {
    fn drop(self) {
        let UsedTable { used: _, keys: _ } = self;
    }
}

impl<'u> Model for UsedTable<'u> {
    ghost use Rattle.std.specs.Prelude.{◌≡◌, ℕ, ◌==◌, ◌&&◌, List, bytes_eq};
    ghost use Rattle.std.specs.List.{list_any};
    ghost use Rattle.zi_choice.specs.declared.traced.Used.{Used as AUsed};
    ghost use Rattle.zi_choice.specs.Walk.{is_used};
    ghost use Rattle.zi_sels.specs.Using.{walk_with};

    ghost Value = { List AUsed };

    ghost view = { λ t. t.used.now };

    ghost invariant = { λ t. (i : ℕ) → (name : List ℕ) → list_any (λ k. i == k.interface && bytes_eq name k.command.now) t.keys.keys ≡ is_used (walk_with t.used.now) i name };
}

impl<'u> UsedTable<'u> {
    /// Of these commands.
    pub fn of(alloc: Global, used: &'u [Used]) -> Result<UsedTable<'u>, Memory>
        ensures { IfOk result (λ t. t ≡ used.now) }
    {
        let mut keys = HashSet::new(alloc);
        for x in used {
            keys.insert(Key {
                interface: x.interface,
                command: x.command.as_str(),
            })?;
        }
        Ok(UsedTable { used, keys })
    }

    /// Whether a command of the interface of this number is used.
    pub fn has(&self, interface: u32, command: &str) -> bool
        ensures { result ≡ is_used (walk_with self.now) interface command.now }
    {
        self.keys.contains(&Key { interface, command })
    }
}
