//! What is selected, found by its interface, and its commands, found by their names.
ghost use Rattle.std.specs.Prelude.{◌≡◌, map, IfOk, OnOk, option_map, option_copied};
ghost use Rattle.zi_plan.specs.Placed.{placed_for};
ghost use Rattle.zi_plan.specs.Steps.{placed_seen, wanted_seen, command_for, AddsCommands, AddsPlaced};

use crate::placing::InFolder;
use std::alloc::Global;
use std::collections::HashMap;
use std::marker::Model;
use zi_parts::Command;
use zi_text::Memory;

/// A command that is wanted: the interface that it is of, and its name.
#[derive(Clone, Copy, PartialEq, Eq, Hash)]
pub struct Wanted<'a> {
    pub interface: &'a str,
    pub command: &'a str,
}

/// What is selected: the first selection of each interface, and the first command of each of its names, each of which is found in
/// constant time. Contracts see the list of all selections in their folders.
pub struct Table<'a> {
    all: &'a [InFolder<'a>],
    selected: HashMap<&'a str, InFolder<'a>>,
    commands: HashMap<Wanted<'a>, &'a Command>,
}

// One call wherever one is dropped.
impl<'a> Drop for Table<'a> {
    fn drop(self) {
        let Table {
            all: _,
            selected: _,
            commands: _,
        } = self;
    }
}

impl<'a> Model for Table<'a> {
    ghost use Rattle.std.specs.Prelude.{◌≡◌, List, map};
    ghost use Rattle.zi_plan.specs.Placed.{Placed};
    ghost use Rattle.zi_plan.specs.Steps.{placed_seen, FindsSelected, FindsCommands};

    ghost Value = { List Placed };

    ghost view = { λ t. map placed_seen t.all.now };

    ghost invariant = { λ t. FindsSelected (map placed_seen t.all.now) t.selected.entries × FindsCommands (map placed_seen t.all.now) t.commands.entries };
}

// Adds the commands of an interface, of those that share a name the first.
fn add_commands<'a>(
    interface: &'a str,
    commands: &'a [Command],
    table: &mut HashMap<Wanted<'a>, &'a Command>,
) -> Result<(), Memory>
    ensures { OnOk result (AddsCommands interface.entry.now commands.entry.now table.old.entries table.new.entries) }
{
    let mut left = commands.len();
    while left > 0 {
        left -= 1;
        let command = &commands[left];
        let wanted = Wanted {
            interface,
            command: command.name.as_str(),
        };
        table.insert(wanted, command)?;
    }
    Ok(())
}

// Adds a selection with its commands, unless its interface has one.
fn add<'a>(
    x: InFolder<'a>,
    selected: &mut HashMap<&'a str, InFolder<'a>>,
    commands: &mut HashMap<Wanted<'a>, &'a Command>,
) -> Result<(), Memory>
    ensures { OnOk result (AddsPlaced (placed_seen x.entry) selected.old.entries commands.old.entries selected.new.entries commands.new.entries) }
{
    let interface = x.selection.interface.as_str();
    if selected.contains_key(&interface) {
        return Ok(());
    }
    selected.insert(interface, x)?;
    add_commands(interface, x.selection.commands.as_slice(), commands)?;
    Ok(())
}

impl<'a> Table<'a> {
    /// Of these selections, in time linear in them and their commands.
    pub fn of(alloc: Global, all: &'a [InFolder<'a>]) -> Result<Table<'a>, Memory>
        ensures { IfOk result (λ t. t ≡ map placed_seen all.entry.now) }
    {
        let mut selected = HashMap::new(alloc);
        let mut commands = HashMap::new(alloc);
        for x in all {
            add(*x, &mut selected, &mut commands)?;
        }
        Ok(Table {
            all,
            selected,
            commands,
        })
    }

    /// All of them, in their order.
    pub fn all(&self) -> &'a [InFolder<'a>]
        ensures { map placed_seen result.now ≡ self.now }
    {
        self.all
    }

    /// What is selected for an interface.
    pub fn find(&self, interface: &str) -> Option<InFolder<'a>>
        ensures { option_map placed_seen result ≡ placed_for self.now interface.now }
    {
        self.selected.get(&interface).copied()
    }

    /// The command that is wanted.
    pub fn command(&self, wanted: Wanted<'_>) -> Option<&'a Command>
        ensures { option_copied result ≡ command_for self.now (wanted_seen wanted.entry) }
    {
        self.commands.get(&wanted).copied()
    }
}
