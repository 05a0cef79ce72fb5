//! The commands of a candidate by their names.
ghost use Rattle.std.specs.Prelude.{◌≡◌, OnOk, IfOk};
ghost use Rattle.std.specs.Map.{lookup};
ghost use Rattle.zi_choice.specs.Tables.{IsAdded, AreTheirPlaces};

use indexmap::IndexMap;
use std::alloc::Global;
use zi_inherited::{Inherited, Shared};
use zi_parts::Command;
use zi_text::{Memory, Text};

/// The places of a candidate's commands by their names; of commands that share a name the first one's.
pub(crate) struct CommandTable {
    pub places: IndexMap<Text, usize>,
}

// One call wherever one is dropped.
impl Drop for CommandTable {
    fn drop(self) {
        let CommandTable { places: _ } = self;
    }
}

// One place more, unless there is one of that name.
fn add(
    alloc: Global,
    places: &mut IndexMap<Text, usize>,
    name: &Text,
    place: usize,
) -> Result<(), Memory>
    ensures { OnOk result (IsAdded places.old.entries name.now place places.new.entries) }
{
    if places.contains_key(name) {
        return Ok(());
    }
    let key = name.copy(alloc)?;
    places.insert(key, place)?;
    Ok(())
}

/// The table of some commands, in time linear in their names.
pub(crate) fn table_of(
    alloc: Global,
    commands: &Inherited<Shared<Command>>,
) -> Result<CommandTable, Memory>
    ensures { IfOk result (λ t. AreTheirPlaces commands.now t.places.entries) }
{
    let mut places = IndexMap::new(alloc);
    for place in 0..commands.len() {
        let command = commands.at(place);
        add(alloc, &mut places, &command.name, place)?;
    }
    Ok(CommandTable { places })
}
