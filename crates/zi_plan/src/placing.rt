//! Selections in their folders.
ghost use Rattle.std.specs.Prelude.{◌≡◌, [], ◌∷◌, ◌++◌, length, map, option_map, IfOk, OnOk};
ghost use Rattle.zi_plan.specs.Placed.{exposed};
ghost use Rattle.zi_plan.specs.Steps.{Places, PlacesOne, placed_seen, seen_ok};

use crate::PlanFault;
use std::alloc::Global;
use zi_outside::Dir;
use zi_sels::Selection;
use zi_text::{List, Memory, Text};

/// A selection in its folder; a package of the operating system has none.
#[derive(Clone, Copy)]
pub struct InFolder<'a> {
    pub selection: &'a Selection,
    pub folder: Option<&'a Text>,
}

// Adds one.
fn add<'a>(x: InFolder<'a>, placed: &mut Vec<InFolder<'a>>) -> Result<(), Memory>
    ensures { OnOk result (map placed_seen placed.new.items ≡ map placed_seen placed.old.items ++ placed_seen x.entry ∷ []) }
{
    placed.push(x)?;
    Ok(())
}

// A selection in its folder, or none where it has to have one.
fn placed_in<'a>(selection: &'a Selection, folder: &'a Option<Text>) -> Option<InFolder<'a>>
    ensures { PlacesOne selection.entry.now folder.entry.now (option_map placed_seen result) }
{
    if selection.package.is_some() {
        return Some(InFolder {
            selection,
            folder: None,
        });
    }
    match folder {
        Some(folder) => Some(InFolder {
            selection,
            folder: Some(folder),
        }),
        None => None,
    }
}

/// Selections in their folders, of which there is one entry each.
pub fn placed<'a>(
    alloc: Global,
    items: &'a [Selection],
    folders: &'a [Option<Text>],
) -> Result<Vec<InFolder<'a>>, PlanFault>
    requires { length folders.now ≡ length items.now }
    ensures { Places items.entry.now folders.entry.now (seen_ok (λ v. v.items) result) }
{
    let mut placed = Vec::new(alloc);
    for (place, selection) in items.iter().enumerate() {
        let Some(x) = placed_in(selection, &folders[place]) else {
            return Err(PlanFault::NoFolder {
                interface: selection.interface.copy(alloc)?,
            });
        };
        add(x, &mut placed)?;
    }
    Ok(placed)
}

/// Exposes a folder.
pub fn add_dir(
    alloc: Global,
    interface: &Text,
    folder: &Text,
    dirs: &mut List<Dir>,
) -> Result<(), Memory>
    ensures { OnOk result (dirs.new ≡ dirs.old ++ record { interface = interface.now; folder = folder.now } ∷ []) }
{
    dirs.push(Dir {
        interface: interface.copy(alloc)?,
        folder: folder.copy(alloc)?,
    })
}

// Exposes the folder of a selection, where it has one.
fn expose(alloc: Global, x: &InFolder<'_>, dirs: &mut List<Dir>) -> Result<(), Memory>
    ensures { OnOk result (dirs.new ≡ dirs.old ++ exposed (placed_seen x.now ∷ [])) }
{
    match x.folder {
        Some(folder) => add_dir(alloc, &x.selection.interface, folder, dirs),
        None => Ok(()),
    }
}

/// The folders that are exposed, in the order of the selections.
pub fn exposed(alloc: Global, placed: &[InFolder<'_>]) -> Result<List<Dir>, Memory>
    ensures { IfOk result (λ dirs. dirs ≡ exposed (map placed_seen placed.now)) }
{
    let mut dirs = List::new(alloc);
    for x in placed {
        expose(alloc, x, &mut dirs)?;
    }
    Ok(dirs)
}
