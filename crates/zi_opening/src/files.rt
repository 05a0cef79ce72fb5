//! What the selections of several files have.
ghost use Rattle.std.specs.Prelude.{◌≡◌, ◌++◌, OnOk};
ghost use Rattle.std.specs.List.{flat_map};
ghost use Rattle.zi_world.specs.Asking.{FeedsStay};
ghost use Rattle.zi_opening.specs.Files.{digests_in, digests_of, ReadsFiles};

use crate::opening::get_selections;
use std::alloc::Global;
use zi_digest::DigestName;
use zi_outcome::Outcome;
use zi_outside::Feeds;
use zi_sels::Selections;
use zi_text::{List, Memory, Text};

/// Adds digests.
fn add_all(digests: &mut List<DigestName>, more: &[DigestName]) -> Result<(), Memory>
    ensures { OnOk result (digests.new ≡ digests.old ++ more.now) }
{
    for digest in more {
        digests.push(*digest)?;
    }
    Ok(())
}

/// Adds the digests of each selection.
fn add_digests(digests: &mut List<DigestName>, sels: &Selections) -> Result<(), Memory>
    ensures { OnOk result (digests.new ≡ digests.old ++ digests_in sels.now) }
{
    for item in sels.items.as_slice() {
        add_all(digests, item.digests.as_slice())?;
    }
    Ok(())
}

/// The digests that the selections in these files have, file by file. The files are got and read in their order, each before the next
/// is got; where one isn't got, or isn't right, that is the outcome, and none behind it is asked for.
pub fn digests_of_files<F: Feeds>(
    alloc: Global,
    files: &[Text],
    feeds: &mut F,
) -> Result<List<DigestName>, Outcome>
    ensures reads { ReadsFiles files.now (F.seen feeds.old) result (F.seen feeds.new) }
    ensures stays { FeedsStay (F.seen feeds.old) (F.seen feeds.new) }
{
    let mut digests = List::new(alloc);
    for file in files {
        let Ok(name) = file.copy(alloc) else {
            return Err(Outcome::Memory);
        };
        match get_selections(alloc, name, feeds) {
            Ok(sels) => match add_digests(&mut digests, &sels) {
                Ok(()) => {}
                Err(_) => return Err(Outcome::Memory),
            },
            Err(outcome) => return Err(outcome),
        }
    }
    Ok(digests)
}
