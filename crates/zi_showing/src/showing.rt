//! The work of `show`.
ghost use Rattle.std.specs.Prelude.{map, IfOk};
ghost use Rattle.zi_showing.specs.Showing.{IsShown, ShowsSelections};
ghost use Rattle.zi_showing.specs.Steps.{PrintsText};

use crate::lines::{lines_of, names_of};
use crate::walking::walk;
use std::alloc::Global;
use zi_digest::DigestName;
use zi_opening::get_selections;
use zi_outcome::{Outcome, put_text};
use zi_outside::{Feeds, Sink};
use zi_sels::Selections;
use zi_shelf::{Shelf, ShelfFault};
use zi_store::stored_in;
use zi_text::{Memory, Text};

// The text of a document where these digests are stored.
fn text_of(alloc: Global, sels: &Selections, digests: &[DigestName]) -> Result<Vec<u8>, Memory>
    ensures { IfOk result (λ text. IsShown sels.now digests.now text.items) }
{
    let names = names_of(alloc, digests)?;
    let places = walk(alloc, sels)?;
    let text = lines_of(alloc, &names, places.as_slice())?;
    Ok(text)
}

// Prints it.
fn print<O: Sink>(alloc: Global, sels: &Selections, digests: &[DigestName], out: &mut O) -> Outcome
    ensures { PrintsText sels.now digests.now (O.seen out.old) (O.seen out.new) result }
{
    match text_of(alloc, sels, digests) {
        Ok(text) => put_text(text.as_slice(), out),
        Err(Memory) => Outcome::Memory,
    }
}

/// Reads the document of selections in a file, finds out which digests are in the stores, and writes for each selection a line, `ADDRESS
/// VERSION` and behind it ` package NAME`, or the path of its folder, or ` DIGEST stored` or ` DIGEST not stored`, or ` no folder` where it
/// has none of these; below it, two spaces further, ` command NAME` for each of its commands, and then what it is the first to need, depth
/// first from the root. What the root doesn't need comes behind that, in the order of the document. Of several digests that one is told
/// that is used: the first that is stored, in the order of use. What is deeper than 64 levels stands as what is 64 levels deep.
/// A character of a name that may not stand in a line is its escape, `\u{..}`.
///
/// Outcomes are `Done`, those of reading the file, `StoreFault` only where a store failed, `SinkFault` only where the output did, and
/// `Memory`. The work is linear in the document and the names in the stores, but for the sorting of these.
pub fn show<F: Feeds, K: Shelf, R: Shelf, O: Sink>(
    alloc: Global,
    file: Text,
    feeds: &mut F,
    shelf: &mut K,
    others: &mut [R],
    out: &mut O,
) -> Outcome
    ensures { ShowsSelections file
        (record { feeds = F.seen feeds.old; shelf = K.seen shelf.old; others = map R.seen others.old; out = O.seen out.old })
        (record { feeds = F.seen feeds.new; shelf = K.seen shelf.new; others = map R.seen others.new; out = O.seen out.new })
        result }
{
    let sels = match get_selections(alloc, file, feeds) {
        Ok(sels) => sels,
        Err(outcome) => return outcome,
    };
    match stored_in(alloc, shelf, others) {
        Ok(digests) => print(alloc, &sels, digests.as_slice(), out),
        Err(ShelfFault::Failed) => Outcome::StoreFault {
            name: Text::new(alloc),
        },
        Err(ShelfFault::Memory) => Outcome::Memory,
    }
}
