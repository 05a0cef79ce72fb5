//! One document of selections.
ghost use Rattle.std.specs.Prelude.{MatchResult};
ghost use Rattle.zi_sels.specs.Reading.{Says};
ghost use Rattle.zi_world.specs.Asking.{FeedsStay};
ghost use Rattle.zi_opening.specs.Opening.{IsUnread, GetsSelections};

use std::alloc::Global;
use zi_outcome::Outcome;
use zi_outside::{Feeds, FeedsFault, Got};
use zi_sels::{Selections, SelsFault, read};
use zi_text::Text;

/// How many bytes a document of selections may have: 4 MiB.
const DOCUMENT_LIMIT: u64 = 4_194_304;

/// The selections that bytes mean.
fn read_selections(alloc: Global, bytes: &[u8]) -> Result<Selections, Outcome>
    ensures { MatchResult result (Says bytes.now) (IsUnread bytes.now) }
{
    match read(alloc, bytes) {
        Ok(sels) => Ok(sels),
        Err(SelsFault::Memory) => Err(Outcome::Memory),
        Err(fault) => Err(Outcome::BadSels { fault }),
    }
}

/// The selections of a file.
///
/// Outcomes other than selections: `FeedRead` only where the feeds failed, `NoFile` and `FeedTooLong` where the file isn't there or has
/// more bytes than 4 MiB, `BadSels` with the fault of its bytes, and `Memory`.
pub fn get_selections<F: Feeds>(
    alloc: Global,
    file: Text,
    feeds: &mut F,
) -> Result<Selections, Outcome>
    ensures gets { GetsSelections file (F.seen feeds.old) result (F.seen feeds.new) }
    ensures stays { FeedsStay (F.seen feeds.old) (F.seen feeds.new) }
{
    let mut bytes = Vec::new(alloc);
    match feeds.get(file.as_str(), DOCUMENT_LIMIT, &mut bytes) {
        Ok(Got::Held) => read_selections(alloc, bytes.as_slice()),
        Ok(Got::Absent) => Err(Outcome::NoFile { name: file }),
        Ok(Got::TooLong) => Err(Outcome::FeedTooLong {
            uri: file,
            limit: DOCUMENT_LIMIT,
        }),
        Err(FeedsFault::Failed) => Err(Outcome::FeedRead { uri: file }),
        Err(FeedsFault::Memory) => Err(Outcome::Memory),
    }
}
