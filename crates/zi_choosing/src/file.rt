//! A file that words or variables name.
ghost use Rattle.std.specs.Prelude.{MatchResult};
ghost use Rattle.zi_world.specs.Files.{GetsWithin, IsMissing};

use std::alloc::Global;
use zi_outcome::Outcome;
use zi_outside::{Feeds, FeedsFault, Got};
use zi_text::Text;

/// The bytes of a file, of which there are no more than a limit.
///
/// Outcomes other than bytes: `FeedRead` only where the feeds failed, `NoFile` and `FeedTooLong` where the file isn't there or has more
/// bytes, and `Memory`.
pub(crate) fn get_file<F: Feeds>(
    alloc: Global,
    file: Text,
    limit: u64,
    feeds: &mut F,
) -> Result<Vec<u8>, Outcome>
    ensures { MatchResult result
        (λ bytes. GetsWithin limit file (F.seen feeds.old) (F.seen feeds.new) bytes.items)
        (IsMissing limit file (F.seen feeds.old) (F.seen feeds.new)) }
{
    let mut bytes = Vec::new(alloc);
    match feeds.get(file.as_str(), limit, &mut bytes) {
        Ok(Got::Held) => Ok(bytes),
        Ok(Got::Absent) => Err(Outcome::NoFile { name: file }),
        Ok(Got::TooLong) => Err(Outcome::FeedTooLong { uri: file, limit }),
        Err(FeedsFault::Failed) => Err(Outcome::FeedRead { uri: file }),
        Err(FeedsFault::Memory) => Err(Outcome::Memory),
    }
}
