//! The packages of the operating system, by the table that the user hands in.
ghost use Rattle.std.specs.Prelude.{IfOk, MatchResult};
ghost use Rattle.zi_packages.specs.Table.{IsTableText};
ghost use Rattle.zi_sels_laws.specs.Rows.{HasRightRows};
ghost use Rattle.zi_world.specs.Asking.{FeedsStay};
ghost use Rattle.zi_choosing.specs.Table.{HasTable, LacksTable, IsNoTable};

use crate::file::get_file;
use std::alloc::Global;
use zi_outcome::Outcome;
use zi_outside::Feeds;
use zi_packages::{Packages, PackagesFault};
use zi_sels_laws::rows_that_are_read_are_right;
use zi_text::Text;

// How many bytes a table may have: 4 MiB.
const TABLE_LIMIT: u64 = 4_194_304;

// The table that bytes say.
fn read_table(alloc: Global, bytes: &[u8]) -> Result<Packages, Outcome>
    ensures { MatchResult result (IsTableText bytes.now) (IsNoTable bytes.now) }
{
    match Packages::read(alloc, bytes) {
        Ok(packages) => Ok(packages),
        Err(PackagesFault::Bad { line }) => Err(Outcome::BadPackages { line }),
        Err(PackagesFault::Memory) => Err(Outcome::Memory),
    }
}

/// The packages in the table of a file; without a file there are none, and the feeds aren't asked.
///
/// Outcomes other than packages: `FeedRead` only where the feeds failed, `NoFile` and `FeedTooLong` where the file isn't there or has more
/// bytes than 4 MiB, `BadPackages` where its bytes are no table, and `Memory`.
#[tactic(auto, using(crate::proofs::KnownLemmas::no_rows))]
pub(crate) fn packages_in<F: Feeds>(
    alloc: Global,
    table: Option<Text>,
    feeds: &mut F,
) -> Result<Packages, Outcome>
    ensures has { MatchResult result
        (λ packages. HasTable table (F.seen feeds.old) packages (F.seen feeds.new))
        (λ outcome. LacksTable table (F.seen feeds.old) outcome (F.seen feeds.new)) }
    ensures rows { IfOk result HasRightRows }
    ensures stays { FeedsStay (F.seen feeds.old) (F.seen feeds.new) }
{
    let Some(file) = table else {
        return Ok(Packages::nothing(alloc));
    };
    let bytes = get_file(alloc, file, TABLE_LIMIT, feeds)?;
    rows_that_are_read_are_right();
    read_table(alloc, bytes.as_slice())
}
