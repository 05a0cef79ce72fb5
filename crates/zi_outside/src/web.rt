ghost use Rattle.std.specs.Prelude.{◌≡◌};
ghost use Rattle.zi_outside.specs.Views.{Feeding};
ghost use Rattle.zi_outside.specs.Outside.{Gets};
ghost use Rattle.zi_outside.specs.Fetched.{as_get};

use crate::feeds::{FeedsFault, Got};
use zi_text::Memory;

/// Why a get found nothing out.
#[derive(Clone, Copy, Debug, PartialEq, Eq)]
pub enum WebFault {
    /// The object failed: its count of faults rose.
    Failed,
    /// Memory was refused: nothing changed.
    Memory,
}

impl From<Memory> for WebFault {
    ghost use Rattle.std.specs.Prelude.{◌≡◌};
    ghost use Rattle.zi_outside.specs.declared.web.WebFault.TheVariants.{Memory as NoMemory};

    ghost from_gives = { λ _ e. e ≡ NoMemory };

    fn from(_: Memory) -> WebFault {
        WebFault::Memory
    }
}

/// A map from web addresses to bytes, which reading doesn't change.
pub trait Web {
    /// What is seen of it: what it holds and the addresses asked for so far, where it tells them, its count of faults, which
    /// stands still at 2^64 - 1, and the calls that are planned to fail.
    ghost seen: { Self → Feeding };

    /// Appends the bytes of an address, if there are no more than the limit. After every answer but Held the buffer is as
    /// before.
    fn get(&mut self, href: &str, limit: u64, into: &mut Vec<u8>) -> Result<Got, WebFault>
        ensures gets { Gets (seen self.old) (record { key = href.now; limit = limit; buffer = into.old.items }) (as_get result) into.new.items (seen self.new) };
}

/// The answer of a get of a feed, as one of the web.
pub fn web_answer(got: Result<Got, FeedsFault>) -> Result<Got, WebFault>
    ensures { as_get result ≡ got }
{
    match got {
        Ok(got) => Ok(got),
        Err(FeedsFault::Failed) => Err(WebFault::Failed),
        Err(FeedsFault::Memory) => Err(WebFault::Memory),
    }
}
