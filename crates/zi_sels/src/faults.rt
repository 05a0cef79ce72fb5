//! What readers of parts answer, and the first of their faults.
ghost use Rattle.std.specs.Prelude.{OnOk};
ghost use Rattle.zi_sels.specs.Notes.{Notes};

use zi_faults::{Fault, FeedFault, lesser_of};
use zi_text::{List, Memory};

/// Takes the answer of a reader: what was read goes behind what was read so far, and a fault counts where it is the first so far.
pub fn note<T: Drop>(
    read: Result<T, FeedFault>,
    into: &mut List<T>,
    fault: &mut Option<Fault>,
) -> Result<(), Memory>
    ensures { OnOk result (Notes read into.old fault.old into.new fault.new) }
{
    match read {
        Ok(value) => into.push(value),
        Err(FeedFault::Bad { kind, place }) => {
            *fault = lesser_of(*fault, Some(Fault { kind, place }));
            Ok(())
        }
        Err(FeedFault::Memory) => Err(Memory),
    }
}
