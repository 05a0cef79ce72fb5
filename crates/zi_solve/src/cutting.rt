//! The choice of a trail: its true candidates, as far as the walk comes to them.
ghost use Rattle.std.specs.Prelude.{◌≡◌, ◌<◌, None, false, IfOk, cond, map, length, slice_index_or};
ghost use Rattle.zi_choice.specs.Choice.{pick};
ghost use Rattle.zi_choice.specs.Traces.{as_place};
ghost use Rattle.zi_solve.specs.Making.{IsCut};

use std::alloc::Global;
use zi_choice::Place;
use zi_numbering::listed;
use zi_text::{List, Memory};

// What is picked for an interface, where the walk comes to it.
fn kept(picks: &[Option<u32>], marks: &[bool], i: usize) -> Option<u32>
    requires same { length marks.now ≡ length picks.now }
    requires within { i < length picks.now }
    ensures { result ≡ cond (slice_index_or marks.now i false) (pick picks.now i) None }
{
    if marks[i] { picks[i] } else { None }
}

/// What is picked for the interfaces of a walk, and nothing elsewhere.
pub(crate) fn cut(
    alloc: Global,
    picks: &[Option<u32>],
    places: &[Place],
) -> Result<List<Option<u32>>, Memory>
    ensures { IfOk result (λ cut. IsCut picks.now (map as_place places.now) cut) }
{
    let marks = listed(alloc, places, picks.len())?;
    let mut cut = List::new(alloc);
    for i in 0..picks.len() {
        cut.push(kept(picks, marks.as_slice(), i))?;
    }
    Ok(cut)
}
