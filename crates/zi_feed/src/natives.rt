//! What a feed says of packages of the operating system.
ghost use Rattle.std.specs.Prelude.{◌≡◌, IfOk};
ghost use Rattle.zi_elements.specs.Forest.{element_view};
ghost use Rattle.zi_faults.specs.Carrying.{said_by};
ghost use Rattle.zi_feed.specs.Impls.{langs_of};
ghost use Rattle.zi_feed.specs.Inward.{IsAdded, native_at};

use crate::around::Around;
use crate::impls::{Along, along_of};
use std::alloc::Global;
use zi_parts::{Native, copied, value_text};
use zi_reading::{Part, value, words_in};
use zi_text::Memory;

/// What an element says of a package, where this stands along its path, itself included.
#[tactic(auto, unfolding(crate::specs::Inward::native_at))]
pub fn native_at(alloc: Global, around: &Around, part: &Part) -> Result<Native, Memory>
    requires added { IsAdded around.now.added }
    requires langs { around.now.made.langs ≡ langs_of (said_by around.now.said).langs }
    ensures { IfOk result (λ n. n ≡ native_at (said_by around.now.said) around.now.added (element_view part.now)) }
{
    let e = part.element();
    let package = value_text(alloc, e, "package")?;
    let distributions = words_in(alloc, value(e, "distributions"))?;
    let released = copied(alloc, around.said.released)?;
    let Along {
        langs,
        deps,
        commands,
        bindings,
    } = along_of(alloc, around)?;
    Ok(Native {
        package,
        distributions,
        released,
        langs,
        deps,
        commands,
        bindings,
        place: e.place,
    })
}
