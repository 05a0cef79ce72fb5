//! A session: the name and the calls of one tree, and how far they are made.
//! The list of calls that fill is made once, before the first step.
//! The text of the temporary name is made before the call that makes the entry, so that no later step takes memory for it.

ghost use Rattle.std.specs.Prelude.{◌≡◌, ◌<◌, [], true, length, map, is_some};
ghost use Rattle.zi_shelf.specs.Filling.{trees};
ghost use Rattle.zi_session.specs.Made.{made};
ghost use Rattle.zi_session.specs.Phases.{tmp_name, keeps_tmp, is_filling};
ghost use Rattle.zi_session.specs.Works.{work_of};
ghost use Rattle.zi_session.specs.declared.phase.Phase.TheVariants.{Makes};

use crate::phase::Phase;
use crate::work::Work;
use std::alloc::Global;
use zi_text::Text;

/// One adder of the store: the adding of one tree under its digest name.
#[derive(Drop)]
pub struct Session {
    /// The digest name.
    pub(crate) name: Text,
    /// The calls that fill the temporary entry, in their order.
    pub(crate) works: Vec<Work>,
    pub(crate) phase: Phase,
    /// The number of the temporary name.
    pub(crate) number: u32,
    /// So many of the calls that fill are done.
    pub(crate) done: usize,
    /// The temporary name, once an entry of that name was made or was refused.
    pub(crate) tmp: Text,
    ghost named: { keeps_tmp phase ≡ true → tmp ≡ tmp_name number },
    ghost inside: { is_filling phase ≡ true → done < length works.items },
    ghost few: { number < 10000 },
    ghost fit: { is_some (made trees (map work_of works.items) (length (map work_of works.items)) trees.empty) ≡ true },
}

impl Session {
    /// A session before its first step. Its calls that fill fit an empty entry, one after the other.
    pub(crate) fn of(alloc: Global, name: Text, works: Vec<Work>) -> Session
        requires { is_some (made trees (map work_of works.items) (length (map work_of works.items)) trees.empty) ≡ true }
        ensures name { result.name ≡ name }
        ensures works { result.works ≡ works }
        ensures phase { result.phase ≡ Makes }
        ensures number { result.number ≡ 0 }
    {
        Session {
            name,
            works,
            phase: Phase::Makes,
            number: 0,
            done: 0,
            tmp: Text::new(alloc),
        }
    }
}
