//! What stands along a path: what is said, what its elements add, and what is made of what is said.
ghost use Rattle.std.specs.Prelude.{◌≡◌, IfOk, option_copied};
ghost use Rattle.zi_elements.specs.Forest.{element_view};
ghost use Rattle.zi_reading.specs.Ways.{ways_of};
ghost use Rattle.zi_feed.specs.Active.{kept_own};
ghost use Rattle.zi_faults.specs.Carrying.{said_by, IsChecked};
ghost use Rattle.zi_faults.specs.Said.{unsaid, taken};
ghost use Rattle.zi_feed.specs.Inward.{made_of, own_of, added_nothing, added_with, IsAdded};
ghost use Rattle.zi_feed.specs.Shares.{Adds, AreLevels, NumbersFit};

use crate::along::{Added, added_nothing, added_with, own_of};
use crate::made::{Made, made_at, made_nothing};
use crate::shares::{Numbers, Shares, numbers_at};
use std::alloc::Global;
use zi_faults::{Carried, checked, nothing};
use zi_policy::Policy;
use zi_reading::{Part, Ways};
use zi_text::Memory;

/// What stands along a path.
pub struct Around<'a> {
    /// What its elements say.
    pub said: Carried<'a>,
    /// What they add.
    pub added: Added,
    /// What is made of what they say.
    pub made: Made,
    /// The numbers of what is shared of it.
    pub numbers: Numbers,
}

// One call wherever one is dropped.
impl<'a> Drop for Around<'a> {
    fn drop(self) {
        let Around {
            said: _,
            added: _,
            made: _,
            numbers: _,
        } = self;
    }
}

/// What stands where there is no element yet.
pub fn around_nothing<'a>(alloc: Global, ways: Ways) -> Result<Around<'a>, Memory>
    ensures said { IfOk result (λ a. said_by a.said ≡ unsaid) }
    ensures checked { IfOk result (λ a. IsChecked (ways_of ways.entry) a.said) }
    ensures added { IfOk result (λ a. a.added ≡ added_nothing) }
    ensures made { IfOk result (λ a. a.made ≡ made_of (ways_of ways.entry) unsaid) }
    ensures numbers { IfOk result (λ a. a.numbers ≡ record { version = 0; langs = 0; level = 0 }) }
{
    let made = made_nothing(alloc, ways)?;
    Ok(Around {
        said: nothing(),
        added: added_nothing(),
        made,
        numbers: Numbers::nothing(),
    })
}

/// What stands along a path with one element more.
pub fn around_with<'a>(
    alloc: Global,
    ways: Ways,
    policy: Option<&Policy>,
    outer: &Around<'a>,
    part: &Part<'a>,
    shares: &mut Shares,
) -> Result<Around<'a>, Memory>
    requires checked { IsChecked (ways_of ways) outer.now.said }
    requires added { IsAdded outer.now.added }
    requires made { outer.now.made ≡ made_of (ways_of ways) (said_by outer.now.said) }
    requires levels { AreLevels shares.old.levels }
    requires fit { NumbersFit shares.old outer.now.numbers outer.now.made.version outer.now.made.langs outer.now.added.deps }
    ensures said { IfOk result (λ a. said_by a.said ≡ taken (said_by outer.now.said) (element_view part.now)) }
    ensures checked { IfOk result (λ a. IsChecked (ways_of ways.entry) a.said) }
    ensures added { IfOk result (λ a. a.added ≡ added_with outer.now.added (kept_own (option_copied policy.entry) (own_of (ways_of ways.entry) (element_view part.now)))) }
    ensures latest { IfOk result (λ a. IsAdded a.added) }
    ensures made { IfOk result (λ a. a.made ≡ made_of (ways_of ways.entry) (said_by a.said)) }
    ensures adds { IfOk result (λ _. Adds shares.old shares.new) }
    ensures fit { IfOk result (λ a. NumbersFit shares.new a.numbers a.made.version a.made.langs a.added.deps) }
{
    let e = part.element();
    let said = checked(alloc, ways, outer.said, e)?;
    let own = own_of(alloc, ways, policy, part)?;
    let added = added_with(alloc, &outer.added, own)?;
    let made = made_at(alloc, ways, outer, &said, e)?;
    let numbers = numbers_at(alloc, outer, &made, &added, e, shares)?;
    Ok(Around {
        said,
        added,
        made,
        numbers,
    })
}
