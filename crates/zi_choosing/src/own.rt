//! Whether selections are those of a choice.
ghost use Rattle.std.specs.Prelude.{◌≡◌, ◌↔◌, IsTrue, IfOk, IsPermutation, IsSortedBy};
ghost use Rattle.std.specs.Ordering.{nat_cmp, is_lt};
ghost use Rattle.std.specs.Cmp.Lexicographic.{slice_cmp};
ghost use Rattle.zi_choosing.specs.Named.{AreReordered, AreOwn};

use std::alloc::Global;
use zi_choice::Choice;
use zi_sels::{Selection, Selections, from_choice};
use zi_text::{List, Memory};
use zi_universe::{Requirement, Universe};

// Puts selections into byte order of their interfaces.
fn sort(items: &mut Vec<Selection>)
    ensures same { IsPermutation items.old.items items.new.items }
    ensures sorted { IsSortedBy (λ x y. is_lt (slice_cmp nat_cmp x.interface y.interface)) items.new.items }
{
    items.sort_unstable_by(|x, y| x.interface.cmp(&y.interface));
}

// The same selections with their items in byte order of the interface.
fn in_order(sels: Selections) -> Selections
    ensures same { AreReordered sels result }
    ensures sorted { IsSortedBy (λ x y. is_lt (slice_cmp nat_cmp x.interface y.interface)) result.items }
{
    let Selections {
        interface,
        command,
        items,
    } = sels;
    let mut sorted = items.into_vec();
    sort(&mut sorted);
    Selections {
        interface,
        command,
        items: List::from_vec(sorted),
    }
}

// Whether selections are one value, versions by their text.
fn are_same(a: &Selections, b: &Selections) -> bool
    ensures { IsTrue result ↔ (a.now ≡ b.now) }
{
    a == b
}

/// Whether selections, with their items in byte order of the interface, are those of a choice.
pub(crate) fn are_own(
    alloc: Global,
    universe: &Universe,
    req: &Requirement,
    choice: &Choice,
    sels: Selections,
) -> Result<bool, Memory>
    ensures { IfOk result (λ yes. IsTrue yes ↔ AreOwn universe.now req.now choice.now.picks sels) }
{
    let _whole = universe.interfaces();
    let own = from_choice(alloc, universe, req, choice)?;
    let ordered = in_order(sels);
    Ok(are_same(&own, &ordered))
}
