//! Selections in byte order of their interfaces.
ghost use Rattle.std.specs.Prelude.{IsPermutation, IsSortedBy};
ghost use Rattle.std.specs.Ordering.{nat_cmp, is_lt};
ghost use Rattle.std.specs.Cmp.Lexicographic.{slice_cmp};

use crate::types::Selection;

/// Puts selections into byte order of their interfaces.
pub fn sort(items: &mut Vec<Selection>)
    ensures same { IsPermutation items.old.items items.new.items }
    ensures sorted { IsSortedBy (λ x y. is_lt (slice_cmp nat_cmp x.interface y.interface)) items.new.items }
{
    items.sort_unstable_by(|x, y| x.interface.cmp(&y.interface));
}
