//! The place of a name among entries.

ghost use Rattle.std.specs.Prelude.{◌≡◌, ◌<◌, ◌≤◌, true, None, length, MatchResult};
ghost use Rattle.zi_tree.specs.Views.{items_of, dir_of};
ghost use Rattle.zi_tree.specs.Order.{is_tree};
ghost use Rattle.zi_tree.specs.Paths.{node_in};
ghost use Rattle.zi_tree.specs.Places.{IsAt, IsPlace};

use crate::tree::Entry;

/// Where the entry of this name is, or else where one would go.
pub(crate) fn find_entry(entries: &[Entry], name: &str) -> Result<usize, usize>
    requires { is_tree (dir_of entries.now) ≡ true }
    ensures { MatchResult result
        (λ i. (i < length entries.now) × IsAt name.now entries.now i)
        (λ i. (i ≤ length entries.now) × IsPlace name.now entries.now i × (node_in name.now (items_of entries.now) ≡ None)) }
{
    entries.binary_search_by(|entry| entry.name.as_str().cmp(name))
}
