//! What holds of feeds as such.
//! Each law is a function without parameters and with an empty body, whose clause is the law.
//! `Feed::from_tree` cites the same definitions.
ghost use Rattle.zi_feed.specs.Places.{ImplsAreInOrder};

/// Where a tree has no fault, the implementations of its feed stand where the `implementation` elements do that count, one
/// for each, in document order. So where places rise through the tree, theirs rise, and no two have one place.
pub fn impls_are_in_order()
    ensures { ImplsAreInOrder }
{}
