//! Laws that join the calls. Each function does nothing; its clause is the law.

ghost use Rattle.zi_manifest.specs.Listing.{WrittenIsListed};

/// The manifest of a tree is read as a listing, whose lines are the tree's.
pub fn written_is_listed()
    ensures { WrittenIsListed }
{}
