//! Laws of the calls of a session. Each function does nothing; its clause is the law.

ghost use Rattle.zi_session.specs.Rebuilding.{Rebuilds, PiecesLaw};
ghost use Rattle.zi_session.specs.Counting.{FewCalls};

/// The calls for a tree without a top `.manifest` rebuild it: each fits, and together they make the tree with the file
/// `.manifest`, which is read as the tree and so has its digest.
pub fn rebuilds()
    ensures { Rebuilds }
{}

/// The pieces of a file are its bytes, and none is too large.
pub fn pieces()
    ensures { PiecesLaw }
{}

/// A session makes at most six calls, one for each node of its tree, one for each piece that it writes, and one for each
/// temporary name found taken, those that were refused for want of memory aside.
pub fn few_calls()
    ensures { FewCalls }
{}
