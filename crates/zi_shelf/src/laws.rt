//! Laws of what a shelf is. Each function does nothing; its clause is the law.

ghost use Rattle.zi_shelf.specs.FittingLaw.{FittingLaw};

/// A call that makes a folder, a link or a file fits exactly where the folder that is to hold the entry is there and the
/// name in it is free. Bytes are also added where a file is, and a file is finished exactly where one is.
pub fn fitting()
    ensures { FittingLaw }
{}
