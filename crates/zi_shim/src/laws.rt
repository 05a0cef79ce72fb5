//! The law that joins the calls. The function does nothing; its clause is the law.

ghost use Rattle.zi_shim.specs.Laws.{ShimsSayTheirWords};

/// The words of a shim are read from its text, a text says one list of words, what is read of bytes is one, and no two lists have one text.
pub fn shims_say_their_words()
    ensures { ShimsSayTheirWords }
{}
