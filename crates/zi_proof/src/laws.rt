//! What acceptance means, over the definitions alone.
//! Each function is a law: it has no parameter and does nothing, and its clause is proved.
//! They join what the calls say one by one.

ghost use Rattle.zi_proof.specs.Laws.{LemmasAreTrue, BlocksExclude, ATextHasOneCertificate};

/// A lemma of a list that follows is true in every model of the formula.
pub fn lemmas_are_true()
    ensures { LemmasAreTrue }
{}

/// No model of the formula makes true what an accepted block assumes.
pub fn blocks_exclude()
    ensures { BlocksExclude }
{}

/// A proof text has one certificate. So what is read of what was written is the same certificate: `write` adds the text
/// of its certificate, and `read` gives one whose text its bytes are.
pub fn a_text_has_one_certificate()
    ensures { ATextHasOneCertificate }
{}
