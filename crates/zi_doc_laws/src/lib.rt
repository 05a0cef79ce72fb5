//! What every document that is read keeps: how deep its elements go, that its texts are whole, where its elements stand, and which
//! characters it holds. The laws stand over what `zi_xml` says that bytes spell; the reader makes its documents by them.
//!
//! It has no code: specs/Trees says what is kept, as relations over a tree and the bytes (the depth of a tree stands in
//! `zi_elements`), and the law that every tree keeps it that bytes spell. The proof goes over the parse tree of `zi_xml` alone,
//! no machine: CarriedLaws (texts and values are of characters that XML can carry), PastLaws (past each piece the place has gone
//! on by its bytes, and faults stay), FineLaws (nodes one behind another: what is known of those so far, whatever comes behind
//! them), TagLaws (what stands at a place in the bytes), KeepLaws (content, element by element) and TreeLaws (the whole
//! document).
#![tactic(auto)]

mod laws;

pub use laws::what_is_read_keeps;
