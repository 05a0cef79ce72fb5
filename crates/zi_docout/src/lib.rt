//! The canonical text of a tree: one document in XML 1.0 for each tree of elements of the injector's namespace.
//! Such elements are made one by one by `element`, with `put_attr` and `put_child`.
//! What is written is read by `zi_doc::read` as the same tree, places and white space between elements aside.
//! A tree that can't be written so is refused with the number of the first element that is amiss.
//!
//! specs/Canonical.antt is the text. Amiss.antt lists the elements in the order of start tags, each with the number of
//! elements around it, and says which are amiss; Same.antt says when a tree that was read is the one that was written;
//! Answers.antt counts on from a number, for the proofs of the walk. Code: `amiss` (which element can't be written),
//! `escapes` (texts, values, tags), `writer` (one walk that tests an element, writes its line and goes down, so the depth is
//! tested before it grows), `elements`, `laws`. The text grows in a buffer of its own and is added as a whole, so a refused
//! call leaves what was lent as it was.
//!
//! The law builds the parse tree of a canonical text, and says what its tags mean under the root's one declaration and what
//! the whole means; it uses definitions of `zi_xml` and `zi_names` alone, and no machine.
#![tactic(auto)]

mod amiss;
mod elements;
mod escapes;
mod fault;
mod laws;
mod writer;

pub use elements::{element, put_attr, put_child};
pub use fault::WriteFault;
pub use laws::what_is_written_is_read;
pub use writer::write;
pub use zi_elements::{Attr, Element, Node};
