//! Documents: the tree that the bytes of a document spell, or the one fault that they have.
//! The types of the tree, which stand in `zi_elements`, are named here once more.
//! A fault has its kind, with a number, and its place in bytes.
//!
//! What a document spells is said in `zi_xml`; specs/Documents.antt and Answers.antt here say what `read` answers. The reader
//! (`reader`) runs the machine of `zi_xml` over a text that was tested for UTF-8 once: it has one method per state, each
//! proved to do what the machine's step says (specs/View.antt, Moves.antt), grouped by what they read: `declaration`,
//! `markup`, `tags`, `references`, `content`, `texts`.
#![tactic(auto)]

mod chars;
mod content;
mod declaration;
mod fault;
mod laws;
mod letters;
mod markup;
mod reader;
mod references;
mod state;
mod tags;
mod texts;

pub use chars::is_char;
pub use fault::{DocFault, DocKind};
pub use laws::one_answer;
pub use reader::read;
pub use zi_elements::{Attr, Document, Element, Node};
