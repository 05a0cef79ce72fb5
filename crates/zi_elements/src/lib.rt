//! The tree of a document: elements with their namespaces, attributes, children and places, the tree as definitions read it, and
//! `Document`, the type of a tree that goes at most 64 elements deep.
//!
//! Contracts see an element as a plain record of lists (src/element.rt). specs/Forest.antt has nodes and siblings in one, so that
//! what is said of all elements of a tree is said by structural recursion, with the view of an element and the depth, and
//! specs/Places.antt where the elements stand. What is read of feeds and of selections, and what is written, is defined over this
//! view. Documents are made where bytes are read, by `zi_doc::read`: what recurses over one, a drop or a comparison too, is
//! bounded by its type. What a document spells stands in `zi_xml`.
#![tactic(auto)]

mod document;
mod element;

pub use document::Document;
pub use element::{Attr, Element, NAMESPACE, Node};
