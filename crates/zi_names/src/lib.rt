//! Namespaces in XML 1.0: the declarations of a start tag, the scopes of the open elements, and the constraints on names.
//! `Scopes` takes the start tags and end tags of a document in turn, and resolves the names of each start tag.
//! Contracts see it as the list of the scopes, each being the list of its bindings.
//!
//! The standard is Namespaces in XML 1.0 (Third Edition). Read specs/Names.antt first, which the crates above see closed,
//! then Scopes.antt. The code keeps all bindings in force as one stack (`scopes`), with an ordered map from each prefix to
//! its newest binding (`scope`); specs/Levels.antt and Places.antt say what both stand for.
#![tactic(auto)]

mod attributes;
mod bound;
mod entered;
mod known;
mod names;
mod repeats;
mod scope;
mod scopes;
mod tags;

pub use attributes::{Binding, Raw};
pub use entered::{Entered, Started};
pub use scopes::Scopes;
