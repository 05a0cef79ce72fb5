//! What the elements inside a group or an implementation mean: dependencies, commands, bindings, digests and the ways to fetch;
//! with the types of all that a feed's elements say. The format is the Zero Install feed format.
//!
//! specs/Values.antt has bindings, dependencies and commands, Digests.antt which digest name a text spells and which ones elements
//! say, Methods.antt the ways to fetch. Each is defined by one element and the elements that count in it, whatever stands around it.
//!
//! `types` has the types, `parts` dependencies, commands and bindings, `shims` the bindings of a dependency that make a command of
//! it known as a program, `digests` and `methods` what their names say, `copies` the same once more. `laws` has a law: that a
//! digest is the one that is spelled so.
#![tactic(auto)]

mod copies;
mod digests;
mod laws;
mod methods;
mod parts;
mod shims;
mod types;

pub use copies::{
    add_bindings, copied_arch, copy_bindings, copy_digests, copy_text, copy_texts, copy_words,
};
pub use digests::{attribute_by, digest_by, digests_of, said_digests};
pub use laws::digests_are_those_spelled;
pub use methods::methods_of;
pub use parts::{
    address_in, binding_of, bindings_of, command_of, commands_of, copied, dep_of, deps_of,
    importance_of, mode_of, value_text,
};
pub use types::{
    Binding, Command, Dep, DepKind, Extra, Impl, Import, Method, Mode, Native, Package, Runner,
    Step, Word,
};
