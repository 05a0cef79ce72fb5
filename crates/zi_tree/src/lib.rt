//! Folder trees as values: finite maps from names to files, links and trees, and the relative paths that lead to them.
//! A path may have millions of parts: no call on a tree or a path, a drop included, takes stack in proportion to depth.
//! Contracts see a tree as the list of its entries in byte order of their names (specs/Dir.antt), a path as its parts.
//!
//! Read specs/Dir.antt, then Paths.antt (what stands at a path) and Order.antt (what every tree keeps). Code: `path`, `tree`
//! (the type, what stands in it), `search` (a name among entries, by halves), `way` (down a tree and back), `change` (insert,
//! take and exchange), `apart` (the drop), `limits` (how much a tree may have, where trees are limited), `place` and `walk` (all
//! nodes in the order of a manifest, specs/Walk.antt).
//!
//! Depth is kept off the stack. Going down, the folder that is entered is exchanged with what was above it, so the folders
//! above hang one in another in the places of those below; going up, each exchange is undone (specs/Ways.antt). No memory is
//! taken, so `take` can't fail. The drop goes to the last folder of the last folder and so on, hanging what is left of each
//! into the freed place of the one below; each step takes an entry away.
#![tactic(auto)]

mod apart;
mod change;
mod limits;
mod path;
mod place;
mod search;
mod tree;
mod walk;
mod way;

pub use change::{InsertFault, TreeLimit};
pub use limits::{DEPTH_LIMIT, NODES_LIMIT, SIZE_LIMIT};
pub use path::RelPath;
pub use place::Place;
pub use tree::{Tree, TreeNode};
pub use walk::places;
