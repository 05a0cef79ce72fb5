//! How much a tree may have, where trees are limited.
ghost use Rattle.std.specs.Prelude.{◌≡◌};
ghost use Rattle.zi_tree.specs.Limits.{limit_of};

use crate::change::TreeLimit;

/// How deep folders may lie one in another: the top folder has the depth 0.
pub const DEPTH_LIMIT: u64 = 64;

/// How many files, links and folders a tree may have.
pub const NODES_LIMIT: u64 = 100_000;

/// How many bytes the files of a tree may have together: 256 MiB.
pub const SIZE_LIMIT: u64 = 256 * 1024 * 1024;

impl TreeLimit {
    /// The most that a tree may have of this.
    pub fn most(self) -> u64
        ensures { result ≡ limit_of self }
    {
        match self {
            TreeLimit::Size => SIZE_LIMIT,
            TreeLimit::Nodes => NODES_LIMIT,
            TreeLimit::Depth => DEPTH_LIMIT,
        }
    }
}
