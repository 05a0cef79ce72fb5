//! What the user asks for, and the platforms, bit groups and conditions that depend on it, by table.
//! The tables are those of the Zero Install feed format. Ranks, groups and conditions take no memory; a rank is the place
//! in the list of what is run, the best first.
//!
//! specs/Platform.antt has the tables of platforms, bit groups and conditions; src/platform.rt reads them off, src/arch.rt
//! reads a platform from a text, src/types.rt has what the user asks for. specs/Stabilities.antt has the words of stabilities,
//! src/stability.rt reads and says them.
#![tactic(auto)]

mod arch;
mod platform;
mod stability;
mod types;

pub use platform::{active, group, machine_rank, machine_rank_of, os_rank, os_rank_of};
pub use types::{Arch, Condition, Network, Override, Policy, Stability, Width};
