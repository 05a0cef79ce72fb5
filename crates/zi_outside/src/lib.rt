//! The outside as the program meets it: feeds and a web that are read, sinks that are written, programs that are
//! started, and variables.
//! Each trait has one view, a record of what is seen of its object, and each call says what that is before and after; beside
//! the traits stand the objects in memory, which fail where it was planned, and their twins that never fail.
//!
//! Each trait has one ghost member, `seen`, a record of what is seen of its object at one moment (specs/Views.antt:
//! `Feeding`, `Sinking`; Launched.antt: `Spawning`): what it tells, where it tells anything, the count of its faults, and the
//! numbers of the calls that are planned to fail. A call has one clause over the record before and the one after
//! (Outside.antt, Fetched.antt, Launched.antt). The forms in memory tell all: what they hold, and every address that they
//! were asked for; a real object tells nothing, and its record has the count alone. A count never falls and stands still at
//! its type's end (Count.antt).
//!
//! Code: a file for each trait (`feeds`, `web`, `sink`, `spawner`) and for each form in memory (`memory_..` fail where it was
//! planned, `sure_..` never), `vars` (the variables, in byte order), `launch` (what is launched), `log` (what is told of
//! failures).
#![tactic(auto)]

mod failing;
mod feeds;
mod launch;
mod log;
mod memory_feeds;
mod memory_sink;
mod memory_spawner;
mod memory_web;
mod place;
mod sink;
mod spawner;
mod sure_feeds;
mod sure_sink;
mod sure_spawner;
mod sure_web;
mod var;
mod vars;
mod web;

pub use feeds::{Feeds, FeedsFault, Got};
pub use launch::{Dir, Launch};
pub use memory_feeds::MemoryFeeds;
pub use memory_sink::MemorySink;
pub use memory_spawner::MemorySpawner;
pub use memory_web::MemoryWeb;
pub use sink::{Sink, SinkFault};
pub use spawner::{SpawnFault, Spawner};
pub use sure_feeds::SureFeeds;
pub use sure_sink::SureSink;
pub use sure_spawner::SureSpawner;
pub use sure_web::SureWeb;
pub use var::Var;
pub use vars::Vars;
pub use web::{Web, WebFault};
