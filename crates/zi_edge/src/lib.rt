//! Feeds, the web, the programs, the streams and the variables as they really are: what is in files, what a helper program gives,
//! what is launched and how it ends, what is written, and the environment. What the system, helpers and launched programs do is
//! tried, and not claimed.
//!
//! `helper_web`: the helper's command; `gather` takes in its output (`reading`), ends it where it isn't read to its end,
//! waits for it, no longer than it may take (`waiting`, Patience.antt), and `answer` says what both mean. These are generic over what
//! a started program is and over its output, so their clauses name the bytes that are to come where these are known, and the end
//! that was learnt: nothing is found unless the helper was waited for (specs/Helped.antt). `child_spawner`: whether a launch's paths
//! are whole (specs/Fit.antt), its command (Commands.antt), the status of how it ended (Ends.antt). `environment`: the entries that
//! are text, as variables (Entries.antt). `folder_feeds`: where a feed is (Paths.antt), by the name of the file of a web address
//! (`files`, FileName.antt; `laws`: no two have one), and what is read of it (`piecewise`) where its bytes are known (Found.antt).
//! `std_sink`: the streams; `line_sink`: standard error, on which nothing stands that a terminal would obey (Lines.antt).
//! Of each object the count of its faults is seen alone (Seen.antt). A failure's line for `ZI_LOG` (`log`, `trouble`) has the helper
//! and the address, the program, the path or the stream, and the system's reason.
#![tactic(auto)]

mod child_spawner;
mod environment;
mod files;
mod folder_feeds;
mod helper_web;
pub mod laws;
mod line_sink;
mod log;
mod piecewise;
mod reading;
mod std_sink;
mod trouble;
mod waiting;

pub use child_spawner::ChildSpawner;
pub use environment::{helper, variables};
pub use files::feed_file;
pub use folder_feeds::FolderFeeds;
pub use helper_web::HelperWeb;
pub use line_sink::LineSink;
pub use log::{Log, write_log};
pub use std_sink::StdSink;
pub use waiting::{Patience, helper_patience};
