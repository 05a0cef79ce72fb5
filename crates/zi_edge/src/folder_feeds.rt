//! Feeds in files.
ghost use Rattle.std.specs.Prelude.{◌≡◌, IfOk, string_bytes};
ghost use Rattle.zi_edge.specs.Found.{FitsIn};
ghost use Rattle.zi_edge.specs.Paths.{feed_path};

use crate::files::feed_file;
use crate::log::Log;
use crate::piecewise::{Found, deliver, read_up_to};
use crate::trouble::{Reason, Trouble};
use std::fs;
use std::io::ErrorKind;
use std::rt::Files;
use zi_outside::{Feeds, FeedsFault, Got};
use zi_text::{Memory, Text};

/// Feeds in files, which don't tell what they hold: a web address is a file of the folder (`feed_file`), any other text
/// is a path. What isn't found is absent; what is no file (a folder, a pipe, a device), or a path through a file, is a failure.
#[derive(Drop)]
pub struct FolderFeeds<'a, R: Files + AllocGlobal> {
    rt: &'a R,
    folder: Text,
    faults: u64,
    log: Log,
}

impl<'a, R: Files + AllocGlobal> FolderFeeds<'a, R> {
    /// The feeds of a folder, without a fault.
    pub fn new(rt: &'a R, folder: Text) -> FolderFeeds<'a, R> {
        FolderFeeds {
            rt,
            folder,
            faults: 0,
            log: Log::new(rt.alloc()),
        }
    }

    /// What failed.
    pub fn log(&self) -> &Log {
        &self.log
    }

    // The path of a key.
    fn path_of(&self, key: &str) -> Result<String, Memory>
        ensures { IfOk result (λ path. string_bytes path ≡ feed_path self.now.folder key.now) }
    {
        if !key.starts_with("http://") && !key.starts_with("https://") {
            return Ok(String::from_str(self.rt.alloc(), key)?);
        }
        let mut path = String::from_str(self.rt.alloc(), self.folder.as_str())?;
        path.push('/')?;
        path.push_str(feed_file(self.rt.alloc(), key)?.as_str())?;
        Ok(path)
    }

    // What a key holds. That it is a file is looked at first, since a pipe that nobody writes to would be waited for.
    fn read(&self, key: &str, limit: u64) -> Result<Found, Trouble>
        ensures { IfOk result (FitsIn limit) }
    {
        let path = self.path_of(key)?;
        match fs::metadata(self.rt, path.as_str()) {
            Ok(found) if found.is_file() => {
                let mut file = fs::open(self.rt, path.as_str())?;
                read_up_to(self.rt.alloc(), &mut file, found.len(), limit)
            }
            Ok(_) => Err(Trouble::Failed(Reason::IsNot("a file"))),
            Err(error) if error.kind() == ErrorKind::NotFound => Ok(Found::Absent),
            Err(error) => Err(Trouble::from(error)),
        }
    }

    // Tells that a key can't be read.
    fn tell(&mut self, key: &str, reason: Reason)
        ensures { self.new.faults ≡ self.old.faults }
    {
        match self.path_of(key) {
            Ok(path) => self.log.tell(&[path.as_str()], reason),
            Err(Memory) => self.log.tell(&[key], reason),
        }
    }
}

impl<R: Files + AllocGlobal> Feeds for FolderFeeds<'_, R> {
    ghost use Rattle.zi_edge.specs.Seen.{feeding_seen};

    ghost seen = { λ f. feeding_seen f.faults };

    fn get(&mut self, uri: &str, limit: u64, into: &mut Vec<u8>) -> Result<Got, FeedsFault> {
        match self.read(uri, limit) {
            Ok(found) => deliver(&found, limit, into),
            Err(Trouble::Memory) => Err(FeedsFault::Memory),
            Err(Trouble::Failed(reason)) => {
                self.tell(uri, reason);
                self.faults = self.faults.saturating_add(1);
                Err(FeedsFault::Failed)
            }
        }
    }
}
