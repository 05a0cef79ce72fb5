//! Names in folders that are no text.

use crate::open_folders::{next_names, open_folder};
use crate::trouble::Trouble;
use std::os::fd::AsRawFd;

// The room for names that are read at once.
const ROOM: usize = 4_096;

// The first of these names, each with a zero behind it, that is no text (UTF-8).
fn first_of(names: &[u8]) -> Option<&[u8]> {
    names
        .split(|byte| *byte == 0)
        .find(|name| str::from_utf8(name).is_err())
}

/// A name in the folder at a path that is no text (UTF-8), the first that the system gives. None where there is none.
pub fn stranger(rt: &HostRuntime, path: &str) -> Result<Option<Vec<u8>>, Trouble> {
    // The folder itself, also where the path ends in a link to it.
    let inside = format!(in rt.alloc(); "{path}/.")?;
    let folder = open_folder(libc::AT_FDCWD, inside.as_str())?;
    let mut room = vec![in rt.alloc(); 0u8; ROOM]?;
    for _ in 0..u64::MAX {
        let names = next_names(folder.as_raw_fd(), room.as_mut_slice())?;
        if names.is_empty() {
            break;
        }
        if let Some(name) = first_of(names) {
            let mut found = Vec::new(rt.alloc());
            found.extend_from_slice(name)?;
            return Ok(Some(found));
        }
    }
    Ok(None)
}
