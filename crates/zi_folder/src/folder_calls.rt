//! The calls of the system that a shelf in a folder makes, each by paths.
use crate::trouble::{Reason, Trouble};
use std::fs::{self, File, Permissions};
use std::io::{self, ErrorKind, Write};
use std::os::unix::fs::{MetadataExt, OpenOptionsExt, PermissionsExt, symlink};
use std::process::{Command, Stdio};
use std::time::{Duration, SystemTime};
use zi_shelf::{EntryKind, Moved, TopMade};
use zi_text::{List, Text};

// The modes of a file and a folder that are being filled, and of finished ones, which nobody is to write.
const OPEN_MODE: u32 = 0o644;

const OPEN_FOLDER_MODE: u32 = 0o755;

const FOLDER_MODE: u32 = 0o555;

const FILE_MODE: u32 = 0o444;

const EXEC_MODE: u32 = 0o555;

// Any of these bits makes a file executable.
const EXEC_BITS: u32 = 0o111;

// Why a call fails on something else.
const NO_FILE: Reason = Reason::IsNot("a file");

// Up to so many files and folders are made to last one by one, which doesn't wait for what others write.
const FEW: usize = 128;

// Where programs stand, whatever the environment says.
const USUAL_PLACES: [&str; 2] = ["/usr/bin/", "/bin/"];

// Whether nothing stands under a path.
fn is_absence(error: &io::Error) -> bool {
    error.kind() == ErrorKind::NotFound
}

/// Whether something stands under a path, a link included.
pub fn is_there(rt: &HostRuntime, path: &str) -> Result<bool, Trouble> {
    match fs::symlink_metadata(rt, path) {
        Ok(_) => Ok(true),
        Err(error) if is_absence(&error) => Ok(false),
        Err(error) => Err(Trouble::from(error)),
    }
}

// Whether something stands under a path that is no file; a link to a file is none.
fn is_no_file(rt: &HostRuntime, path: &str) -> Result<bool, Trouble> {
    match fs::symlink_metadata(rt, path) {
        Ok(metadata) => Ok(!metadata.is_file()),
        Err(error) if is_absence(&error) => Ok(false),
        Err(error) => Err(Trouble::from(error)),
    }
}

/// Whether what stands under a path is a folder, and no link to one.
pub fn is_folder(rt: &HostRuntime, path: &str) -> Result<bool, Trouble> {
    Ok(fs::symlink_metadata(rt, path)?.is_dir())
}

/// The names of all entries of the shelf's folder; none where it isn't there.
pub fn list_names(rt: &HostRuntime, root: &str) -> Result<List<Text>, Trouble> {
    let mut names = List::new(rt.alloc());
    let entries = match fs::read_dir(rt, root) {
        Ok(entries) => entries,
        Err(error) if is_absence(&error) => return Ok(names),
        Err(error) => return Err(Trouble::from(error)),
    };
    for entry in entries {
        let entry = entry?;
        names.push(Text::from_str(rt.alloc(), entry.file_name())?)?;
    }
    Ok(names)
}

// What an entry of a folder is.
fn kind_of(metadata: &fs::Metadata) -> Result<EntryKind, Trouble> {
    if metadata.is_file() {
        Ok(EntryKind::File {
            exec: metadata.mode() & EXEC_BITS != 0,
            mtime: metadata.mtime(),
            size: metadata.len(),
        })
    } else if metadata.is_symlink() {
        Ok(EntryKind::Link)
    } else if metadata.is_dir() {
        Ok(EntryKind::Folder)
    } else {
        Err(Trouble::Failed(Reason::IsNot("a file, a folder or a link")))
    }
}

/// What stands under a path, as an entry of its folder.
pub fn kind_at(rt: &HostRuntime, path: &str) -> Result<EntryKind, Trouble> {
    kind_of(&fs::symlink_metadata(rt, path)?)
}

/// The text of a link.
pub fn link_target(rt: &HostRuntime, path: &str) -> Result<Text, Trouble> {
    let target = fs::read_link(rt, path)?;
    Ok(Text::from_str(rt.alloc(), target.into_string().as_str())?)
}

// Holds the shelf's folder against other launchers until it is dropped. That it is a folder is looked at first, since a pipe that nobody
// writes to would be waited for.
fn held(rt: &HostRuntime, root: &str) -> Result<File, Trouble> {
    if !fs::metadata(rt, root)?.is_dir() {
        return Err(Trouble::Failed(Reason::IsNot("a folder")));
    }
    let folder = fs::open(rt, root)?;
    match folder.lock() {
        Ok(()) => Ok(folder),
        Err(error) => Err(Trouble::Failed(Reason::Lock(error))),
    }
}

// The folder that holds what stands under a path.
fn folder_above(path: &str) -> &str {
    match path.rfind('/') {
        Some(last) => &path[..last + 1],
        None => ".",
    }
}

// Makes a folder where nothing stands under its path, and makes it last: what holds it is told to the disk too.
fn make_lasting(rt: &HostRuntime, path: &str) -> Result<(), Trouble> {
    if path.is_empty() || is_there(rt, path)? {
        return Ok(());
    }
    match fs::create_dir(rt, path) {
        Ok(()) => {}
        // another launcher was faster
        Err(error) if error.kind() == ErrorKind::AlreadyExists => {}
        Err(error) => return Err(Trouble::from(error)),
    }
    sync_folder(rt, folder_above(path))
}

// Makes the shelf's folder and all folders on the way to it where they aren't there. Each lasts once this has ended.
fn make_root(rt: &HostRuntime, root: &str) -> Result<(), Trouble> {
    let mut path = String::new(rt.alloc());
    for part in root.split('/') {
        path.push_str(part)?;
        make_lasting(rt, path.as_str())?;
        path.push('/')?;
    }
    Ok(())
}

/// Makes a top entry, and the shelf's folder where that is missing.
pub fn make_top(rt: &HostRuntime, root: &str, path: &str) -> Result<TopMade, Trouble> {
    make_root(rt, root)?;
    let _folder = held(rt, root)?;
    match fs::create_dir(rt, path) {
        Ok(()) => Ok(TopMade::Made),
        Err(error) if error.kind() == ErrorKind::AlreadyExists => Ok(TopMade::Exists),
        Err(error) => Err(Trouble::from(error)),
    }
}

/// Makes a folder.
pub fn make_folder(rt: &HostRuntime, path: &str) -> Result<(), Trouble> {
    fs::create_dir(rt, path)?;
    Ok(())
}

/// Adds bytes to a file, which is made where it isn't there. Part of them may have been written before a failure.
pub fn append(rt: &HostRuntime, path: &str, bytes: &[u8]) -> Result<(), Trouble> {
    if is_no_file(rt, path)? {
        return Err(Trouble::Failed(NO_FILE));
    }
    let mut options = File::options();
    options.append(true).create(true).mode(OPEN_MODE);
    let mut file = options.open(rt, path)?;
    match file.write_all(bytes) {
        Ok(()) => Ok(()),
        Err(error) => Err(Trouble::Failed(Reason::System(error))),
    }
}

/// Sets a file's mode and time. A file system that can't keep the time fails.
pub fn finish_file(rt: &HostRuntime, path: &str, exec: bool, mtime: i64) -> Result<(), Trouble> {
    if is_no_file(rt, path)? {
        return Err(Trouble::Failed(NO_FILE));
    }
    let file = fs::open(rt, path)?;
    let mode = if exec { EXEC_MODE } else { FILE_MODE };
    file.set_permissions(Permissions::from_mode(mode))?;
    match u64::try_from(mtime) {
        Ok(seconds) => set_time(&file, seconds)?,
        Err(_) => touch(rt, path, mtime)?,
    }
    if file.metadata()?.mtime() == mtime {
        Ok(())
    } else {
        Err(Trouble::Failed(Reason::OtherTime))
    }
}

// Sets a time from 1970 on.
fn set_time(file: &File, seconds: u64) -> Result<(), Trouble> {
    let Some(time) = SystemTime::UNIX_EPOCH.checked_add(Duration::from_secs(seconds)) else {
        return Err(Trouble::Failed(Reason::OtherTime));
    };
    file.set_modified(time)?;
    Ok(())
}

// Sets a time before 1970, for which std has no value. Whether the file has it is looked at then: where the parent ignores how its
// children end, nobody learns how the program ended.
fn touch(rt: &HostRuntime, path: &str, mtime: i64) -> Result<(), Trouble> {
    let time = format!(in rt.alloc(); "@{mtime}")?;
    ends_well(rt, "touch", &["-m", "-d", time.as_str(), "--", path])?;
    Ok(())
}

/// Makes a link.
pub fn make_link(rt: &HostRuntime, target: &str, path: &str) -> Result<(), Trouble> {
    symlink(rt, target, path)?;
    Ok(())
}

/// Makes all in a top entry last through a crash, its folders closed to writers: one by one where there are few files and folders, else
/// by the program `sync`, which waits for the whole file system, and one by one where that isn't there or nobody learns how it ended.
pub fn settle(rt: &HostRuntime, path: &str) -> Result<(), Trouble> {
    let paths = files_and_folders(rt, path)?;
    set_folders(rt, paths.as_slice(), FOLDER_MODE)?;
    if paths.len() > FEW && ends_well(rt, "sync", &["-f", "--", path])? {
        return Ok(());
    }
    for path in paths.as_slice() {
        fs::open(rt, path.as_str())?.sync_all()?;
    }
    Ok(())
}

// The paths of all files and folders of a tree, each folder before what is in it.
fn files_and_folders(rt: &HostRuntime, top: &str) -> Result<Vec<String>, Trouble> {
    let mut paths = Vec::new(rt.alloc());
    paths.push(String::from_str(rt.alloc(), top)?)?;
    for next in 0..usize::MAX {
        let Some(path) = paths.get(next) else {
            break;
        };
        let mut inside = inside_of(rt, path.as_str())?;
        paths.append(&mut inside)?;
    }
    Ok(paths)
}

// Gives all folders among these paths a mode, whatever the mask of new files says.
fn set_folders(rt: &HostRuntime, paths: &[String], mode: u32) -> Result<(), Trouble> {
    for path in paths {
        if is_folder(rt, path.as_str())? {
            fs::open(rt, path.as_str())?.set_permissions(Permissions::from_mode(mode))?;
        }
    }
    Ok(())
}

// The paths of the files and folders in a folder; none in a file.
fn inside_of(rt: &HostRuntime, path: &str) -> Result<Vec<String>, Trouble> {
    let mut paths = Vec::new(rt.alloc());
    if !is_folder(rt, path)? {
        return Ok(paths);
    }
    for entry in fs::read_dir(rt, path)? {
        let entry = entry?;
        if !entry.file_type()?.is_symlink() {
            let mut inside = String::from_str(rt.alloc(), path)?;
            inside.push('/')?;
            inside.push_str(entry.file_name())?;
            paths.push(inside)?;
        }
    }
    Ok(paths)
}

// Runs a program that stands in one of the usual places; whether it is known to have ended well.
fn ends_well(rt: &HostRuntime, program: &str, words: &[&str]) -> Result<bool, Trouble> {
    for place in USUAL_PLACES {
        let mut path = String::from_str(rt.alloc(), place)?;
        path.push_str(program)?;
        let mut command = Command::new(rt.alloc(), path.as_str())?;
        for word in words {
            command.arg(*word)?;
        }
        command.stdin(Stdio::null());
        command.stdout(Stdio::null());
        command.stderr(Stdio::null());
        if let Ok(status) = command.status(rt) {
            return Ok(status.success());
        }
    }
    Ok(false)
}

/// Gives a top entry another name, unless something stands there.
pub fn rename(rt: &HostRuntime, root: &str, from: &str, to: &str) -> Result<Moved, Trouble> {
    let _folder = held(rt, root)?;
    if !is_there(rt, from)? {
        return Err(Trouble::Failed(Reason::IsNot("there")));
    }
    if is_there(rt, to)? {
        return Ok(Moved::Exists);
    }
    match fs::rename(rt, from, to) {
        Ok(()) => Ok(Moved::Renamed),
        // a writer without the lock was there first
        Err(error) if is_taken(&error) => Ok(Moved::Exists),
        Err(error) => Err(Trouble::from(error)),
    }
}

// Whether a rename was refused because the new name is a full folder.
fn is_taken(error: &io::Error) -> bool {
    matches!(
        error.kind(),
        ErrorKind::DirectoryNotEmpty | ErrorKind::AlreadyExists
    )
}

/// Makes the names in the shelf's folder last through a crash; there are none where it isn't there.
pub fn settle_names(rt: &HostRuntime, root: &str) -> Result<(), Trouble> {
    match fs::open(rt, root) {
        Ok(folder) => Ok(folder.sync_all()?),
        Err(error) if is_absence(&error) => Ok(()),
        Err(error) => Err(Trouble::from(error)),
    }
}

// Makes the names in a folder last through a crash.
fn sync_folder(rt: &HostRuntime, path: &str) -> Result<(), Trouble> {
    fs::open(rt, path)?.sync_all()?;
    Ok(())
}

// Removes a folder with all that is in it. Part of it may be gone before a failure.
fn remove_all(rt: &HostRuntime, path: &str) -> Result<(), Trouble> {
    match fs::remove_dir_all(rt, path) {
        Ok(()) => Ok(()),
        Err(error) => Err(Trouble::Failed(Reason::System(error))),
    }
}

/// Removes a top entry; where its folders are closed to writers they are opened first. Part of it may be gone before a failure.
pub fn remove(rt: &HostRuntime, path: &str) -> Result<(), Trouble> {
    match fs::remove_dir_all(rt, path) {
        Ok(()) => Ok(()),
        Err(error) if error.kind() == ErrorKind::PermissionDenied => {
            let paths = files_and_folders(rt, path)?;
            set_folders(rt, paths.as_slice(), OPEN_FOLDER_MODE)?;
            remove_all(rt, path)
        }
        Err(error) => Err(Trouble::Failed(Reason::System(error))),
    }
}
