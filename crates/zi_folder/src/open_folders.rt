//! Folders that are held open while a tree is read: what stands in one is reached from it, so that no path is looked up from the
//! top again for each entry, and no link is followed on the way.
ghost use Rattle.std.specs.Prelude.{◌≡◌, ◌≤◌, ◌++◌, [], ◌∷◌, true, false, None, IfOk, OnOk, take, drop, map, string_bytes};
ghost use Rattle.zi_folder.specs.Opened.{way, is_from, IsFront, LeadsAs, Enters, Stays, is_file};
ghost use Rattle.zi_folder.specs.Paths.{in_folder, path_on};

use crate::folder_calls::kind_at;
use crate::trouble::{Reason, Trouble};
use os::FromRawFd;
use std::alloc::Global;
use std::fs::{self, File, Metadata};
use std::io::{self, ErrorKind};
use std::os::fd::{AsRawFd, OwnedFd, RawFd};
use std::os::unix::fs::{FileExt, MetadataExt};
use zi_shelf::{Entry, EntryKind};
use zi_text::{List, Text};

// The most bytes that are read at once.
const PIECE: usize = 65_536;

// Nothing is open.
const NO_TREE: Trouble = Trouble::Failed(Reason::IsNot("inside a tree"));

/// A folder that is held open, and its name in the folder that it stands in.
#[derive(Drop)]
struct OpenFolder {
    name: Text,
    folder: OwnedFd,
}

/// A file that is held open, and its name in the folder that it stands in.
#[derive(Drop)]
struct OpenFile {
    name: Text,
    file: File,
}

/// The folders on the way to what was read last, each in the one before it, the top entry first, and its path; one that stands in
/// the last of them and was opened when that was listed; the file that was read last; and room for a piece of one or of a listing.
///
/// A folder is opened from the one before it. A file or a link is reached by the number of its folder in `/proc/self/fd`. Where the
/// system doesn't show there what is open, it is reached by its whole path.
#[derive(Drop)]
pub struct OpenFolders {
    path: String,
    folders: Vec<OpenFolder>,
    next: Option<OpenFolder>,
    file: Option<OpenFile>,
    numbered: bool,
    room: Vec<u8>,
}

// Whether both are of one file or folder.
fn is_same(a: &Metadata, b: &Metadata) -> bool {
    a.dev() == b.dev() && a.ino() == b.ino()
}

// Opens what was seen under a path; another file than that one, as one behind a link, is refused.
fn open_seen(rt: &HostRuntime, path: &str, seen: &Metadata) -> Result<File, Trouble> {
    let file = fs::open(rt, path)?;
    if is_same(&file.metadata()?, seen) {
        Ok(file)
    } else {
        Err(Trouble::Failed(Reason::IsNot("what it was")))
    }
}

// Opens the file at a path.
fn open_file(rt: &HostRuntime, path: &str) -> Result<File, Trouble> {
    let seen = fs::symlink_metadata(rt, path)?;
    if !seen.is_file() {
        return Err(Trouble::Failed(Reason::IsNot("a file")));
    }
    open_seen(rt, path, &seen)
}

// Why a folder isn't opened.
fn refusal(error: io::Error) -> Trouble {
    match error.kind() {
        ErrorKind::NotADirectory | ErrorKind::FilesystemLoop => {
            Trouble::Failed(Reason::IsNot("a folder"))
        }
        _ => Trouble::from(error),
    }
}

/// Opens what a name reaches from the folder of this number, where it is a folder and no link to one.
pub fn open_folder(above: RawFd, name: &str) -> Result<OwnedFd, Trouble> {
    let number = os::open_dir_at(above, name.as_bytes());
    if number < 0 {
        return Err(refusal(io::Error::from_raw_os_error(os::errno())));
    }
    Ok(unsafe { OwnedFd::from_raw_fd(number) })
}

/// The next names that the folder of this number lists, each with a zero behind it; none at the end.
pub fn next_names(folder: RawFd, room: &mut [u8]) -> Result<&[u8], Trouble> {
    let count = os::read_dir(folder, room);
    match os::errno() {
        // a folder that was removed has no more names
        0 | libc::ENOENT => Ok(&room[..count]),
        error => Err(Trouble::from(io::Error::from_raw_os_error(error))),
    }
}

// Whether a listed name is that of an entry.
fn is_entry(name: &str) -> bool {
    name != "" && name != "." && name != ".."
}

// What stands under a name in the folder of this number, which is at a path that ends with a slash. A folder is opened as the next.
fn kind_in(
    rt: &HostRuntime,
    above: RawFd,
    path: &str,
    name: &Text,
    next: &mut Option<OpenFolder>,
) -> Result<EntryKind, Trouble> {
    if let Ok(folder) = open_folder(above, name.as_str()) {
        let name = name.copy(rt.alloc())?;
        *next = Some(OpenFolder { name, folder });
        return Ok(EntryKind::Folder);
    }
    let mut path = String::from_str(rt.alloc(), path)?;
    path.push_str(name.as_str())?;
    kind_at(rt, path.as_str())
}

// Adds the entries of these names, each with a zero behind it, in the folder of this number, which is at a path that ends with a
// slash. One folder among them is opened as the next.
fn add_entries(
    rt: &HostRuntime,
    above: RawFd,
    path: &str,
    names: &[u8],
    entries: &mut List<Entry>,
    next: &mut Option<OpenFolder>,
) -> Result<(), Trouble> {
    let Ok(names) = str::from_utf8(names) else {
        return Err(Trouble::from(io::Error::from(ErrorKind::InvalidFilename)));
    };
    for name in names.split('\0') {
        if is_entry(name) {
            let name = Text::from_str(rt.alloc(), name)?;
            let kind = kind_in(rt, above, path, &name, next)?;
            entries.push(Entry { name, kind })?;
        }
    }
    Ok(())
}

// Reads bytes of an open file from an offset on, at most so many, and no more than the piece has room for; how many came.
fn read_piece(file: &File, offset: u64, max: u32, piece: &mut [u8]) -> Result<usize, Trouble>
    ensures { IfOk result (λ count. count ≤ max) }
{
    let most = (max as usize).min(piece.len());
    // The system knows no offset past this, and no file is that long.
    if offset >= 1 << 63 || most == 0 {
        return Ok(0);
    }
    Ok(file.read_at(&mut piece[..most], offset)?)
}

// The path of what is open, by its number.
fn numbered_path(rt: &HostRuntime, folder: &OwnedFd) -> Result<String, Trouble> {
    let number = folder.as_raw_fd();
    Ok(format!(in rt.alloc(); "/proc/self/fd/{number}")?)
}

// Whether the system shows, under its number, the folder that was opened at a path; one that stands there no more is refused.
fn is_shown(rt: &HostRuntime, folder: &OwnedFd, path: &str) -> Result<bool, Trouble> {
    let number = numbered_path(rt, folder)?;
    let Ok(shown) = fs::metadata(rt, number.as_str()) else {
        return Ok(false);
    };
    if is_same(&shown, &fs::symlink_metadata(rt, path)?) {
        Ok(true)
    } else {
        Err(Trouble::Failed(Reason::IsNot("what it was")))
    }
}

// How many of these folders have the names of these parts, from the first on.
fn shared(folders: &[OpenFolder], parts: &[Text]) -> usize
    ensures { IsFront result (map (λ folder. folder.name) folders.now) parts.now }
{
    for (number, folder) in folders.iter().enumerate() {
        match parts.get(number) {
            Some(part) if part.as_str() == folder.name.as_str() => {}
            _ => return number,
        }
    }
    folders.len()
}

impl OpenFolders {
    /// Nothing is open.
    pub fn new(alloc: Global) -> OpenFolders {
        OpenFolders {
            path: String::new(alloc),
            folders: Vec::new(alloc),
            next: None,
            file: None,
            numbered: false,
            room: Vec::new(alloc),
        }
    }

    /// Closes all that is open: what follows may change what stands there.
    pub fn close(&mut self)
        ensures nothing { way self.new ≡ [] }
        ensures file { self.new.file ≡ None }
    {
        self.keep(0);
    }

    /// Keeps the first so many folders open, and nothing else. One that is to be listed is none of them: it is opened anew.
    pub fn keep(&mut self, count: usize)
        ensures first { way self.new ≡ take count (way self.old) }
        ensures file { self.new.file ≡ None }
        ensures path { (self.new.path ≡ self.old.path) × (self.new.numbered ≡ self.old.numbered) }
    {
        self.file = None;
        if count < self.folders.len() {
            self.next = None;
            self.folders.truncate(count);
        }
    }

    /// Whether this top entry is open.
    pub fn is_in(&self, top: &str) -> bool
        ensures { result ≡ is_from top.now (way self.now) }
    {
        match self.folders.first() {
            Some(first) => first.name.as_str() == top,
            None => false,
        }
    }

    // How many of the open folders lead this way, from the top entry on.
    fn on_the_way(&self, parts: &[Text]) -> usize
        ensures { LeadsAs result (way self.now) parts.now }
    {
        match self.folders.as_slice().split_first() {
            Some((_, inner)) => 1 + shared(inner, parts),
            None => 0,
        }
    }

    // The whole path of the folder that was opened last.
    fn whole_path(&self, rt: &HostRuntime) -> Result<String, Trouble>
        ensures { IfOk result (λ path. string_bytes path ≡ path_on (string_bytes self.now.path) (drop 1 (way self.now))) }
    {
        let mut path = String::from_str(rt.alloc(), self.path.as_str())?;
        if let Some((_, inner)) = self.folders.as_slice().split_first() {
            for folder in inner {
                path.push('/')?;
                path.push_str(folder.name.as_str())?;
            }
        }
        Ok(path)
    }

    // The folder that was opened last.
    fn last(&self) -> Result<&OwnedFd, Trouble> {
        match self.folders.last() {
            Some(last) => Ok(&last.folder),
            None => Err(NO_TREE),
        }
    }

    /// The path of a name in the folder that was opened last; with no name, the folder's own, which ends with a slash.
    pub fn path_of(&self, rt: &HostRuntime, name: &str) -> Result<String, Trouble>
        ensures { IfOk result (λ path. self.now.numbered ≡ false → string_bytes path ≡ in_folder (path_on (string_bytes self.now.path) (drop 1 (way self.now))) name.now) }
    {
        let mut path = if self.numbered {
            numbered_path(rt, self.last()?)?
        } else {
            self.whole_path(rt)?
        };
        path.push('/')?;
        path.push_str(name)?;
        Ok(path)
    }

    /// Opens a top entry, which stands at this path, and nothing else.
    pub fn open_top(&mut self, rt: &HostRuntime, path: String, top: &str) -> Result<(), Trouble>
        ensures alone { OnOk result (way self.new ≡ top.now ∷ []) }
        ensures path { OnOk result (self.new.path ≡ path) }
        ensures file { OnOk result (self.new.file ≡ None) }
    {
        self.close();
        let folder = open_folder(libc::AT_FDCWD, path.as_str())?;
        self.numbered = is_shown(rt, &folder, path.as_str())?;
        self.path = path;
        let name = Text::from_str(rt.alloc(), top)?;
        self.folders.push(OpenFolder { name, folder })?;
        Ok(())
    }

    // The folder of this name in the folder that was opened last: the one that was opened when that was listed, or opened now.
    fn inner(&mut self, rt: &HostRuntime, name: &Text) -> Result<OpenFolder, Trouble>
        ensures named { IfOk result (λ folder. folder.name ≡ name.now) }
        ensures stays { Stays self.old self.new }
    {
        match self.next.take() {
            Some(next) if next.name.as_str() == name.as_str() => Ok(next),
            _ => Ok(OpenFolder {
                folder: open_folder(self.last()?.as_raw_fd(), name.as_str())?,
                name: name.copy(rt.alloc())?,
            }),
        }
    }

    // Opens the folder of this name in the folder that was opened last.
    #[tactic(auto, using(crate::proofs::OpenedLemmas::grown))]
    fn open_inner(&mut self, rt: &HostRuntime, name: &Text) -> Result<(), Trouble>
        ensures one { OnOk result (way self.new ≡ way self.old ++ name.now ∷ []) }
        ensures file { self.new.file ≡ self.old.file }
        ensures path { (self.new.path ≡ self.old.path) × (self.new.numbered ≡ self.old.numbered) }
    {
        let opened = self.inner(rt, name)?;
        self.folders.push(opened)?;
        Ok(())
    }

    /// Opens the folders on the way that these parts lead from the top entry that is open, and none but those.
    #[tactic(auto, using(crate::proofs::OpenedLemmas::joined, crate::proofs::OpenedLemmas::whole))]
    pub fn enter(&mut self, rt: &HostRuntime, parts: &[Text]) -> Result<(), Trouble>
        ensures way { OnOk result (way self.new ≡ take 1 (way self.old) ++ parts.now) }
        ensures file { OnOk result (Enters self.old self.new) }
        ensures path { (self.new.path ≡ self.old.path) × (self.new.numbered ≡ self.old.numbered) }
    {
        let common = self.on_the_way(parts);
        if common == self.folders.len() && common == parts.len() + 1 {
            return Ok(());
        }
        self.keep(common);
        let (_, more) = parts.split_at(common.saturating_sub(1));
        for part in more {
            self.open_inner(rt, part)?;
        }
        Ok(())
    }

    /// The entries of the folder that was opened last, which wasn't listed since.
    pub fn list(&mut self, rt: &HostRuntime) -> Result<List<Entry>, Trouble>
        ensures way { way self.new ≡ way self.old }
    {
        self.make_room(rt)?;
        let folder = self.last()?.as_raw_fd();
        let path = self.path_of(rt, "")?;
        let mut entries = List::new(rt.alloc());
        for _ in 0..u64::MAX {
            let names = next_names(folder, self.room.as_mut_slice())?;
            if names.is_empty() {
                break;
            }
            add_entries(
                rt,
                folder,
                path.as_str(),
                names,
                &mut entries,
                &mut self.next,
            )?;
        }
        Ok(entries)
    }

    // Whether the file of this name is the one that is open.
    fn has(&self, name: &str) -> bool
        ensures { result ≡ is_file name.now self.now.file }
    {
        match &self.file {
            Some(opened) => opened.name.as_str() == name,
            None => false,
        }
    }

    // Opens the file of this name in the folder that was opened last, where it isn't the one that is open.
    fn open_file(&mut self, rt: &HostRuntime, name: &str) -> Result<(), Trouble>
        ensures named { OnOk result (is_file name.now self.new.file ≡ true) }
        ensures way { way self.new ≡ way self.old }
    {
        if self.has(name) {
            return Ok(());
        }
        self.file = None;
        let path = self.path_of(rt, name)?;
        let file = open_file(rt, path.as_str())?;
        let name = Text::from_str(rt.alloc(), name)?;
        self.file = Some(OpenFile { name, file });
        Ok(())
    }

    // Makes room, once.
    fn make_room(&mut self, rt: &HostRuntime) -> Result<(), Trouble>
        ensures { Stays self.old self.new }
    {
        if self.room.is_empty() {
            self.room = vec![in rt.alloc(); 0u8; PIECE]?;
        }
        Ok(())
    }

    /// Reads bytes of the file of this name in the folder that was opened last, from an offset on, at most so many; how many came.
    pub fn read(
        &mut self,
        rt: &HostRuntime,
        name: &str,
        offset: u64,
        max: u32,
    ) -> Result<usize, Trouble>
        ensures few { IfOk result (λ count. count ≤ max) }
        ensures named { OnOk result (is_file name.now self.new.file ≡ true) }
        ensures way { way self.new ≡ way self.old }
    {
        self.open_file(rt, name)?;
        self.make_room(rt)?;
        match &self.file {
            Some(opened) => read_piece(&opened.file, offset, max, self.room.as_mut_slice()),
            None => Ok(0),
        }
    }

    /// The first so many of the bytes that were read last.
    pub fn read_last(&self, count: usize) -> &[u8]
        ensures { result.now ≡ take count self.now.room.items }
    {
        &self.room[..count.min(self.room.len())]
    }
}
