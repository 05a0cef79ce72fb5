//! The program's words and the variables that it reads.
ghost use Rattle.std.specs.Prelude.{◌≡◌, IfOk};
ghost use Rattle.zi_folder.specs.Paths.{in_folder};

use std::alloc::Global;
use std::env::{self, FillError, VarError};
use std::io::IsTerminal;
use std::rt::Env;
use zi_edge::feed_file;
use zi_text::{List, Memory, Text};

/// The program's words, its own name left out, up to the first that isn't UTF-8.
#[derive(Drop)]
pub struct TextWords {
    /// Those before the first that isn't UTF-8, or all.
    pub texts: List<Text>,
    /// Whether these are all.
    pub whole: bool,
}

/// The program's words.
pub fn words<R: Env>(rt: &R, alloc: Global) -> Result<TextWords, Memory> {
    let mut texts = List::new(alloc);
    for i in 1..usize::MAX {
        let Some(bytes) = word(rt, alloc, i)? else {
            break;
        };
        match String::from_utf8(bytes) {
            Ok(text) => texts.push(Text::from_str(alloc, text.as_str())?)?,
            Err(_) => {
                return Ok(TextWords {
                    texts,
                    whole: false,
                });
            }
        }
    }
    Ok(TextWords { texts, whole: true })
}

// The bytes of a word by its number, the program's name being 0; None behind the last.
fn word<R: Env>(rt: &R, alloc: Global, i: usize) -> Result<Option<Vec<u8>>, Memory> {
    let mut bytes = Vec::new(alloc);
    let mut room = 256usize;
    for _ in 0..usize::BITS {
        bytes.resize(room, 0u8)?;
        match rt.arg(i, bytes.as_mut_slice()) {
            Ok(len) => {
                bytes.truncate(len);
                return Ok(Some(bytes));
            }
            Err(FillError::NotPresent) => return Ok(None),
            Err(FillError::TooLong) => room = room.saturating_add(room),
        }
    }
    Err(Memory)
}

// The text of a variable, or a default where it isn't set, is empty or no UTF-8.
fn text_or<R: Env + AllocGlobal>(rt: &R, name: &str, default: &str) -> Result<Text, Memory> {
    match env::var(rt, name) {
        Ok(text) if !text.is_empty() => Text::from_str(rt.alloc(), text.as_str()),
        Err(VarError::OutOfMemory) => Err(Memory),
        _ => Text::from_str(rt.alloc(), default),
    }
}

/// The folder of the feeds of web addresses: the variable `ZI_FEEDS`, or `feeds` where that isn't set, is empty or no UTF-8.
pub fn feeds_folder<R: Env + AllocGlobal>(rt: &R) -> Result<Text, Memory> {
    text_or(rt, "ZI_FEEDS", "feeds")
}

/// Where failures are told: the file that the variable `ZI_LOG` names, or standard error where it is `-`. None where it isn't
/// set, is empty or no UTF-8.
pub fn log_name<R: Env + AllocGlobal>(rt: &R) -> Result<Option<Text>, Memory> {
    let name = text_or(rt, "ZI_LOG", "")?;
    Ok(if name.as_str().is_empty() {
        None
    } else {
        Some(name)
    })
}

// A path in a folder.
fn joined(alloc: Global, folder: &str, path: &str) -> Result<Text, Memory>
    ensures { IfOk result (λ whole. whole ≡ in_folder folder.now path.now) }
{
    let mut whole = String::from_str(alloc, folder)?;
    whole.push('/')?;
    whole.push_str(path)?;
    Text::from_str(alloc, whole.as_str())
}

// A folder whose path doesn't begin with `/` is one in the current folder, and is given with that folder's path where the system
// tells it.
fn from_root<R: Env + AllocGlobal>(rt: &R, folder: Text) -> Result<Text, Memory> {
    if folder.as_str().starts_with('/') {
        return Ok(folder);
    }
    let Ok(current) = env::current_dir(rt) else {
        return Ok(folder);
    };
    match current.to_str() {
        Some(current) => joined(rt.alloc(), current, folder.as_str()),
        None => Ok(folder),
    }
}

/// The folder of the store that is written: the variable `ZI_STORE`, or `store` where that isn't set, is empty or no UTF-8. One
/// that doesn't begin with `/` is one in the current folder, and is given with that folder's path where the system tells it.
pub fn store_folder<R: Env + AllocGlobal>(rt: &R) -> Result<Text, Memory> {
    from_root(rt, text_or(rt, "ZI_STORE", "store")?)
}

/// The folders of the stores that are read besides, in the order in which they are searched: the parts of the variable
/// `ZI_STORES` between `:`, each as `ZI_STORE` is taken. Empty parts are left out; where it isn't set, is empty or no UTF-8, there
/// are none.
pub fn other_folders<R: Env + AllocGlobal>(rt: &R) -> Result<Vec<Text>, Memory> {
    let all = text_or(rt, "ZI_STORES", "")?;
    let mut folders = Vec::new(rt.alloc());
    for part in all.as_str().split(':') {
        if !part.is_empty() {
            folders.push(from_root(rt, Text::from_str(rt.alloc(), part)?)?)?;
        }
    }
    Ok(folders)
}

/// The path of the file that has the feed of an address.
pub fn feed_path<R: Env + AllocGlobal>(rt: &R, uri: &str) -> Result<Text, Memory> {
    if !uri.starts_with("http://") && !uri.starts_with("https://") {
        return Text::from_str(rt.alloc(), uri);
    }
    let name = feed_file(rt.alloc(), uri)?;
    joined(rt.alloc(), feeds_folder(rt)?.as_str(), name.as_str())
}

/// Whether hints are wanted: where the variable `ZI_HINTS` is `1`, or it isn't `0` and standard error is a terminal.
pub fn hints_wanted(rt: &HostRuntime) -> Result<bool, Memory> {
    let said = text_or(rt, "ZI_HINTS", "")?;
    Ok(match said.as_str() {
        "1" => true,
        "0" => false,
        _ => rt.stderr().is_terminal(),
    })
}
