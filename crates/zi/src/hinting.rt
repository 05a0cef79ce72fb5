//! What is handed to `zi_hints` of a call that has ended.

use crate::arguments::feed_path;
use std::alloc::Global;
use std::str;
use zi_app::Outcome;
use zi_folder::FolderShelf;
use zi_hints::{Known, hints};
use zi_outside::Feeds;
use zi_text::{Memory, Text};
use zi_words::Request;

// The most bytes of a feed and of selections.
const MOST_BYTES: u64 = 4_194_304;

/// The first line of these, which tell of failures; nothing where there is none.
pub fn first_line(alloc: Global, lines: &[u8]) -> Result<Text, Memory> {
    let line = match str::from_utf8(lines) {
        Ok(text) => match text.split_once('\n') {
            Some((line, _)) => line,
            None => text,
        },
        Err(_) => "",
    };
    Text::from_str(alloc, line)
}

/// The first failure of a store, of the one that is written before the others; nothing where there is none.
pub fn first_of_stores(
    alloc: Global,
    shelf: &FolderShelf,
    others: &[FolderShelf],
) -> Result<Text, Memory> {
    let mut first = first_line(alloc, shelf.log().as_bytes())?;
    for other in others {
        if first.as_str().is_empty() {
            first = first_line(alloc, other.log().as_bytes())?;
        }
    }
    Ok(first)
}

// The word behind so many.
fn word(words: &[Text], behind: usize) -> Option<&str> {
    match words.get(behind) {
        Some(word) => Some(word.as_str()),
        None => None,
    }
}

// The name of the selections that words are about, where they are about one file of these.
fn selections(words: &[Text]) -> Option<&str> {
    match word(words, 0)? {
        "launch" | "show" => word(words, 1),
        "check" => word(words, words.len().wrapping_sub(2)),
        "script" => word(words, 2),
        "store" if words.len() == 3 => word(words, 2),
        _ => None,
    }
}

/// The bytes of the feed or of the selections that an outcome is about, as they are now; none where they can't be had.
pub fn document<F: Feeds>(
    alloc: Global,
    outcome: &Outcome,
    words: &[Text],
    feeds: &mut F,
) -> Vec<u8> {
    let mut bytes = Vec::new(alloc);
    let name = match outcome {
        Outcome::BadFeed { uri, .. } => Some(uri.as_str()),
        Outcome::BadSels { .. } => selections(words),
        _ => None,
    };
    if let Some(name) = name {
        let _ = feeds.get(name, MOST_BYTES, &mut bytes);
    }
    bytes
}

// The path of the feed of the words' ROOT, where the outcome is about that.
fn root_path(rt: &HostRuntime, outcome: &Outcome, words: &[Text]) -> Result<Option<Text>, Memory> {
    if !matches!(outcome, Outcome::NoRootFeed) {
        return Ok(None);
    }
    let request = match Request::read(rt.alloc(), words) {
        Ok(request) => request,
        Err(_) => return Ok(None),
    };
    let ask = match &request {
        Request::Select { ask, .. }
        | Request::Download { ask }
        | Request::Run { ask, .. }
        | Request::Script { ask, .. }
        | Request::Check { ask, .. }
        | Request::Refute { ask, .. }
        | Request::Why { ask }
        | Request::Conflict { ask } => ask,
        _ => return Ok(None),
    };
    Ok(Some(feed_path(rt, ask.root.as_str())?))
}

/// Writes the hints of a call to standard error. What the system says of it changes nothing any more.
pub fn tell(
    rt: &HostRuntime,
    outcome: &Outcome,
    words: &[Text],
    failure: &str,
    document: &[u8],
) -> Result<(), Memory> {
    let path = root_path(rt, outcome, words)?;
    let path = match &path {
        Some(path) => path.as_str(),
        None => "",
    };
    let known = Known {
        path,
        failure,
        document,
    };
    let _ = hints(outcome, words, known, &mut rt.stderr());
    Ok(())
}
