//! Crashes under sessions: some of them are stopped after each number of steps, the shelf crashes in each way, and new sessions go on.
use crate::nodes::{path_of, put_bytes};
use crate::reading::put_verdict;
use crate::sessions::number;
use std::alloc::Global;
use zi_digest::DigestName;
use zi_lines::{Sheet, halves};
use zi_memory::MemoryShelf;
use zi_session::Session;
use zi_shelf::Shelf;
use zi_text::{Bytes, Memory, Text};
use zi_tree::{Tree, TreeNode};

/// Adds the file `f` of these bytes and the time 0 to a tree; none where there are no bytes.
fn take_file(alloc: Global, tree: &mut Tree, text: &str) -> Result<(), Memory> {
    if text.is_empty() {
        return Ok(());
    }
    let Some(at) = path_of(alloc, "f")? else {
        return Ok(());
    };
    let mut bytes = Vec::new(alloc);
    put_bytes(&mut bytes, text)?;
    let node = TreeNode::File {
        bytes: Bytes::from_vec(bytes),
        exec: false,
        mtime: 0,
    };
    match tree.insert(alloc, &at, node) {
        Ok(_) => Ok(()),
        Err(_) => Err(Memory),
    }
}

/// A session of an adder, who is told as a digest name and the bytes of a file; a wrong name is taken for want of memory.
pub(crate) fn begun(alloc: Global, adder: &str) -> Result<Session, Memory> {
    let (name, text) = halves(adder);
    let mut tree = Tree::new(alloc);
    take_file(alloc, &mut tree, text)?;
    let Some(name) = DigestName::parse(name) else {
        return Err(Memory);
    };
    match Session::begin(alloc, name, tree) {
        Ok(session) => Ok(session),
        Err(_) => Err(Memory),
    }
}

/// Adds a session of each adder.
fn begin(alloc: Global, sessions: &mut Vec<Session>, adders: &[Text]) -> Result<(), Memory> {
    for adder in adders {
        sessions.push(begun(alloc, adder.as_str())?)?;
    }
    Ok(())
}

/// Makes the first so many of the steps, each of the session of its number.
fn make_steps(
    alloc: Global,
    steps: &str,
    count: usize,
    sessions: &mut Vec<Session>,
    shelf: &mut MemoryShelf,
) {
    for (i, word) in steps.split(' ').enumerate() {
        if i < count {
            if let Some(session) = sessions.get_mut(number(word)) {
                let _step = session.step(alloc, shelf);
            }
        }
    }
}

/// Adds the residues of the sessions, each behind a blank; a dash where there is none.
fn put_residues(out: &mut Sheet, sessions: &[Session]) {
    for session in sessions {
        out.put(" ");
        out.put(session.residue().unwrap_or("-"));
    }
}

/// Adds the names that aren't digests.
fn put_other(out: &mut Sheet, names: &[Text]) {
    for name in names {
        if DigestName::parse(name.as_str()).is_none() {
            out.put(" ");
            out.put(name.as_str());
        }
    }
}

/// Adds the names of a shelf that aren't digests.
pub(crate) fn put_others(out: &mut Sheet, shelf: &mut MemoryShelf) {
    match shelf.names() {
        Ok(names) => put_other(out, names.as_slice()),
        Err(_fault) => out.lose(),
    }
}

/// Adds the answer of a new session.
fn put_run(alloc: Global, out: &mut Sheet, adder: &str, shelf: &mut MemoryShelf) {
    match begun(alloc, adder) {
        Ok(mut session) => out.value(&session.run(alloc, shelf)),
        Err(Memory) => out.lose(),
    }
}

/// Adds the answer of a new session of an adder, and then what is said of the tree under the name and how many entries it has.
fn put_new(alloc: Global, out: &mut Sheet, adder: &str, shelf: &mut MemoryShelf) {
    out.put(" ");
    put_run(alloc, out, adder, shelf);
    out.put(" ");
    let (name, _) = halves(adder);
    put_verdict(alloc, out, name, shelf);
    if let Some(tree) = shelf.top(name) {
        out.put(" ");
        out.number(tree.len() as u64);
    }
}

/// Adds the same of each adder.
fn put_all(alloc: Global, out: &mut Sheet, adders: &[Text], shelf: &mut MemoryShelf) {
    for adder in adders {
        put_new(alloc, out, adder.as_str(), shelf);
    }
}

/// Makes the steps of sessions up to a stop, and those of the sessions that go on then.
fn stop(
    alloc: Global,
    count: usize,
    row: &str,
    sessions: &mut Vec<Session>,
    shelf: &mut MemoryShelf,
) {
    let (steps, on) = row.split_once(" | ").unwrap_or((row, ""));
    make_steps(alloc, steps, count, sessions, shelf);
    make_steps(alloc, on, usize::MAX, sessions, shelf);
}

/// Adds the residue of each session of the adders where they are stopped after the first so many of the steps.
fn put_stop(
    alloc: Global,
    out: &mut Sheet,
    count: usize,
    row: &str,
    adders: &[Text],
    shelf: &mut MemoryShelf,
) {
    let mut sessions = Vec::new(alloc);
    out.needs(begin(alloc, &mut sessions, adders));
    stop(alloc, count, row, &mut sessions, shelf);
    put_residues(out, sessions.as_slice());
}

/// Adds what is left where the shelf crashes in this way after the first so many of the steps, and then the steps of those that go on.
fn put_crash(alloc: Global, out: &mut Sheet, count: usize, pick: u64, row: &str, adders: &[Text]) {
    let mut shelf = MemoryShelf::new(alloc);
    out.number(count as u64);
    out.put(" ");
    out.number(pick);
    put_stop(alloc, out, count, row, adders, &mut shelf);
    out.put(" |");
    out.needs(shelf.crash(pick));
    put_others(out, &mut shelf);
    out.put(" |");
    put_all(alloc, out, adders, &mut shelf);
    out.put("\n");
}

/// Adds a line for each number of steps and each pick from 0 to 7. The row is the number of the session of each step, and behind ` | `
/// that of each step after the stop. The line has the number and the pick, the residue of each session, the temporary names that the
/// crash leaves, and the answer of a new session of each adder with what stands then.
pub(crate) fn put_crashes(alloc: Global, out: &mut Sheet, row: &str, adders: &[Text]) {
    let (steps, _) = row.split_once(" | ").unwrap_or((row, ""));
    let all = steps.split(' ').count();
    for count in 0..=all {
        for pick in 0..8 {
            put_crash(alloc, out, count, pick, row, adders);
        }
    }
}
