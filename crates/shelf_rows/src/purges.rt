//! Purges: what each step of a purger answers and which names are gone then, and crashes within a purge.
use crate::crashes::{begun, put_others};
use crate::reading::put_verdict;
use crate::telling::Told;
use std::alloc::Global;
use zi_digest::DigestName;
use zi_lines::{Sheet, halves};
use zi_memory::MemoryShelf;
use zi_purge::Purge;
use zi_shelf::Shelf;
use zi_text::{List, Memory, Text};

/// The digest names that these words spell; any other word is passed over.
fn names_of(alloc: Global, words: &str) -> Result<List<DigestName>, Memory> {
    let mut names = Vec::new(alloc);
    for word in words.split(' ') {
        if let Some(name) = DigestName::parse(word) {
            names.push(name)?;
        }
    }
    Ok(List::from_vec(names))
}

/// A purger. The row has the names that are kept, and behind ` | ` those that are there; a dash where none are kept.
fn begun_purge(alloc: Global, row: &str) -> Result<Purge, Memory> {
    let (kept, there) = row.split_once(" | ").unwrap_or((row, ""));
    Purge::begin(alloc, names_of(alloc, kept)?, names_of(alloc, there)?)
}

/// Adds that a purger begins.
pub(crate) fn put_purging(alloc: Global, out: &mut Sheet, row: &str, told: &mut Told) {
    match begun_purge(alloc, row) {
        Ok(purge) => {
            told.purge = Some(purge);
            out.put("begun");
        }
        Err(Memory) => out.lose(),
    }
}

/// Adds the names that are gone, each behind a blank.
fn put_gone(alloc: Global, out: &mut Sheet, gone: &[DigestName]) {
    for name in gone {
        out.put(" ");
        out.made(name.text(alloc));
    }
}

/// Adds what the purger answers that makes one step, and the names that are gone then.
pub(crate) fn put_purge<K: Shelf>(
    alloc: Global,
    out: &mut Sheet,
    shelf: &mut K,
    purge: &mut Option<Purge>,
) {
    let Some(purge) = purge else {
        return out.put("no purger");
    };
    out.value(&purge.step(alloc, shelf));
    put_gone(alloc, out, purge.gone().as_slice());
}

/// Adds the trees of these adders.
fn add(alloc: Global, out: &mut Sheet, adders: &[Text], shelf: &mut MemoryShelf) {
    for adder in adders {
        match begun(alloc, adder.as_str()) {
            Ok(mut session) => {
                let _step = session.run(alloc, shelf);
            }
            Err(Memory) => out.lose(),
        }
    }
}

/// Adds the answers of the first so many steps of a purger, each behind a blank.
fn put_steps(alloc: Global, out: &mut Sheet, count: usize, row: &str, shelf: &mut MemoryShelf) {
    let Ok(mut purge) = begun_purge(alloc, row) else {
        return out.lose();
    };
    for _ in 0..count {
        out.put(" ");
        out.value(&purge.step(alloc, shelf));
    }
}

/// Adds what is said of the tree of each adder, each behind a blank.
fn put_verdicts(alloc: Global, out: &mut Sheet, adders: &[Text], shelf: &mut MemoryShelf) {
    for adder in adders {
        let (name, _) = halves(adder.as_str());
        out.put(" ");
        put_verdict(alloc, out, name, shelf);
    }
}

/// Adds what is left where the shelf crashes in this way after so many steps of a purger.
fn put_crash(alloc: Global, out: &mut Sheet, count: usize, pick: u64, row: &str, adders: &[Text]) {
    let mut shelf = MemoryShelf::new(alloc);
    add(alloc, out, adders, &mut shelf);
    out.number(count as u64);
    out.put(" ");
    out.number(pick);
    put_steps(alloc, out, count, row, &mut shelf);
    out.put(" |");
    out.needs(shelf.crash(pick));
    put_others(out, &mut shelf);
    out.put(" |");
    put_verdicts(alloc, out, adders, &mut shelf);
    out.put("\n");
}

/// Adds a line for each number of steps from 0 to 4 and each pick from 0 to 7: the number and the pick, the answers of the steps of a
/// purger over the trees of the adders, the temporary names that the crash leaves, and what is said of each tree then.
pub(crate) fn put_crashes(alloc: Global, out: &mut Sheet, row: &str, adders: &[Text]) {
    for count in 0..5 {
        for pick in 0..8 {
            put_crash(alloc, out, count, pick, row, adders);
        }
    }
}
