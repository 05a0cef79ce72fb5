//! The work of `store list`.
ghost use Rattle.std.specs.Prelude.{◌≡◌, ◌++◌, map, IfOk, OnOk};
ghost use Rattle.zi_outside.specs.Views.{Feeding};
ghost use Rattle.zi_outcome.specs.Writing.{Prints};
ghost use Rattle.zi_storing.specs.StoreList.{name_line, names_text, Lists};

use std::alloc::Global;
use zi_digest::DigestName;
use zi_outcome::{Outcome, put_text};
use zi_outside::Sink;
use zi_shelf::{Shelf, ShelfFault};
use zi_store::stored_in;
use zi_text::{Memory, Text};

/// Adds the line of a digest name.
pub fn put_name(alloc: Global, name: &DigestName, text: &mut Vec<u8>) -> Result<(), Memory>
    ensures { OnOk result (text.new.items ≡ text.old.items ++ name_line name.now) }
{
    let spelled = name.text(alloc)?;
    text.extend_from_slice(spelled.as_str().as_bytes())?;
    text.push(b'\n')?;
    Ok(())
}

// The lines of digest names.
fn names_text(alloc: Global, names: &[DigestName]) -> Result<Vec<u8>, Memory>
    ensures { IfOk result (λ text. text.items ≡ names_text names.now) }
{
    let mut text = Vec::new(alloc);
    for name in names {
        put_name(alloc, name, &mut text)?;
    }
    Ok(text)
}

/// Writes the lines of digest names.
#[tactic(auto, using(zi_outcome::proofs::WritingLemmas::printing))]
pub(crate) fn put_names<O: Sink>(alloc: Global, names: &[DigestName], out: &mut O) -> Outcome
    ensures { Prints (names_text names.now) (O.seen out.old) (O.seen out.new) result }
{
    match names_text(alloc, names) {
        Ok(text) => put_text(text.as_slice(), out),
        Err(Memory) => Outcome::Memory,
    }
}

/// Writes the digest names in all stores, in byte order, each once and on a line.
pub fn list<K: Shelf, R: Shelf, O: Sink>(
    alloc: Global,
    shelf: &mut K,
    others: &mut [R],
    out: &mut O,
) -> Outcome
    ensures { (feeds : Feeding) → Lists
        (record { feeds = feeds; shelf = K.seen shelf.old; others = map R.seen others.old; out = O.seen out.old })
        (record { feeds = feeds; shelf = K.seen shelf.new; others = map R.seen others.new; out = O.seen out.new })
        result }
{
    match stored_in(alloc, shelf, others) {
        Ok(names) => put_names(alloc, names.as_slice(), out),
        Err(ShelfFault::Failed) => Outcome::StoreFault {
            name: Text::new(alloc),
        },
        Err(ShelfFault::Memory) => Outcome::Memory,
    }
}
