//! The work of `store add`: the files are got, and the tree of them is added to the shelf.
ghost use Rattle.std.specs.Prelude.{◌≡◌, true, []};
ghost use Rattle.std.specs.List.{list_all};
ghost use Rattle.zi_words.specs.Store.{is_file};
ghost use Rattle.zi_outcome.specs.Writing.{Prints};
ghost use Rattle.zi_storing.specs.Adding.{AddsFiles, added_line, files_outcome};

use crate::gathering::{GatherFault, gather};
use std::alloc::Global;
use zi_adding::{AddFault, Added, add_tree};
use zi_digest::DigestName;
use zi_outcome::{Outcome, put_text};
use zi_outside::{Feeds, Sink};
use zi_shelf::Shelf;
use zi_text::{List, Text};

// The outcome where there is no tree of the files.
fn refused_files(fault: GatherFault) -> Outcome
    ensures { result ≡ files_outcome fault }
{
    match fault {
        GatherFault::Read { file } => Outcome::FeedRead { uri: file },
        GatherFault::Absent { file } => Outcome::NoFile { name: file },
        GatherFault::TooLong { file, limit } => Outcome::FeedTooLong { uri: file, limit },
        GatherFault::Twice { name } => Outcome::Overlap { path: name },
        GatherFault::TooLarge { what, limit } => Outcome::TreeTooLarge { what, limit },
        GatherFault::Memory => Outcome::Memory,
    }
}

// Writes whether a tree was stored or its name was there already.
fn put_added<O: Sink>(added: Added, out: &mut O) -> Outcome
    ensures { Prints (added_line added) (O.seen out.old) (O.seen out.new) result }
{
    match added {
        Added::Stored => put_text(b"stored\n", out),
        Added::Present => put_text(b"present\n", out),
    }
}

/// Adds files as a tree under a digest name to the store that is written, and writes whether it was stored or the name was there
/// already. The other stores aren't asked.
pub fn add<F: Feeds, K: Shelf, O: Sink>(
    alloc: Global,
    name: DigestName,
    files: List<Text>,
    feeds: &mut F,
    shelf: &mut K,
    out: &mut O,
) -> Outcome
    requires { list_all is_file files ≡ true }
    ensures { AddsFiles name files
        (record { feeds = F.seen feeds.old; shelf = K.seen shelf.old; others = []; out = O.seen out.old })
        (record { feeds = F.seen feeds.new; shelf = K.seen shelf.new; others = []; out = O.seen out.new })
        result }
{
    let tree = match gather(alloc, files.as_slice(), feeds) {
        Ok(tree) => tree,
        Err(fault) => return refused_files(fault),
    };
    match add_tree(alloc, name, tree, shelf) {
        Ok(added) => put_added(added, out),
        Err(AddFault::BadName { path }) => Outcome::BadName { path },
        Err(AddFault::Mismatch { name, found }) => Outcome::Mismatch { name, found },
        Err(AddFault::Crowded { tried }) => Outcome::Crowded { tried },
        Err(AddFault::Failed { blamed }) => Outcome::StoreFault { name: blamed },
        Err(AddFault::Memory) => Outcome::Memory,
    }
}
