//! A tree is added: its session begins, and has its steps.
ghost use Rattle.std.specs.Prelude.{◌≡◌};
ghost use Rattle.zi_digest.specs.declared.DigestName.{DigestName as Name};
ghost use Rattle.zi_digest.specs.Name.{spelling};
ghost use Rattle.zi_tree.specs.Dir.{Dir};
ghost use Rattle.zi_session.specs.Begun.{IsBegun};
ghost use Rattle.zi_adding.specs.Trying.{IsRight, Adds, one};
ghost use Rattle.zi_adding.specs.Answers.{IsEnd, Closes, Mismatches, AddsTree};

use std::alloc::Global;
use zi_digest::DigestName;
use zi_session::{BeginFault, Session, Step};
use zi_shelf::Shelf;
use zi_text::Text;
use zi_tree::Tree;

/// How a tree came to stand under its name.
#[derive(Clone, Copy, PartialEq, Eq)]
pub enum Added {
    /// It was stored.
    Stored,
    /// Its name was there already, and nothing was changed under it.
    Present,
}

/// Why a tree wasn't added.
#[derive(Drop)]
pub enum AddFault {
    /// No manifest has the name at this path of the tree, the parts joined by `/`.
    BadName { path: Text },
    /// The tree's digest isn't the name: both are spelled.
    Mismatch { name: Text, found: Text },
    /// So many temporary names were found taken.
    Crowded { tried: u32 },
    /// The shelf failed at a call that named this temporary name, or none, where the text is empty.
    Failed { blamed: Text },
    /// Memory was refused.
    Memory,
}

// How a session ended.
#[derive(Drop)]
struct Ended {
    // The answer of its last step.
    step: Step,
    // What the call named at which the shelf failed: a temporary name, or nothing.
    blamed: Text,
}

// What the last step of a session comes to.
fn close(ended: Ended) -> Result<Added, AddFault>
    requires { IsEnd ended.step ended.blamed }
    ensures { Closes ended.step result }
{
    let Ended { step, blamed } = ended;
    match step {
        Step::Stored => Ok(Added::Stored),
        Step::Present => Ok(Added::Present),
        Step::Crowded { tried } => Err(AddFault::Crowded { tried }),
        Step::Fault { .. } => Err(AddFault::Failed { blamed }),
        Step::Memory => Err(AddFault::Memory),
        Step::More | Step::Over => unreachable!(),
    }
}

// Steps a session that has begun to its end.
fn run_out<K: Shelf>(alloc: Global, session: Session, shelf: &mut K) -> Ended
    ensures run { (name : Name) (d : Dir) → IsBegun name d session → IsRight name d → Adds (one name d result.step) (K.seen shelf.old) (K.seen shelf.new) }
    ensures end { (name : Name) (d : Dir) → IsBegun name d session → IsEnd result.step result.blamed }
{
    let mut session = session;
    let step = session.run(alloc, shelf);
    let blamed = session.into_blamed(alloc);
    Ended { step, blamed }
}

// The fault of a tree with another digest.
fn mismatch(alloc: Global, name: &DigestName, found: &DigestName) -> AddFault
    ensures { Mismatches name.now found.now result }
{
    let Ok(name) = name.text(alloc) else {
        return AddFault::Memory;
    };
    let Ok(found) = found.text(alloc) else {
        return AddFault::Memory;
    };
    AddFault::Mismatch { name, found }
}

/// Adds a tree under a digest name, and answers whether it was stored or the name was there already.
///
/// BadName comes exactly where a name of the tree is bad, with the path of the first; Mismatch exactly where none is and its
/// digest isn't the name; no call of the shelf was made then. Failed comes only where the shelf's count of faults rose, and
/// Crowded where each of 10,000 temporary names was there.
#[tactic(auto, using(crate::proofs::AddingLemmas::answering))]
pub fn add_tree<K: Shelf>(
    alloc: Global,
    name: DigestName,
    tree: Tree,
    shelf: &mut K,
) -> Result<Added, AddFault>
    ensures { AddsTree name tree (K.seen shelf.old) (K.seen shelf.new) result }
{
    let session = match Session::begin(alloc, name, tree) {
        Ok(session) => session,
        Err(BeginFault::BadName { path }) => return Err(AddFault::BadName { path }),
        Err(BeginFault::Mismatch { found }) => return Err(mismatch(alloc, &name, &found)),
        Err(BeginFault::Memory) => return Err(AddFault::Memory),
    };
    let ended = run_out(alloc, session, shelf);
    close(ended)
}
