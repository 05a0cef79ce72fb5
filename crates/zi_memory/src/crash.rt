//! A crash of a shelf in memory: the one outcome of the crash model that a pick names.
//! An entry that comes back goes at once to the oldest of its names that is taken back. Of two that come to one name the one
//! whose change is older stays, since the newest change is taken back first. What is pending says whose a change is: the name
//! alone doesn't, since an entry may have left it. All memory is taken before the first entry moves.

ghost use Rattle.std.specs.Prelude.{◌≡◌, ◌+◌, ◌-◌, ◌^◌, ◌<◌, ◌≤◌, ◌∷◌, ◌++◌, [], ◌&&◌, ℕ, Bool, true, None, Some, Ok, map, length, get_or, IfOk, OnOk, OnErr, if◌then◌else◌, bytes_eq, option_copied, vec_len, vec_capacity};
ghost use Rattle.std.specs.BTreeMap.{btree_map_len};
ghost use Rattle.zi_tree.specs.Order.{is_tree};
ghost use Rattle.zi_shelf.specs.Names.{Name};
ghost use Rattle.zi_memory.specs.Memory.{are_trees, later_of, told_of, top_of};
ghost use Rattle.zi_memory.specs.Picked.{pick_of, IsPicked};
ghost use Rattle.zi_shelf.specs.Shelved.{Renamed};
ghost use Rattle.zi_memory.specs.Comers.{at, no_entry, ArePlaces, pending_of, may_stay, first_or, first_step, first_at, is_later, offered, best, removed_comers, all_comers, comer_step, place_step, removed_tops, moved};
ghost use Rattle.zi_memory.specs.declared.crash.Comer.{Comer};

use crate::held::Held;
use crate::top_entry::{Later, TopEntry};
use std::alloc::Global;
use std::collections::BTreeMap;
use std::mem;
use zi_text::{Memory, Text};
use zi_tree::Tree;

/// What a crash takes back, and what it leaves.
#[derive(Clone, Copy)]
pub struct Pick {
    /// The pending renames are taken back.
    pub renames: bool,
    /// The pending removals are taken back.
    pub removals: bool,
    /// The unsettled entries are gone.
    pub unsettled: bool,
}

/// The first name of an entry since the last settle of the top.
#[derive(Drop)]
pub struct First {
    pub name: Text,
    /// How many of the pending changes are older than the one by which it left that name.
    pub older: usize,
}

/// An entry that may be left.
#[derive(Clone, Copy)]
pub struct Comer {
    /// How many of the pending changes are older than the one that is taken back last for it; all where none is.
    pub older: usize,
    /// Its place among the entries, with the removed ones behind them.
    pub place: usize,
}

impl Held {
    /// Leaves what the three low bits of a number say. Where memory is refused nothing changes.
    pub fn crash(&mut self, pick: u64) -> Result<(), Memory>
        ensures picked { OnOk result (IsPicked (pick_of pick) (told_of self.old.entries.items self.old.pending.items self.old.calls).shelf (told_of self.new.entries.items self.new.pending.items self.new.calls).shelf.tops) }
        ensures settled { OnOk result (self.new.pending.items ≡ []) }
        ensures err { OnErr result (told_of self.new.entries.items self.new.pending.items self.new.calls ≡ told_of self.old.entries.items self.old.pending.items self.old.calls) }
        ensures calls { self.new.calls ≡ self.old.calls }
        ensures root { self.new.root ≡ self.old.root }
        ensures fail { self.new.fail ≡ self.old.fail }
        ensures faults { self.new.faults ≡ self.old.faults }
        ensures sure { self.new.sure ≡ self.old.sure }
    {
        let pick = picked(pick);
        let comers = comers_of(
            self.alloc,
            self.entries.as_slice(),
            self.pending.as_slice(),
            pick,
        )?;
        let mut left = Vec::with_capacity(self.alloc, comers.len())?;
        self.entries.reserve(self.pending.len())?;
        let mut sources = mem::replace(&mut self.entries, Vec::new(self.alloc));
        let pending = mem::replace(&mut self.pending, Vec::new(self.alloc));
        put_removed(&mut sources, pending);
        put_left(self.alloc, &mut left, &mut sources, comers);
        self.entries = left;
        Ok(())
    }
}

/// What the three low bits say.
fn picked(pick: u64) -> Pick
    ensures { result ≡ pick_of pick }
{
    Pick {
        renames: pick % 2 == 1,
        removals: pick / 2 % 2 == 1,
        unsettled: pick / 4 % 2 == 1,
    }
}

/// The entries that are left, by their names.
fn comers_of(
    alloc: Global,
    entries: &[TopEntry],
    pending: &[Later],
    pick: Pick,
) -> Result<BTreeMap<Text, Comer>, Memory>
    ensures { IfOk result (λ m. (n : Name) → at m n ≡ best (all_comers pick entries.now pending.now) n) }
{
    let mut firsts = BTreeMap::new(alloc);
    let mut comers = BTreeMap::new(alloc);
    offer_removed(
        alloc,
        entries.len(),
        pending,
        pick,
        &mut firsts,
        &mut comers,
    )?;
    offer_standing(alloc, entries, pending, pick, &firsts, &mut comers)?;
    Ok(comers)
}

/// Offers the removed entries, where removals are taken back, and finds the first rename of what stands under each name.
fn offer_removed(
    alloc: Global,
    standing: usize,
    pending: &[Later],
    pick: Pick,
    firsts: &mut BTreeMap<Text, First>,
    comers: &mut BTreeMap<Text, Comer>,
) -> Result<(), Memory>
    requires few { standing < 2 ^ 63 }
    requires no_first { (n : Name) → at firsts.old n ≡ None }
    requires no_comer { (n : Name) → at comers.old n ≡ None }
    ensures firsts { OnOk result ((n : Name) → at firsts.new n ≡ first_at pick.renames n (pending_of pending.now)) }
    ensures comers { OnOk result ((n : Name) → at comers.new n ≡ best (removed_comers pick standing (pending_of pending.now)) n) }
{
    let mut place = standing;
    for number in 0..pending.len() {
        place = take_back(alloc, &pending[number], number, place, pick, firsts, comers)?;
    }
    Ok(())
}

/// What the change of this number does to the first renames and to those that come. The place of the next removed entry.
fn take_back(
    alloc: Global,
    later: &Later,
    number: usize,
    place: usize,
    pick: Pick,
    firsts: &mut BTreeMap<Text, First>,
    comers: &mut BTreeMap<Text, Comer>,
) -> Result<usize, Memory>
    requires { place < 2 ^ 64 - 1 }
    ensures place { IfOk result (λ next. next ≡ place_step (later_of later.now) place) }
    ensures firsts { OnOk result ((n : Name) → at firsts.new n ≡ first_step pick.renames (later_of later.now) number (at firsts.old) n) }
    ensures comers { OnOk result ((n : Name) → at comers.new n ≡ comer_step pick (later_of later.now) number place (at firsts.old) (at comers.old) n) }
{
    match later {
        Later::RenamedTop(old, new) => {
            note_rename(alloc, pick, firsts, old, new, number)?;
            Ok(place)
        }
        Later::RemovedTop(entry) => {
            let first = take_first(alloc, firsts, &entry.name, number)?;
            offer_gone(pick, entry, first, place, comers)?;
            Ok(place + 1)
        }
    }
}

/// Notes what the rename of this number says of the first renames, where renames are taken back.
fn note_rename(
    alloc: Global,
    pick: Pick,
    firsts: &mut BTreeMap<Text, First>,
    old: &Text,
    new: &Text,
    number: usize,
) -> Result<(), Memory>
    ensures { OnOk result ((n : Name) → at firsts.new n ≡ first_step pick.renames (Renamed old.now new.now) number (at firsts.old) n) }
{
    if !pick.renames {
        return Ok(());
    }
    let first = take_first(alloc, firsts, old, number)?;
    firsts.insert(new.copy(alloc)?, first)?;
    Ok(())
}

/// Offers a removed entry, where removals are taken back.
fn offer_gone(
    pick: Pick,
    entry: &TopEntry,
    first: First,
    place: usize,
    comers: &mut BTreeMap<Text, Comer>,
) -> Result<(), Memory>
    ensures { OnOk result ((n : Name) → at comers.new n ≡ (if pick.removals && may_stay pick entry.now.settled then offered first.name (record { older = first.older; place = place }) (at comers.old) n else at comers.old n)) }
{
    if !pick.removals {
        return Ok(());
    }
    if !may_stay(entry, pick) {
        return Ok(());
    }
    let comer = Comer {
        older: first.older,
        place,
    };
    offer(comers, first.name, comer)
}

/// Takes out the first rename of what stands under a name; without one it comes by the change of this number.
fn take_first(
    alloc: Global,
    firsts: &mut BTreeMap<Text, First>,
    name: &Text,
    number: usize,
) -> Result<First, Memory>
    ensures ok { IfOk result (λ f. f ≡ first_or (at firsts.old name.now) name.now number) }
    ensures out { (n : Name) → at firsts.new n ≡ (if bytes_eq name.now n then None else at firsts.old n) }
{
    match firsts.remove(name) {
        Some(first) => Ok(first),
        None => Ok(First {
            name: name.copy(alloc)?,
            older: number,
        }),
    }
}

/// The first rename of what stands under a name; without one it comes by the change of this number.
fn find_first(
    alloc: Global,
    firsts: &BTreeMap<Text, First>,
    name: &Text,
    number: usize,
) -> Result<First, Memory>
    ensures { IfOk result (λ f. f ≡ first_or (at firsts.now name.now) name.now number) }
{
    match firsts.get(name) {
        Some(first) => Ok(First {
            name: first.name.copy(alloc)?,
            older: first.older,
        }),
        None => Ok(First {
            name: name.copy(alloc)?,
            older: number,
        }),
    }
}

/// Offers the entries that stand.
fn offer_standing(
    alloc: Global,
    entries: &[TopEntry],
    pending: &[Later],
    pick: Pick,
    firsts: &BTreeMap<Text, First>,
    comers: &mut BTreeMap<Text, Comer>,
) -> Result<(), Memory>
    requires firsts { (n : Name) → at firsts.now n ≡ first_at pick.renames n (pending_of pending.now) }
    requires comers { (n : Name) → at comers.old n ≡ best (removed_comers pick (length entries.now) (pending_of pending.now)) n }
    ensures { OnOk result ((n : Name) → at comers.new n ≡ best (all_comers pick entries.now pending.now) n) }
{
    let number = pending.len();
    for place in 0..entries.len() {
        offer_entry(alloc, &entries[place], place, number, pick, firsts, comers)?;
    }
    Ok(())
}

/// Offers an entry that stands; without a rename it comes by the change of this number.
fn offer_entry(
    alloc: Global,
    entry: &TopEntry,
    place: usize,
    number: usize,
    pick: Pick,
    firsts: &BTreeMap<Text, First>,
    comers: &mut BTreeMap<Text, Comer>,
) -> Result<(), Memory>
    ensures { OnOk result ((n : Name) → at comers.new n ≡ (if may_stay pick entry.now.settled then offered (first_or (at firsts.now entry.now.name) entry.now.name number).name (record { older = (first_or (at firsts.now entry.now.name) entry.now.name number).older; place = place }) (at comers.old) n else at comers.old n)) }
{
    if !may_stay(entry, pick) {
        return Ok(());
    }
    let first = find_first(alloc, firsts, &entry.name, number)?;
    let comer = Comer {
        older: first.older,
        place,
    };
    offer(comers, first.name, comer)
}

/// Whether an entry may be left: an unsettled one isn't where those are gone.
fn may_stay(entry: &TopEntry, pick: Pick) -> bool
    ensures { result ≡ may_stay pick entry.now.settled }
{
    entry.settled || !pick.unsettled
}

/// Puts a comer there, where none has the name whose change is as old.
fn offer(comers: &mut BTreeMap<Text, Comer>, name: Text, comer: Comer) -> Result<(), Memory>
    ensures { OnOk result ((n : Name) → at comers.new n ≡ offered name comer (at comers.old) n) }
{
    if is_later(comers.get(&name), comer) {
        return Ok(());
    }
    comers.insert(name, comer)?;
    Ok(())
}

/// Whether one that is there has a change that is as old.
fn is_later(there: Option<&Comer>, comer: Comer) -> bool
    ensures { result ≡ is_later (option_copied there.entry) comer }
{
    match there {
        Some(other) => other.older <= comer.older,
        None => false,
    }
}

/// Puts the removed entries behind the others, the oldest first, where there is room.
fn put_removed(sources: &mut Vec<TopEntry>, mut pending: Vec<Later>)
    requires { vec_len sources.old + vec_len pending ≤ vec_capacity sources.old }
    ensures { sources.new.items ≡ sources.old.items ++ removed_tops pending.items }
{
    pending.reverse();
    while let Some(later) = pending.pop() {
        put_gone(sources, later);
    }
}

/// Puts a removed entry behind the others, where there is room.
fn put_gone(sources: &mut Vec<TopEntry>, later: Later)
    requires { vec_len sources.old < vec_capacity sources.old }
    ensures items { sources.new.items ≡ sources.old.items ++ removed_tops (later ∷ []) }
    ensures len { vec_len sources.new ≤ vec_len sources.old + 1 }
    ensures capacity { vec_capacity sources.new ≡ vec_capacity sources.old }
{
    match later {
        Later::RemovedTop(entry) => sources.push_reserved(entry),
        Later::RenamedTop(_, _) => {}
    }
}

/// Puts the comers there, in the order of their names, where there is room. Each takes its tree from the sources.
fn put_left(
    alloc: Global,
    left: &mut Vec<TopEntry>,
    sources: &mut Vec<TopEntry>,
    mut comers: BTreeMap<Text, Comer>,
)
    requires none { left.old.items ≡ [] }
    requires room { btree_map_len comers ≤ vec_capacity left.old }
    requires places { ArePlaces comers.entries sources.old.items }
    ensures left { left.new.items ≡ map (moved sources.old.items) comers.entries }
    ensures whole { are_trees left.new.items ≡ true }
{
    while let Some((name, comer)) = comers.pop_first() {
        let entry = taken(alloc, sources, name, comer.place);
        left.push_reserved(entry);
    }
}

/// The entry at a place, under this name. An empty tree stays behind.
fn taken(alloc: Global, sources: &mut Vec<TopEntry>, name: Text, place: usize) -> TopEntry
    requires { place < length sources.old.items }
    ensures entry { result ≡ record (get_or sources.old.items place no_entry) { name = name } }
    ensures left { (other : ℕ) → (other ≡ place → ⊥) → get_or sources.new.items other no_entry ≡ get_or sources.old.items other no_entry }
    ensures len { length sources.new.items ≡ length sources.old.items }
    ensures whole { is_tree result.tree ≡ true }
{
    let source = &mut sources[place];
    let tree = mem::replace(&mut source.tree, Tree::new(alloc));
    tree.is_whole();
    TopEntry {
        name,
        tree,
        settled: source.settled,
    }
}
