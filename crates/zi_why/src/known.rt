//! What is known before a place of the walk, kept up to date stop by stop, so that what bears on an interface is there at once.
ghost use Rattle.std.specs.Prelude.{◌≡◌, ◌<◌, ◌++◌, ◌∷◌, [], ◌==◌, ℕ, cond, map, length, OnOk, IfOk, Option, None, Some, List as Items};
ghost use Rattle.std.specs.Option.{option_or};
ghost use Rattle.zi_universe.specs.declared.types.Interface.{Interface as AnInterface};
ghost use Rattle.zi_policy.specs.declared.types.Width.TheVariants.{Bits32, Bits64};
ghost use Rattle.zi_choice.specs.Valid.{group};
ghost use Rattle.zi_choice.specs.Choice.{needs_of};
ghost use Rattle.zi_choice.specs.declared.traced.Stop.{Stop as AStop};
ghost use Rattle.zi_choice.specs.declared.traced.Stop.TheVariants.{Came, Needed};
ghost use Rattle.zi_why.specs.Reasons.{Owned as AnOwned, owned_by, bearing};
ghost use Rattle.zi_why.specs.Known.{universe_of, picks_of, as_owned, row_at, RowsAre, AreEmpty, same_width, KnowsOf, other_of};

use crate::setting::{Setting, chosen, command_at};
use indexmap::IndexSet;
use std::alloc::Global;
use zi_choice::{Names, Stop, group};
use zi_inherited::Inherited;
use zi_parts::{Command, Dep};
use zi_policy::Width;
use zi_text::{Memory, Text};
use zi_universe::Candidate;

/// A dependency with the number of the interface whose choice, or whose used command, has it.
#[derive(Clone, Copy)]
pub(crate) struct Owned<'u> {
    pub owner: u32,
    pub dep: &'u Dep,
}

/// What the stops so far say.
#[derive(Drop)]
pub(crate) struct Known<'u> {
    /// For each interface the owned dependencies that are on it, in order.
    pub bearing: Vec<Vec<Owned<'u>>>,
    /// The interfaces that were come to.
    pub came: IndexSet<u32>,
    /// The first interface that was come to whose choice is 32-bit, and the first whose choice is 64-bit.
    pub narrow: Option<u32>,
    pub wide: Option<u32>,
}

// So many empty rows.
fn rows<'u>(alloc: Global, len: usize) -> Result<Vec<Vec<Owned<'u>>>, Memory>
    ensures { IfOk result (λ v. AreEmpty len v.items) }
{
    let mut rows = Vec::new(alloc);
    for _i in 0..len {
        rows.push(Vec::new(alloc))?;
    }
    Ok(rows)
}

// A row.
fn row<'a, 'u>(rows: &'a Vec<Vec<Owned<'u>>>, i: u32) -> &'a [Owned<'u>]
    requires { i < length rows.now.items }
    ensures { result.now ≡ row_at rows.now.items i }
{
    rows[i as usize].as_slice()
}

// One dependency more in a row.
fn add<'u>(rows: &mut Vec<Vec<Owned<'u>>>, i: usize, owned: Owned<'u>) -> Result<(), Memory>
    requires { i < length rows.old.items }
    ensures len { length rows.new.items ≡ length rows.old.items }
    ensures ok { OnOk result ((q : ℕ) → row_at rows.new.items q ≡ row_at rows.old.items q ++ cond (i == q) (owned.entry ∷ []) []) }
{
    match rows[i].push(owned) {
        Ok(()) => Ok(()),
        Err(_) => Err(Memory),
    }
}

// A dependency that is owned from now on: it is in the row of its interface, or in none where there is no such interface.
fn own<'u>(rows: &mut Vec<Vec<Owned<'u>>>, names: &Names, owned: Owned<'u>) -> Result<(), Memory>
    requires { length rows.old.items ≡ length names.now }
    ensures len { length rows.new.items ≡ length rows.old.items }
    ensures ok { OnOk result ((os : Items AnOwned) → RowsAre names.now rows.old.items os → RowsAre names.now rows.new.items (os ++ as_owned owned.entry ∷ [])) }
{
    let Some(i) = names.number(&owned.dep.interface) else {
        return Ok(());
    };
    add(rows, i as usize, owned)?;
    Ok(())
}

// The dependencies of a candidate are owned.
fn own_all<'u>(
    rows: &mut Vec<Vec<Owned<'u>>>,
    names: &Names,
    owner: u32,
    deps: &'u Inherited<Dep>,
) -> Result<(), Memory>
    requires { length rows.old.items ≡ length names.now }
    ensures len { length rows.new.items ≡ length rows.old.items }
    ensures ok { OnOk result ((os : Items AnOwned) → RowsAre names.now rows.old.items os → RowsAre names.now rows.new.items (os ++ map (owned_by owner) deps.now)) }
{
    for n in 0..deps.len() {
        let dep = deps.at(n);
        own(rows, names, Owned { owner, dep })?;
    }
    Ok(())
}

// The dependencies of a command are owned.
fn own_each<'u>(
    rows: &mut Vec<Vec<Owned<'u>>>,
    names: &Names,
    owner: u32,
    deps: &'u [Dep],
) -> Result<(), Memory>
    requires { length rows.old.items ≡ length names.now }
    ensures len { length rows.new.items ≡ length rows.old.items }
    ensures ok { OnOk result ((os : Items AnOwned) → RowsAre names.now rows.old.items os → RowsAre names.now rows.new.items (os ++ map (owned_by owner) deps.now)) }
{
    for dep in deps {
        own(rows, names, Owned { owner, dep })?;
    }
    Ok(())
}

// What a command needs is owned, and then its runner.
fn own_needs<'u>(
    rows: &mut Vec<Vec<Owned<'u>>>,
    names: &Names,
    owner: u32,
    command: &'u Command,
) -> Result<(), Memory>
    requires { length rows.old.items ≡ length names.now }
    ensures len { length rows.new.items ≡ length rows.old.items }
    ensures ok { OnOk result ((os : Items AnOwned) → RowsAre names.now rows.old.items os → RowsAre names.now rows.new.items (os ++ map (owned_by owner) (needs_of command.now))) }
{
    own_each(rows, names, owner, command.deps.as_slice())?;
    let Some(runner) = &command.runner else {
        return Ok(());
    };
    let dep = &runner.dep;
    own(rows, names, Owned { owner, dep })?;
    Ok(())
}

// Whether a candidate is 32-bit.
fn is_narrow(k: &Candidate) -> bool
    ensures { result ≡ same_width Bits32 (group k.now) }
{
    match group(k) {
        Width::Any => false,
        Width::Bits32 => true,
        Width::Bits64 => false,
    }
}

// Whether a candidate is 64-bit.
fn is_wide(k: &Candidate) -> bool
    ensures { result ≡ same_width Bits64 (group k.now) }
{
    match group(k) {
        Width::Any => false,
        Width::Bits32 => false,
        Width::Bits64 => true,
    }
}

// The first interface of a bit group, with one more behind it that may be of it.
fn first_with(old: Option<u32>, is_of: bool, i: u32) -> Option<u32>
    ensures { result ≡ option_or old (cond is_of (Some i) None) }
{
    match old {
        Some(first) => Some(first),
        None => if is_of { Some(i) } else { None },
    }
}

impl<'u> Known<'u> {
    /// Before the first stop.
    pub(crate) fn nothing(alloc: Global, interfaces: usize) -> Result<Known<'u>, Memory>
        ensures { IfOk result (λ known. (u : Items AnInterface) (s : Items (Option ℕ)) → length u ≡ interfaces → KnowsOf u s [] known) }
    {
        let bearing = rows(alloc, interfaces)?;
        Ok(Known {
            bearing,
            came: IndexSet::new(alloc),
            narrow: None,
            wide: None,
        })
    }

    // An interface is come to, with what is chosen for it.
    fn come(&mut self, on: &Setting<'u>, i: u32) -> Result<(), Memory>
        requires { length self.old.bearing.items ≡ length (universe_of on.now) }
        ensures { OnOk result ((xs : Items AStop) → KnowsOf (universe_of on.now) (picks_of on.now) xs self.old → KnowsOf (universe_of on.now) (picks_of on.now) (xs ++ Came i ∷ []) self.new) }
    {
        self.came.insert(i)?;
        let Some(p) = chosen(on, i) else {
            return Ok(());
        };
        self.narrow = first_with(self.narrow, is_narrow(p.is), i);
        self.wide = first_with(self.wide, is_wide(p.is), i);
        own_all(&mut self.bearing, on.names, i, &p.is.imp.deps)?;
        Ok(())
    }

    // A command is needed.
    fn need(&mut self, on: &Setting<'u>, i: u32, name: &Text) -> Result<(), Memory>
        requires { length self.old.bearing.items ≡ length (universe_of on.now) }
        ensures { OnOk result ((xs : Items AStop) → KnowsOf (universe_of on.now) (picks_of on.now) xs self.old → KnowsOf (universe_of on.now) (picks_of on.now) (xs ++ Needed i name.now ∷ []) self.new) }
    {
        let Some(command) = command_at(on, i, name) else {
            return Ok(());
        };
        own_needs(&mut self.bearing, on.names, i, command)?;
        Ok(())
    }

    /// Past a stop.
    pub(crate) fn pass(&mut self, on: &Setting<'u>, stop: &Stop) -> Result<(), Memory>
        requires { length self.old.bearing.items ≡ length (universe_of on.now) }
        ensures { OnOk result ((xs : Items AStop) → KnowsOf (universe_of on.now) (picks_of on.now) xs self.old → KnowsOf (universe_of on.now) (picks_of on.now) (xs ++ stop.now ∷ []) self.new) }
    {
        match stop {
            Stop::Came(i) => self.come(on, *i),
            Stop::Needed(i, name) => self.need(on, *i, name),
        }
    }

    /// The owned dependencies that are on an interface, in order.
    pub(crate) fn bearing_on(&self, i: u32) -> &[Owned<'u>]
        requires { i < length self.now.bearing.items }
        ensures { (u : Items AnInterface) (s : Items (Option ℕ)) (xs : Items AStop) → KnowsOf u s xs self.now → map as_owned result.now ≡ bearing u s xs i }
    {
        row(&self.bearing, i)
    }

    /// The first interface whose choice is of the other bit group than this.
    pub(crate) fn other_bits(&self, width: Width) -> Option<u32>
        ensures { result ≡ other_of self.now width }
    {
        match width {
            Width::Any => None,
            Width::Bits32 => self.wide,
            Width::Bits64 => self.narrow,
        }
    }
}
