//! Which rows join the implementations of a feed.
ghost use Rattle.std.specs.Prelude.{◌≡◌, ◌++◌, IfOk, OnOk, Some, fold, length, slice_get, ◌<◌, ◌+◌, List as Items, ℕ};
ghost use Rattle.zi_parts.specs.declared.types.Impl.{Impl as AnImpl};
ghost use Rattle.zi_parts.specs.declared.types.Native.{Native as ANative};
ghost use Rattle.zi_packages.specs.Table.{is_listed};
ghost use Rattle.zi_packages.specs.Natives.{row_impl, made_by, ids_of, offered_rows, with_new, with_rows};
ghost use Rattle.zi_packages.specs.Picks.{AreAt, AreNamedAt, HasPicked, HasNamed, all_named, all_picked};

use crate::by_package::Rows;
use crate::named::{Named, NamedRow, Pick};
use indexmap::IndexSet;
use std::alloc::Global;
use zi_parts::{Impl, Native};
use zi_text::{Memory, Text};

// Adds the package at a place with its rows, if it is for the table's distribution, has rows, and wasn't named before.
fn name_at<'a, 't>(
    alloc: Global,
    rows: &'a Rows<'t>,
    natives: &'a [Native],
    at: usize,
    seen: &mut IndexSet<Text>,
    named: &mut Vec<Named<'a, 't>>,
) -> Result<(), Memory>
    requires { at < length natives.now }
    ensures { OnOk result (HasNamed rows.entry.now natives.entry.now at seen.old.keys named.old.items → HasNamed rows.entry.now natives.entry.now (at + 1) seen.new.keys named.new.items) }
{
    let native = &natives[at];
    if !rows.is_for(native) {
        return Ok(());
    }
    let Some(rows) = rows.of(&native.package) else {
        return Ok(());
    };
    let name = native.package.copy(alloc)?;
    if seen.insert(name)? {
        named.push(Named { at, native, rows })?;
    }
    Ok(())
}

/// The packages that a feed names for the table's distribution and that have rows, each where it is first named so.
pub(crate) fn first_named<'a, 't>(
    alloc: Global,
    rows: &'a Rows<'t>,
    natives: &'a [Native],
) -> Result<Vec<Named<'a, 't>>, Memory>
    ensures same { IfOk result (λ ns. (is : Items AnImpl) → fold with_new is (all_named ns.items) ≡ with_rows rows.entry.now is natives.entry.now) }
    ensures at { IfOk result (λ ns. AreNamedAt natives.entry.now ns.items) }
{
    let mut seen = IndexSet::new(alloc);
    let mut named = Vec::new(alloc);
    for at in 0..natives.len() {
        name_at(alloc, rows, natives, at, &mut seen, &mut named)?;
    }
    Ok(named)
}

// The ids of implementations, each once.
fn ids_of(alloc: Global, impls: &[Impl]) -> Result<IndexSet<Text>, Memory>
    ensures { IfOk result (λ ids. (t : Items ℕ) → is_listed t ids.keys ≡ is_listed t (ids_of impls.now)) }
{
    let mut ids = IndexSet::new(alloc);
    for imp in impls {
        let id = imp.id.copy(alloc)?;
        ids.insert(id)?;
    }
    Ok(ids)
}

// Picks a row of a package, unless an earlier implementation has its id.
fn pick_row<'a, 't>(
    alloc: Global,
    named: &Named<'a, 't>,
    row: &'a NamedRow<'t>,
    ids: &mut IndexSet<Text>,
    picks: &mut Vec<Pick<'a, 't>>,
) -> Result<(), Memory>
    ensures picks { OnOk result ((is all : Items AnImpl) → HasPicked is ids.old.keys picks.old.items all → HasPicked is ids.new.keys picks.new.items (with_new all (row_impl named.now.native.now row.entry.now))) }
    ensures at { OnOk result ((ns : Items ANative) → slice_get ns named.now.at ≡ Some named.now.native.now → AreAt ns picks.old.items → AreAt ns picks.new.items) }
{
    let id = row.id().copy(alloc)?;
    if ids.insert(id)? {
        picks.push(Pick {
            at: named.at,
            native: named.native,
            row,
        })?;
    }
    Ok(())
}

// Picks the rows of a package.
fn pick_rows<'a, 't>(
    alloc: Global,
    named: &Named<'a, 't>,
    ids: &mut IndexSet<Text>,
    picks: &mut Vec<Pick<'a, 't>>,
) -> Result<(), Memory>
    ensures picks { OnOk result ((is all : Items AnImpl) → HasPicked is ids.old.keys picks.old.items all → HasPicked is ids.new.keys picks.new.items (fold with_new all (made_by named.now.native.now named.now.rows.now))) }
    ensures at { OnOk result ((ns : Items ANative) → slice_get ns named.now.at ≡ Some named.now.native.now → AreAt ns picks.old.items → AreAt ns picks.new.items) }
{
    for row in named.rows {
        pick_row(alloc, named, row, ids, picks)?;
    }
    Ok(())
}

/// Picks the rows of packages. Where there are none, the implementations aren't looked at.
pub(crate) fn pick_all<'a, 't>(
    alloc: Global,
    impls: &[Impl],
    named: &[Named<'a, 't>],
) -> Result<Vec<Pick<'a, 't>>, Memory>
    ensures are { IfOk result (λ ps. fold with_new impls.now (all_named named.now) ≡ impls.now ++ all_picked ps.items) }
    ensures at { IfOk result (λ ps. (ns : Items ANative) → AreNamedAt ns named.now → AreAt ns ps.items) }
{
    let mut picks = Vec::new(alloc);
    if named.is_empty() {
        return Ok(picks);
    }
    let mut ids = ids_of(alloc, impls)?;
    for one in named {
        pick_rows(alloc, one, &mut ids, &mut picks)?;
    }
    Ok(picks)
}
