//! The rows of a table by their packages.
ghost use Rattle.std.specs.Prelude.{◌≡◌, ◌∷◌, ◌++◌, [], IfOk, OnOk, MatchOption, List as Items, ℕ};
ghost use Rattle.zi_packages.specs.Table.{is_listed};
ghost use Rattle.zi_packages.specs.Natives.{is_for, rows_of, with_rows};
ghost use Rattle.zi_packages.specs.Picks.{AreAt, FindsRows, AddsRow, all_picked};

use crate::named::{NamedRow, Pick};
use crate::picking::{first_named, pick_all};
use crate::types::{PackageRow, Packages};
use std::alloc::Global;
use std::collections::HashMap;
use std::marker::Model;
use zi_parts::{Impl, Native};
use zi_text::{List, Memory, Text};

/// A table whose rows are found by their packages in constant time. Contracts see the table.
pub struct Rows<'t> {
    table: &'t Packages,
    by_package: HashMap<&'t str, List<NamedRow<'t>>>,
}

// One call wherever one is dropped.
impl<'t> Drop for Rows<'t> {
    fn drop(self) {
        let Rows {
            table: _,
            by_package: _,
        } = self;
    }
}

impl<'t> Model for Rows<'t> {
    ghost use Rattle.zi_packages.specs.declared.types.Packages.{Packages as ATable};
    ghost use Rattle.zi_packages.specs.Picks.{FindsRows};

    ghost Value = { ATable };

    ghost view = { λ r. r.table.now };

    ghost invariant = { λ r. FindsRows r.table.now.rows r.by_package.entries };
}

// Adds a row to those of its package.
fn add_row<'t>(
    alloc: Global,
    row: &'t PackageRow,
    any: &Text,
    rows: &mut HashMap<&'t str, List<NamedRow<'t>>>,
) -> Result<(), Memory>
    requires { any.now ≡ 42 ∷ [] }
    ensures { OnOk result (AddsRow row.entry.now rows.old.entries rows.new.entries) }
{
    let name = row.package.as_str();
    let named = NamedRow::new(alloc, row, any)?;
    let mut those = rows.remove(&name).unwrap_or(List::new(alloc));
    those.push(named)?;
    rows.insert(name, those)?;
    Ok(())
}

// The rows of each package.
fn by_package<'t>(
    alloc: Global,
    rows: &'t [PackageRow],
) -> Result<HashMap<&'t str, List<NamedRow<'t>>>, Memory>
    ensures { IfOk result (λ m. FindsRows rows.entry.now m.entries) }
{
    let any = Text::from_str(alloc, "*")?;
    let mut found = HashMap::new(alloc);
    for row in rows {
        add_row(alloc, row, &any, &mut found)?;
    }
    Ok(found)
}

// Whether a distribution is one of these.
fn is_among(distribution: &Text, names: &[Text]) -> bool
    ensures { result ≡ is_listed distribution.now names.now }
{
    for name in names {
        if distribution == name {
            return true;
        }
    }
    false
}

impl<'t> Rows<'t> {
    /// The rows of a table, which are looked at once. Memory is the one refusal.
    pub fn new(alloc: Global, table: &'t Packages) -> Result<Rows<'t>, Memory>
        ensures { IfOk result (λ r. r ≡ table.entry.now) }
    {
        let by_package = by_package(alloc, table.rows.as_slice())?;
        Ok(Rows { table, by_package })
    }

    /// Whether what a feed says of a package is for the table's distribution.
    #[tactic(auto, unfolding(crate::specs::Natives::is_for))]
    pub(crate) fn is_for(&self, native: &Native) -> bool
        ensures { result ≡ is_for self.now.distribution native.now }
    {
        let names = native.distributions.as_slice();
        names.is_empty() || is_among(&self.table.distribution, names)
    }

    /// The rows of a package, where it has any, in the order of the table.
    pub(crate) fn of<'a>(&'a self, name: &'a Text) -> Option<&'a [NamedRow<'t>]>
        ensures { MatchOption result (rows_of self.now.rows name.entry.now ≡ []) (λ rs. rs.now ≡ rows_of self.now.rows name.entry.now) }
    {
        let name = name.as_str();
        match self.by_package.get(&name) {
            None => None,
            Some(rows) => Some(rows.as_slice()),
        }
    }

    /// The rows whose implementations join these of a feed that names these packages: for each package that is for the table's
    /// distribution its rows, but those whose id an earlier implementation has. The time is linear in what is given and picked,
    /// since of one package the first that a feed names has all its rows. Memory is the one refusal.
    pub fn picks<'a>(
        &'a self,
        alloc: Global,
        impls: &[Impl],
        natives: &'a [Native],
    ) -> Result<Vec<Pick<'a, 't>>, Memory>
        ensures are { IfOk result (λ ps. with_rows self.now impls.now natives.entry.now ≡ impls.now ++ all_picked ps.items) }
        ensures at { IfOk result (λ ps. AreAt natives.entry.now ps.items) }
    {
        let named = first_named(alloc, self, natives)?;
        pick_all(alloc, impls, named.as_slice())
    }
}
