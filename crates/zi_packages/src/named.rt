//! A row of a table with what its implementation needs beside it.
ghost use Rattle.std.specs.Prelude.{◌≡◌, ◌∷◌, [], IfOk};
ghost use Rattle.zi_packages.specs.Natives.{row_id, row_impl};

use crate::types::PackageRow;
use std::alloc::Global;
use std::marker::Model;
use zi_inherited::Shared;
use zi_parts::{Impl, Native, Package, copy_text};
use zi_policy::{Arch, Stability};
use zi_text::{List, Memory, Text};

/// A row of a table, with the id and the platform of its implementation, which are made once. Contracts see the row.
pub struct NamedRow<'t> {
    row: &'t PackageRow,
    id: Text,
    arch: Arch,
}

// One call wherever one is dropped.
impl<'t> Drop for NamedRow<'t> {
    fn drop(self) {
        let NamedRow {
            row: _,
            id: _,
            arch: _,
        } = self;
    }
}

impl<'t> Model for NamedRow<'t> {
    ghost use Rattle.std.specs.Prelude.{◌≡◌};
    ghost use Rattle.zi_packages.specs.declared.types.PackageRow.{PackageRow as ARow};
    ghost use Rattle.zi_packages.specs.Natives.{row_id, row_arch};

    ghost Value = { ARow };

    ghost view = { λ r. r.row.now };

    ghost invariant = { λ r. (r.id ≡ row_id r.row.now) × (r.arch ≡ row_arch r.row.now) };
}

// The id of a row's implementation.
#[tactic(auto, unfolding(crate::specs::Natives::row_id))]
fn id_of(alloc: Global, row: &PackageRow) -> Result<Text, Memory>
    ensures { IfOk result (λ t. t ≡ row_id row.now) }
{
    let mut id = Text::from_str(alloc, "package:")?;
    id.push_str(row.package.as_str())?;
    id.push_str(":")?;
    id.push_str(row.version.text())?;
    id.push_str(":")?;
    id.push_str(row.machine.as_str())?;
    Ok(id)
}

impl<'t> NamedRow<'t> {
    /// A row with its id; the text is that of any operating system. Memory is the one refusal.
    pub(crate) fn new(
        alloc: Global,
        row: &'t PackageRow,
        any: &Text,
    ) -> Result<NamedRow<'t>, Memory>
        requires { any.now ≡ 42 ∷ [] }
        ensures { IfOk result (λ r. r ≡ row.entry.now) }
    {
        let id = id_of(alloc, row)?;
        let os = any.copy(alloc)?;
        let machine = row.machine.copy(alloc)?;
        let arch = Arch { os, machine };
        Ok(NamedRow { row, id, arch })
    }

    /// The id of its implementation, lent.
    pub fn id(&self) -> &Text
        ensures { result.now ≡ row_id self.now }
    {
        &self.id
    }

    /// Its implementation, with what a feed says of the package. It shares all that the feed says with the feed. Memory is the
    /// one refusal.
    #[tactic(auto, unfolding(crate::specs::Natives::row_impl))]
    pub fn implementation(&self, alloc: Global, native: &Native) -> Result<Impl, Memory>
        ensures { IfOk result (λ i. i ≡ row_impl native.now self.now) }
    {
        let row = self.row;
        let id = self.id.copy(alloc)?;
        let version = row.version.copy(alloc)?;
        let arch = self.arch.copy(alloc)?;
        let langs = native.langs.share()?;
        let released = copy_text(alloc, &native.released)?;
        let methods = List::new(alloc);
        let none = Shared::new(alloc, methods)?;
        let deps = native.deps.share()?;
        let commands = native.commands.share()?;
        let bindings = native.bindings.share()?;
        let name = row.package.copy(alloc)?;
        Ok(Impl {
            id,
            version,
            arch: Some(arch),
            stability: Stability::Packaged,
            langs,
            released,
            local: None,
            digests: List::new(alloc),
            methods: none,
            deps,
            commands,
            bindings,
            place: native.place,
            package: Some(Package {
                name,
                installed: row.installed,
            }),
        })
    }
}

/// A package that a feed names, with its rows.
#[derive(Drop)]
pub(crate) struct Named<'a, 't> {
    /// Its place among those that the feed names.
    pub at: usize,
    /// What the feed says of it.
    pub native: &'a Native,
    /// Its rows.
    pub rows: &'a [NamedRow<'t>],
}

/// A row for a package that a feed names.
#[derive(Drop)]
pub struct Pick<'a, 't> {
    /// The package's place among those that the feed names.
    pub at: usize,
    /// What the feed says of it.
    pub native: &'a Native,
    /// The row.
    pub row: &'a NamedRow<'t>,
}
