//! A universe with its names.
ghost use Rattle.std.specs.Prelude.{◌≡◌, ◌<◌, length, IfOk, IfSome, option_and_then};
ghost use Rattle.zi_universe.specs.Whole.{uris_of};
ghost use Rattle.zi_choice.specs.Choice.{number, candidate_at, command_place};
ghost use Rattle.zi_choice.specs.Tables.{AreTablesOf, AreAllTables};

use crate::table::{CommandTable, table_of};
use indexmap::IndexSet;
use std::alloc::Global;
use std::marker::Model;
use zi_text::{List, Memory, Text};
use zi_universe::{Candidate, Universe};

/// A universe with its names: each interface is found by its address, and each command of a candidate by its name, in
/// constant time. Contracts see the list of interfaces, as of the universe itself. It is made once, in time and memory linear
/// in the addresses and the commands.
pub struct Names<'u> {
    universe: &'u Universe,
    addresses: IndexSet<Text>,
    commands: List<List<CommandTable>>,
}

// One call wherever one is dropped.
impl<'u> Drop for Names<'u> {
    fn drop(self) {
        let Names {
            universe: _,
            addresses: _,
            commands: _,
        } = self;
    }
}

impl<'u> Model for Names<'u> {
    ghost use Rattle.std.specs.Prelude.{List as Items};
    ghost use Rattle.zi_universe.specs.declared.types.Interface.{Interface as AnInterface};
    ghost use Rattle.zi_choice.specs.Tables.{AreNames};

    ghost Value = { Items AnInterface };

    ghost view = { λ n. n.universe.now };

    ghost invariant = { λ n. AreNames n.universe.now n.addresses.keys n.commands };
}

// The addresses of a universe's interfaces.
fn addresses_of(alloc: Global, u: &Universe) -> Result<IndexSet<Text>, Memory>
    ensures { IfOk result (λ names. names.keys ≡ uris_of u.now) }
{
    let mut names = IndexSet::new(alloc);
    for x in u.interfaces() {
        names.insert(x.uri.copy(alloc)?)?;
    }
    Ok(names)
}

// The tables of some candidates.
fn tables_of(alloc: Global, candidates: &[Candidate]) -> Result<List<CommandTable>, Memory>
    ensures { IfOk result (λ ts. AreTablesOf candidates.now ts) }
{
    let mut tables = List::new(alloc);
    for k in candidates {
        let table = table_of(alloc, &k.imp.commands)?;
        tables.push(table)?;
    }
    Ok(tables)
}

// The tables of a universe's candidates.
fn all_tables_of(alloc: Global, u: &Universe) -> Result<List<List<CommandTable>>, Memory>
    ensures { IfOk result (λ rows. AreAllTables u.now rows) }
{
    let mut rows = List::new(alloc);
    for x in u.interfaces() {
        let row = tables_of(alloc, x.candidates.as_slice())?;
        rows.push(row)?;
    }
    Ok(rows)
}

impl<'u> Names<'u> {
    /// The names of a universe.
    pub fn of(alloc: Global, u: &'u Universe) -> Result<Names<'u>, Memory>
        ensures { IfOk result (λ n. n ≡ u.now) }
    {
        let addresses = addresses_of(alloc, u)?;
        let commands = all_tables_of(alloc, u)?;
        Ok(Names {
            universe: u,
            addresses,
            commands,
        })
    }

    /// The universe, lent.
    pub fn universe(&self) -> &'u Universe
        ensures { result.now ≡ self.now }
    {
        self.universe
    }

    /// The number of the interface of an address, where the universe has it.
    pub fn number(&self, uri: &Text) -> Option<u32>
        ensures is { result ≡ number self.now uri.now }
        ensures within { IfSome result (λ i. i < length self.now) }
    {
        let _whole = self.universe.interfaces();
        let i = self.addresses.get_index_of(uri)?;
        Some(i as u32)
    }

    /// The place of the command of a name among those of a candidate, where the candidate is there and has it.
    pub fn command_place(&self, interface: u32, candidate: u32, name: &Text) -> Option<usize>
        ensures { result ≡ option_and_then (λ k. command_place k name.now) (candidate_at self.now interface candidate) }
    {
        let row = self.commands.as_slice().get(interface as usize)?;
        let table = row.as_slice().get(candidate as usize)?;
        table.places.get(name).copied()
    }
}
