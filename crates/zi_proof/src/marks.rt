//! What is taken as true while hints are walked.
//! Each variable has a cell with the stamp of the walk that wrote it, so that all is forgotten by one new stamp.
//! Contracts see the list of what is known of each variable, by its number.

ghost use Rattle.std.specs.Prelude.{◌≡◌, ◌+◌, ◌<◌, ◌≤◌, length, IfOk, replicate};
ghost use Rattle.std.specs.List.{All};
ghost use Rattle.zi_proof.specs.Cells.{fresh_cell, known_by, MadeFor};
ghost use Rattle.zi_proof.specs.Known.{put, nothing, without};

use std::alloc::Global;
use std::marker::Model;
use zi_formula::{Formula, Lit};
use zi_text::Memory;

#[derive(Clone, Copy)]
pub(crate) struct Cell {
    stamp: u64,
    sign: bool,
}

/// The room in which hints are walked: for each variable whether it is true, false or undecided.
#[derive(Drop)]
pub struct Marks {
    cells: Vec<Cell>,
    present: u64,
}

impl Model for Marks {
    ghost use Rattle.std.specs.Prelude.{List, Option, Bool, ◌≤◌, ◌<◌, map};
    ghost use Rattle.std.specs.List.{All};

    ghost Value = { List (Option Bool) };

    ghost use Rattle.zi_proof.specs.Cells.{shown};

    ghost view = { λ a. map (shown a.present) a.cells.items };

    ghost invariant = { λ a. (0 < a.present) × All (λ c. c.stamp ≤ a.present) a.cells.items };
}

fn wipe(cells: &mut Vec<Cell>)
    ensures stamps { All (λ c. c.stamp ≤ 0) cells.new.items }
    ensures len { length cells.new.items ≡ length cells.old.items }
{
    let mut i = 0;
    while i < cells.len() {
        cells[i] = Cell {
            stamp: 0,
            sign: false,
        };
        i += 1;
    }
}

fn fresh(alloc: Global, len: usize) -> Result<Vec<Cell>, Memory>
    ensures { IfOk result (λ v. v.items ≡ replicate len fresh_cell) }
{
    let mut cells = Vec::new(alloc);
    for _i in 0..len {
        match cells.push(Cell {
            stamp: 0,
            sign: false,
        }) {
            Ok(()) => {}
            Err(_) => return Err(Memory),
        }
    }
    Ok(cells)
}

impl Marks {
    /// Marks of this formula, with nothing known.
    pub fn new(alloc: Global, f: &Formula) -> Result<Marks, Memory>
        ensures { IfOk result (MadeFor f.now) }
    {
        Marks::with_variables(alloc, f.variables)
    }

    /// Marks for the variables 1 to `variables`.
    pub fn with_variables(alloc: Global, variables: u32) -> Result<Marks, Memory>
        ensures { IfOk result (λ m. (length m ≡ variables + 1) × (known_by m ≡ nothing)) }
    {
        let cells = fresh(alloc, variables as usize + 1)?;
        Ok(Marks { cells, present: 1 })
    }

    /// Whether the variable is true, or false, or undecided.
    pub fn of(&self, x: u32) -> Option<bool>
        requires { x < length self.now }
        ensures { result ≡ known_by self.now x }
    {
        let cell = self.cells[x as usize];
        if cell.stamp == self.present {
            Some(cell.sign)
        } else {
            None
        }
    }

    /// Makes the literal true.
    pub fn put(&mut self, l: Lit)
        requires { l.variable < length self.old }
        ensures known { known_by self.new ≡ put (known_by self.old) l }
        ensures len { length self.new ≡ length self.old }
    {
        let present = self.present;
        self.cells[l.variable as usize] = Cell {
            stamp: present,
            sign: l.positive,
        };
    }

    /// Makes the variable undecided.
    pub fn forget(&mut self, x: u32)
        requires { x < length self.old }
        ensures known { known_by self.new ≡ without (known_by self.old) x }
        ensures len { length self.new ≡ length self.old }
    {
        self.cells[x as usize] = Cell {
            stamp: 0,
            sign: false,
        };
    }

    /// Makes every variable undecided, in one step but for one call in 2^64.
    pub fn clear(&mut self)
        ensures known { known_by self.new ≡ nothing }
        ensures len { length self.new ≡ length self.old }
    {
        if self.present < u64::MAX {
            self.present += 1;
            return;
        }
        wipe(&mut self.cells);
        self.present = 1;
    }
}
