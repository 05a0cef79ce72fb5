//! By literal, what watches it. Beside the place of what watches stands a literal: of a clause one of its own, so that nothing of the
//! clause need be looked at where that is true; of a group the one that it watches.
//! Contracts see, of each row, the list of its watchers.

ghost use Rattle.std.specs.Prelude.{◌≡◌, ◌<◌, ◌++◌, ◌∷◌, [], ℕ, length, OnOk, OnErr, IfOk, slice_set, slice_index_or, swap_remove};
ghost use Rattle.zi_sat.specs.declared.rows.Watcher.{Watcher as AWatcher};
ghost use Rattle.zi_sat.specs.Rows.{row_at};

use std::alloc::Global;
use std::marker::Model;
use zi_formula::Lit;
use zi_text::Memory;

// What watches a literal.
#[derive(Clone, Copy)]
pub(crate) struct Watcher {
    // Its place among the constraints and lemmas.
    pub(crate) place: u32,
    // A literal of the clause, or the one that the group watches.
    pub(crate) block: Lit,
}

// Of each row its watchers.
pub(crate) struct Rows {
    rows: Vec<Vec<Watcher>>,
}

impl Drop for Rows {
    fn drop(self) {
        let Rows { rows: _ } = self;
    }
}

impl Model for Rows {
    ghost use Rattle.std.specs.Prelude.{List, map};
    ghost use Rattle.zi_sat.specs.declared.rows.Watcher.{Watcher as AWatcher};

    ghost Value = { List (List AWatcher) };

    ghost view = { λ a. map (λ v. v.items) a.rows.items };
}

impl Rows {
    // So many rows with nothing in them.
    pub(crate) fn empty(alloc: Global, len: usize) -> Result<Rows, Memory>
        ensures len { IfOk result (λ v. length v ≡ len) }
        ensures none { IfOk result (λ v. (r : ℕ) → row_at v r ≡ []) }
    {
        let mut rows = Vec::new(alloc);
        for _i in 0..len {
            rows.push(Vec::new(alloc))?;
        }
        Ok(Rows { rows })
    }

    // How many watchers a row has.
    pub(crate) fn len_of(&self, r: usize) -> usize
        requires { r < length self.now }
        ensures { result ≡ length (row_at self.now r) }
    {
        prove!(r < self.rows.len());
        self.rows[r].len()
    }

    // A watcher of a row.
    pub(crate) fn at(&self, r: usize, j: usize) -> Watcher
        requires row { r < length self.now }
        requires place { j < length (row_at self.now r) }
        ensures { (d : AWatcher) → result ≡ slice_index_or (row_at self.now r) j d }
    {
        prove!(r < self.rows.len());
        let row = self.rows[r].as_slice();
        row[j]
    }

    // Adds a watcher to a row.
    pub(crate) fn add(&mut self, r: usize, w: Watcher) -> Result<(), Memory>
        requires { r < length self.old }
        ensures len { length self.new ≡ length self.old }
        ensures ok { OnOk result (self.new ≡ slice_set self.old r (row_at self.old r ++ w ∷ [])) }
        ensures err { OnErr result (self.new ≡ self.old) }
    {
        prove!(r < self.rows.len());
        self.rows[r].push(w)?;
        Ok(())
    }

    // Takes a watcher out of a row; the last one comes to its place.
    pub(crate) fn take_out(&mut self, r: usize, j: usize) -> Watcher
        requires row { r < length self.old }
        requires place { j < length (row_at self.old r) }
        ensures len { length self.new ≡ length self.old }
        ensures rows { self.new ≡ slice_set self.old r (swap_remove (row_at self.old r) j result) }
    {
        prove!(r < self.rows.len());
        self.rows[r].swap_remove(j)
    }
}
