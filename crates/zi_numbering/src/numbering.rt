//! The numbers of candidates' variables.
ghost use Rattle.std.specs.Prelude.{◌≡◌, ◌≤◌, ◌<◌, length, IfOk};
ghost use Rattle.zi_choice.specs.Vars.{Cand, candidates_of, var_number, own_candidates};
ghost use Rattle.zi_build.specs.Writing.{starts};

use std::alloc::Global;
use std::marker::Model;
use zi_text::{List, Memory};
use zi_universe::{Candidate, Universe};

/// The numbers of the variables of a universe's candidates, each in constant time. Contracts see the list of interfaces. It is
/// made once, in time and memory linear in them.
#[derive(Drop)]
pub struct Numbering<'u> {
    universe: &'u Universe,
    firsts: List<u32>,
}

impl<'u> Model for Numbering<'u> {
    ghost use Rattle.std.specs.Prelude.{◌≡◌, List as Items};
    ghost use Rattle.zi_universe.specs.declared.types.Interface.{Interface as AnInterface};
    ghost use Rattle.zi_choice.specs.Vars.{own_candidates};
    ghost use Rattle.zi_build.specs.Writing.{starts};

    ghost Value = { Items AnInterface };

    ghost view = { λ n. n.universe.now };

    ghost invariant = { λ n. n.firsts ≡ starts own_candidates 1 n.universe.now };
}

// The numbers of the interfaces' first candidates.
fn first_numbers(alloc: Global, u: &Universe) -> Result<List<u32>, Memory>
    ensures { IfOk result (λ numbers. numbers ≡ starts own_candidates 1 u.now) }
{
    let mut numbers = List::new(alloc);
    let mut next: u32 = 1;
    for x in u.interfaces() {
        numbers.push(next)?;
        next += x.candidates.len() as u32;
    }
    Ok(numbers)
}

impl<'u> Numbering<'u> {
    /// The numbering of a universe.
    pub fn of(alloc: Global, u: &'u Universe) -> Result<Numbering<'u>, Memory>
        ensures { IfOk result (λ n. n ≡ u.now) }
    {
        let firsts = first_numbers(alloc, u)?;
        Ok(Numbering {
            universe: u,
            firsts,
        })
    }

    /// The universe, lent.
    pub fn universe(&self) -> &'u Universe
        ensures { result.now ≡ self.now }
    {
        self.universe
    }

    /// The candidates of an interface, lent; none where there is no such interface.
    pub fn candidates(&self, interface: u32) -> &'u [Candidate]
        ensures is { result.now ≡ candidates_of self.now interface }
        ensures few { length result.now ≤ 65536 }
    {
        match self.universe.interfaces().get(interface as usize) {
            None => &[],
            Some(x) => x.candidates.as_slice(),
        }
    }

    /// The number of a candidate's variable.
    pub fn number(&self, interface: u32, candidate: u32) -> u32
        requires { candidate < length (candidates_of self.now interface) }
        ensures { result ≡ var_number self.now (Cand interface candidate) }
    {
        let _interfaces = self.universe.interfaces();
        *self.firsts.at(interface as usize) + candidate
    }
}
