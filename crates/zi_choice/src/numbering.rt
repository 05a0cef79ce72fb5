//! The numbers of variables.
ghost use Rattle.std.specs.Prelude.{◌≡◌, IsSome};
ghost use Rattle.zi_choice.specs.Choice.{candidate_at};
ghost use Rattle.zi_choice.specs.Vars.{Cand, var_number};

use zi_universe::Universe;

/// The number of a candidate's variable, from 1: the candidates count interface by interface, each in rank order. It takes no
/// memory, and time linear in the interfaces.
pub fn variable(u: &Universe, interface: u32, candidate: u32) -> u32
    requires { IsSome (candidate_at u.now interface candidate) }
    ensures { result ≡ var_number u.now (Cand interface candidate) }
{
    let mut before: u32 = 0;
    for x in &u.interfaces()[..interface as usize] {
        before += x.candidates.len() as u32;
    }
    1 + before + candidate
}
