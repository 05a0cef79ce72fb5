//! The decider of the tries.
ghost use Rattle.std.specs.Prelude.{◌≡◌, ◌≤◌, ◌-◌, [], IfSome, IfNone, IfOk, OnOk, true};
ghost use Rattle.zi_proof.specs.Known.{is_open};
ghost use Rattle.zi_sat.specs.Trail.{known_from};
ghost use Rattle.zi_sat.specs.Behind.{Behind, Back};
ghost use Rattle.zi_sat.specs.Ends.{AreDecided};
ghost use Rattle.zi_sat.specs.Least.{least_open};

use std::alloc::Global;
use std::marker::Model;
use zi_formula::Lit;
use zi_sat::{Decider, Entry, Trail};
use zi_text::Memory;

/// It picks the opposite of the first undecided variable. It keeps what it has taken in of the trail, and up to which variable all are
/// decided by that, so that the picks up to a conflict go over the variables once.
#[derive(Drop)]
pub(crate) struct Opposites {
    taken: Vec<Entry>,
    low: u32,
    alloc: Global,
}

impl Model for Opposites {
    ghost use Rattle.std.specs.Prelude.{List};
    ghost use Rattle.zi_sat.specs.declared.entry.Entry.{Entry as AnEntry};
    ghost use Rattle.zi_sat.specs.Ends.{AreDecided};

    ghost Value = { List AnEntry };

    ghost view = { λ o. o.taken.items };

    ghost invariant = { λ o. AreDecided o.low o.taken.items };
}

impl Opposites {
    /// A decider that has taken in nothing.
    pub fn new(alloc: Global) -> Opposites
        ensures { result ≡ [] }
    {
        Opposites {
            taken: Vec::new(alloc),
            low: 0,
            alloc,
        }
    }
}

// Takes in the entries of the trail that weren't yet.
fn take_in(t: &Trail, taken: &mut Vec<Entry>) -> Result<(), Memory>
    requires { Behind taken.old.items t.now.entries }
    ensures { OnOk result (taken.new.items ≡ t.now.entries) }
{
    let end = t.len();
    for n in taken.len() as u32..end {
        taken.push(t.at(n))?;
    }
    Ok(())
}

// The opposite of the first undecided variable, where those up to a mark are decided.
fn least_open(t: &Trail, low: u32) -> Option<Lit>
    requires { AreDecided low t.now.entries }
    ensures is { result ≡ least_open t.now.variables (known_from t.now.entries) }
    ensures undecided { IfSome result (λ l. (1 ≤ l.variable) × (l.variable ≤ t.now.variables) × (is_open (known_from t.now.entries l.variable) ≡ true)) }
    ensures before { IfSome result (λ l. AreDecided (l.variable - 1) t.now.entries) }
    ensures none { IfNone result (AreDecided t.now.variables t.now.entries) }
{
    let mut x = low;
    while x < t.variables() {
        let lit = Lit {
            variable: x + 1,
            positive: false,
        };
        if t.value(lit).is_none() {
            return Some(lit);
        }
        x += 1;
    }
    None
}

// The same, where the mark is moved up to it.
fn least(t: &Trail, low: &mut u32) -> Option<Lit>
    requires { AreDecided low.old t.now.entries }
    ensures is { result ≡ least_open t.now.variables (known_from t.now.entries) }
    ensures undecided { IfSome result (λ l. (1 ≤ l.variable) × (l.variable ≤ t.now.variables) × (is_open (known_from t.now.entries l.variable) ≡ true)) }
    ensures none { IfNone result (AreDecided t.now.variables t.now.entries) }
    ensures low { AreDecided low.new t.now.entries }
{
    let least = least_open(t, *low);
    match least {
        Some(l) => *low = l.variable - 1,
        None => *low = t.variables(),
    }
    least
}

impl Decider for Opposites {
    ghost use Rattle.zi_sat.specs.Least.{least_open};

    ghost chooses = { λ _ n k. least_open n k };

    ghost needs = { λ _. 0 };

    ghost taken = { λ o. o };

    fn pick(&mut self, t: &Trail) -> Result<Option<Lit>, Memory> {
        t.are_new();
        match take_in(t, &mut self.taken) {
            Ok(()) => Ok(least(t, &mut self.low)),
            Err(refused) => {
                *self = Opposites::new(self.alloc);
                Err(refused)
            }
        }
    }

    fn go_back(&mut self, t: &Trail) {
        self.taken.truncate(t.len() as usize);
        self.low = 0;
    }
}
