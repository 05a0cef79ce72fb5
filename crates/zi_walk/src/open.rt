//! What a trail knows of candidates, and where the first undecided one is.
ghost use Rattle.std.specs.Prelude.{◌≡◌, ◌≤◌, ◌<◌, ◌-◌, None, true, false, map, length, IfOk, IfSome, IfNone};
ghost use Rattle.zi_proof.specs.Known.{is_open};
ghost use Rattle.zi_sat.specs.Trail.{known_from};
ghost use Rattle.zi_sat.specs.Least.{least_open};
ghost use Rattle.zi_sat.specs.Ends.{AreDecided};
ghost use Rattle.zi_choice.specs.Vars.{Cand, candidates_of, var_number, var_count};
ghost use Rattle.zi_choice.specs.Traces.{as_place};
ghost use Rattle.zi_walk.specs.Rule.{first_where, is_chosen, is_undecided, so_far, waits_at, or_else, first_open, as_lit};

use std::alloc::Global;
use zi_choice::Place;
use zi_formula::Lit;
use zi_numbering::Numbering;
use zi_sat::Trail;
use zi_text::{List, Memory};

// What is known of a candidate.
fn known_of(n: &Numbering, t: &Trail, i: u32, c: u32) -> Option<bool>
    requires there { c < length (candidates_of n.now i) }
    requires room { var_count n.now ≤ t.now.variables }
    ensures { result ≡ known_from t.now.entries (var_number n.now (Cand i c)) }
{
    let variable = n.number(i, c);
    t.value(Lit {
        variable,
        positive: true,
    })
}

// Whether it is chosen.
fn is_chosen(n: &Numbering, t: &Trail, i: u32, c: u32) -> bool
    requires there { c < length (candidates_of n.now i) }
    requires room { var_count n.now ≤ t.now.variables }
    ensures { result ≡ is_chosen n.now (known_from t.now.entries) i c }
{
    match known_of(n, t, i, c) {
        None => false,
        Some(sign) => sign,
    }
}

// Whether it is undecided.
fn is_undecided(n: &Numbering, t: &Trail, i: u32, c: u32) -> bool
    requires there { c < length (candidates_of n.now i) }
    requires room { var_count n.now ≤ t.now.variables }
    ensures { result ≡ is_undecided n.now (known_from t.now.entries) i c }
{
    match known_of(n, t, i, c) {
        None => true,
        Some(_) => false,
    }
}

// The first candidate of an interface that is chosen.
pub(crate) fn chosen_at(n: &Numbering, t: &Trail, i: u32) -> Option<u32>
    requires room { var_count n.now ≤ t.now.variables }
    ensures { result ≡ first_where (is_chosen n.now (known_from t.now.entries) i) 0 (candidates_of n.now i) }
{
    for c in 0..n.candidates(i).len() as u32 {
        if is_chosen(n, t, i, c) {
            return Some(c);
        }
    }
    None
}

// The first candidate of an interface that is undecided.
pub(crate) fn undecided_at(n: &Numbering, t: &Trail, i: u32) -> Option<u32>
    requires room { var_count n.now ≤ t.now.variables }
    ensures is { result ≡ first_where (is_undecided n.now (known_from t.now.entries) i) 0 (candidates_of n.now i) }
    ensures there { IfSome result (λ c. c < length (candidates_of n.now i)) }
    ensures undecided { IfSome result (λ c. is_undecided n.now (known_from t.now.entries) i c ≡ true) }
{
    for c in 0..n.candidates(i).len() as u32 {
        if is_undecided(n, t, i, c) {
            return Some(c);
        }
    }
    None
}

/// What is known to be chosen, for each interface.
pub fn so_far(alloc: Global, n: &Numbering, t: &Trail) -> Result<List<Option<u32>>, Memory>
    requires room { var_count n.now ≤ t.now.variables }
    ensures { IfOk result (λ picks. picks ≡ so_far n.now (known_from t.now.entries)) }
{
    let mut picks = List::new(alloc);
    for i in 0..n.universe().interfaces().len() as u32 {
        picks.push(chosen_at(n, t, i))?;
    }
    Ok(picks)
}

// The first undecided candidate at a place where none is chosen.
fn waits_at(n: &Numbering, t: &Trail, p: &Place) -> Option<u32>
    requires room { var_count n.now ≤ t.now.variables }
    ensures is { result ≡ waits_at n.now (known_from t.now.entries) (as_place p.now) }
    ensures there { IfSome result (λ c. c < length (candidates_of n.now p.now.interface)) }
    ensures undecided { IfSome result (λ c. is_undecided n.now (known_from t.now.entries) p.now.interface c ≡ true) }
{
    if p.pick.is_some() {
        return None;
    }
    undecided_at(n, t, p.interface)
}

// The literal that a candidate is chosen, where one waits at the place.
pub(crate) fn lit_at(n: &Numbering, t: &Trail, p: &Place) -> Option<Lit>
    requires room { var_count n.now ≤ t.now.variables }
    ensures is { result ≡ as_lit n.now (or_else (waits_at n.now (known_from t.now.entries) (as_place p.now)) p.now.interface None) }
    ensures undecided { IfSome result (λ l. (1 ≤ l.variable) × (l.variable ≤ t.now.variables) × (is_open (known_from t.now.entries l.variable) ≡ true)) }
{
    let c = waits_at(n, t, p)?;
    let variable = n.number(p.interface, c);
    Some(Lit {
        variable,
        positive: true,
    })
}

/// The literal that the first undecided candidate is chosen at the first undecided place.
pub(crate) fn first_open(n: &Numbering, t: &Trail, places: &[Place]) -> Option<Lit>
    requires room { var_count n.now ≤ t.now.variables }
    ensures is { result ≡ as_lit n.now (first_open n.now (known_from t.now.entries) (map as_place places.now)) }
    ensures undecided { IfSome result (λ l. (1 ≤ l.variable) × (l.variable ≤ t.now.variables) × (is_open (known_from t.now.entries l.variable) ≡ true)) }
{
    for p in places {
        if let Some(l) = lit_at(n, t, p) {
            return Some(l);
        }
    }
    None
}

/// The opposite of the first undecided variable, where those up to a mark are decided.
pub(crate) fn least_open(t: &Trail, low: u32) -> Option<Lit>
    requires { AreDecided low t.now.entries }
    ensures is { result ≡ least_open t.now.variables (known_from t.now.entries) }
    ensures undecided { IfSome result (λ l. (1 ≤ l.variable) × (l.variable ≤ t.now.variables) × (is_open (known_from t.now.entries l.variable) ≡ true)) }
    ensures before { IfSome result (λ l. AreDecided (l.variable - 1) t.now.entries) }
    ensures none { IfNone result (AreDecided t.now.variables t.now.entries) }
{
    let mut x = low;
    while x < t.variables() {
        let lit = Lit {
            variable: x + 1,
            positive: false,
        };
        if t.value(lit).is_none() {
            return Some(lit);
        }
        x += 1;
    }
    None
}
