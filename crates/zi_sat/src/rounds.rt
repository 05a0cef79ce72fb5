//! The rounds of a search: it decides, propagates, and learns at each conflict.
//! Each round ends with a lemma more, so there are no more rounds than the budget has lemmas, and one.
//! What is promised of the trail and the log holds after every answer.

ghost use Rattle.std.specs.Prelude.{◌≡◌, ◌≤◌, ◌<◌, ◌+◌, ◌-◌, ◌^◌, ◌++◌, ◌∷◌, [], length, true, drop, IfOk, IfNone, IfSome, MatchOption, slice_index_or};
ghost use Rattle.zi_formula.specs.Form.{Within};
ghost use Rattle.zi_sat.specs.Chain.{Grown};
ghost use Rattle.zi_proof.specs.Known.{Contradiction, nothing};
ghost use Rattle.zi_proof.specs.Accepted.{citable, cited, step_cited, follows};
ghost use Rattle.zi_sat.specs.Trail.{known_from};
ghost use Rattle.zi_proof.specs.Lean.{AreLean};
ghost use Rattle.zi_sat.specs.declared.entry.Entry.{Entry as AnyEntry};
ghost use Rattle.zi_sat.specs.declared.entry.Why.TheVariants.{Decision};
ghost use Rattle.zi_sat.specs.Moves.{Lawful, decisions_in};
ghost use Rattle.zi_sat.specs.Fresh.{Filled, FreshAfter, Hushed};
ghost use Rattle.zi_formula.specs.Form.{OnceAll};
ghost use Rattle.zi_sat.specs.Ends.{Ends, Ended, Longer, MayGoOn};

use crate::analysis::{learn, learn_all};
use crate::decider::{Decider, advance};
use crate::entry::Why;
use crate::found::Found;
use crate::trail::Trail;
use crate::watches::{cut_to, say_last, watch_all, watch_last};
use std::alloc::Global;
use zi_formula::Formula;
use zi_proof::{Marks, Proof};
use zi_text::Memory;

// The place of the last decision.
fn last_decision(t: &Trail) -> Option<u32>
    ensures { MatchOption result (decisions_in t.now.entries ≡ []) (λ i. (i < length t.now.entries) × ((d : AnyEntry) → (slice_index_or t.now.entries i d).why ≡ Decision) × (decisions_in (drop (i + 1) t.now.entries) ≡ [])) }
{
    let mut i = t.len();
    while i > 0 {
        i -= 1;
        match t.entry(i).why {
            Why::Decision => return Some(i),
            Why::Hint(_) => {}
        }
    }
    None
}

// Learns at a conflict and goes back; or gives the end of the search.
pub(crate) fn resolve<D: Decider>(
    alloc: Global,
    f: &Formula,
    t: &mut Trail,
    proof: &mut Proof,
    _d: &D,
    hint: u32,
    budget: u64,
    marked: &mut Marks,
) -> Result<Option<Found>, Memory>
    requires within { Within f.now }
    requires same { t.old.variables ≡ f.now.variables }
    requires log { follows f.now proof.old.lemmas ≡ true }
    requires bound { length proof.old.lemmas ≤ budget }
    requires lawful { Lawful (citable f.now.constraints proof.old.lemmas) f.now.constraints (D.chooses _d.now f.now.variables) t.old.entries }
    requires once { OnceAll f.now.constraints }
    requires filled { Filled proof.old.lemmas }
    requires fresh { FreshAfter f.now.constraints [] proof.old.lemmas }
    requires lean { AreLean f.now.constraints proof.old.lemmas }
    requires hushed { Hushed (citable f.now.constraints proof.old.lemmas) nothing t.old.entries }
    requires conflict { step_cited (known_from t.old.entries) (cited (citable f.now.constraints proof.old.lemmas) hint) ≡ Contradiction }
    requires made { length marked.old ≡ t.old.variables + 1 }
    ensures len { length marked.new ≡ length marked.old }
    ensures variables { t.new.variables ≡ t.old.variables }
    ensures log { follows f.now proof.new.lemmas ≡ true }
    ensures fresh { FreshAfter f.now.constraints [] proof.new.lemmas }
    ensures lean { AreLean f.now.constraints proof.new.lemmas }
    ensures lawful { Lawful (citable f.now.constraints proof.new.lemmas) f.now.constraints (D.chooses _d.now f.now.variables) t.new.entries }
    ensures filled { IfOk result (λ r. IfNone r (Filled proof.new.lemmas)) }
    ensures hushed { IfOk result (λ r. IfNone r (Hushed (citable f.now.constraints proof.new.lemmas) nothing t.new.entries)) }
    ensures grown { IfOk result (λ r. IfNone r (Grown proof.old.lemmas proof.new.lemmas t.old.entries t.new.entries)) }
    ensures longer { Longer proof.old.lemmas proof.new.lemmas }
    ensures goes_on { IfOk result (λ r. IfSome r (λ found. MayGoOn proof.new.lemmas budget found)) }
    ensures end { IfOk result (λ r. MatchOption r ((length proof.new.lemmas ≡ length proof.old.lemmas + 1) × (length proof.new.lemmas ≤ budget)) (λ found. Ends f.now proof.new.lemmas t.new.entries budget found)) }
{
    t.are_new();
    match last_decision(t) {
        None => {
            learn_all(alloc, f, t, hint, proof, marked)?;
            Ok(Some(Found::Refuted))
        }
        Some(start) => {
            if proof.lemmas.len() as u64 == budget {
                return Ok(Some(Found::Spent { count: budget }));
            }
            let keep = learn(alloc, f, t, hint, start, proof, marked)?;
            t.truncate(keep);
            Ok(None)
        }
    }
}

// Searches for a model, from an empty trail, with the lemmas of the log.
pub(crate) fn seek<D: Decider>(
    alloc: Global,
    f: &Formula,
    t: &mut Trail,
    proof: &mut Proof,
    d: &mut D,
    budget: u64,
) -> Result<Found, Memory>
    requires within { Within f.now }
    requires same { t.old.variables ≡ f.now.variables }
    requires needs { D.needs d.old ≤ f.now.variables }
    requires taken { D.taken d.old ≡ [] }
    requires once { OnceAll f.now.constraints }
    requires empty { t.old.entries ≡ [] }
    requires bound { length proof.old.lemmas ≤ budget }
    requires log { follows f.now proof.old.lemmas ≡ true }
    requires fresh { FreshAfter f.now.constraints [] proof.old.lemmas }
    requires lean { AreLean f.now.constraints proof.old.lemmas }
    requires filled { Filled proof.old.lemmas }
    requires few { length f.now.constraints + budget < 2 ^ 32 - 1 }
    ensures variables { t.new.variables ≡ t.old.variables }
    ensures rule { D.chooses d.new ≡ D.chooses d.old }
    ensures needed { D.needs d.new ≡ D.needs d.old }
    ensures log { follows f.now proof.new.lemmas ≡ true }
    ensures fresh { FreshAfter f.now.constraints [] proof.new.lemmas }
    ensures lean { AreLean f.now.constraints proof.new.lemmas }
    ensures lawful { Lawful (citable f.now.constraints proof.new.lemmas) f.now.constraints (D.chooses d.old f.now.variables) t.new.entries }
    ensures longer { Longer proof.old.lemmas proof.new.lemmas }
    ensures goes_on { IfOk result (MayGoOn proof.new.lemmas budget) }
    ensures end { Ended f.now proof.new.lemmas t.new.entries budget result }
{
    let learned = proof.lemmas.as_slice();
    let mut w = watch_all(alloc, f, learned)?;
    let mut marked = Marks::with_variables(alloc, t.variables())?;
    loop {
        let hint = match advance(&mut w, f, proof.lemmas.as_slice(), t, d)? {
            None => return Ok(Found::Model),
            Some(hint) => hint,
        };
        if let Some(found) = resolve(alloc, f, t, proof, d, hint, budget, &mut marked)? {
            return Ok(found);
        }
        d.go_back(t);
        cut_to(&mut w, t.len());
        watch_last(&mut w, f.variables, proof.lemmas.as_slice())?;
        say_last(f, proof.lemmas.as_slice(), t)?;
        t.are_new();
    }
}
