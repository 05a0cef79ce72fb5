//! Which interfaces a walk comes to.
ghost use Rattle.std.specs.Prelude.{◌≡◌, ℕ, List as Items, [], ◌∷◌, ◌++◌, IfOk, map, replicate, false};
ghost use Rattle.zi_choice.specs.Walk.{Place as APlace};
ghost use Rattle.zi_choice.specs.Traces.{as_place};
ghost use Rattle.zi_numbering.specs.Listing.{AreListed};

use std::alloc::Global;
use zi_choice::Place;
use zi_text::Memory;

// For none of so many interfaces.
fn nowhere(alloc: Global, interfaces: usize) -> Result<Vec<bool>, Memory>
    ensures { IfOk result (λ v. v.items ≡ replicate interfaces false) }
{
    let mut marks = Vec::new(alloc);
    for _i in 0..interfaces {
        marks.push(false)?;
    }
    Ok(marks)
}

// For the interface of one place more.
fn mark(marks: &mut Vec<bool>, interface: u32)
    ensures { (n : ℕ) (ps : Items APlace) (p : APlace) → p.interface ≡ interface → AreListed n ps marks.old.items → AreListed n (ps ++ p ∷ []) marks.new.items }
{
    let i = interface as usize;
    if i < marks.len() {
        marks[i] = true;
    }
}

/// For so many interfaces, by their numbers, whether one of the places is of it. The work is linear in them and in the places.
pub fn listed(alloc: Global, places: &[Place], interfaces: usize) -> Result<Vec<bool>, Memory>
    ensures { IfOk result (λ v. AreListed interfaces (map as_place places.now) v.items) }
{
    let mut marks = nowhere(alloc, interfaces)?;
    for p in places {
        mark(&mut marks, p.interface);
    }
    Ok(marks)
}
