//! The blocks of a certificate, made for one place after another.
ghost use Rattle.std.specs.Prelude.{◌≡◌, ◌<◌, ◌^◌, ◌++◌, ◌∷◌, [], map, length, true, IfOk, OnOk, All};
ghost use Rattle.zi_proof.specs.Accepted.{accepted};
ghost use Rattle.zi_choice.specs.Vars.{Cand, candidates_of, var_number};
ghost use Rattle.zi_choice.specs.Traces.{as_place};
ghost use Rattle.zi_build.specs.Clauses.{each};
ghost use Rattle.zi_certificate.specs.Certificates.{asked_one, asked_from, is_passed, is_not, said_at, AreBlocks};
ghost use Rattle.zi_solve.specs.Making.{universe_of, formula_of, lemmas_of, entries_of, May, IsGiven, AsksOne, Adds, asked_at, IsWithin};
ghost use Rattle.zi_solve.specs.Laws.{AreGiven};

use crate::grounds::{Grounds, Hinted};
use crate::replaying::hints_from;
use std::alloc::Global;
use zi_choice::Place;
use zi_formula::{Formula, Lit};
use zi_numbering::Numbering;
use zi_proof::{Block, Marks, Proof, check_block};
use zi_sat::Trail;
use zi_text::{List, Memory};

/// What blocks are made of.
#[derive(Clone, Copy)]
pub(crate) struct Making<'a> {
    pub alloc: Global,
    pub formula: &'a Formula,
    pub numbering: &'a Numbering<'a>,
    pub proof: &'a Proof,
    pub trail: &'a Trail,
}

/// What has been made: the blocks, and what the places say, as literals in order and as marks on the trail.
#[derive(Drop)]
pub(crate) struct Made {
    pub blocks: List<Block>,
    pub before: Vec<Lit>,
    pub grounds: Grounds,
}

// Whether a candidate stands before the choice.
fn is_passed(pick: Option<u32>, c: u32) -> bool
    ensures { result ≡ is_passed pick c }
{
    match pick {
        None => true,
        Some(d) => c < d,
    }
}

// The literal that a candidate is chosen, or that it isn't.
fn lit(on: &Making, i: u32, c: u32, positive: bool) -> Lit
    requires { c < length (candidates_of (universe_of on.now) i) }
    ensures { result ≡ record { variable = var_number (universe_of on.now) (Cand i c); positive = positive } }
{
    let variable = on.numbering.number(i, c);
    Lit { variable, positive }
}

// Hints from what is assumed: those on which the candidate's being passed over rests; where these aren't accepted, those of the
// trail, walked again.
fn hints_for(
    on: &Making,
    candidate: u32,
    made: &mut Made,
    marks: &mut Marks,
) -> Result<List<u32>, Memory>
    requires may { May on.now marks.old }
    requires given { IsGiven on.now made.old.before.items }
    ensures same { length marks.new ≡ length marks.old }
    ensures before { made.new.before.items ≡ made.old.before.items }
    ensures blocks { made.new.blocks ≡ made.old.blocks }
    ensures accepted { IfOk result (λ hints. accepted (formula_of on.now) (lemmas_of on.now) made.old.before.items hints ≡ true) }
{
    let lemmas = on.proof.lemmas.as_slice();
    let by = Hinted {
        formula: on.formula,
        lemmas,
        trail: on.trail,
    };
    let hints = made.grounds.hints_under(on.alloc, &by, candidate)?;
    let assumed = made.before.as_slice();
    if check_block(on.formula, on.proof, assumed, hints.as_slice(), marks) {
        return Ok(hints);
    }
    let hints = hints_from(on.alloc, on.formula, lemmas, on.trail, assumed, marks)?;
    Ok(hints)
}

// The block of a candidate that is passed over.
fn add_block(
    on: &Making,
    place: u32,
    candidate: u32,
    made: &mut Made,
    marks: &mut Marks,
) -> Result<(), Memory>
    requires may { May on.now marks.old }
    requires asked { AsksOne on.now place candidate made.old.before.items }
    ensures same { length marks.new ≡ length marks.old }
    ensures before { made.new.before.items ≡ made.old.before.items }
    ensures added { OnOk result (Adds on.now (record { place = place; candidate = candidate; assumed = made.old.before.items } ∷ []) made.old.blocks made.new.blocks) }
{
    let hints = hints_for(on, candidate, made, marks)?;
    made.blocks.push(Block {
        place,
        candidate,
        hints,
    })?;
    Ok(())
}

// The block of a candidate, where it is passed over.
fn pass(
    on: &Making,
    n: u32,
    p: &Place,
    c: u32,
    made: &mut Made,
    marks: &mut Marks,
) -> Result<(), Memory>
    requires may { May on.now marks.old }
    requires there { c < length (candidates_of (universe_of on.now) p.now.interface) }
    requires given { AreGiven (formula_of on.now) (lemmas_of on.now) (entries_of on.now) (asked_at (universe_of on.now) n made.old.before.items (as_place p.now) c) }
    ensures same { length marks.new ≡ length marks.old }
    ensures before { OnOk result (made.new.before.items ≡ made.old.before.items) }
    ensures added { OnOk result (Adds on.now (asked_at (universe_of on.now) n made.old.before.items (as_place p.now) c) made.old.blocks made.new.blocks) }
{
    if !is_passed(p.pick, c) {
        return Ok(());
    }
    let so = lit(on, p.interface, c, true);
    made.before.push(so)?;
    add_block(on, n, so.variable, made, marks)?;
    made.before.pop();
    Ok(())
}

// The blocks of the candidates that a place passes over.
fn pass_all(
    on: &Making,
    n: u32,
    p: &Place,
    made: &mut Made,
    marks: &mut Marks,
) -> Result<(), Memory>
    requires may { May on.now marks.old }
    requires given { AreGiven (formula_of on.now) (lemmas_of on.now) (entries_of on.now) (each 0 (asked_one (universe_of on.now) n made.old.before.items (as_place p.now)) (candidates_of (universe_of on.now) p.now.interface)) }
    ensures same { length marks.new ≡ length marks.old }
    ensures before { OnOk result (made.new.before.items ≡ made.old.before.items) }
    ensures added { OnOk result (Adds on.now (each 0 (asked_one (universe_of on.now) n made.old.before.items (as_place p.now)) (candidates_of (universe_of on.now) p.now.interface)) made.old.blocks made.new.blocks) }
{
    for c in 0..on.numbering.candidates(p.interface).len() as u32 {
        pass(on, n, p, c, made, marks)?;
    }
    Ok(())
}

// A literal is said.
fn say_lit(made: &mut Made, l: Lit) -> Result<(), Memory>
    ensures blocks { made.new.blocks ≡ made.old.blocks }
    ensures before { OnOk result (made.new.before.items ≡ made.old.before.items ++ l ∷ []) }
{
    made.before.push(l)?;
    made.grounds.say(l.variable);
    Ok(())
}

// That none of an interface's candidates is chosen.
fn say_none(on: &Making, i: u32, made: &mut Made) -> Result<(), Memory>
    ensures blocks { made.new.blocks ≡ made.old.blocks }
    ensures before { OnOk result (made.new.before.items ≡ made.old.before.items ++ each 0 (is_not (universe_of on.now) i) (candidates_of (universe_of on.now) i)) }
{
    for c in 0..on.numbering.candidates(i).len() as u32 {
        say_lit(made, lit(on, i, c, false))?;
    }
    Ok(())
}

// What a place says.
fn say(on: &Making, p: &Place, made: &mut Made) -> Result<(), Memory>
    requires { IsWithin (universe_of on.now) (as_place p.now) }
    ensures blocks { made.new.blocks ≡ made.old.blocks }
    ensures before { OnOk result (made.new.before.items ≡ made.old.before.items ++ said_at (universe_of on.now) p.now.interface p.now.pick) }
{
    match p.pick {
        None => {
            say_none(on, p.interface, made)?;
            Ok(())
        }
        Some(c) => {
            say_lit(made, lit(on, p.interface, c, true))?;
            Ok(())
        }
    }
}

/// The blocks of all places.
pub(crate) fn blocks_of(
    on: &Making,
    places: &[Place],
    marks: &mut Marks,
) -> Result<List<Block>, Memory>
    requires may { May on.now marks.old }
    requires few { length places.now < 2 ^ 32 }
    requires within { All (λ p. IsWithin (universe_of on.now) (as_place p)) places.now }
    requires given { AreGiven (formula_of on.now) (lemmas_of on.now) (entries_of on.now) (asked_from (universe_of on.now) 1 [] (map as_place places.now)) }
    ensures { IfOk result (λ blocks. AreBlocks (formula_of on.now) (lemmas_of on.now) (asked_from (universe_of on.now) 1 [] (map as_place places.now)) blocks) }
{
    let mut made = Made {
        blocks: List::new(on.alloc),
        before: Vec::new(on.alloc),
        grounds: Grounds::of(on.alloc, on.trail)?,
    };
    for (k, p) in places.iter().enumerate() {
        pass_all(on, k as u32 + 1, p, &mut made, marks)?;
        say(on, p, &mut made)?;
    }
    let Made {
        blocks,
        before: _,
        grounds: _,
    } = made;
    Ok(blocks)
}
