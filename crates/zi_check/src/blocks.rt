//! The blocks of a certificate, compared with those that its choice asks for, one by one.
ghost use Rattle.std.specs.Prelude.{◌≡◌, ◌<◌, ◌∷◌, ◌++◌, [], map, length, All, IfOk, OnOk, IsTrue, ◌↔◌};
ghost use Rattle.zi_choice.specs.Vars.{Cand, candidates_of, var_number};
ghost use Rattle.zi_choice.specs.Traces.{as_place};
ghost use Rattle.zi_build.specs.Clauses.{each};
ghost use Rattle.zi_certificate.specs.Certificates.{asked_one, asked_from, is_passed, is_not, said_at, AreBlocks};
ghost use Rattle.zi_check.specs.Taking.{IsFollowed, interfaces_of, formula_of, lemmas_of, blocks_of, Took, asked_at, Within};

use zi_choice::Place;
use zi_formula::{Formula, Lit};
use zi_numbering::Numbering;
use zi_proof::{Block, Marks, Proof, check_block};
use zi_text::Memory;

/// What blocks are compared over.
#[derive(Clone, Copy)]
pub(crate) struct Certified<'a> {
    pub formula: &'a Formula,
    pub numbering: &'a Numbering<'a>,
    pub proof: &'a Proof,
    pub blocks: &'a [Block],
}

// Whether the next block is right for a place, a candidate's variable and what is assumed. It is passed if so.
fn take(
    on: &Certified,
    place: u64,
    candidate: u32,
    assumed: &[Lit],
    next: &mut usize,
    marks: &mut Marks,
) -> bool
    requires right { IsFollowed on.now marks.old }
    ensures took { Took on.now (record { place = place; candidate = candidate; assumed = assumed.now } ∷ []) next.old result next.new }
    ensures same { length marks.new ≡ length marks.old }
{
    let Some(block) = on.blocks.get(*next) else {
        return false;
    };
    if block.place as u64 != place {
        return false;
    }
    if block.candidate != candidate {
        return false;
    }
    if !check_block(on.formula, on.proof, assumed, block.hints.as_slice(), marks) {
        return false;
    }
    *next += 1;
    true
}

// Whether a candidate stands before the choice.
fn is_passed(pick: Option<u32>, c: u32) -> bool
    ensures { result ≡ is_passed pick c }
{
    match pick {
        None => true,
        Some(d) => c < d,
    }
}

// The literal that a candidate is chosen, or that it isn't.
fn lit(on: &Certified, i: u32, c: u32, positive: bool) -> Lit
    requires { c < length (candidates_of (interfaces_of on.now) i) }
    ensures { result ≡ record { variable = var_number (interfaces_of on.now) (Cand i c); positive = positive } }
{
    let variable = on.numbering.number(i, c);
    Lit { variable, positive }
}

// Whether the next block is right for a candidate, where it is passed over.
fn pass(
    on: &Certified,
    n: u64,
    p: &Place,
    c: u32,
    before: &mut Vec<Lit>,
    next: &mut usize,
    marks: &mut Marks,
) -> Result<bool, Memory>
    requires right { IsFollowed on.now marks.old }
    requires there { c < length (candidates_of (interfaces_of on.now) p.now.interface) }
    ensures took { IfOk result (λ yes. Took on.now (asked_at (interfaces_of on.now) n before.old.items (as_place p.now) c) next.old yes next.new) }
    ensures before { IfOk result (λ _. before.new.items ≡ before.old.items) }
    ensures same { length marks.new ≡ length marks.old }
{
    if !is_passed(p.pick, c) {
        return Ok(true);
    }
    let so = lit(on, p.interface, c, true);
    before.push(so)?;
    let is_right = take(on, n, so.variable, before.as_slice(), next, marks);
    before.pop();
    Ok(is_right)
}

// Whether the next blocks are right for the candidates that a place passes over.
fn pass_all(
    on: &Certified,
    n: u64,
    p: &Place,
    before: &mut Vec<Lit>,
    next: &mut usize,
    marks: &mut Marks,
) -> Result<bool, Memory>
    requires right { IsFollowed on.now marks.old }
    ensures took { IfOk result (λ yes. Took on.now (each 0 (asked_one (interfaces_of on.now) n before.old.items (as_place p.now)) (candidates_of (interfaces_of on.now) p.now.interface)) next.old yes next.new) }
    ensures before { IfOk result (λ _. before.new.items ≡ before.old.items) }
    ensures same { length marks.new ≡ length marks.old }
{
    for c in 0..on.numbering.candidates(p.interface).len() as u32 {
        if !pass(on, n, p, c, before, next, marks)? {
            return Ok(false);
        }
    }
    Ok(true)
}

// That none of an interface's candidates is chosen.
fn say_none(on: &Certified, i: u32, before: &mut Vec<Lit>) -> Result<(), Memory>
    ensures { OnOk result (before.new.items ≡ before.old.items ++ each 0 (is_not (interfaces_of on.now) i) (candidates_of (interfaces_of on.now) i)) }
{
    for c in 0..on.numbering.candidates(i).len() as u32 {
        before.push(lit(on, i, c, false))?;
    }
    Ok(())
}

// What a place says.
fn say(on: &Certified, p: &Place, before: &mut Vec<Lit>) -> Result<(), Memory>
    requires { Within (interfaces_of on.now) (as_place p.now) }
    ensures { OnOk result (before.new.items ≡ before.old.items ++ said_at (interfaces_of on.now) p.now.interface p.now.pick) }
{
    match p.pick {
        None => {
            say_none(on, p.interface, before)?;
            Ok(())
        }
        Some(c) => {
            before.push(lit(on, p.interface, c, true))?;
            Ok(())
        }
    }
}

// Whether the next blocks are right for some places, the first with a number, behind others that say this.
pub(crate) fn pass_places(
    on: &Certified,
    places: &[Place],
    before: &mut Vec<Lit>,
    marks: &mut Marks,
) -> Result<bool, Memory>
    requires right { IsFollowed on.now marks.old }
    requires within { All (λ p. Within (interfaces_of on.now) (as_place p)) places.now }
    requires empty { before.old.items ≡ [] }
    ensures { IfOk result (λ yes. IsTrue yes ↔ AreBlocks (formula_of on.now) (lemmas_of on.now) (asked_from (interfaces_of on.now) 1 [] (map as_place places.now)) (blocks_of on.now)) }
{
    let mut next = 0;
    for (k, p) in places.iter().enumerate() {
        if !pass_all(on, k as u64 + 1, p, before, &mut next, marks)? {
            return Ok(false);
        }
        say(on, p, before)?;
    }
    Ok(on.blocks.get(next).is_none())
}
