//! On which constraints the last lemma of a refutation rests.
//! The marks stand for the constraints, and behind them for the lemmas.
//! A lemma rests on what its hints cite, so going back over the lemmas once is enough.
ghost use Rattle.std.specs.Prelude.{◌≡◌, ◌≤◌, ◌<◌, ◌+◌, ◌∷◌, [], ◌-◌, length, drop, IfOk, IfSome, replicate, false, true, slice_get, Some};
ghost use Rattle.zi_conflict.specs.Resting.{marked, AreMarked, Begun, Rests};

use std::alloc::Global;
use zi_proof::Lemma;
use zi_text::Memory;

// So many marks, none of which is set.
fn unmarked(alloc: Global, len: usize) -> Result<Vec<bool>, Memory>
    ensures { IfOk result (λ v. v.items ≡ replicate len false) }
{
    let mut marks = Vec::new(alloc);
    for _i in 0..len {
        marks.push(false)?;
    }
    Ok(marks)
}

// Marks what a hint cites before a place.
fn mark_hint(marks: &mut Vec<bool>, limit: usize, hint: u32)
    requires { limit ≤ length marks.old.items }
    ensures { AreMarked limit (hint ∷ []) marks.old.items marks.new.items }
{
    if hint == 0 {
        return;
    }
    let place = hint as usize - 1;
    if place < limit {
        marks[place] = true;
    }
}

// Marks what hints cite before a place.
fn mark_hints(marks: &mut Vec<bool>, limit: usize, hints: &[u32])
    requires { limit ≤ length marks.old.items }
    ensures { AreMarked limit hints.now marks.old.items marks.new.items }
{
    for hint in hints {
        mark_hint(marks, limit, *hint);
    }
}

// Marks what a lemma rests on, where the lemma is marked.
fn mark_lemma(marks: &mut Vec<bool>, place: usize, lemma: &Lemma)
    requires { place < length marks.old.items }
    ensures marks { marked marks.old.items place ≡ true → AreMarked place lemma.now.hints marks.old.items marks.new.items }
    ensures same { marked marks.old.items place ≡ false → marks.new.items ≡ marks.old.items }
{
    if marks[place] {
        mark_hints(marks, place, lemma.hints.as_slice());
    }
}

// Marks the last lemma alone.
fn mark_last(alloc: Global, count: usize, lemmas: usize) -> Result<Vec<bool>, Memory>
    requires { count + lemmas < 18446744073709551616 }
    ensures { IfOk result (λ v. Begun count lemmas v.items) }
{
    let mut marks = unmarked(alloc, count + lemmas)?;
    if lemmas > 0 {
        marks[count + lemmas - 1] = true;
    }
    Ok(marks)
}

/// The constraints, so many, on which the last of these lemmas rests, and behind them the lemmas.
pub(crate) fn resting(alloc: Global, count: usize, lemmas: &[Lemma]) -> Result<Vec<bool>, Memory>
    requires { count < 9223372036854775808 }
    ensures { IfOk result (λ v. Rests count lemmas.now v.items) }
{
    let len = lemmas.len();
    let mut marks = mark_last(alloc, count, len)?;
    for k in 0..len {
        let i = len - 1 - k;
        mark_lemma(&mut marks, count + i, &lemmas[i]);
    }
    Ok(marks)
}
