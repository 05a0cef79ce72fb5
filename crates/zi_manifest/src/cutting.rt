//! A text cut at its first or last separator.

ghost use Rattle.std.specs.Prelude.{◌≡◌, ◌+◌, ◌<◌, ◌++◌, ◌∷◌, false, length, take, drop, MatchOption};
ghost use Rattle.zi_tree.specs.Order.{has_byte};

/// What stands before the first separator, and what stands behind it. None where there is none.
pub(crate) fn cut(text: &[u8], separator: u8) -> Option<(&[u8], &[u8])>
    ensures { MatchOption result (has_byte separator text.now ≡ false) (λ p. (text.now ≡ p.0.now ++ separator ∷ p.1.now) × (has_byte separator p.0.now ≡ false)) }
{
    for (i, b) in text.iter().enumerate() {
        if *b == separator {
            return Some(around(text, i));
        }
    }
    None
}

/// What stands before the last separator, and what stands behind it. None where there is none.
pub(crate) fn cut_last(text: &[u8], separator: u8) -> Option<(&[u8], &[u8])>
    ensures { MatchOption result (has_byte separator text.now ≡ false) (λ p. (text.now ≡ p.0.now ++ separator ∷ p.1.now) × (has_byte separator p.1.now ≡ false)) }
{
    let mut i = text.len();
    while i > 0 {
        i -= 1;
        if text[i] == separator {
            return Some(around(text, i));
        }
    }
    None
}

/// What stands before this place, and what stands behind it.
fn around(text: &[u8], i: usize) -> (&[u8], &[u8])
    requires { i < length text.now }
    ensures { (result.0.now ≡ take i text.now) × (result.1.now ≡ drop (i + 1) text.now) }
{
    let (before, rest) = text.split_at(i);
    let (_, behind) = rest.split_at(1);
    (before, behind)
}
