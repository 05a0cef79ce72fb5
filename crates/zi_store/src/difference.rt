//! The first line in which two texts differ.

ghost use Rattle.std.specs.Prelude.{◌≡◌, ◌+◌, ℕ, MatchOption};
ghost use Rattle.zi_store.specs.Lines.{DifferFirstIn};

/// The first line, counted from 1, in which two texts differ: a line is counted with its LF, and one that only one of them
/// has differs. None exactly where the texts are equal. It takes no memory.
pub fn first_difference(a: &[u8], b: &[u8]) -> Option<u64>
    ensures { MatchOption result (a.now ≡ b.now) (λ n. (k : ℕ) × (n ≡ k + 1) × DifferFirstIn a.now b.now k) }
{
    let both = a.len().min(b.len());
    let mut line = 1u64;
    for i in 0..both {
        if a[i] != b[i] {
            return Some(line);
        }
        if a[i] == b'\n' {
            line += 1;
        }
    }
    if a.len() == b.len() { None } else { Some(line) }
}
