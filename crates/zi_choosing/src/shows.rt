ghost use Rattle.std.specs.Prelude.{◌≡◌};
ghost use Rattle.zi_choosing.specs.Select.{shown_by};

/// What is written of the best choice, or where there is none.
#[derive(Clone, Copy, PartialEq, Eq)]
pub enum Shows {
    /// The document of what it selects; the refutation.
    Document,
    /// A certificate, by which every other valid choice is worse; the refutation.
    Certificate,
    /// Why each candidate that it passes over isn't chosen; nothing.
    Reasons,
    /// Nothing; the facts that leave no choice.
    Conflict,
}

/// What `select` writes, with `--proof` and without.
pub(crate) fn shown_by(proof: bool) -> Shows
    ensures { result ≡ shown_by proof }
{
    if proof {
        Shows::Certificate
    } else {
        Shows::Document
    }
}
