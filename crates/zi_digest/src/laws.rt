//! What holds of the definitions alone.
//! Each law is a function without parameters and with an empty body, whose clause is the law.
//! `parse` and `text` cite the same definitions.
ghost use Rattle.std.specs.Prelude.{◌≡◌};
ghost use Rattle.zi_digest.specs.Name.{spelling, IsDigest};
ghost use Rattle.zi_digest.specs.declared.DigestName.{DigestName as Name};

/// Two digests with one spelling are one, so `parse` of a digest's text is that digest.
pub fn spelling_is_one_to_one()
    ensures { (a b : Name) → IsDigest a → IsDigest b → spelling a ≡ spelling b → a ≡ b }
{}
