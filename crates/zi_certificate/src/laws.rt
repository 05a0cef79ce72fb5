//! What certificates and refutations show, over the definitions alone.

ghost use Rattle.zi_certificate.specs.Laws.{CertifiedIsBest, RefutedIsNone};

/// A valid choice with a certificate is the best one.
pub fn certified_is_best()
    ensures { CertifiedIsBest }
{}

/// Where there is a refutation no choice is valid.
pub fn refuted_is_none()
    ensures { RefutedIsNone }
{}
