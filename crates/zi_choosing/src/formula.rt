ghost use Rattle.std.specs.Prelude.{◌≡◌};
ghost use Rattle.zi_choosing.specs.Loaded.{build_outcome};

use zi_build::BuildFault;
use zi_outcome::Outcome;

/// The outcome where there is no formula.
pub(crate) fn without_formula(fault: BuildFault) -> Outcome
    ensures { result ≡ build_outcome fault }
{
    match fault {
        BuildFault::TooLarge { limit } => Outcome::TooLarge { limit },
        BuildFault::Memory => Outcome::Memory,
    }
}
