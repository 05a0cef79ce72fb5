//! The bit group of a candidate.
ghost use Rattle.std.specs.Prelude.{◌≡◌};
ghost use Rattle.zi_choice.specs.Valid.{group};

use zi_policy::Width;
use zi_universe::Candidate;

/// The bit group of a candidate: that of its architecture, or any where it says none.
#[tactic(auto, unfolding(zi_policy::specs::Platform::group_of))]
pub fn group(k: &Candidate) -> Width
    ensures { result ≡ group k.now }
{
    match &k.imp.arch {
        None => Width::Any,
        Some(arch) => zi_policy::group(arch),
    }
}
