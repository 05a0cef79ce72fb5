//! The outcomes where no tree is made, or it isn't added.
ghost use Rattle.std.specs.Prelude.{◌≡◌};
ghost use Rattle.zi_fetching.specs.Outcomes.{unmade, unadded};

use zi_adding::AddFault;
use zi_outcome::Outcome;
use zi_recipe::RecipeFault;

/// The outcome where no tree is made.
pub(crate) fn unmade(fault: RecipeFault) -> Outcome
    ensures { result ≡ unmade fault }
{
    match fault {
        RecipeFault::FetchRead { href } => Outcome::FetchRead { href },
        RecipeFault::NoRemote { href } => Outcome::NoRemote { href },
        RecipeFault::WrongSize { href, said, got } => Outcome::WrongSize { href, said, got },
        RecipeFault::Overlap { path } => Outcome::Overlap { path },
        RecipeFault::NoPath { path } => Outcome::NoPath { path },
        RecipeFault::TooLarge { what, limit } => Outcome::TreeTooLarge { what, limit },
        RecipeFault::Memory => Outcome::Memory,
    }
}

/// The outcome where a tree isn't added.
pub fn unadded(fault: AddFault) -> Outcome
    ensures { result ≡ unadded fault }
{
    match fault {
        AddFault::BadName { path } => Outcome::BadName { path },
        AddFault::Mismatch { name, found } => Outcome::Mismatch { name, found },
        AddFault::Crowded { tried } => Outcome::Crowded { tried },
        AddFault::Failed { blamed } => Outcome::StoreFault { name: blamed },
        AddFault::Memory => Outcome::Memory,
    }
}
