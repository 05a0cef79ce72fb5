//! The said sizes against the limit of theirs.

ghost use Rattle.std.specs.Prelude.{◌≡◌, nat_lt};
ghost use Rattle.zi_tree.specs.Limits.{size_limit, limit_of};
ghost use Rattle.zi_recipe.specs.Limits.{said_by, said_size};
ghost use Rattle.zi_recipe.specs.declared.fault.RecipeFault.TheVariants.{TooLarge};

use crate::fault::RecipeFault;
use zi_parts::Step;
use zi_tree::{SIZE_LIMIT, TreeLimit};

/// How many bytes a step says that it places.
fn said_by(step: &Step) -> u64
    ensures { result ≡ said_by step.now }
{
    match step {
        Step::File { size, .. } => *size,
        Step::Rename { .. } | Step::Remove { .. } => 0,
    }
}

/// Whether steps say that they place more bytes than a tree may have, however large each number is.
pub(crate) fn says_too_much(steps: &[Step]) -> bool
    ensures { result ≡ nat_lt size_limit (said_size steps.now) }
{
    let mut left = SIZE_LIMIT;
    for step in steps {
        let said = said_by(step);
        if said > left {
            return true;
        }
        left -= said;
    }
    false
}

/// The fault of a tree with more than the limit of this.
pub(crate) fn too_large(what: TreeLimit) -> RecipeFault
    ensures { result ≡ TooLarge what (limit_of what) }
{
    let limit = what.most();
    RecipeFault::TooLarge { what, limit }
}
