//! The making of a tree.

ghost use Rattle.std.specs.Prelude.{IfOk, IfErr};
ghost use Rattle.zi_outside.specs.Views.{holding};
ghost use Rattle.zi_recipe.specs.Making.{Makes, Refuses};
ghost use Rattle.zi_recipe.specs.Made.{AnswersMade};

use crate::counts::check_counts;
use crate::fault::RecipeFault;
use crate::limits::{says_too_much, too_large};
use crate::steps::do_steps;
use std::alloc::Global;
use zi_outside::Web;
use zi_parts::Method;
use zi_tree::{Tree, TreeLimit};

/// The tree that a way to fetch makes: its steps in their order, over the empty tree. A file is placed not executable unless
/// its step says so, and its time of last change is 0; folders that are missing on the way to a place are made. The bytes
/// are moved from the web into the tree, and a folder is moved whole.
///
/// The first fault is answered, in this order. First the sizes that the steps say are summed: TooLarge where they are more
/// than a tree may have, and then no address is asked for. Then the steps go: an address is asked for once by each step that
/// names it, for no more than the size that is said there; a fault of the call, an absent address and other bytes than said
/// come before Overlap; a renamed source is taken out before it is placed. Then the entries are counted, and then the depth:
/// TooLarge. `Memory` says nothing.
pub fn make_tree<W: Web>(alloc: Global, m: &Method, web: &mut W) -> Result<Tree, RecipeFault>
    ensures makes { IfOk result (λ t. Makes m.now (W.seen web.old) t (W.seen web.new)) }
    ensures refuses { IfErr result (λ e. Refuses m.now (W.seen web.old) e (W.seen web.new)) }
    ensures made { AnswersMade (holding (W.seen web.old)) m.now result }
{
    let steps = m.steps.as_slice();
    if says_too_much(steps) {
        return Err(too_large(TreeLimit::Size));
    }
    let tree = do_steps(alloc, steps, web)?;
    check_counts(alloc, &tree)?;
    Ok(tree)
}
