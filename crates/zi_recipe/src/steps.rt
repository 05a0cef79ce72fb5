//! The steps of a way to fetch, one after another.

ghost use Rattle.std.specs.Prelude.{◌≤◌, [], MatchResult, OnOk};
ghost use Rattle.zi_outside.specs.Views.{holding};
ghost use Rattle.zi_tree.specs.Dir.{Nothing};
ghost use Rattle.zi_tree.specs.Limits.{size_limit};
ghost use Rattle.zi_recipe.specs.Limits.{said_by, said_size};
ghost use Rattle.zi_recipe.specs.Steps.{Does, DoesAll, Fails};
ghost use Rattle.zi_recipe.specs.Asking.{address, addresses, AreAsked, AsksAt, StopsAt};

use crate::fault::RecipeFault;
use crate::fetching::fetch;
use crate::places::{place, remove, rename};
use std::alloc::Global;
use zi_outside::Web;
use zi_parts::Step;
use zi_tree::{Tree, TreeNode};

/// Does one step. A tree that is refused one is done with.
fn do_step<W: Web>(
    alloc: Global,
    step: &Step,
    tree: &mut Tree,
    web: &mut W,
) -> Result<(), RecipeFault>
    requires { said_by step.now ≤ size_limit }
    ensures does { MatchResult result
        (λ _. Does (holding (W.seen web.old)) tree.old step.now tree.new)
        (Fails (holding (W.seen web.old)) tree.old step.now) }
    ensures asks { MatchResult result
        (λ _. AreAsked (address step.now) (W.seen web.old) (W.seen web.new))
        (λ e. AsksAt e [] (address step.now) (W.seen web.old) (W.seen web.new)) }
{
    match step {
        Step::File {
            href,
            size,
            dest,
            exec,
        } => {
            let bytes = fetch(alloc, href, *size, web)?;
            let exec = *exec;
            let node = TreeNode::File {
                bytes,
                exec,
                mtime: 0,
            };
            place(alloc, tree, dest, node)
        }
        Step::Rename { source, dest } => rename(alloc, tree, source, dest),
        Step::Remove { path } => remove(alloc, tree, path),
    }
}

/// The tree that steps make of the empty one.
pub(crate) fn do_steps<W: Web>(
    alloc: Global,
    steps: &[Step],
    web: &mut W,
) -> Result<Tree, RecipeFault>
    requires { said_size steps.now ≤ size_limit }
    ensures does { MatchResult result
        (λ tree. DoesAll (holding (W.seen web.old)) Nothing steps.now tree)
        (λ e. StopsAt steps.now (W.seen web.old) e (W.seen web.new)) }
    ensures asks { OnOk result (AreAsked (addresses steps.now) (W.seen web.old) (W.seen web.new)) }
{
    let mut tree = Tree::new(alloc);
    for step in steps {
        do_step(alloc, step, &mut tree, web)?;
    }
    Ok(tree)
}
