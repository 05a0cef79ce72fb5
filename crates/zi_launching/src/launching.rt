//! Selections are made ready to be launched: their folders, the plan, the shims, and the trees.
ghost use Rattle.std.specs.Prelude.{◌≡◌, false, ◌+◌, ◌++◌, ◌∷◌, map, length, Ok, Err, OnOk, MatchResult};
ghost use Rattle.zi_digest.specs.declared.DigestName.{DigestName as Name};
ghost use Rattle.zi_plan.specs.Plans.{Plans};
ghost use Rattle.zi_world.specs.Places.{place};
ghost use Rattle.zi_fetching.specs.Known.{is_known};
ghost use Rattle.zi_shim_laws.specs.Names.{HaveShimNames};
ghost use Rattle.zi_launching.specs.Launching.{PlansNot, PreparesWith};

use crate::folders::{folders_of, trees_of};
use crate::places::Places;
use crate::shims::{add_shims, calls_of, folders_at, unplanned};
use crate::verifying::verify_all;
use std::alloc::Global;
use zi_digest::DigestName;
use zi_fetching::Stored;
use zi_outcome::Outcome;
use zi_outside::{Launch, Vars};
use zi_plan::plan;
use zi_sels::Selections;
use zi_shelf::Shelf;
use zi_text::{List, Memory, Text};

// The launch that selections mean, with these folders, and these of shims.
fn planned(
    alloc: Global,
    sels: &Selections,
    vars: &Vars,
    user: &[Text],
    folders: &[Option<Text>],
    shims: &[Text],
) -> Result<Launch, Outcome>
    requires { length folders.now ≡ length sels.now.items }
    ensures { MatchResult result (λ launch. Plans sels.now vars.now user.now folders.now shims.now (Ok launch)) (PlansNot sels.now vars.now user.now folders.now shims.now) }
{
    match plan(alloc, sels, vars, user, folders, shims) {
        Ok(launch) => Ok(launch),
        Err(fault) => Err(unplanned(fault)),
    }
}

// Adds digests behind others.
fn add_all(names: &mut List<DigestName>, more: &[DigestName]) -> Result<(), Memory>
    ensures { OnOk result (names.new ≡ names.old ++ more.now) }
{
    for name in more {
        names.push(*name)?;
    }
    Ok(())
}

/// The launch that selections mean, over stores in which these digests are stored, `each` those that were in each when the call began: their
/// folders are found and the launch is planned; the shims that no store has are added to the first; and then each stored tree whose folder is
/// exposed is read in the store where it stands, and its digest is its name.
pub(crate) fn prepared<K: Shelf, R: Shelf>(
    alloc: Global,
    sels: &Selections,
    each: &List<List<DigestName>>,
    stored: &mut Stored,
    vars: &Vars,
    user: &[Text],
    shelf: &mut K,
    others: &mut [R],
) -> Result<Launch, Outcome>
    requires stores { length each.now ≡ length others.old + 1 }
    requires names { HaveShimNames sels.now }
    requires fresh { (d : Name) → is_known stored.old d ≡ false → place each.now d ≡ 0 }
    ensures { PreparesWith (record { sels = sels.now; each = each.now; stored = stored.old; vars = vars.now; user = user.now }) (K.seen shelf.old ∷ map R.seen others.old) result (K.seen shelf.new ∷ map R.seen others.new) }
{
    let items = sels.items.as_slice();
    let places = Places::of(alloc, each.as_slice())?;
    let folders = folders_of(alloc, items, stored, &places, shelf, others)?;
    let calls = calls_of(alloc, sels, vars, user, folders.as_slice())?;
    let mut trees = trees_of(alloc, items, stored)?;
    let names = add_shims(alloc, calls.as_slice(), stored, shelf)?;
    add_all(&mut trees, names.as_slice())?;
    verify_all(alloc, trees.as_slice(), &places, shelf, others)?;
    let shims = folders_at(alloc, names.as_slice(), &places, shelf, others)?;
    planned(
        alloc,
        sels,
        vars,
        user,
        folders.as_slice(),
        shims.as_slice(),
    )
}
