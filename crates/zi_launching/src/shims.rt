//! Shims: the small programs that make commands available to the program that is started.
ghost use Rattle.std.specs.Prelude.{◌≡◌, ◌∷◌, true, All, length, map, IfOk, MatchResult};
ghost use Rattle.zi_digest.specs.declared.Algorithm.TheVariants.{Sha256new};
ghost use Rattle.zi_manifest.specs.Manifest.{HasManifest, digest_of};
ghost use Rattle.zi_shim.specs.Trees.{is_shim_name};
ghost use Rattle.zi_launching.specs.Folders.{stored_at, place_in};
ghost use Rattle.zi_launching.specs.Shims.{unplanned, AddsShim, AddsShims};
ghost use Rattle.zi_launching.specs.Launching.{HasCalls, HasNoCalls};

use crate::folders::stored_place;
use crate::places::Places;
use std::alloc::Global;
use zi_adding::add_tree;
use zi_digest::{Algorithm, DigestName};
use zi_fetching::{Stored, unadded};
use zi_manifest::{ManifestOutFault, digest};
use zi_outcome::Outcome;
use zi_outside::Vars;
use zi_plan::{PlanFault, ShimCall, plan_before_shims, shim_words};
use zi_sels::Selections;
use zi_shelf::Shelf;
use zi_shim::shim_tree;
use zi_text::{List, Memory, Text};
use zi_tree::Tree;

/// The outcome of a plan that has a fault.
pub(crate) fn unplanned(fault: PlanFault) -> Outcome
    ensures { result ≡ unplanned fault }
{
    match fault {
        PlanFault::Memory => Outcome::Memory,
        fault => Outcome::Plan(fault),
    }
}

/// The calls of the shims of selections that have a plan: what each is to run. It is refused by the fault of the plan, or else by that of
/// the words of a shim.
pub(crate) fn calls_of(
    alloc: Global,
    sels: &Selections,
    vars: &Vars,
    user: &[Text],
    folders: &[Option<Text>],
) -> Result<List<ShimCall>, Outcome>
    requires { length folders.now ≡ length sels.now.items }
    ensures { MatchResult result (HasCalls sels.now vars.now user.now folders.now) (HasNoCalls sels.now vars.now user.now folders.now) }
{
    match plan_before_shims(alloc, sels, vars, user, folders) {
        Ok(_) => {}
        Err(fault) => return Err(unplanned(fault)),
    }
    match shim_words(alloc, sels, vars, folders) {
        Ok(calls) => Ok(calls),
        Err(fault) => Err(unplanned(fault)),
    }
}

// The digest of a shim's tree, which has a manifest.
fn digest_of(alloc: Global, tree: &Tree) -> Result<DigestName, Memory>
    requires { HasManifest tree.now }
    ensures { IfOk result (λ name. name ≡ digest_of Sha256new tree.now) }
{
    match digest(alloc, tree, Algorithm::Sha256new) {
        Ok(name) => Ok(name),
        Err(ManifestOutFault::BadName { .. }) => unreachable!(),
        Err(ManifestOutFault::Memory) => Err(Memory),
    }
}

/// Adds the tree of a shim, unless a store has its digest, which is stored then. The digest is answered.
fn add_shim<K: Shelf>(
    alloc: Global,
    call: &ShimCall,
    stored: &mut Stored,
    shelf: &mut K,
) -> Result<DigestName, Outcome>
    requires { is_shim_name call.now.name ≡ true }
    ensures { AddsShim stored.old call.now (K.seen shelf.old) result stored.new (K.seen shelf.new) }
{
    let tree = shim_tree(alloc, &call.name, call.words.as_slice())?;
    let name = digest_of(alloc, &tree)?;
    let known = stored.has_any(alloc, [name].as_slice())?;
    if known {
        return Ok(name);
    }
    stored.add(alloc, &name)?;
    match add_tree(alloc, name, tree, shelf) {
        Ok(_) => Ok(name),
        Err(fault) => Err(unadded(fault)),
    }
}

/// Adds the trees of shims, one after another, each that no store has to the store that is written. Their digests are answered.
pub(crate) fn add_shims<K: Shelf>(
    alloc: Global,
    calls: &[ShimCall],
    stored: &mut Stored,
    shelf: &mut K,
) -> Result<List<DigestName>, Outcome>
    requires { All (λ call. is_shim_name call.name ≡ true) calls.now }
    ensures { AddsShims stored.old calls.now (K.seen shelf.old) result stored.new (K.seen shelf.new) }
{
    let mut names = List::new(alloc);
    for call in calls {
        names.push(add_shim(alloc, call, stored, shelf)?)?;
    }
    Ok(names)
}

/// The folders of stored trees, each in the store where it stands.
pub(crate) fn folders_at<K: Shelf, R: Shelf>(
    alloc: Global,
    names: &[DigestName],
    places: &Places,
    shelf: &K,
    others: &[R],
) -> Result<List<Text>, Memory>
    ensures { IfOk result (λ folders. folders ≡ map (stored_at (K.seen shelf.now ∷ map R.seen others.now) (place_in places.now.stores.entries)) names.now) }
{
    let mut folders = List::new(alloc);
    for name in names {
        folders.push(stored_place(alloc, name, places, shelf, others)?)?;
    }
    Ok(folders)
}
