//! All bindings are applied, in their one order, and the folders of shims are exposed.
ghost use Rattle.std.specs.Prelude.{◌≡◌, true, [], ◌∷◌, ◌++◌, map, IfOk, OnOk};
ghost use Rattle.zi_bind.specs.Shims.{is_shimmed};
ghost use Rattle.zi_plan.specs.Launches.{shimmed, in_shims, shims_exposed};
ghost use Rattle.zi_plan.specs.Plans.{fault_by};
ghost use Rattle.zi_plan.specs.Shims.{empty_texts, shim_element, unbuilt_shim};
ghost use Rattle.zi_plan.specs.Steps.{bound_seen, Checks, AppliesNext, AppliesAll, ExposesNext};

use crate::PlanFault;
use crate::binding::BoundTo;
use crate::placing::add_dir;
use std::alloc::Global;
use zi_bind::{ApplyFault, apply_binding, apply_shim, is_shimmed};
use zi_outside::{Dir, Vars};
use zi_parts::Binding;
use zi_text::{List, Memory, Text};

// The fault of a binding, as one of the plan.
fn fault_by(fault: ApplyFault) -> PlanFault
    ensures { result ≡ fault_by fault }
{
    match fault {
        ApplyFault::Unbuilt { element } => PlanFault::Unbuilt { element },
        ApplyFault::BadPath { text } => PlanFault::BadPath { text },
        ApplyFault::Memory => PlanFault::Memory,
    }
}

// Applies a binding that makes a command available, with the first of these folders; it is passed over where there is none. The answer
// is the folders behind that.
fn apply_first<'a>(
    alloc: Global,
    bound: &BoundTo<'_>,
    shims: &'a [Text],
    vars: &mut Vars,
) -> Result<&'a [Text], PlanFault>
    requires { is_shimmed bound.now.binding.now ≡ true }
    ensures { AppliesNext (bound_seen bound.now) shims.entry.now vars.old result vars.new }
{
    match shims {
        [folder, rest @ ..] => {
            apply_shim(alloc, bound.binding, folder.as_str(), vars)?;
            Ok(rest)
        }
        [] => Ok(shims),
    }
}

// Applies a binding, and answers the folders of shims that are left.
fn apply_next<'a>(
    alloc: Global,
    bound: &BoundTo<'_>,
    shims: &'a [Text],
    vars: &mut Vars,
) -> Result<&'a [Text], PlanFault>
    ensures { AppliesNext (bound_seen bound.now) shims.entry.now vars.old result vars.new }
{
    if is_shimmed(bound.binding) {
        return apply_first(alloc, bound, shims, vars);
    }
    match apply_binding(alloc, bound.binding, bound.folder, vars) {
        Ok(()) => Ok(shims),
        Err(fault) => Err(fault_by(fault)),
    }
}

/// Applies all bindings, one after another. Those that make a command available get these folders, in their order, and are passed over
/// behind the last of them.
pub fn apply_all(
    alloc: Global,
    bounds: &[BoundTo<'_>],
    shims: &[Text],
    vars: &mut Vars,
) -> Result<(), PlanFault>
    ensures { AppliesAll (map bound_seen bounds.now) shims.now vars.old result vars.new }
{
    let mut rest = shims;
    for bound in bounds {
        match apply_next(alloc, bound, rest, vars) {
            Ok(left) => rest = left,
            Err(fault) => return Err(fault),
        }
    }
    Ok(())
}

// Exposes the first of these folders for a binding that makes a command available, or none where there is none. The answer is the folders
// behind that.
fn expose_first<'a>(
    alloc: Global,
    bound: &BoundTo<'_>,
    shims: &'a [Text],
    dirs: &mut List<Dir>,
) -> Result<&'a [Text], Memory>
    requires { is_shimmed bound.now.binding.now ≡ true }
    ensures { IfOk result (λ rest. ExposesNext (bound_seen bound.now) shims.entry.now dirs.old rest.now dirs.new) }
{
    match shims {
        [folder, rest @ ..] => {
            add_dir(alloc, bound.interface, folder, dirs)?;
            Ok(rest)
        }
        [] => Ok(shims),
    }
}

// The same for any binding; one that needs no shim exposes none.
fn expose_next<'a>(
    alloc: Global,
    bound: &BoundTo<'_>,
    shims: &'a [Text],
    dirs: &mut List<Dir>,
) -> Result<&'a [Text], Memory>
    ensures { IfOk result (λ rest. ExposesNext (bound_seen bound.now) shims.entry.now dirs.old rest.now dirs.new) }
{
    if is_shimmed(bound.binding) {
        return expose_first(alloc, bound, shims, dirs);
    }
    Ok(shims)
}

/// The folders of shims that are exposed: these, each with the interface of its binding.
pub fn shims_exposed(
    alloc: Global,
    bounds: &[BoundTo<'_>],
    shims: &[Text],
) -> Result<List<Dir>, Memory>
    ensures { IfOk result (λ dirs. dirs ≡ shims_exposed (in_shims (map bound_seen bounds.now) shims.now)) }
{
    let mut dirs = List::new(alloc);
    let mut rest = shims;
    for bound in bounds {
        rest = expose_next(alloc, bound, rest, &mut dirs)?;
    }
    Ok(dirs)
}

// Adds an empty text for a binding that makes a command available.
fn put_empty(alloc: Global, bound: &BoundTo<'_>, texts: &mut List<Text>) -> Result<(), Memory>
    ensures { OnOk result (texts.new ≡ texts.old ++ empty_texts (shimmed (bound_seen bound.now ∷ []))) }
{
    if is_shimmed(bound.binding) {
        return texts.push(Text::new(alloc));
    }
    Ok(())
}

/// As many empty texts as there are bindings that make a command available.
pub fn empty_texts(alloc: Global, bounds: &[BoundTo<'_>]) -> Result<List<Text>, Memory>
    ensures { IfOk result (λ texts. texts ≡ empty_texts (shimmed (map bound_seen bounds.now))) }
{
    let mut texts = List::new(alloc);
    for bound in bounds {
        put_empty(alloc, bound, &mut texts)?;
    }
    Ok(texts)
}

// The element of a binding that makes a command available.
fn shim_element(binding: &Binding) -> &str
    ensures { result.now ≡ shim_element binding.now }
{
    match binding {
        Binding::ExecVar { .. } => "executable-in-var",
        Binding::ExecPath { .. } => "executable-in-path",
        _ => "",
    }
}

// A binding needs no shim.
fn check_built(alloc: Global, bound: &BoundTo<'_>) -> Result<(), PlanFault>
    ensures { Checks (unbuilt_shim (shimmed (bound_seen bound.now ∷ []))) result }
{
    if is_shimmed(bound.binding) {
        return Err(PlanFault::Unbuilt {
            element: Text::from_str(alloc, shim_element(bound.binding))?,
        });
    }
    Ok(())
}

/// No binding needs a shim.
pub fn check_all_built(alloc: Global, bounds: &[BoundTo<'_>]) -> Result<(), PlanFault>
    ensures { Checks (unbuilt_shim (shimmed (map bound_seen bounds.now))) result }
{
    for bound in bounds {
        match check_built(alloc, bound) {
            Ok(()) => {}
            Err(fault) => return Err(fault),
        }
    }
    Ok(())
}
