//! The words of shims.
ghost use Rattle.std.specs.Prelude.{◌≡◌, map, length};
ghost use Rattle.zi_outside.specs.Vars.{value_of};
ghost use Rattle.zi_plan.specs.Launches.{shimmed};
ghost use Rattle.zi_plan.specs.Plans.{Tells};
ghost use Rattle.zi_plan.specs.Shims.{shim_name, shim_command, SaysWords, Calls, ShimsOf, ShimsFrom};
ghost use Rattle.zi_plan.specs.Steps.{placed_seen, wanted_seen, bound_seen, CallsOne, PutsCall};

use crate::PlanFault;
use crate::applying::apply_all;
use crate::binding::{BoundTo, all_bindings};
use crate::call::ShimCall;
use crate::chain::{check_last, follow};
use crate::placing::{InFolder, placed};
use crate::table::{Table, Wanted};
use crate::words::words;
use std::alloc::Global;
use zi_bind::is_shimmed;
use zi_outside::Vars;
use zi_parts::Binding;
use zi_sels::Selections;
use zi_text::{List, Text};

// The name of a shim.
fn shim_name(binding: &Binding) -> &str
    ensures { result.now ≡ shim_name binding.now }
{
    match binding {
        Binding::ExecVar { name, .. } => name.as_str(),
        Binding::ExecPath { name, .. } => name.as_str(),
        _ => "",
    }
}

// The name of the command that it runs.
fn shim_command(binding: &Binding) -> &str
    ensures { result.now ≡ shim_command binding.now }
{
    match binding {
        Binding::ExecVar { command, .. } => command.as_str(),
        Binding::ExecPath { command, .. } => command.as_str(),
        _ => "",
    }
}

// The words of a command.
fn words_of(
    alloc: Global,
    table: &Table<'_>,
    from: Wanted<'_>,
    vars: &Vars,
) -> Result<List<Text>, PlanFault>
    ensures { Tells (SaysWords table.now (value_of vars.now) (wanted_seen from.entry)) result }
{
    let links = match follow(alloc, table, from) {
        Ok(links) => links,
        Err(fault) => return Err(fault),
    };
    let links = links.as_slice();
    check_last(alloc, links)?;
    let none = List::new(alloc);
    words(alloc, links, vars, none.as_slice())
}

// The call of a shim.
fn call(
    alloc: Global,
    table: &Table<'_>,
    bound: &BoundTo<'_>,
    vars: &Vars,
) -> Result<ShimCall, PlanFault>
    ensures { Tells (CallsOne table.now (value_of vars.now) (bound_seen bound.now)) result }
{
    let from = Wanted {
        interface: bound.interface.as_str(),
        command: shim_command(bound.binding),
    };
    let words = words_of(alloc, table, from, vars)?;
    Ok(ShimCall {
        interface: bound.interface.copy(alloc)?,
        command: Text::from_str(alloc, from.command)?,
        name: Text::from_str(alloc, shim_name(bound.binding))?,
        words,
    })
}

// Adds the call of a binding that makes a command available.
fn put_call(
    alloc: Global,
    table: &Table<'_>,
    bound: &BoundTo<'_>,
    vars: &Vars,
    calls: &mut List<ShimCall>,
) -> Result<(), PlanFault>
    ensures { PutsCall table.now (value_of vars.now) (bound_seen bound.now) calls.old result calls.new }
{
    if !is_shimmed(bound.binding) {
        return Ok(());
    }
    match call(alloc, table, bound, vars) {
        Ok(call) => Ok(calls.push(call)?),
        Err(fault) => Err(fault),
    }
}

// The calls of those of these bindings that make a command available.
fn calls(
    alloc: Global,
    table: &Table<'_>,
    bounds: &[BoundTo<'_>],
    vars: &Vars,
) -> Result<List<ShimCall>, PlanFault>
    ensures { Tells (Calls table.now (value_of vars.now) (shimmed (map bound_seen bounds.now))) result }
{
    let mut calls = List::new(alloc);
    for bound in bounds {
        match put_call(alloc, table, bound, vars, &mut calls) {
            Ok(()) => {}
            Err(fault) => return Err(fault),
        }
    }
    Ok(calls)
}

// The calls of the shims of what is placed.
fn calls_over(
    alloc: Global,
    placed: &[InFolder<'_>],
    vars: &Vars,
) -> Result<List<ShimCall>, PlanFault>
    ensures { Tells (ShimsFrom (map placed_seen placed.now) vars.now) result }
{
    let table = Table::of(alloc, placed)?;
    let bounds = all_bindings(alloc, &table)?;
    let bounds = bounds.as_slice();
    let none = List::new(alloc);
    let mut vars = vars.copy(alloc)?;
    apply_all(alloc, bounds, none.as_slice(), &mut vars)?;
    calls(alloc, &table, bounds, &vars)
}

/// The call of each shim of selections, over variables, with a folder for each selection: one for each binding that makes a command
/// available and whose interface is selected, in the order in which bindings are applied. Its words are those that a plan for that
/// command has, without a user's, over the variables after all bindings that need no shim.
///
/// It is refused by the first of these checks that fails. NoFolder: each selection has a folder, but a package. Unbuilt and BadPath: each
/// binding can be applied. Then binding by binding the checks of a plan along the chain from its command on, and of the arguments on it.
/// It takes time linear in the selections, and for each such binding in its chain.
pub fn shim_words(
    alloc: Global,
    selections: &Selections,
    vars: &Vars,
    folders: &[Option<Text>],
) -> Result<List<ShimCall>, PlanFault>
    requires { length folders.now ≡ length selections.now.items }
    ensures { Tells (ShimsOf selections.now vars.now folders.now) result }
{
    let placed = match placed(alloc, selections.items.as_slice(), folders) {
        Ok(placed) => placed,
        Err(fault) => return Err(fault),
    };
    calls_over(alloc, placed.as_slice(), vars)
}
