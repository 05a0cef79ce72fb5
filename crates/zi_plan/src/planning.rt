//! The plan, by its checks in their order.
ghost use Rattle.std.specs.Prelude.{◌≡◌, map, length, IfOk};
ghost use Rattle.zi_plan.specs.Launches.{shimmed, all_bindings};
ghost use Rattle.zi_plan.specs.Plans.{Plans, PlansFrom, PlansCommand, Tells, of_chain};
ghost use Rattle.zi_plan.specs.Shims.{PlansWithoutShims, shims_of, empty_texts, unbuilt_shim};
ghost use Rattle.zi_plan.specs.Steps.{Checks, Says, placed_seen, wanted_seen, link_seen};

use crate::PlanFault;
use crate::applying::{apply_all, check_all_built, empty_texts, shims_exposed};
use crate::binding::all_bindings;
use crate::chain::{Linked, check_last, follow};
use crate::placing::{InFolder, exposed, placed};
use crate::table::{Table, Wanted};
use crate::words::words;
use std::alloc::Global;
use zi_outside::{Launch, Vars};
use zi_sels::Selections;
use zi_text::{List, Memory, Text};

// The launch by a chain, behind the checks of its commands.
fn launch_of(
    alloc: Global,
    table: &Table<'_>,
    links: &[Linked<'_>],
    vars: &Vars,
    user: &[Text],
    shims: &[Text],
) -> Result<Launch, PlanFault>
    ensures { Says (of_chain table.now shims.now vars.now user.now (map link_seen links.now)) result }
{
    check_last(alloc, links)?;
    let bounds = all_bindings(alloc, table)?;
    let mut vars = vars.copy(alloc)?;
    apply_all(alloc, bounds.as_slice(), shims, &mut vars)?;
    let words = words(alloc, links, &vars, user)?;
    let dirs = exposed(alloc, table.all())?;
    let shims = shims_exposed(alloc, bounds.as_slice(), shims)?;
    Ok(Launch {
        words,
        vars,
        dirs,
        shims,
    })
}

// The launch by the chain from a command on.
fn launch_from(
    alloc: Global,
    table: &Table<'_>,
    from: Wanted<'_>,
    vars: &Vars,
    user: &[Text],
    shims: &[Text],
) -> Result<Launch, PlanFault>
    ensures { Tells (PlansFrom table.now shims.now vars.now user.now (wanted_seen from.entry)) result }
{
    match follow(alloc, table, from) {
        Ok(links) => launch_of(alloc, table, links.as_slice(), vars, user, shims),
        Err(fault) => Err(fault),
    }
}

// The launch of the command that is asked for.
fn launch_command(
    alloc: Global,
    table: &Table<'_>,
    selections: &Selections,
    vars: &Vars,
    user: &[Text],
    shims: &[Text],
) -> Result<Launch, PlanFault>
    ensures { Tells (PlansCommand table.now shims.now vars.now user.now selections.now.interface selections.now.command) result }
{
    match &selections.command {
        Some(command) => {
            let from = Wanted {
                interface: selections.interface.as_str(),
                command: command.as_str(),
            };
            launch_from(alloc, table, from, vars, user, shims)
        }
        None => Err(PlanFault::NoCommand {
            interface: selections.interface.copy(alloc)?,
            command: Text::new(alloc),
        }),
    }
}

// The launch over what is placed.
fn launch_placed(
    alloc: Global,
    placed: &[InFolder<'_>],
    selections: &Selections,
    vars: &Vars,
    user: &[Text],
    shims: &[Text],
) -> Result<Launch, PlanFault>
    ensures { Tells (PlansCommand (map placed_seen placed.now) shims.now vars.now user.now selections.now.interface selections.now.command) result }
{
    match Table::of(alloc, placed) {
        Ok(table) => launch_command(alloc, &table, selections, vars, user, shims),
        Err(lacking) => Err(PlanFault::from(lacking)),
    }
}

// As many empty texts as there are shims of what is placed.
fn empty_shims(alloc: Global, placed: &[InFolder<'_>]) -> Result<List<Text>, Memory>
    ensures { IfOk result (λ texts. texts ≡ empty_texts (shimmed (all_bindings (map placed_seen placed.now)))) }
{
    let table = Table::of(alloc, placed)?;
    let bounds = all_bindings(alloc, &table)?;
    empty_texts(alloc, bounds.as_slice())
}

/// The launch that selections mean, over variables, with the user's words, a folder for each selection, and one for the shim of each
/// binding that makes a command available and whose interface is selected, in the order in which bindings are applied; behind the last of
/// these folders such a binding is passed over.
///
/// It is refused by the first of these checks that fails. NoFolder: each selection has a folder, but a package. NoCommand, with the empty
/// text: a command is asked for. Along the chain from that command to what runs it, for each: Loop, it isn't in the chain yet;
/// NoSelection, its interface is selected; NoCommand, it is a command of the selection; Unbuilt, each part of it is built;
/// BadPath, its path is a relative path with a part, or begins with `/` where it is that of a package. NoPath: the last command of the
/// chain has a path. Unbuilt and BadPath: each binding can be applied. Bind: each argument stands for something. It takes time linear in
/// the selections and in the chain, which is followed without recursion.
pub fn plan(
    alloc: Global,
    selections: &Selections,
    vars: &Vars,
    user: &[Text],
    folders: &[Option<Text>],
    shims: &[Text],
) -> Result<Launch, PlanFault>
    requires { length folders.now ≡ length selections.now.items }
    ensures { Tells (Plans selections.now vars.now user.now folders.now shims.now) result }
{
    match placed(alloc, selections.items.as_slice(), folders) {
        Ok(placed) => launch_placed(alloc, placed.as_slice(), selections, vars, user, shims),
        Err(fault) => Err(fault),
    }
}

/// The same with an empty text for the folder of each shim: whether there is a launch, and why there is none, doesn't change by these
/// folders.
pub fn plan_before_shims(
    alloc: Global,
    selections: &Selections,
    vars: &Vars,
    user: &[Text],
    folders: &[Option<Text>],
) -> Result<Launch, PlanFault>
    requires { length folders.now ≡ length selections.now.items }
    ensures { Tells (Plans selections.now vars.now user.now folders.now (empty_texts (shims_of selections.now folders.now))) result }
{
    let placed = match placed(alloc, selections.items.as_slice(), folders) {
        Ok(placed) => placed,
        Err(fault) => return Err(fault),
    };
    let placed = placed.as_slice();
    match empty_shims(alloc, placed) {
        Ok(shims) => launch_placed(alloc, placed, selections, vars, user, shims.as_slice()),
        Err(lacking) => Err(PlanFault::from(lacking)),
    }
}

// None of what is placed needs a shim.
fn check_no_shim(alloc: Global, placed: &[InFolder<'_>]) -> Result<(), PlanFault>
    ensures { Checks (unbuilt_shim (shimmed (all_bindings (map placed_seen placed.now)))) result }
{
    let table = Table::of(alloc, placed)?;
    let bounds = all_bindings(alloc, &table)?;
    check_all_built(alloc, bounds.as_slice())
}

/// The launch that selections mean where no shim can be made: where there is one but a binding makes a command available, this isn't built.
pub fn plan_without_shims(
    alloc: Global,
    selections: &Selections,
    vars: &Vars,
    user: &[Text],
    folders: &[Option<Text>],
) -> Result<Launch, PlanFault>
    requires { length folders.now ≡ length selections.now.items }
    ensures { Tells (PlansWithoutShims selections.now vars.now user.now folders.now) result }
{
    let placed = match placed(alloc, selections.items.as_slice(), folders) {
        Ok(placed) => placed,
        Err(fault) => return Err(fault),
    };
    let placed = placed.as_slice();
    let none = List::new(alloc);
    match launch_placed(alloc, placed, selections, vars, user, none.as_slice()) {
        Ok(launch) => match check_no_shim(alloc, placed) {
            Ok(()) => Ok(launch),
            Err(fault) => Err(fault),
        },
        Err(fault) => Err(fault),
    }
}
