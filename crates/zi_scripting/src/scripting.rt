//! The work of `script`.
ghost use Rattle.std.specs.Prelude.{◌≤◌, map};
ghost use Rattle.zi_outside.specs.Views.{Feeding};
ghost use Rattle.zi_scripting.specs.Scripting.{WritesScript, Scripts, ScriptsFile};

use std::alloc::Global;
use zi_choosing::Asked;
use zi_launching::{prepare_file, prepare_run};
use zi_outcome::{Outcome, put_text};
use zi_outside::{Feeds, Launch, Sink, Vars, Web};
use zi_plan::PlanFault;
use zi_script::{ScriptFault, script_text};
use zi_shelf::Shelf;
use zi_text::Text;

// Writes the script of a launch, for a shell with these variables.
fn write_script<O: Sink>(alloc: Global, launch: &Launch, vars: &Vars, out: &mut O) -> Outcome
    ensures { WritesScript vars.now launch.now (O.seen out.old) (O.seen out.new) result }
{
    match script_text(alloc, launch, vars) {
        Ok(text) => put_text(text.as_bytes(), out),
        Err(ScriptFault::BadName { name }) => Outcome::Plan(PlanFault::Unbuilt { element: name }),
        Err(ScriptFault::Memory) => Outcome::Memory,
    }
}

/// Does all that `run` does up to the start, and writes the launch that `run` would have started as a script, for a shell with these
/// variables. Nothing is started. Where the launch changes a variable that no shell can set the outcome is `Plan` of `Unbuilt` with the name
/// of that variable, and nothing is written; nor is anything after an outcome of the stages before.
pub fn script<F: Feeds, K: Shelf, R: Shelf, W: Web, O: Sink>(
    alloc: Global,
    asked: Asked,
    user: &[Text],
    vars: &Vars,
    feeds: &mut F,
    shelf: &mut K,
    others: &mut [R],
    web: &mut W,
    out: &mut O,
) -> Outcome
    requires { asked.ask.search ≤ 4000000000 }
    ensures { Scripts asked vars.now user.now
        (record { feeds = F.seen feeds.old; shelf = K.seen shelf.old; others = map R.seen others.old; web = W.seen web.old; out = O.seen out.old })
        (record { feeds = F.seen feeds.new; shelf = K.seen shelf.new; others = map R.seen others.new; web = W.seen web.new; out = O.seen out.new })
        result }
{
    match prepare_run(alloc, asked, user, vars, feeds, shelf, others, web) {
        Ok(launch) => write_script(alloc, &launch, vars, out),
        Err(outcome) => outcome,
    }
}

/// Does all that `launch` does up to the start, and writes the launch that `launch` would have started as a script, as `script` does.
pub fn script_file<F: Feeds, K: Shelf, R: Shelf, O: Sink>(
    alloc: Global,
    file: Text,
    user: &[Text],
    vars: &Vars,
    feeds: &mut F,
    shelf: &mut K,
    others: &mut [R],
    out: &mut O,
) -> Outcome
    ensures { (web : Feeding) → ScriptsFile file vars.now user.now
        (record { feeds = F.seen feeds.old; shelf = K.seen shelf.old; others = map R.seen others.old; web = web; out = O.seen out.old })
        (record { feeds = F.seen feeds.new; shelf = K.seen shelf.new; others = map R.seen others.new; web = web; out = O.seen out.new }) result }
{
    match prepare_file(alloc, file, user, vars, feeds, shelf, others) {
        Ok(launch) => write_script(alloc, &launch, vars, out),
        Err(outcome) => outcome,
    }
}
