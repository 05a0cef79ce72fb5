//! Programs that are launched.
ghost use Rattle.std.specs.Prelude.{◌≡◌, ◌⊎◌, true, false, Some, Err, IfOk, IfErr, OnOk};
ghost use Rattle.std.specs.List.{list_all};
ghost use Rattle.std.specs.Process.{child_status, command_var, clears_env, SameOtherVars, SameProgramAndArgs, SameDir};
ghost use Rattle.zi_outside.specs.Launched.{Launches};
ghost use Rattle.zi_outside.specs.declared.spawner.SpawnFault.TheVariants.{Failed as HasFailed};
ghost use Rattle.zi_edge.specs.Commands.{AddsArgs, SetsVars, StartsLaunch};
ghost use Rattle.zi_edge.specs.Ends.{IsStatusOf, IsLearnt};
ghost use Rattle.zi_edge.specs.Fit.{is_absolute, is_whole, is_fit};
ghost use Rattle.zi_edge.specs.Seen.{spawner_seen};
ghost use Rattle.zi_edge.specs.Troubles.{IsFailure};

use crate::log::Log;
use crate::trouble::{Reason, Trouble};
use std::alloc::Global;
use std::io;
use std::process::{Child, Command, ExitStatus, OpenProcess, Processes};
use zi_outside::{Dir, Launch, SpawnFault, Spawner, Vars};
use zi_text::{Memory, Text};

/// What starts programs, waits for their end, and doesn't tell what was launched. A program has the standard streams, and nothing
/// else that is open; it stands in the current folder. Its variables are those of this process, with the launch's set: so those that
/// are no text pass as they are.
#[derive(Drop)]
pub struct ChildSpawner<'a, R: Processes + AllocGlobal> {
    rt: &'a R,
    faults: u64,
    log: Log,
}

// The status of a program that a signal ended, or whose end can't be learnt.
const UNKNOWN: u8 = 255;

// The status of a program that ended so.
fn status_of(ended: io::Result<ExitStatus>) -> u8
    ensures { IsStatusOf ended result }
{
    match ended {
        Ok(status) => match status.code() {
            Some(code) => u8::try_from(code).unwrap_or(UNKNOWN),
            None => UNKNOWN,
        },
        Err(_) => UNKNOWN,
    }
}

// Waits for a program's end, and gives its status.
fn end_of<P: OpenProcess>(child: &mut Child<P>) -> u8
    ensures { IsLearnt (child_status child.new) result ⊎ (result ≡ 255) }
{
    status_of(child.wait())
}

// Whether a path is whole, wherever it is read.
fn is_absolute(path: &Text) -> bool
    ensures { result ≡ is_absolute path.now }
{
    path.as_str().as_bytes().first() == Some(&b'/')
}

// Whether a folder is named by a whole path.
fn is_whole(dir: &Dir) -> bool
    ensures { result ≡ is_whole dir.now }
{
    is_absolute(&dir.folder)
}

// Whether all folders are.
fn are_whole(dirs: &[Dir]) -> bool
    ensures { result ≡ list_all is_whole dirs.now }
{
    dirs.iter().all(|dir| is_whole(dir))
}

// Whether a launch is whole: it has a program, and that and all folders are named so that they are the same wherever they are read.
fn check(launch: &Launch) -> Result<(), Trouble>
    ensures fit { IfOk result (λ _. is_fit launch.now ≡ true) }
    ensures unfit { IfErr result (λ trouble. (is_fit launch.now ≡ false) × IsFailure trouble) }
{
    let Some(program) = launch.words.as_slice().first() else {
        return Err(Trouble::Failed(Reason::IsNot("a program")));
    };
    if !is_absolute(program) {
        return Err(Trouble::Failed(Reason::IsNot("named by a whole path")));
    }
    if !are_whole(launch.dirs.as_slice()) || !are_whole(launch.shims.as_slice()) {
        return Err(Trouble::Failed(Reason::IsNot("given folders by whole paths")));
    }
    Ok(())
}

// Adds arguments.
fn add_args(command: &mut Command, args: &[Text]) -> Result<(), Memory>
    ensures { OnOk result (AddsArgs command.old args.now command.new) }
{
    for arg in args {
        command.arg(arg.as_str())?;
    }
    Ok(())
}

// Sets a variable.
fn set_var(command: &mut Command, name: &str, value: &str) -> Result<(), Memory>
    ensures set { OnOk result (command_var command.new name.now ≡ Some (Some value.now)) }
    ensures others { OnOk result (SameOtherVars command.old command.new name.now) }
    ensures call { OnOk result (SameProgramAndArgs command.old command.new) }
    ensures kept { OnOk result (clears_env command.new ≡ clears_env command.old) }
    ensures dir { OnOk result (SameDir command.old command.new) }
{
    command.env(name, value)?;
    Ok(())
}

// Sets variables.
fn set_vars(command: &mut Command, vars: &Vars) -> Result<(), Memory>
    ensures { OnOk result (SetsVars command.old vars.now command.new) }
{
    let mut left = vars.len();
    while left > 0 {
        left -= 1;
        let name = vars.name_at(left).as_str();
        let value = vars.value_at(left).as_str();
        set_var(command, name, value)?;
    }
    Ok(())
}

// The command of a launch.
fn command(alloc: Global, launch: &Launch) -> Result<Command, Trouble>
    ensures { IfOk result (λ command. StartsLaunch command launch.now) }
{
    let Some((program, args)) = launch.words.as_slice().split_first() else {
        return Err(Trouble::Failed(Reason::IsNot("a program")));
    };
    let mut command = Command::new(alloc, program.as_str())?;
    add_args(&mut command, args)?;
    set_vars(&mut command, &launch.vars)?;
    Ok(command)
}

impl<'a, R: Processes + AllocGlobal> ChildSpawner<'a, R> {
    /// A spawner without a fault.
    pub fn new(rt: &'a R) -> ChildSpawner<'a, R>
        ensures { spawner_seen result.faults ≡ spawner_seen 0 }
    {
        ChildSpawner {
            rt,
            faults: 0,
            log: Log::new(rt.alloc()),
        }
    }

    /// What failed.
    pub fn log(&self) -> &Log {
        &self.log
    }

    // Starts a program and waits for its end.
    fn run(&self, launch: &Launch) -> Result<u8, Trouble>
        ensures fit { IfOk result (λ _. is_fit launch.now ≡ true) }
        ensures unfit { is_fit launch.now ≡ false → IfErr result IsFailure }
    {
        check(launch)?;
        let mut command = command(self.rt.alloc(), launch)?;
        let mut child = command.spawn(self.rt)?;
        Ok(end_of(&mut child))
    }

    // Tells that a program can't be started.
    fn tell(&mut self, launch: &Launch, reason: Reason)
        ensures { self.new.faults ≡ self.old.faults }
    {
        match launch.words.as_slice().first() {
            Some(program) => self.log.tell(&[program.as_str()], reason),
            None => self.log.tell(&[], reason),
        }
    }
}

impl<R: Processes + AllocGlobal> Spawner for ChildSpawner<'_, R> {
    ghost use Rattle.zi_edge.specs.Seen.{spawner_seen};

    ghost seen = { λ spawner. spawner_seen spawner.faults };

    fn launch(&mut self, launch: &Launch) -> Result<u8, SpawnFault>
        ensures launches { Launches (spawner_seen self.old.faults) launch.now result (spawner_seen self.new.faults) }
        ensures unfit { is_fit launch.now ≡ false → result ≡ Err HasFailed }
    {
        match self.run(launch) {
            Ok(status) => Ok(status),
            Err(Trouble::Memory) => Err(SpawnFault::Memory),
            Err(Trouble::Failed(reason)) => {
                self.tell(launch, reason);
                self.faults = self.faults.saturating_add(1);
                Err(SpawnFault::Failed)
            }
        }
    }
}
