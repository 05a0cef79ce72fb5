//! What is at web addresses, by a helper program.
ghost use Rattle.std.specs.Prelude.{◌≡◌, [], ◌∷◌, None, Err, IfOk, OnErr};
ghost use Rattle.std.specs.Process.{child_status};
ghost use Rattle.zi_outside.specs.Outside.{Gets, Finds};
ghost use Rattle.zi_outside.specs.Fetched.{as_get};
ghost use Rattle.zi_edge.specs.Commands.{Starts, no_variables};
ghost use Rattle.zi_edge.specs.Helped.{Answers, HasGiven, output};
ghost use Rattle.zi_edge.specs.Seen.{feeding_seen};
ghost use Rattle.zi_edge.specs.Troubles.{Fails};
ghost use Rattle.zi_edge.specs.declared.waiting.Patience.TheVariants.{Unclear};
ghost use Rattle.zi_edge.specs.declared.trouble.Reason.TheVariants.{NoHelper as HasNone};
ghost use Rattle.zi_outside.specs.declared.web.WebFault.TheVariants.{Failed as HasFailed};
ghost use Rattle.zi_edge.specs.declared.trouble.Trouble.TheVariants.{Failed};

use crate::log::Log;
use crate::reading::{Taken, take_in};
use crate::trouble::{Reason, Trouble};
use crate::waiting::{Deadline, Patience, Timely, end_of};
use std::alloc::Global;
use std::io;
use std::os::fd::AsRawFd;
use std::process::{Child, Command, ExitStatus, OpenProcess, Processes, Stdio};
use std::time::Clock;
use zi_outside::{Got, Web, WebFault};
use zi_text::{Memory, Text};

/// A web that a helper program gets bytes from, and that doesn't tell what it holds. The helper is run with the address as its
/// one argument and without input; what it writes to its standard output is the bytes, and its standard error is the program's own. Its
/// status 44 means that nothing is at the address; another status than 0 is a failure, and so is an end by a signal, and each call
/// where there is no helper. A helper that writes more than the limit is ended. Each call waits for the helper's end. One that may take
/// only so long and hasn't ended then is ended, and that is a failure; what it started itself goes on until it sees that nobody reads.
#[derive(Drop)]
pub struct HelperWeb<'a, R: Processes + Clock + AllocGlobal>
where
    <R::Started as OpenProcess>::Stdout: AsRawFd,
{
    rt: &'a R,
    helper: Option<Text>,
    patience: Patience,
    faults: u64,
    log: Log,
}

// The status of a helper where nothing is at the address.
const ABSENT: i32 = 44;

// The command that asks a helper for an address.
fn command(alloc: Global, helper: &str, href: &str) -> Result<Command, Memory>
    ensures { IfOk result (λ command. Starts command (helper.now ∷ href.now ∷ []) no_variables) }
{
    let mut command = Command::new(alloc, helper)?;
    command.arg(href)?;
    command.stdin(Stdio::null());
    command.stdout(Stdio::piped());
    Ok(command)
}

// What a helper's end says of what it wrote.
fn answer(taken: Result<Taken, Trouble>, ended: io::Result<ExitStatus>) -> Result<Got, Trouble>
    ensures { Answers taken ended result }
{
    let taken = taken?;
    let status = ended?;
    match (taken, status.code()) {
        (Taken::TooMuch, _) => Ok(Got::TooLong),
        (Taken::Whole, Some(0)) => Ok(Got::Held),
        (Taken::Whole, Some(ABSENT)) => Ok(Got::Absent),
        _ => Err(Trouble::Failed(Reason::Ended(status))),
    }
}

// Takes what a helper writes, and waits for its end. One that isn't read to its end is ended before.
fn gather<P: OpenProcess, C: Clock + Copy>(
    child: &mut Child<P>,
    clock: C,
    deadline: Deadline,
    limit: u64,
    into: &mut Vec<u8>,
) -> Result<Got, Trouble>
where
    P::Stdout: AsRawFd,
    ensures found { IfOk result (λ got. HasGiven (output P.Stdout.remaining child.old) limit into.old.items got into.new.items (child_status child.new)) }
    ensures refused { OnErr result (into.new.items ≡ into.old.items) }
{
    let start = into.len();
    let taken = match child.stdout.take() {
        Some(stream) => {
            let timely = Timely {
                clock,
                deadline,
                stream,
            };
            take_in(timely, limit, into)
        }
        None => Err(Trouble::Failed(Reason::IsNot("read"))),
    };
    if !matches!(taken, Ok(Taken::Whole)) {
        let _ = child.kill();
    }
    let got = answer(taken, end_of(child, &clock, deadline));
    if !matches!(got, Ok(Got::Held)) {
        into.truncate(start);
    }
    got
}

impl<'a, R: Processes + Clock + AllocGlobal> HelperWeb<'a, R>
where
    <R::Started as OpenProcess>::Stdout: AsRawFd,
{
    /// The web of a helper that may take so long, or of none, without a fault.
    pub fn new(rt: &'a R, helper: Option<Text>, patience: Patience) -> HelperWeb<'a, R>
        ensures seen { feeding_seen result.faults ≡ feeding_seen 0 }
        ensures helper { result.helper ≡ helper }
        ensures patience { result.patience ≡ patience }
    {
        HelperWeb {
            rt,
            helper,
            patience,
            faults: 0,
            log: Log::new(rt.alloc()),
        }
    }

    /// What failed.
    pub fn log(&self) -> &Log {
        &self.log
    }

    // When the helper is to have ended that is started now.
    fn deadline(&self) -> Result<Deadline, Trouble>
        ensures { self.now.patience ≡ Unclear → Fails result }
    {
        let seconds = match self.patience {
            Patience::Endless => None,
            Patience::Seconds(seconds) => Some(seconds),
            Patience::Unclear => return Err(Trouble::Failed(Reason::NoLimit)),
        };
        Ok(Deadline::new(self.rt, seconds)?)
    }

    // What the helper finds at an address.
    fn fetch(&self, href: &str, limit: u64, into: &mut Vec<u8>) -> Result<Got, Trouble>
        ensures found { IfOk result (λ got. Finds None (record { key = href.now; limit = limit; buffer = into.old.items }) got into.new.items) }
        ensures refused { OnErr result (into.new.items ≡ into.old.items) }
        ensures unhelped { self.now.helper ≡ None → result ≡ Err (Failed HasNone) }
        ensures unclear { self.now.patience ≡ Unclear → Fails result }
    {
        let Some(helper) = &self.helper else {
            return Err(Trouble::Failed(Reason::NoHelper));
        };
        let deadline = self.deadline()?;
        let mut command = command(self.rt.alloc(), helper.as_str(), href)?;
        let mut child = command.spawn(self.rt)?;
        gather(&mut child, self.rt, deadline, limit, into)
    }

    // Tells that an address can't be fetched.
    fn tell(&mut self, href: &str, reason: Reason)
        ensures faults { self.new.faults ≡ self.old.faults }
    {
        match &self.helper {
            Some(helper) => self.log.tell(&[helper.as_str(), href], reason),
            None => self.log.tell(&[href], reason),
        }
    }
}

impl<R: Processes + Clock + AllocGlobal> Web for HelperWeb<'_, R>
where
    <R::Started as OpenProcess>::Stdout: AsRawFd,
{
    ghost use Rattle.zi_edge.specs.Seen.{feeding_seen};

    ghost seen = { λ web. feeding_seen web.faults };

    fn get(&mut self, href: &str, limit: u64, into: &mut Vec<u8>) -> Result<Got, WebFault>
        ensures gets { Gets (feeding_seen self.old.faults) (record { key = href.now; limit = limit; buffer = into.old.items }) (as_get result) into.new.items (feeding_seen self.new.faults) }
        ensures unhelped { self.old.helper ≡ None → result ≡ Err HasFailed }
        ensures unclear { self.old.patience ≡ Unclear → result ≡ Err HasFailed }
    {
        match self.fetch(href, limit, into) {
            Ok(got) => Ok(got),
            Err(Trouble::Memory) => Err(WebFault::Memory),
            Err(Trouble::Failed(reason)) => {
                self.tell(href, reason);
                self.faults = self.faults.saturating_add(1);
                Err(WebFault::Failed)
            }
        }
    }
}
