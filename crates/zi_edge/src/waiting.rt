//! Waiting for a helper, no longer than it may take.
ghost use Rattle.std.specs.Prelude.{◌≡◌, Some, None, IfOk};
ghost use Rattle.std.specs.Process.{child_status};
ghost use Rattle.zi_edge.specs.Patience.{patience_by, patience_of};

use libc::net::{POLLIN, poll};
use libc::types::pollfd;
use std::io::{self, ErrorKind, Read};
use std::os::fd::{AsRawFd, RawFd};
use std::process::{Child, ExitStatus, OpenProcess};
use std::thread::sleep;
use std::time::{Clock, Duration, Instant};
use zi_outside::Vars;
use zi_text::{Text, numeral};

/// How long a helper may take.
#[derive(Clone, Copy, PartialEq, Eq)]
pub enum Patience {
    /// As long as it likes.
    Endless,
    /// So many seconds, from 1 to 1,000,000.
    Seconds(u64),
    /// What was asked for is neither.
    Unclear,
}

// The most seconds that may be asked for.
const MOST_SECONDS: u64 = 1_000_000;

// How long a number lets a helper take.
fn patience_by(text: &str) -> Patience
    ensures { result ≡ patience_by text.now }
{
    match numeral(text) {
        Some(seconds) if seconds > 0 && seconds <= MOST_SECONDS => Patience::Seconds(seconds),
        _ => Patience::Unclear,
    }
}

/// How long the helper may take: the value of `ZI_FETCH_SECONDS`, a number from 1 to 1,000,000 in decimal digits. As long as it
/// likes where that isn't set or is empty.
pub fn helper_patience(vars: &Vars) -> Patience
    ensures { result ≡ patience_of vars.now }
{
    match vars.get("ZI_FETCH_SECONDS") {
        Some(text) if !text.is_empty() => patience_by(text.as_str()),
        _ => Patience::Endless,
    }
}

/// When a helper is to have ended; None where it may take as long as it likes.
#[derive(Clone, Copy)]
pub struct Deadline(Option<Instant>);

// That the time has come.
fn late() -> io::Error {
    io::Error::from(ErrorKind::TimedOut)
}

impl Deadline {
    /// So long from now on.
    pub fn new<C: Clock>(clock: &C, seconds: Option<u64>) -> io::Result<Deadline> {
        let Some(seconds) = seconds else {
            return Ok(Deadline(None));
        };
        match Instant::now(clock)?.checked_add(Duration::from_secs(seconds)) {
            Some(at) => Ok(Deadline(Some(at))),
            None => Err(late()),
        }
    }

    // How much time is left until a time; some is.
    fn left<C: Clock>(clock: &C, at: Instant) -> io::Result<Duration> {
        let left = at.saturating_duration_since(Instant::now(clock)?);
        if left.is_zero() {
            Err(late())
        } else {
            Ok(left)
        }
    }

    // Waits until what is open under a number can be read, or has ended.
    fn wait_for<C: Clock>(&self, clock: &C, number: RawFd) -> io::Result<()> {
        match self.0 {
            Some(at) => wait_readable(number, Deadline::left(clock, at)?),
            None => Ok(()),
        }
    }
}

// Waits until what is open under a number can be read, or has ended, but no longer than so.
fn wait_readable(number: RawFd, most: Duration) -> io::Result<()> {
    let whole = most.as_secs().saturating_mul(1_000);
    let millis = whole.saturating_add(u64::from(most.subsec_millis()) + 1);
    let mut asked = [pollfd {
        fd: number,
        events: POLLIN,
        revents: 0,
    }];
    match poll(&mut asked, i32::try_from(millis).unwrap_or(i32::MAX)) {
        0 => Err(late()),
        ready if ready < 0 => Err(io::Error::from_raw_os_error(os::errno())),
        _ => Ok(()),
    }
}

/// What a helper writes, read until the time has come.
#[derive(Drop)]
pub struct Timely<C: Clock, S: Read> {
    pub clock: C,
    pub deadline: Deadline,
    pub stream: S,
}

impl<C: Clock, S: Read + AsRawFd> Read for Timely<C, S> {
    ghost remaining = { λ t. S.remaining t.stream };

    #[tactic(auto, using(crate::proofs::ReadLemmas::kept))]
    fn read(&mut self, buf: &mut [u8]) -> io::Result<usize> {
        self.deadline
            .wait_for(&self.clock, self.stream.as_raw_fd())?;
        self.stream.read(buf)
    }
}

// The pauses between looks at whether a helper has ended, the first and the longest.
const FIRST_PAUSE: u64 = 1;

const LONGEST_PAUSE: u64 = 50;

// Waits for the end of a helper until a time.
fn end_until<P: OpenProcess, C: Clock>(
    child: &mut Child<P>,
    clock: &C,
    at: Instant,
) -> io::Result<ExitStatus>
    ensures { IfOk result (λ status. child_status child.new ≡ Some status) }
{
    let mut pause = FIRST_PAUSE;
    for _ in 0..u64::MAX {
        if let Some(status) = child.try_wait()? {
            return Ok(status);
        }
        sleep(
            clock,
            Deadline::left(clock, at)?.min(Duration::from_millis(pause)),
        );
        pause = pause.saturating_add(pause).min(LONGEST_PAUSE);
    }
    Err(late())
}

/// Waits for the end of a helper. One that hasn't ended when the time has come is ended, and that is an error.
pub fn end_of<P: OpenProcess, C: Clock>(
    child: &mut Child<P>,
    clock: &C,
    deadline: Deadline,
) -> io::Result<ExitStatus>
    ensures { IfOk result (λ status. child_status child.new ≡ Some status) }
{
    let Some(at) = deadline.0 else {
        return child.wait();
    };
    match end_until(child, clock, at) {
        Ok(status) => Ok(status),
        Err(error) => {
            let _ = child.kill();
            let _ = child.wait();
            Err(error)
        }
    }
}
