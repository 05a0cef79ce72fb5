//! Reads feeds from standard input, a line for each: its address and what stands in its root; the first is the root's. Builds
//! the constraints of their universe as often as the word says, and prints how many variables, constraints and literals
//! there are; where it says 0 the feeds are loaded alone.
//! `bench/build.py` makes the feeds, and holds the time against that of other tools.

use crate::{line, number};
use std::alloc::{AllocError, Global};
use std::io;
use thiserror::Error;
use zi_build::{BuildFault, build};
use zi_formula::{Formula, Lent};
use zi_outside::SureFeeds;
use zi_packages::Packages;
use zi_policy::{Network, Policy, Stability};
use zi_text::{List, Memory, Text};
use zi_universe::{LoadFault, Requirement, load};

/// Why nothing is counted.
#[derive(Debug, Drop, Error)]
enum Fault {
    /// The feeds are refused.
    #[error("{0}")]
    Load(LoadFault),
    /// There are more literals than this.
    #[error("more than {0} literals")]
    TooLarge(u64),
    /// Memory was refused.
    #[error("out of memory")]
    Memory,
}

impl From<Memory> for Fault {
    fn from(_: Memory) -> Self {
        Fault::Memory
    }
}

impl From<AllocError> for Fault {
    fn from(_: AllocError) -> Self {
        Fault::Memory
    }
}

impl From<LoadFault> for Fault {
    fn from(fault: LoadFault) -> Self {
        Fault::Load(fault)
    }
}

impl From<BuildFault> for Fault {
    fn from(fault: BuildFault) -> Self {
        match fault {
            BuildFault::TooLarge { limit } => Fault::TooLarge(limit),
            BuildFault::Memory => Fault::Memory,
        }
    }
}

/// The feeds of a text's lines.
fn feeds_of(alloc: Global, lines: &str) -> Result<SureFeeds, Fault> {
    let mut feeds = SureFeeds::new(alloc);
    for line in lines.lines() {
        if let Some((uri, inside)) = line.split_once(' ') {
            let bytes = format!(in alloc;
                "<interface xmlns='http://zero-install.sourceforge.net/2004/injector/interface'>{inside}</interface>"
            )?;
            feeds.put(uri, bytes.as_bytes())?;
        }
    }
    Ok(feeds)
}

/// A policy for Linux on x86_64.
fn policy(alloc: Global) -> Result<Policy, Memory> {
    Ok(Policy {
        os: Text::from_str(alloc, "Linux")?,
        machine: Text::from_str(alloc, "x86_64")?,
        langs: List::new(alloc),
        level: Stability::Stable,
        network: Network::Full,
        uses: List::new(alloc),
        overrides: List::new(alloc),
    })
}

/// How many variables, constraints and literals a formula has, as a line.
fn counts(alloc: Global, f: &Formula) -> Result<String, Fault> {
    let mut literals: usize = 0;
    for i in 0..f.constraints.len() {
        let more = match f.constraints.at(i) {
            Lent::Clause(lits) => lits.len(),
            Lent::AtMostOne(variables) => variables.len(),
        };
        literals = literals.saturating_add(more);
    }
    Ok(format!(in alloc;
        "{} variables, {} constraints, {literals} literals",
        f.variables,
        f.constraints.len()
    )?)
}

/// What is built so many times, counted.
fn built(alloc: Global, lines: &str, times: u32) -> Result<String, Fault> {
    let (root, _) = lines.split_once(' ').unwrap_or((lines, ""));
    let req = Requirement {
        interface: Text::from_str(alloc, root)?,
        command: None,
        limits: List::new(alloc),
    };
    let mut feeds = feeds_of(alloc, lines)?;
    let universe = load(
        alloc,
        &req,
        &policy(alloc)?,
        &[],
        &Packages::nothing(alloc),
        &mut feeds,
    )?;
    let mut told = String::from_str(alloc, "loaded")?;
    for _ in 0..times {
        let formula = build(alloc, &universe, &req)?;
        told = counts(alloc, &formula)?;
    }
    Ok(told)
}

pub fn counted(rt: &HostRuntime, word: &str) -> io::Result<Option<Vec<u8>>> {
    let Some(times) = number(word) else {
        return Ok(None);
    };
    let lines = io::read_to_string(rt.alloc(), rt.stdin())?;
    let told = match built(rt.alloc(), lines.as_str(), times) {
        Ok(told) => line(rt.alloc(), told.as_str())?,
        Err(fault) => {
            let fault = format!(in rt.alloc(); "{fault}")?;
            line(rt.alloc(), fault.as_str())?
        }
    };
    Ok(Some(told))
}
