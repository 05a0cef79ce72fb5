//! What lines tell: which feeds there are, what the policy is, and what is wanted.
use crate::asking::put_document;
use std::alloc::Global;
use zi_digest::DigestName;
use zi_lines::{Sheet, halves, take_numbers};
use zi_outside::MemoryFeeds;
use zi_packages::{Packages, PackagesFault};
use zi_policy::{Network, Override, Policy, Stability};
use zi_text::{List, Memory, Text};
use zi_universe::{Limit, Requirement};
use zi_version::Range;

/// What was told so far.
#[derive(Drop)]
pub(crate) struct Told {
    pub feeds: MemoryFeeds,
    pub policy: Policy,
    pub req: Requirement,
    /// The digests of the trees that are stored.
    pub stored: Vec<DigestName>,
    /// The packages of the operating system.
    pub packages: Packages,
}

impl Told {
    /// No feeds, nothing stored, a policy without a host.
    pub(crate) fn new(alloc: Global) -> Told {
        Told {
            feeds: MemoryFeeds::new(alloc),
            policy: no_policy(alloc),
            req: Requirement {
                interface: Text::new(alloc),
                command: None,
                limits: List::new(alloc),
            },
            stored: Vec::new(alloc),
            packages: Packages::nothing(alloc),
        }
    }

    /// Takes a user of Linux on x86_64 who reads French and English, with the one use `testing`.
    pub(crate) fn take_user(&mut self, alloc: Global) -> Result<(), Memory> {
        take_linux(alloc, &mut self.policy)
    }
}

/// A policy without a host, which asks for nothing.
fn no_policy(alloc: Global) -> Policy {
    Policy {
        os: Text::new(alloc),
        machine: Text::new(alloc),
        langs: List::new(alloc),
        level: Stability::Stable,
        network: Network::Full,
        uses: List::new(alloc),
        overrides: List::new(alloc),
    }
}

/// Takes Linux on x86_64, French and English, and the one use `testing`.
fn take_linux(alloc: Global, policy: &mut Policy) -> Result<(), Memory> {
    policy.os.push_str("Linux")?;
    policy.machine.push_str("x86_64")?;
    policy.langs.push(Text::from_str(alloc, "fr")?)?;
    policy.langs.push(Text::from_str(alloc, "en")?)?;
    policy.uses.push(Text::from_str(alloc, "testing")?)
}

/// The number that a word is; 0 for any other word.
fn number(word: &str) -> u32 {
    word.parse::<u32>().unwrap_or(0)
}

/// The stability that a word names.
fn stability(word: &str) -> Stability {
    Stability::named(word).unwrap_or(Stability::Stable)
}

/// How far the network that a word names is used.
fn network(word: &str) -> Network {
    match word {
        "off" => Network::Off,
        "minimal" => Network::Minimal,
        _ => Network::Full,
    }
}

/// Adds what `COUNT BEFORE#AFTER` stands for: BEFORE and AFTER with a number from 0 between them, so many times.
fn put_repeated(out: &mut Sheet, row: &str) {
    let (count, pattern) = halves(row);
    let (before, after) = pattern.split_once('#').unwrap_or((pattern, ""));
    for i in 0..number(count) {
        out.put(before);
        out.number(u64::from(i));
        out.put(after);
    }
}

/// What stands before brackets, in them and behind them.
fn bracketed(text: &str) -> Option<(&str, &str, &str)> {
    let (before, rest) = text.split_once('[')?;
    let (inside, after) = rest.split_once(']')?;
    Some((before, inside, after))
}

/// Adds a text, whose brackets stand for what is repeated.
fn put_expanded(out: &mut Sheet, text: &str) {
    match bracketed(text) {
        Some((before, inside, after)) => {
            out.put(before);
            put_repeated(out, inside);
            out.put(after);
        }
        None => out.put(text),
    }
}

/// Takes a feed with this inside.
fn take_inside(
    alloc: Global,
    uri: &str,
    inside: &str,
    feeds: &mut MemoryFeeds,
) -> Result<(), Memory> {
    let mut document = Sheet::new(alloc);
    put_document(&mut document, inside);
    feeds.put(uri, document.text()?.as_bytes())
}

/// Takes a feed: its address and what stands in its root.
fn take_feed(alloc: Global, row: &str, feeds: &mut MemoryFeeds) -> Result<(), Memory> {
    let (uri, inside) = halves(row);
    let mut expanded = Sheet::new(alloc);
    put_expanded(&mut expanded, inside);
    take_inside(alloc, uri, expanded.text()?, feeds)
}

/// Adds the row of the feed of this number in a chain, which imports the next.
fn put_link(out: &mut Sheet, number: u32) {
    out.put("/");
    out.number(u64::from(number));
    out.put(" <feed src='/");
    out.number(u64::from(number) + 1);
    out.put("'/>");
}

/// Takes the feed of this number in a chain.
fn take_link(alloc: Global, number: u32, feeds: &mut MemoryFeeds) -> Result<(), Memory> {
    let mut line = Sheet::new(alloc);
    put_link(&mut line, number);
    take_feed(alloc, line.text()?, feeds)
}

/// Takes a chain of so many feeds from `/0`, each of which imports the next.
fn take_chain(alloc: Global, row: &str, feeds: &mut MemoryFeeds) -> Result<(), Memory> {
    for i in 0..number(row) {
        take_link(alloc, i, feeds)?;
    }
    Ok(())
}

/// Adds blanks, until a sheet has so many bytes.
fn put_blanks(out: &mut Sheet, length: usize) {
    let have = match out.text() {
        Ok(text) => text.len(),
        Err(Memory) => length,
    };
    for _ in have..length {
        out.put(" ");
    }
}

/// Takes an empty feed with blanks behind it, so many bytes long.
fn take_long(alloc: Global, row: &str, feeds: &mut MemoryFeeds) -> Result<(), Memory> {
    let (uri, length) = halves(row);
    let mut document = Sheet::new(alloc);
    put_document(&mut document, "");
    put_blanks(&mut document, number(length) as usize);
    feeds.put(uri, document.text()?.as_bytes())
}

/// Takes the numbers of the calls that fail.
fn take_failing(alloc: Global, row: &str, feeds: &mut MemoryFeeds) -> Result<(), Memory> {
    let mut calls = List::new(alloc);
    take_numbers(&mut calls, row)?;
    feeds.fail_at(calls.as_slice())
}

/// A stability that the user gives: an interface, an id and the stability.
fn override_of(alloc: Global, row: &str) -> Result<Override, Memory> {
    let (interface, rest) = halves(row);
    let (id, word) = halves(rest);
    let mut given = Override {
        interface: Text::new(alloc),
        id: Text::new(alloc),
        stability: stability(word),
    };
    given.interface.push_str(interface)?;
    given.id.push_str(id)?;
    Ok(given)
}

/// Takes a stability that the user gives.
fn take_override(alloc: Global, row: &str, policy: &mut Policy) -> Result<(), Memory> {
    policy.overrides.push(override_of(alloc, row)?)
}

/// Takes a limit of an interface to a range.
fn take_range(
    alloc: Global,
    interface: &str,
    range: Range,
    req: &mut Requirement,
) -> Result<(), Memory> {
    let mut limit = Limit {
        interface: Text::new(alloc),
        range,
    };
    limit.interface.push_str(interface)?;
    req.limits.push(limit)
}

/// Takes a limit: an interface and an expression; none where the expression isn't one.
fn take_limit(alloc: Global, row: &str, req: &mut Requirement) -> Result<(), Memory> {
    let (interface, expression) = halves(row);
    match Range::parse(alloc, expression) {
        Ok(range) => take_range(alloc, interface, range, req),
        Err(_fault) => Ok(()),
    }
}

/// Takes a digest that is stored; none where the word isn't one.
fn take_stored(word: &str, stored: &mut Vec<DigestName>) -> Result<(), Memory> {
    match DigestName::parse(word) {
        Some(digest) => Ok(stored.push(digest)?),
        None => Ok(()),
    }
}

/// The table of packages whose lines a row has, each with `|` at its end.
pub(crate) fn table_of(alloc: Global, row: &str) -> Result<Packages, PackagesFault> {
    let mut text = Sheet::new(alloc);
    for piece in row.split("|").enumerate() {
        let (n, line) = piece;
        if n > 0 {
            text.put("\n");
        }
        text.put(line);
    }
    Packages::read(alloc, text.text()?.as_bytes())
}

/// Takes a table of packages; none where it isn't right.
fn take_packages(alloc: Global, row: &str, told: &mut Told) -> Result<(), Memory> {
    match table_of(alloc, row) {
        Ok(packages) => told.packages = packages,
        Err(PackagesFault::Bad { .. }) => {}
        Err(PackagesFault::Memory) => return Err(Memory),
    }
    Ok(())
}

/// Takes what a line tells, and says whether it tells something.
pub(crate) fn tells(
    alloc: Global,
    out: &mut Sheet,
    word: &str,
    rest: &str,
    told: &mut Told,
) -> bool {
    match word {
        "#" => {}
        "feed" => out.needs(take_feed(alloc, rest, &mut told.feeds)),
        "chain" => out.needs(take_chain(alloc, rest, &mut told.feeds)),
        "long" => out.needs(take_long(alloc, rest, &mut told.feeds)),
        "fails" => out.needs(take_failing(alloc, rest, &mut told.feeds)),
        "level" => told.policy.level = stability(rest),
        "network" => told.policy.network = network(rest),
        "override" => out.needs(take_override(alloc, rest, &mut told.policy)),
        "limit" => out.needs(take_limit(alloc, rest, &mut told.req)),
        "stored" => out.needs(take_stored(rest, &mut told.stored)),
        "packages" => out.needs(take_packages(alloc, rest, told)),
        _ => return false,
    }
    true
}
