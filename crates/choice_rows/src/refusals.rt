//! What feeds have for an interface that is no candidate, told in lines.
use crate::asking::take_linux;
use crate::told::Told;
use std::alloc::Global;
use zi_feed::Feed;
use zi_lines::{Sheet, halves};
use zi_outside::{Feeds, Got, SureFeeds};
use zi_packages::Packages;
use zi_policy::{Network, Policy, Stability};
use zi_refused::{Terms, put_refusals, refused};
use zi_text::{List, Memory, Text};
use zi_universe::{Limit, Requirement};
use zi_version::Range;

/// What may be fetched.
fn network_of(word: &str) -> Network {
    match word {
        "off" => Network::Off,
        "minimal" => Network::Minimal,
        _ => Network::Full,
    }
}

/// The feed that bytes say, where they say one.
fn read_feed(alloc: Global, uri: &str, bytes: &[u8]) -> Option<Feed> {
    let tree = zi_doc::read(alloc, bytes).ok()?;
    Feed::from_tree(alloc, &tree, uri).ok()
}

/// Takes the feed of an address, where it is there.
fn take_feed(
    alloc: Global,
    told: &mut SureFeeds,
    uri: &str,
    feeds: &mut Vec<Feed>,
) -> Result<(), Memory> {
    let mut bytes = Vec::new(alloc);
    if let Ok(Got::Held) = told.get(uri, 4_194_304, &mut bytes) {
        if let Some(feed) = read_feed(alloc, uri, bytes.as_slice()) {
            feeds.push(feed)?;
        }
    }
    Ok(())
}

/// Takes the feeds of addresses.
fn take_feeds(
    alloc: Global,
    told: &mut SureFeeds,
    words: &str,
    feeds: &mut Vec<Feed>,
) -> Result<(), Memory> {
    for uri in words.split(' ') {
        take_feed(alloc, told, uri, feeds)?;
    }
    Ok(())
}

/// Takes the limit that a word says, where it says one.
fn take_limit(alloc: Global, req: &mut Requirement, word: &str) -> Result<(), Memory> {
    if let Ok(range) = Range::parse(alloc, word) {
        let interface = req.interface.copy(alloc)?;
        req.limits.push(Limit { interface, range })?;
    }
    Ok(())
}

/// The lines of feeds for an interface, the requirement's own, where nothing is stored.
fn lines(
    alloc: Global,
    req: &Requirement,
    policy: &Policy,
    feeds: &[Feed],
) -> Result<Text, Memory> {
    let packages = Packages::nothing(alloc);
    let terms = Terms::new(alloc, req, policy, &[], &packages)?;
    let refusals = refused(alloc, &terms, &req.interface, feeds)?;
    let mut text = Text::new(alloc);
    put_refusals(&req.interface, refusals.as_slice(), &mut text)?;
    Ok(text)
}

/// Adds the lines of feeds that were told, for the first of their addresses.
fn put_lines(
    alloc: Global,
    out: &mut Sheet,
    policy: &Policy,
    limit: &str,
    words: &str,
    told: &mut Told,
) {
    let mut req = Requirement {
        interface: Text::new(alloc),
        command: None,
        limits: List::new(alloc),
    };
    let (interface, _) = halves(words);
    out.needs(req.interface.push_str(interface));
    if limit != "-" {
        out.needs(take_limit(alloc, &mut req, limit));
    }
    let mut feeds = Vec::new(alloc);
    out.needs(take_feeds(alloc, &mut told.feeds, words, &mut feeds));
    out.made(lines(alloc, &req, policy, feeds.as_slice()));
}

/// Adds what of feeds is no candidate for the first of their addresses: a row has a limit, `-` for none, what may be fetched,
/// and the addresses.
pub(crate) fn put_refused(alloc: Global, out: &mut Sheet, row: &str, told: &mut Told) {
    let (limit, rest) = halves(row);
    let (network, words) = halves(rest);
    let mut policy = Policy {
        os: Text::new(alloc),
        machine: Text::new(alloc),
        langs: List::new(alloc),
        level: Stability::Stable,
        network: network_of(network),
        uses: List::new(alloc),
        overrides: List::new(alloc),
    };
    out.needs(take_linux(&mut policy));
    put_lines(alloc, out, &policy, limit, words, told);
}
