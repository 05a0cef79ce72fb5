//! Which implementations may be used, and which stands before which. An implementation is a row of words: languages apart by commas (`-` for
//! none), stability, where it is (`local`, `stored`, `remote`, `nowhere`, or `installed` or `available` as a package), version, platform (or
//! `none`), id, feed, and its place as so many strokes.
use crate::policies::{no_policy, stability};
use std::alloc::Global;
use std::cmp::Ordering;
use zi_inherited::Shared;
use zi_lines::{Sheet, halves};
use zi_policy::{Arch, Network, Policy};
use zi_rank::{Origin, Standing, before, compare, usable};
use zi_text::{List, Memory, Text};
use zi_version::{Version, VersionFault};

/// Adds the languages of a text.
fn take_languages(alloc: Global, langs: &mut List<Text>, text: &str) -> Result<(), Memory> {
    for word in text.split(',') {
        if word != "-" {
            langs.push(Text::from_str(alloc, word)?)?;
        }
    }
    Ok(())
}

/// How far the network that a word names is used.
fn network(word: &str) -> Network {
    match word {
        "off" => Network::Off,
        "minimal" => Network::Minimal,
        _ => Network::Full,
    }
}

/// Takes Linux on an x86_64 for the host, and languages.
fn take_linux(alloc: Global, policy: &mut Policy, langs: &str) -> Result<(), Memory> {
    policy.os.push_str("Linux")?;
    policy.machine.push_str("x86_64")?;
    take_languages(alloc, &mut policy.langs, langs)
}

/// The languages of a row, to be shared.
fn languages(alloc: Global, text: &str) -> Result<Shared<List<Text>>, Memory> {
    let mut langs = List::new(alloc);
    take_languages(alloc, &mut langs, text)?;
    Shared::new(alloc, langs)
}

/// An implementation of this version in these languages, of which nothing else is said.
fn no_standing(alloc: Global, version: Version, langs: Shared<List<Text>>) -> Standing {
    Standing {
        version,
        id: Text::new(alloc),
        feed: Text::new(alloc),
        place: 0,
        arch: None,
        langs,
        stability: stability(""),
        local: false,
        stored: false,
        retrievable: false,
        origin: Origin::Feed,
    }
}

/// Where the implementation comes from that is at the place of a word.
fn origin(word: &str) -> Origin {
    match word {
        "installed" => Origin::Installed,
        "available" => Origin::Available,
        _ => Origin::Feed,
    }
}

/// Takes where an implementation is.
fn take_place(one: &mut Standing, word: &str) {
    one.local = word == "local";
    one.stored = word == "stored";
    one.retrievable = word == "remote";
    one.origin = origin(word);
}

/// Takes the words of a row behind the version.
fn take_rest(alloc: Global, one: &mut Standing, row: &str) -> Result<(), Memory> {
    let (arch, row) = halves(row);
    let (id, row) = halves(row);
    let (feed, strokes) = halves(row);
    one.arch = Arch::parse(alloc, arch)?;
    one.id.push_str(id)?;
    one.feed.push_str(feed)?;
    one.place = strokes.len() as u64;
    Ok(())
}

/// An implementation of this version in these languages, of which the words before the version and those behind it say the rest.
fn said(
    alloc: Global,
    out: &mut Sheet,
    version: Version,
    langs: Shared<List<Text>>,
    front: [&str; 2],
    rest: &str,
) -> Standing {
    let [tried, there] = front;
    let mut one = no_standing(alloc, version, langs);
    one.stability = stability(tried);
    take_place(&mut one, there);
    out.needs(take_rest(alloc, &mut one, rest));
    one
}

/// An implementation of this version, of which the words before the version and those behind it say the rest; none where
/// memory is refused.
fn spoken(
    alloc: Global,
    out: &mut Sheet,
    version: Version,
    front: [&str; 3],
    rest: &str,
) -> Option<Standing> {
    let [langs, tried, there] = front;
    match languages(alloc, langs) {
        Ok(langs) => Some(said(alloc, out, version, langs, [tried, there], rest)),
        Err(Memory) => {
            out.lose();
            None
        }
    }
}

/// The implementation of a row; none where its version isn't one.
fn standing(alloc: Global, out: &mut Sheet, row: &str) -> Option<Standing> {
    let (langs, row) = halves(row);
    let (tried, row) = halves(row);
    let (there, row) = halves(row);
    let (version, rest) = halves(row);
    match Version::parse(alloc, version) {
        Ok(version) => spoken(alloc, out, version, [langs, tried, there], rest),
        Err(VersionFault::Bad { .. }) => None,
        Err(VersionFault::Memory) => {
            out.lose();
            None
        }
    }
}

/// Whether the first of two usable ones stands before the second, and not the other way round.
fn leads(c: &Standing, d: &Standing, p: &Policy) -> bool {
    if usable(c, p).is_some() || usable(d, p).is_some() {
        return false;
    }
    before(c, d, p) && !before(d, c, p) && compare(d, c, p) == Ordering::Greater
}

/// Adds whether an implementation stands before that of a row.
fn put_before(alloc: Global, out: &mut Sheet, policy: &Policy, c: &Standing, row: &str) {
    match standing(alloc, out, row) {
        Some(d) => out.whether(leads(c, &d, policy)),
        None => out.put("no versions"),
    }
}

/// Adds whether the first of two implementations stands before the second, apart by `; `.
fn put_pair(alloc: Global, out: &mut Sheet, policy: &Policy, row: &str) {
    let (first, second) = row.split_once("; ").unwrap_or((row, ""));
    match standing(alloc, out, first) {
        Some(c) => put_before(alloc, out, policy, &c, second),
        None => out.put("no versions"),
    }
}

/// Adds whether the first of two implementations stands before the second, where the row is the languages, the level, the network and the
/// two, apart by `; `.
pub(crate) fn put_leads(alloc: Global, out: &mut Sheet, row: &str) {
    let (asked, rest) = row.split_once("; ").unwrap_or((row, ""));
    let (langs, more) = halves(asked);
    let (level, reach) = halves(more);
    let mut policy = no_policy(alloc);
    policy.level = stability(level);
    policy.network = network(reach);
    out.needs(take_linux(alloc, &mut policy, langs));
    put_pair(alloc, out, &policy, rest);
}

/// Adds the reason against an implementation, where there is one.
fn put_reason(out: &mut Sheet, one: &Standing, policy: &Policy) {
    match usable(one, policy) {
        Some(reason) => out.value(&reason),
        None => out.put("usable"),
    }
}

/// Adds the reason against the implementation of a row.
fn put_usable_of(alloc: Global, out: &mut Sheet, policy: &Policy, row: &str) {
    match standing(alloc, out, row) {
        Some(one) => put_reason(out, &one, policy),
        None => out.put("no version"),
    }
}

/// Adds the reason against an implementation, where the row is the network and, behind `; `, the implementation.
pub(crate) fn put_usable(alloc: Global, out: &mut Sheet, row: &str) {
    let (reach, rest) = row.split_once("; ").unwrap_or((row, ""));
    let mut policy = no_policy(alloc);
    policy.network = network(reach);
    out.needs(take_linux(alloc, &mut policy, "-"));
    put_usable_of(alloc, out, &policy, rest);
}
