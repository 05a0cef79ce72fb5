//! Candidates in rank order. What a policy makes of each is computed once; the places of languages, and the numbers of a version
//! among those of the interface, once for all candidates that share them. Versions of packages, which share none, have numbers of their
//! own.
ghost use Rattle.std.specs.Prelude.{◌≡◌, ◌<◌, ℕ, List as Items, map, All, length, get_or, slice_get, Some, IfOk};
ghost use Rattle.zi_feed.specs.declared.shares.Shares.{Shares as SharedThings};
ghost use Rattle.zi_feed.specs.Shares.{Grows};
ghost use Rattle.zi_rank.specs.Ratings.{places_of};
ghost use Rattle.zi_universe.specs.Stages.{IsSorting};
ghost use Rattle.zi_universe.specs.Offering.{candidates_of, IsNumbered, AreNumbered, langs_at, HasLangs, FindsVersions, FindsPlaces, texts_of, versions_in, ArePlacedIn, AreNumbersOf, HaveRatings, least};

use crate::numbers::numbers_of;
use crate::offers::{Key, Offered};
use std::alloc::Global;
use std::collections::HashMap;
use zi_feed::Shares;
use zi_inherited::Shared;
use zi_policy::Policy;
use zi_rank::laws::ranks_are_strict;
use zi_rank::{Places, Rating, VersionNumber, compare_numbered};
use zi_text::{List, Memory, Text};
use zi_version::Version;

/// A candidate with its rating.
#[derive(Drop)]
pub struct RatedCandidate {
    /// What the policy makes of it.
    pub rating: Rating,
    /// How many versions of the interface are less than its own, by their first dotted lists and by the whole.
    pub number: VersionNumber,
    /// The candidate.
    pub one: Offered,
}

/// The versions of candidates, of which each stands once for all that share it, and where they stand.
#[derive(Drop)]
pub struct Placing<'v> {
    /// The versions.
    pub versions: Vec<&'v Version>,
    /// The place of each candidate's version among them.
    pub places: Vec<usize>,
}

/// What the implementations of a feed share.
pub fn shares_at<'a>(feeds: &'a [Shared<Shares>], feed: usize) -> &'a Shares
    requires { feed < length feeds.now }
    ensures { slice_get feeds.entry.now feed ≡ Some result.now }
{
    feeds[feed].as_ref()
}

// Adds the version of a candidate; the answer is its place.
fn add_version<'v>(one: &'v Offered, versions: &mut Vec<&'v Version>) -> Result<usize, Memory>
    ensures grows { IfOk result (λ _. Grows (texts_of versions.old.items) (texts_of versions.new.items)) }
    ensures at { IfOk result (λ n. slice_get (texts_of versions.new.items) n ≡ Some one.now.candidate.standing.version) }
{
    let place = versions.len();
    versions.push(&one.candidate.standing.version)?;
    Ok(place)
}

// The place of a candidate's version, which has this number, among those found so far; it is added where it is new.
fn place_by<'v>(
    feeds: &[Shared<Shares>],
    one: &'v Offered,
    number: usize,
    known: &mut HashMap<Key, usize>,
    versions: &mut Vec<&'v Version>,
) -> Result<usize, Memory>
    requires there { IsNumbered feeds.now one.now }
    requires number { one.now.version ≡ Some number }
    requires finds { FindsVersions feeds.now known.old.entries (texts_of versions.old.items) }
    ensures grows { IfOk result (λ _. Grows (texts_of versions.old.items) (texts_of versions.new.items)) }
    ensures finds { IfOk result (λ _. FindsVersions feeds.now known.new.entries (texts_of versions.new.items)) }
    ensures at { IfOk result (λ n. slice_get (texts_of versions.new.items) n ≡ Some one.now.candidate.standing.version) }
{
    let key = Key {
        feed: one.feed,
        number,
    };
    if let Some(place) = known.get(&key) {
        return Ok(*place);
    }
    let place = versions.len();
    versions.push(&one.candidate.standing.version)?;
    known.insert(key, place)?;
    Ok(place)
}

// The place of a candidate's version among those found so far; it is added where it is new, or has no number.
fn place_of<'v>(
    feeds: &[Shared<Shares>],
    one: &'v Offered,
    known: &mut HashMap<Key, usize>,
    versions: &mut Vec<&'v Version>,
) -> Result<usize, Memory>
    requires there { IsNumbered feeds.now one.now }
    requires finds { FindsVersions feeds.now known.old.entries (texts_of versions.old.items) }
    ensures grows { IfOk result (λ _. Grows (texts_of versions.old.items) (texts_of versions.new.items)) }
    ensures finds { IfOk result (λ _. FindsVersions feeds.now known.new.entries (texts_of versions.new.items)) }
    ensures at { IfOk result (λ n. slice_get (texts_of versions.new.items) n ≡ Some one.now.candidate.standing.version) }
{
    match one.version {
        None => add_version(one, versions),
        Some(number) => place_by(feeds, one, number, known, versions),
    }
}

// What is known of one feed is forgotten at the next, since each has versions of its own.
fn turn_to(alloc: Global, one: &Offered, feed: &mut usize, known: &mut HashMap<Key, usize>)
    ensures { (feeds : Items SharedThings) (versions : Items (Items ℕ)) → FindsVersions feeds known.old.entries versions → FindsVersions feeds known.new.entries versions }
{
    if one.feed != *feed {
        *feed = one.feed;
        *known = HashMap::new(alloc);
    }
}

// The versions of candidates, with the place of each.
fn place_all<'v>(
    alloc: Global,
    feeds: &[Shared<Shares>],
    offered: &'v [Offered],
) -> Result<Placing<'v>, Memory>
    requires { AreNumbered feeds.now offered.now }
    ensures { IfOk result (λ r. ArePlacedIn (texts_of r.versions.items) offered.now r.places.items) }
{
    let mut known = HashMap::new(alloc);
    let mut versions = Vec::new(alloc);
    let mut places = Vec::with_capacity(alloc, offered.len())?;
    let mut feed = 0;
    for one in offered {
        turn_to(alloc, one, &mut feed, &mut known);
        let place = place_of(feeds, one, &mut known, &mut versions)?;
        places.push(place)?;
    }
    Ok(Placing { versions, places })
}

// What numbers have at these places.
fn numbers_at(
    alloc: Global,
    numbers: &[VersionNumber],
    places: &[usize],
) -> Result<Vec<VersionNumber>, Memory>
    requires { All (λ n. n < length numbers.now) places.now }
    ensures { IfOk result (λ ns. ns.items ≡ map (λ n. get_or numbers.now n least) places.now) }
{
    let mut found = Vec::with_capacity(alloc, places.len())?;
    for place in places {
        found.push(numbers[*place])?;
    }
    Ok(found)
}

// The number of each candidate's version.
fn numbers_for(
    alloc: Global,
    feeds: &[Shared<Shares>],
    offered: &[Offered],
) -> Result<Vec<VersionNumber>, Memory>
    requires { AreNumbered feeds.now offered.now }
    ensures { IfOk result (λ ns. AreNumbersOf (versions_in offered.now) ns.items) }
{
    let placing = place_all(alloc, feeds, offered)?;
    let versions = placing.versions.as_slice();
    let numbers = numbers_of(alloc, versions)?;
    let all = numbers.as_slice();
    let places = placing.places.as_slice();
    let found = numbers_at(alloc, all, places)?;
    Ok(found)
}

// The languages that a feed has under a number.
fn langs_at<'a>(feeds: &'a [Shared<Shares>], key: Key) -> &'a List<Text>
    requires { HasLangs feeds.now key }
    ensures { langs_at feeds.entry.now key ≡ Some result.now }
{
    let shares = shares_at(feeds, key.feed);
    let langs = shares.langs.at(key.number);
    langs.as_ref()
}

// The places of languages, which are computed where they aren't known yet.
fn places_once(
    feeds: &[Shared<Shares>],
    key: Key,
    policy: &Policy,
    known: &mut HashMap<Key, Places>,
) -> Result<Places, Memory>
    requires there { HasLangs feeds.now key }
    requires finds { FindsPlaces policy.now feeds.now known.old.entries }
    ensures finds { IfOk result (λ _. FindsPlaces policy.now feeds.now known.new.entries) }
    ensures at { IfOk result (λ x. (ls : Items (Items ℕ)) → langs_at feeds.now key ≡ Some ls → x ≡ places_of policy.now ls) }
{
    if let Some(places) = known.get(&key) {
        return Ok(*places);
    }
    let langs = langs_at(feeds, key);
    let places = Places::of(langs.as_slice(), policy);
    known.insert(key, places)?;
    Ok(places)
}

// The places of languages. Where there is none, nothing is looked up.
fn places_of(
    feeds: &[Shared<Shares>],
    key: Key,
    policy: &Policy,
    known: &mut HashMap<Key, Places>,
) -> Result<Places, Memory>
    requires there { HasLangs feeds.now key }
    requires finds { FindsPlaces policy.now feeds.now known.old.entries }
    ensures finds { IfOk result (λ _. FindsPlaces policy.now feeds.now known.new.entries) }
    ensures at { IfOk result (λ x. (ls : Items (Items ℕ)) → langs_at feeds.now key ≡ Some ls → x ≡ places_of policy.now ls) }
{
    let langs = langs_at(feeds, key);
    if langs.is_empty() {
        let places = Places::of(langs.as_slice(), policy);
        return Ok(places);
    }
    places_once(feeds, key, policy, known)
}

// Candidates with their ratings and the numbers of their versions.
fn rate(
    alloc: Global,
    feeds: &[Shared<Shares>],
    offered: Vec<Offered>,
    numbers: &[VersionNumber],
    policy: &Policy,
) -> Result<Vec<RatedCandidate>, Memory>
    requires numbered { AreNumbered feeds.now offered.items }
    requires count { length numbers.now ≡ length offered.items }
    ensures same { IfOk result (λ rs. map (λ r. r.one) rs.items ≡ offered.items) }
    ensures numbers { IfOk result (λ rs. map (λ r. r.number) rs.items ≡ numbers.now) }
    ensures ratings { IfOk result (λ rs. HaveRatings policy.now rs.items) }
{
    let mut known = HashMap::new(alloc);
    let mut rated = Vec::with_capacity(alloc, offered.len())?;
    for one in offered {
        let key = Key {
            feed: one.feed,
            number: one.langs,
        };
        let places = places_of(feeds, key, policy, &mut known)?;
        let rating = Rating::placed(places, &one.candidate.standing, policy);
        let at = rated.len();
        let number = numbers[at];
        rated.push(RatedCandidate {
            rating,
            number,
            one,
        })?;
    }
    Ok(rated)
}

// The candidates without their ratings.
fn unrated(alloc: Global, rated: Vec<RatedCandidate>) -> Result<Vec<Offered>, Memory>
    ensures { IfOk result (λ os. os.items ≡ map (λ r. r.one) rated.items) }
{
    let mut offered = Vec::with_capacity(alloc, rated.len())?;
    for candidate in rated {
        let RatedCandidate { one, .. } = candidate;
        offered.push(one)?;
    }
    Ok(offered)
}

/// Candidates in rank order; of fewer than two nothing is computed. Memory is the one refusal.
#[tactic(auto, using(crate::proofs::RankedLemmas::few_sorting))]
pub fn rank(
    alloc: Global,
    feeds: &[Shared<Shares>],
    offered: Vec<Offered>,
    policy: &Policy,
) -> Result<Vec<Offered>, Memory>
    requires { AreNumbered feeds.now offered.items }
    ensures sorting { IfOk result (λ os. IsSorting policy.now (candidates_of offered.items) (candidates_of os.items)) }
    ensures numbered { IfOk result (λ os. AreNumbered feeds.now os.items) }
{
    if offered.len() < 2 {
        return Ok(offered);
    }
    ranks_are_strict();
    let all = offered.as_slice();
    let numbers = numbers_for(alloc, feeds, all)?;
    let numbers_of_all = numbers.as_slice();
    let mut rated = rate(alloc, feeds, offered, numbers_of_all, policy)?;
    rated.sort_unstable_by(|c, d| {
        let (one, other) = (&c.one.candidate.standing, &d.one.candidate.standing);
        compare_numbered(&c.rating, c.number, one, &d.rating, d.number, other)
    });
    let ranked = unrated(alloc, rated)?;
    Ok(ranked)
}
