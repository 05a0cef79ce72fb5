//! The universe of a program: the interfaces that it may need, each with its candidates in rank order.
//! `load` reads the root's feed, the feeds that it imports, and those of every interface that a candidate asks for, each once.
//! Limits, faults of feeds and their order are those of the loading as it goes, from the root on.
//!
//! Read specs/Naming.antt first: it says once what a list is that grows by what its own members name (the feeds of an
//! interface and the interfaces of a program are both of that form; there is one such list at most). Then Candidates.antt
//! (which implementations are candidates, and what they ask for), Whole.antt (what holds of every universe), Loading.antt
//! (the universe of a set of feeds and each refusal, with how far the loading had come). No queue is in them: they speak of a
//! reading, a function from addresses to feeds. Stages.antt, Tables.antt and Listing.antt are what the crate's own functions
//! promise one another, over the table of feeds so far; their facts hold for every reading that agrees with it, so they stay
//! true when the table grows.
//!
//! `load_all` (`loading`) is the one loop over the interfaces. Its state, `Loading`, is the addresses that are asked for (a
//! set that keeps the order in which they were first asked for), the feeds got so far (`table`), the interfaces that are
//! done, and the number of their candidates. `load_next` does one: `look_for` gets its feeds (`feeds`, each by `reading`) and
//! gathers what they offer for it (`offers`), `finish` counts the candidates, puts them into rank order (`ranking`, which rates
//! each once), and names what they ask for (`naming`). What a loading is for (`wanted`) finds overrides and limits by maps that
//! are made once. Each step looks up in constant time; a loading is linear in what it reads, and n log n in the candidates of an
//! interface. `universe` is the type that `load` alone makes.
//!
//! What many implementations share is looked at once for all of them: beside a feed its reader gives numbers of versions, of
//! languages and of the groups that add dependencies, and those of one number have one value (`zi_feed`). Candidates carry
//! these numbers until they are ranked and named (specs/Offering.antt): `ranking` orders the versions that have different
//! numbers and then compares how many of them are less (`numbers`), and finds places of languages by their numbers; `naming` leaves
//! out a group that it named before. Nothing of the numbers is in the universe, nor in what is promised of it.
//!
//! proofs: LookupLemmas (what the maps of `wanted` find), KeyLemmas (what maps by numbers find), OfferingLemmas (candidates with
//! their numbers), LevelLemmas (what was named once), NumberLemmas (numbers stand to each other as the versions do), LoadedLemmas
//! (one interface more), RankedLemmas (sorting gives the strict order), RefusalLemmas (the stop of a stage is the refusal of the whole), NextLemmas (these together), WholeLemmas
//! (the invariant of `Universe`); OnceLemmas, ExclusionLemmas, RefusedOnceLemmas and SomeLemmas have the four laws.
#![tactic(auto)]

mod fault;
mod feeds;
pub mod laws;
mod limits;
mod loading;
mod naming;
mod numbers;
mod offers;
mod ranking;
mod reading;
mod table;
mod types;
mod universe;
mod wanted;

pub use fault::{BadFeed, LoadFault};
pub use loading::load;
pub use naming::asks;
pub use types::{Candidate, Interface, Limit, Requirement};
pub use universe::Universe;
