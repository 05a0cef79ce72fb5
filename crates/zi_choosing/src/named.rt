//! The choice that selections name.
ghost use Rattle.std.specs.Prelude.{◌≡◌, ◌≤◌, ◌<◌, ◌↔◌, IsTrue, IfOk, OnOk, IfSome, find, length, bytes_eq, option_copied};
ghost use Rattle.std.specs.List.{position_from};
ghost use Rattle.zi_choice.specs.Tables.{IsAdded};
ghost use Rattle.zi_choosing.specs.Named.{is_named, IsCandidate, AreCandidates, named_by, choice_of};
ghost use Rattle.zi_choosing.specs.NamedParts.{AreTheirPlaces};

use indexmap::IndexMap;
use std::alloc::Global;
use zi_choice::{Choice, Names};
use zi_sels::Selection;
use zi_text::{List, Memory, Text};
use zi_universe::{Candidate, Interface, Universe};

// The places of selections by their interfaces; of those for one interface the first one's.
struct Places {
    by_interface: IndexMap<Text, usize>,
}

// One call wherever one is dropped.
impl Drop for Places {
    fn drop(self) {
        let Places { by_interface: _ } = self;
    }
}

// Whether a candidate stands in the feed that a selection says, under its id.
fn is_named(x: &Selection, k: &Candidate) -> bool
    ensures { result ≡ is_named x.now k.now }
{
    k.standing.feed == x.from_feed && k.imp.id == x.id
}

// The place of the candidate that a selection names.
fn place_in(x: &Selection, candidates: &[Candidate]) -> Option<usize>
    ensures is { result ≡ position_from (is_named x.now) 0 candidates.now }
    ensures within { IfSome result (λ c. c < length candidates.now) }
{
    candidates.iter().position(|k| is_named(x, k))
}

// Whether a selection is a candidate of its interface.
fn is_candidate(names: &Names, x: &Selection) -> bool
    ensures { IsTrue result ↔ IsCandidate names.now x.now }
{
    let Some(i) = names.number(&x.interface) else {
        return false;
    };
    let Some(interface) = names.universe().interfaces().get(i as usize) else {
        return false;
    };
    place_in(x, interface.candidates.as_slice()).is_some()
}

/// Whether each selection is a candidate: one of the universe's interface that it is for, found by its feed and its id.
pub(crate) fn are_candidates(names: &Names, items: &[Selection]) -> bool
    ensures { IsTrue result ↔ AreCandidates names.now items.now }
{
    items.iter().all(|x| is_candidate(names, x))
}

// One place more, unless there is one for that interface.
fn add(
    alloc: Global,
    places: &mut IndexMap<Text, usize>,
    interface: &Text,
    place: usize,
) -> Result<(), Memory>
    ensures { OnOk result (IsAdded places.old.entries interface.now place places.new.entries) }
{
    if places.contains_key(interface) {
        return Ok(());
    }
    let key = interface.copy(alloc)?;
    places.insert(key, place)?;
    Ok(())
}

// The places of some selections, in time linear in their interfaces.
fn places_of(alloc: Global, items: &[Selection]) -> Result<Places, Memory>
    ensures { IfOk result (λ t. AreTheirPlaces items.now t.by_interface.entries) }
{
    let mut by_interface = IndexMap::new(alloc);
    for (place, x) in items.iter().enumerate() {
        add(alloc, &mut by_interface, &x.interface, place)?;
    }
    Ok(Places { by_interface })
}

// The place of the selection for an interface.
fn place_of(places: &Places, items: &[Selection], interface: &Text) -> Option<usize>
    requires { AreTheirPlaces items.now places.now.by_interface.entries }
    ensures { result ≡ position_from (λ x. bytes_eq x.interface interface.now) 0 items.now }
{
    places.by_interface.get(interface).copied()
}

// The selection for an interface.
fn selection_for<'a>(
    places: &Places,
    items: &'a [Selection],
    interface: &Text,
) -> Option<&'a Selection>
    requires { AreTheirPlaces items.now places.now.by_interface.entries }
    ensures { option_copied result ≡ find (λ x. bytes_eq x.interface interface.now) items.now }
{
    let place = place_of(places, items, interface)?;
    items.get(place)
}

// The number of the candidate that selections choose for an interface.
fn named_by(places: &Places, items: &[Selection], interface: &Interface) -> Option<u32>
    requires places { AreTheirPlaces items.now places.now.by_interface.entries }
    requires few { length interface.now.candidates ≤ 65536 }
    ensures { result ≡ named_by items.now interface.now }
{
    let x = selection_for(places, items, &interface.uri)?;
    let c = place_in(x, interface.candidates.as_slice())?;
    Some(c as u32)
}

/// The choice that selections name: for each interface of a universe the candidate of the feed and the id that its selection says,
/// and none where there is no selection for it, or that is no candidate. The work is linear in the selections and the universe.
pub(crate) fn choice_of(
    alloc: Global,
    universe: &Universe,
    items: &[Selection],
) -> Result<Choice, Memory>
    ensures { IfOk result (λ s. s.picks ≡ choice_of universe.now items.now) }
{
    let places = places_of(alloc, items)?;
    let mut picks = List::new(alloc);
    for interface in universe.interfaces() {
        picks.push(named_by(&places, items, interface))?;
    }
    Ok(Choice { picks })
}
