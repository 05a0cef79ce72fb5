//! The numbers of versions, which stand to each other as the versions do: how many of them are less than each, by their first dotted
//! lists and by the whole.
ghost use Rattle.std.specs.Prelude.{◌≡◌, ◌<◌, ◌-◌, length, slice_get, Some, IfOk, IsPermutation, IsSortedBy, if◌then◌else◌};
ghost use Rattle.std.specs.Ordering.{is_lt};
ghost use Rattle.zi_version.specs.Value.{version_cmp};
ghost use Rattle.zi_universe.specs.Offering.{IsCounted, AreNumbersOf, versions_of, texts_of, AreAt, HasPlaces};
ghost use Rattle.zi_universe.specs.declared.numbers.PlacedVersion.{PlacedVersion as APlacedVersion};

use std::alloc::Global;
use zi_rank::VersionNumber;
use zi_text::Memory;
use zi_version::Version;

/// A version with its place.
#[derive(Drop)]
pub struct PlacedVersion<'v> {
    /// The place.
    pub place: usize,
    /// The version.
    pub version: &'v Version,
}

// The versions with their places.
fn with_places<'v>(
    alloc: Global,
    versions: &[&'v Version],
) -> Result<Vec<PlacedVersion<'v>>, Memory>
    ensures at { IfOk result (λ ps. AreAt (texts_of versions.now) ps.items) }
    ensures same { IfOk result (λ ps. versions_of ps.items ≡ texts_of versions.now) }
    ensures places { IfOk result (λ ps. HasPlaces (length (texts_of versions.now)) ps.items) }
{
    let mut placed = Vec::with_capacity(alloc, versions.len())?;
    for place in 0..versions.len() {
        let version = versions[place];
        placed.push(PlacedVersion { place, version })?;
    }
    Ok(placed)
}

// The versions in their order, with their places.
fn in_order<'v>(alloc: Global, versions: &[&'v Version]) -> Result<Vec<PlacedVersion<'v>>, Memory>
    ensures at { IfOk result (λ ps. AreAt (texts_of versions.now) ps.items) }
    ensures same { IfOk result (λ ps. IsPermutation (texts_of versions.now) (versions_of ps.items)) }
    ensures places { IfOk result (λ ps. HasPlaces (length (texts_of versions.now)) ps.items) }
    ensures sorted { IfOk result (λ ps. IsSortedBy (λ p q. is_lt (version_cmp p.version.now q.version.now)) ps.items) }
{
    let mut placed = with_places(alloc, versions)?;
    placed.sort_unstable_by(|p, q| p.version.cmp(q.version));
    Ok(placed)
}

// How many are less than one at a place: as many as stand before it, where the last of those is less, and else as many as are less
// than that.
fn behind(is_less: bool, at: usize, before: usize) -> usize
    ensures { result ≡ (if is_less then at else before) }
{
    if is_less { at } else { before }
}

// How many versions are less than the one at a place of their order, where so many are less than the one before it.
fn number_at(order: &[PlacedVersion], at: usize, before: VersionNumber) -> VersionNumber
    requires sorted { IsSortedBy (λ p q. is_lt (version_cmp p.version.now q.version.now)) order.now }
    requires within { at < length order.now }
    requires before { (p : APlacedVersion) → 0 < at → slice_get order.now (at - 1) ≡ Some p → IsCounted (versions_of order.now) p.version.now before }
    ensures { (p : APlacedVersion) → slice_get order.now at ≡ Some p → IsCounted (versions_of order.now) p.version.now result }
{
    if at == 0 {
        return VersionNumber { first: 0, whole: 0 };
    }
    let last = order[at - 1].version;
    let next = order[at].version;
    VersionNumber {
        first: behind(last.first_cmp(next).is_lt(), at, before.first),
        whole: behind(last.cmp(next).is_lt(), at, before.whole),
    }
}

/// How many of the versions are less than each of them. Memory is the one refusal.
pub fn numbers_of(alloc: Global, versions: &[&Version]) -> Result<Vec<VersionNumber>, Memory>
    ensures { IfOk result (λ ns. AreNumbersOf (texts_of versions.now) ns.items) }
{
    let order = in_order(alloc, versions)?;
    let order = order.as_slice();
    let mut number = VersionNumber { first: 0, whole: 0 };
    let mut numbers = Vec::from_elem(alloc, number, versions.len())?;
    for at in 0..order.len() {
        number = number_at(order, at, number);
        numbers[order[at].place] = number;
    }
    Ok(numbers)
}
