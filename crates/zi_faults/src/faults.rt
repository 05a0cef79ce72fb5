//! The faults at one element, a function for each kind.
ghost use Rattle.std.specs.Prelude.{◌≡◌, ◌&&◌, ◌||◌, ◌++◌, IfOk, codes, map, true, option_copied, is_some};
ghost use Rattle.std.specs.List.{filter};
ghost use Rattle.zi_elements.specs.Forest.{element_view, attribute, lacks, value};
ghost use Rattle.zi_policy.specs.Platform.{arch_of};
ghost use Rattle.zi_text.specs.Numeral.{numeral};
ghost use Rattle.zi_address.specs.Texts.{is_none};
ghost use Rattle.zi_reading.specs.Ways.{ways_of};
ghost use Rattle.zi_reading.specs.Words.{first, is_wrong, is_amiss, repeated};
ghost use Rattle.zi_parts.specs.Digests.{digest_by, attribute_by};
ghost use Rattle.zi_reading.specs.Forms.{is_version, is_expression, stability_of, is_path, is_dest};
ghost use Rattle.zi_parts.specs.Values.{mode_of, importance_of};
ghost use Rattle.zi_reading.specs.Reading.{meaning, is};
ghost use Rattle.zi_faults.specs.Faults.{names_interface, is_impl, has_bad_digits, is_bad_environment, is_bad_for_each, is_bad_file, is_bad_rename, has_bad_address, is_wrong_local, has_bad_local, has_fault, share, is_bad_part, has_no_interface, repeats_in, is_no_program, is_bad_shim, takes_shims, shims_in, late_kinds, kinds_among, kinds_at, faults_with, fault_at, number, is_first, least, lesser_of};
ghost use Rattle.zi_faults.specs.Said.{version_text};
ghost use Rattle.zi_reading.specs.Views.{views};
ghost use Rattle.zi_faults.specs.Carrying.{said_by, IsChecked};
ghost use Rattle.zi_faults.specs.declared.fault.FeedKind.TheVariants as kind;

use crate::carrying::{Carried, is_wrong_local};
use crate::fault::{Fault, FeedKind};
use crate::said::own_path;
use std::alloc::Global;
use std::collections::HashSet;
use zi_digest::Algorithm;
use zi_elements::Element;
use zi_parts::{attribute_by, digest_by, importance_of, mode_of};
use zi_policy::Arch;
use zi_reading::{
    Kind, Part, Ways, attribute, elements_of, has, is_dest, is_expression, is_path, is_unclear,
    is_version, lent, meaning, parts, stability_of, value,
};
use zi_text::{Memory, numeral};

/// There is a text, and it is no version.
pub fn is_wrong_version(alloc: Global, text: Option<&str>) -> Result<bool, Memory>
    ensures { IfOk result (λ b. b ≡ is_wrong is_version (option_copied text.entry)) }
{
    match text {
        Some(text) => Ok(!is_version(alloc, text)?),
        None => Ok(false),
    }
}

/// There is a text, and it is no platform.
pub fn is_wrong_arch(alloc: Global, text: Option<&str>) -> Result<bool, Memory>
    ensures { IfOk result (λ b. b ≡ is_wrong (λ t. is_some (arch_of t)) (option_copied text.entry)) }
{
    match text {
        Some(text) => Ok(Arch::parse(alloc, text)?.is_none()),
        None => Ok(false),
    }
}

// There is no text, or it is no relative path with a part.
fn is_amiss_path(alloc: Global, text: Option<&str>) -> Result<bool, Memory>
    ensures { IfOk result (λ b. b ≡ is_amiss is_path (option_copied text.entry)) }
{
    match text {
        Some(text) => Ok(!is_path(alloc, text)?),
        None => Ok(true),
    }
}

// There is no text, or nothing may be placed there.
fn is_amiss_dest(alloc: Global, text: Option<&str>) -> Result<bool, Memory>
    ensures { IfOk result (λ b. b ≡ is_amiss is_dest (option_copied text.entry)) }
{
    match text {
        Some(text) => Ok(!is_dest(alloc, text)?),
        None => Ok(true),
    }
}

// There is no text, or it is no number.
fn is_amiss_size(text: Option<&str>) -> bool
    ensures { result ≡ is_amiss (λ t. is_some (numeral t)) (option_copied text.entry) }
{
    match text {
        Some(text) => numeral(text).is_none(),
        None => true,
    }
}

// It is an `implementation`.
fn is_impl(e: &Part) -> bool
    ensures { result ≡ is_impl (element_view e.now) }
{
    e.is(Kind::Implementation)
}

// It names another interface.
fn names_interface(e: &Part) -> bool
    ensures { result ≡ names_interface (element_view e.now) }
{
    e.is_one_of([Kind::Requires, Kind::Restricts, Kind::Runner].as_slice())
}

// An implementation without an id.
fn has_no_id(e: &Part) -> bool
    ensures { result ≡ (is_impl (element_view e.now) && is_none (value (codes "id") (element_view e.now))) }
{
    is_impl(e) && value(e.element(), "id").is_empty()
}

// A version that is none.
fn has_bad_version(alloc: Global, ways: Ways, said: &Carried, e: &Part) -> Result<bool, Memory>
    requires { said.now.wrong.version ≡ is_amiss is_version (version_text (said_by said.now)) }
    ensures { IfOk result (λ b. b ≡ has_fault (ways_of ways.entry) (said_by said.now) kind.BadVersion (element_view e.now)) }
{
    if is_impl(e) && said.wrong.version {
        return Ok(true);
    }
    Ok(
        e.is(Kind::Version)
            && (is_wrong_version(alloc, attribute(e.element(), "not-before"))?
                || is_wrong_version(alloc, attribute(e.element(), "before"))?),
    )
}

// A restriction of versions that is no expression.
fn has_bad_range(alloc: Global, ways: Ways, said: &Carried, e: &Part) -> Result<bool, Memory>
    ensures { IfOk result (λ b. b ≡ has_fault (ways_of ways.entry) (said_by said.now) kind.BadRange (element_view e.now)) }
{
    if !ways.is_whole() || !names_interface(e) {
        return Ok(false);
    }
    match attribute(e.element(), "version") {
        Some(text) => Ok(!is_expression(alloc, text)?),
        None => Ok(false),
    }
}

// A platform that is none.
fn has_bad_arch(alloc: Global, ways: Ways, said: &Carried, e: &Part) -> Result<bool, Memory>
    requires { said.now.wrong.arch ≡ is_wrong (λ t. is_some (arch_of t)) (said_by said.now).arch }
    ensures { IfOk result (λ b. b ≡ has_fault (ways_of ways.entry) (said_by said.now) kind.BadArch (element_view e.now)) }
{
    if is_impl(e) && said.wrong.arch {
        return Ok(true);
    }
    Ok(e.is(Kind::Feed) && is_wrong_arch(alloc, attribute(e.element(), "arch"))?)
}

// The attribute of an algorithm isn't the digits of a digest name.
fn has_bad_digits_by(alloc: Global, algorithm: Algorithm, e: &Element) -> Result<bool, Memory>
    ensures { IfOk result (λ b. b ≡ is_wrong (λ t. is_some (digest_by algorithm t)) (attribute (attribute_by algorithm) (element_view e.now))) }
{
    match attribute(e, attribute_by(algorithm)) {
        Some(digits) => Ok(digest_by(alloc, algorithm, digits)?.is_none()),
        None => Ok(false),
    }
}

// One of the attributes of a `manifest-digest` isn't the digits of a digest name.
fn has_bad_digest(alloc: Global, ways: Ways, said: &Carried, e: &Part) -> Result<bool, Memory>
    ensures { IfOk result (λ b. b ≡ has_fault (ways_of ways.entry) (said_by said.now) kind.BadDigest (element_view e.now)) }
{
    Ok(
        e.is(Kind::ManifestDigest)
            && (has_bad_digits_by(alloc, Algorithm::Sha256new, e.element())?
                || has_bad_digits_by(alloc, Algorithm::Sha256, e.element())?
                || has_bad_digits_by(alloc, Algorithm::Sha1new, e.element())?),
    )
}

// The mode of an `environment` is none.
fn has_bad_mode(e: &Element) -> bool
    ensures { result ≡ is_wrong (λ t. is_some (mode_of t)) (attribute (codes "mode") (element_view e.now)) }
{
    match attribute(e, "mode") {
        Some(text) => mode_of(text).is_none(),
        None => false,
    }
}

// An `environment` isn't of the form.
fn is_bad_environment(e: &Element) -> bool
    ensures { result ≡ is_bad_environment (element_view e.now) }
{
    let name = value(e, "name");
    let both = has(e, "insert") && has(e, "value");
    let neither = !has(e, "insert") && !has(e, "value");
    name.is_empty() || name.as_bytes().contains(&b'=') || both || neither || has_bad_mode(e)
}

// A `for-each` isn't of the form.
fn is_bad_for_each(e: &Element) -> bool
    ensures { result ≡ is_bad_for_each (element_view e.now) }
{
    if !has(e, "item-from") {
        return true;
    }
    match attribute(e, "separator") {
        Some(text) => text.is_empty(),
        None => false,
    }
}

// The importance of a `requires` is none.
fn has_bad_importance(e: &Element) -> bool
    ensures { result ≡ is_wrong (λ t. is_some (importance_of t)) (attribute (codes "importance") (element_view e.now)) }
{
    match attribute(e, "importance") {
        Some(text) => importance_of(text).is_none(),
        None => false,
    }
}

// An `environment` that isn't of the form.
fn has_bad_environment(e: &Part) -> bool
    ensures { result ≡ (is (codes "environment") (element_view e.now) && is_bad_environment (element_view e.now)) }
{
    e.is(Kind::Environment) && is_bad_environment(e.element())
}

// A `command` without a name.
fn has_no_name(e: &Part) -> bool
    ensures { result ≡ (is (codes "command") (element_view e.now) && lacks (codes "name") (element_view e.now)) }
{
    e.is(Kind::Command) && !has(e.element(), "name")
}

// A `for-each` that isn't of the form.
fn has_bad_for_each(e: &Part) -> bool
    ensures { result ≡ (is (codes "for-each") (element_view e.now) && is_bad_for_each (element_view e.now)) }
{
    e.is(Kind::ForEach) && is_bad_for_each(e.element())
}

// A `requires` whose importance is none.
fn is_unweighed(e: &Part) -> bool
    ensures { result ≡ (is (codes "requires") (element_view e.now) && is_wrong (λ t. is_some (importance_of t)) (attribute (codes "importance") (element_view e.now))) }
{
    e.is(Kind::Requires) && has_bad_importance(e.element())
}

// A binding, command, loop of arguments or importance that isn't of the form.
fn is_bad_part(e: &Part) -> bool
    ensures { result ≡ is_bad_part (element_view e.now) }
{
    has_bad_environment(e) || has_no_name(e) || has_bad_for_each(e) || is_unweighed(e)
}

// A `file` that isn't of the form.
fn has_bad_file(alloc: Global, e: &Part) -> Result<bool, Memory>
    ensures { IfOk result (λ b. b ≡ (is (codes "file") (element_view e.now) && is_bad_file (element_view e.now))) }
{
    if !e.is(Kind::File) {
        return Ok(false);
    }
    Ok(
        !has(e.element(), "href")
            || is_amiss_size(attribute(e.element(), "size"))
            || is_amiss_dest(alloc, attribute(e.element(), "dest"))?,
    )
}

// A `rename` that isn't of the form.
fn has_bad_rename(alloc: Global, e: &Part) -> Result<bool, Memory>
    ensures { IfOk result (λ b. b ≡ (is (codes "rename") (element_view e.now) && is_bad_rename (element_view e.now))) }
{
    if !e.is(Kind::Rename) {
        return Ok(false);
    }
    Ok(
        is_amiss_path(alloc, attribute(e.element(), "source"))?
            || is_amiss_dest(alloc, attribute(e.element(), "dest"))?,
    )
}

// A `remove` that isn't of the form.
fn has_bad_remove(alloc: Global, e: &Part) -> Result<bool, Memory>
    ensures { IfOk result (λ b. b ≡ (is (codes "remove") (element_view e.now) && is_amiss is_path (attribute (codes "path") (element_view e.now)))) }
{
    Ok(e.is(Kind::Remove) && is_amiss_path(alloc, attribute(e.element(), "path"))?)
}

// A step that isn't of the form.
fn has_bad_step(alloc: Global, ways: Ways, said: &Carried, e: &Part) -> Result<bool, Memory>
    ensures { IfOk result (λ b. b ≡ has_fault (ways_of ways.entry) (said_by said.now) kind.BadStep (element_view e.now)) }
{
    Ok(has_bad_file(alloc, e)? || has_bad_rename(alloc, e)? || has_bad_remove(alloc, e)?)
}

// An interface or a feed isn't named.
fn has_no_interface(e: &Part) -> bool
    ensures { result ≡ has_no_interface (element_view e.now) }
{
    (names_interface(e) && !has(e.element(), "interface"))
        || (e.is(Kind::Feed) && !has(e.element(), "src"))
}

// A `package-implementation` that names no package.
fn has_no_package(e: &Part) -> bool
    ensures { result ≡ (is (codes "package-implementation") (element_view e.now) && is_none (value (codes "package") (element_view e.now))) }
{
    e.is(Kind::PackageImplementation) && value(e.element(), "package").is_empty()
}

// A stability that a feed may not say.
fn has_bad_stability(said: &Carried, e: &Part) -> bool
    ensures { result ≡ (is_impl (element_view e.now) && is_wrong (λ t. is_some (stability_of t)) (said_by said.now).stability) }
{
    if !is_impl(e) {
        return false;
    }
    match lent(said.stability) {
        Some(text) => stability_of(text).is_none(),
        None => false,
    }
}

// An attribute says an address that means nothing.
fn has_bad_address(alloc: Global, ways: Ways, name: &str, e: &Element) -> Result<bool, Memory>
    ensures { IfOk result (λ b. b ≡ has_bad_address (ways_of ways.entry) name.now (element_view e.now)) }
{
    match attribute(e, name) {
        Some(text) => Ok(meaning(alloc, ways, text)?.is_none()),
        None => Ok(false),
    }
}

// In a feed that is local the local path of an implementation leads nowhere.
fn has_bad_local(alloc: Global, ways: Ways, said: &Carried, e: &Element) -> Result<bool, Memory>
    requires { said.now.wrong.local ≡ is_wrong_local (ways_of ways) (said_by said.now).local_path }
    ensures { IfOk result (λ b. b ≡ has_bad_local (ways_of ways.entry) (said_by said.now) (element_view e.now)) }
{
    match said.local_path {
        Some(_) => Ok(said.wrong.local),
        None => is_wrong_local(alloc, ways, own_path(e)),
    }
}

// Whether, where it counts, an attribute says an address that means nothing.
fn counts_badly(
    alloc: Global,
    ways: Ways,
    counts: bool,
    name: &str,
    e: &Element,
) -> Result<bool, Memory>
    ensures { IfOk result (λ b. b ≡ (counts && has_bad_address (ways_of ways.entry) name.now (element_view e.now))) }
{
    if !counts {
        return Ok(false);
    }
    has_bad_address(alloc, ways, name, e)
}

// An implementation whose local path leads nowhere, in a feed that is local.
fn lies_nowhere(alloc: Global, ways: Ways, said: &Carried, part: &Part) -> Result<bool, Memory>
    requires { said.now.wrong.local ≡ is_wrong_local (ways_of ways) (said_by said.now).local_path }
    ensures { IfOk result (λ b. b ≡ (is_impl (element_view part.now) && has_bad_local (ways_of ways.entry) (said_by said.now) (element_view part.now))) }
{
    if !is_impl(part) {
        return Ok(false);
    }
    has_bad_local(alloc, ways, said, part.element())
}

// An address or a local path that means nothing.
fn is_badly_addressed(
    alloc: Global,
    ways: Ways,
    said: &Carried,
    part: &Part,
) -> Result<bool, Memory>
    requires { said.now.wrong.local ≡ is_wrong_local (ways_of ways) (said_by said.now).local_path }
    ensures { IfOk result (λ b. b ≡ has_fault (ways_of ways.entry) (said_by said.now) kind.BadAddress (element_view part.now)) }
{
    let e = part.element();
    if counts_badly(alloc, ways, names_interface(part), "interface", e)? {
        return Ok(true);
    }
    if counts_badly(alloc, ways, part.is(Kind::Feed), "src", e)? {
        return Ok(true);
    }
    if counts_badly(alloc, ways, part.is(Kind::File), "href", e)? {
        return Ok(true);
    }
    lies_nowhere(alloc, ways, said, part)
}

// The least of the kinds from 8 on that stands at an element.
fn late_kind(
    alloc: Global,
    ways: Ways,
    said: &Carried,
    e: &Part,
) -> Result<Option<FeedKind>, Memory>
    requires { said.now.wrong.local ≡ is_wrong_local (ways_of ways) (said_by said.now).local_path }
    ensures { IfOk result (λ k. k ≡ first (kinds_among late_kinds (ways_of ways.entry) (said_by said.now) (element_view e.now))) }
{
    if has_bad_step(alloc, ways, said, e)? {
        return Ok(Some(FeedKind::BadStep));
    }
    if has_no_interface(e) {
        return Ok(Some(FeedKind::NoInterface));
    }
    if has_bad_stability(said, e) {
        return Ok(Some(FeedKind::BadStability));
    }
    if is_badly_addressed(alloc, ways, said, e)? {
        return Ok(Some(FeedKind::BadAddress));
    }
    if has_no_package(e) {
        return Ok(Some(FeedKind::NoPackage));
    }
    Ok(None)
}

/// The least kind that stands at an element.
#[tactic(auto, unfolding(crate::specs::Faults::kinds_at))]
pub fn kind_at(
    alloc: Global,
    ways: Ways,
    said: &Carried,
    e: &Part,
) -> Result<Option<FeedKind>, Memory>
    requires { IsChecked (ways_of ways) said.now }
    ensures { IfOk result (λ k. k ≡ first (kinds_at (ways_of ways.entry) (said_by said.now) (element_view e.now))) }
{
    if has_no_id(e) {
        return Ok(Some(FeedKind::NoId));
    }
    if has_bad_version(alloc, ways, said, e)? {
        return Ok(Some(FeedKind::BadVersion));
    }
    if has_bad_range(alloc, ways, said, e)? {
        return Ok(Some(FeedKind::BadRange));
    }
    if has_bad_arch(alloc, ways, said, e)? {
        return Ok(Some(FeedKind::BadArch));
    }
    if has_bad_digest(alloc, ways, said, e)? {
        return Ok(Some(FeedKind::BadDigest));
    }
    if is_bad_part(e) {
        return Ok(Some(FeedKind::BadPart));
    }
    late_kind(alloc, ways, said, e)
}

/// The lesser of two faults, by place and then by kind, where there are any.
pub fn lesser_of(a: Option<Fault>, b: Option<Fault>) -> Option<Fault>
    ensures { result ≡ lesser_of a b }
{
    match a {
        None => b,
        Some(f) => match b {
            None => Some(f),
            Some(g) => { if is_first(f, g) { Some(f) } else { Some(g) } }
        },
    }
}

// Whether one fault goes before another.
#[tactic(auto, unfolding(crate::specs::Faults::is_first))]
fn is_first(f: Fault, g: Fault) -> bool
    ensures { result ≡ is_first f g }
{
    f.place < g.place || (f.place == g.place && number(f.kind) <= number(g.kind))
}

/// The number of a kind, in whose order faults at one place go.
pub fn number(kind: FeedKind) -> u8
    ensures { result ≡ number kind }
{
    match kind {
        FeedKind::NotInterface => 1,
        FeedKind::NoId => 2,
        FeedKind::BadVersion => 3,
        FeedKind::BadRange => 4,
        FeedKind::BadArch => 5,
        FeedKind::BadDigest => 6,
        FeedKind::BadPart => 7,
        FeedKind::BadStep => 8,
        FeedKind::NoInterface => 9,
        FeedKind::WrongUri => 10,
        FeedKind::BadStability => 11,
        FeedKind::BadAddress => 12,
        FeedKind::SameId => 13,
        FeedKind::NoPackage => 14,
    }
}

/// The fault of a kind at an element.
pub fn fault_at(e: &Element, kind: FeedKind) -> Fault
    ensures { result ≡ fault_at (element_view e.now) kind }
{
    Fault {
        kind,
        place: e.place,
    }
}

/// The least fault of this kind at elements, each but the first of which has one.
fn least_but_first(elements: &[&Element], kind: FeedKind) -> Option<Fault>
    ensures { result ≡ least (map (λ r. fault_at r kind) (repeated (λ a b. true) (views elements.now))) }
{
    let mut found = None;
    let mut is_later = false;
    for e in elements {
        if is_later {
            found = lesser_of(found, Some(fault_at(e, kind)));
        }
        is_later = true;
    }
    found
}

/// The least fault of this kind at elements that have an attribute alike with an earlier one. Fewer than two aren't looked at.
/// Memory is the one refusal.
pub fn least_shared(
    alloc: Global,
    name: &str,
    elements: &[&Element],
    kind: FeedKind,
) -> Result<Option<Fault>, Memory>
    ensures { IfOk result (λ f. f ≡ least (map (λ r. fault_at r kind) (repeated (share name.now) (views elements.now)))) }
{
    if elements.len() < 2 {
        return Ok(None);
    }
    let mut values: HashSet<&str> = HashSet::new(alloc);
    let mut found = None;
    for e in elements {
        if let Some(text) = attribute(e, name) {
            if !values.insert(text)? {
                found = lesser_of(found, Some(fault_at(e, kind)));
            }
        }
    }
    Ok(found)
}

// The least fault of repeats in an element.
#[tactic(auto, unfolding(crate::specs::Faults::repeats_in))]
fn repeat_in(alloc: Global, ways: Ways, e: &Part) -> Result<Option<Fault>, Memory>
    ensures { IfOk result (λ f. f ≡ least (map (λ r. fault_at r kind.BadPart) (repeats_in (ways_of ways.entry) (element_view e.now)))) }
{
    let parts = parts(alloc, ways, e)?;
    let runners = elements_of(alloc, [Kind::Runner].as_slice(), parts.as_slice())?;
    let commands = elements_of(alloc, [Kind::Command].as_slice(), parts.as_slice())?;
    let second = least_but_first(runners.as_slice(), FeedKind::BadPart);
    let shared = least_shared(alloc, "name", commands.as_slice(), FeedKind::BadPart)?;
    Ok(lesser_of(second, shared))
}

// A name that no program of a shim can have.
fn is_no_program(name: &[u8]) -> bool
    ensures { result ≡ is_no_program name.now }
{
    name.is_empty()
        || name.starts_with(b".")
        || name.contains(&b'/')
        || name.contains(&b'=')
        || name.contains(&b'\n')
}

// A binding that makes a command known under such a name, or under none.
#[tactic(auto, unfolding(crate::specs::Faults::is_bad_shim))]
fn is_bad_shim(e: &Element) -> bool
    ensures { result ≡ is_bad_shim (element_view e.now) }
{
    is_no_program(value(e, "name").as_bytes())
}

// The least fault of those of these bindings that are bad.
fn least_bad_shim(elements: &[&Element]) -> Option<Fault>
    ensures { result ≡ least (map (λ r. fault_at r kind.BadPart) (filter is_bad_shim (views elements.now))) }
{
    let mut found = None;
    for e in elements {
        if is_bad_shim(e) {
            found = lesser_of(found, Some(fault_at(e, FeedKind::BadPart)));
        }
    }
    found
}

// Whether the bindings in it may make a command known.
fn takes_shims(e: &Part) -> bool
    ensures { result ≡ takes_shims (element_view e.now) }
{
    e.is(Kind::Requires) || e.is(Kind::Runner)
}

// The least fault of the bindings in a dependency that make a command known.
#[tactic(auto, unfolding(crate::specs::Faults::shims_in))]
fn shim_in(alloc: Global, ways: Ways, e: &Part) -> Result<Option<Fault>, Memory>
    ensures { IfOk result (λ f. f ≡ least (map (λ r. fault_at r kind.BadPart) (shims_in (ways_of ways.entry) (element_view e.now)))) }
{
    if !takes_shims(e) {
        return Ok(None);
    }
    let parts = parts(alloc, ways, e)?;
    let shims = elements_of(
        alloc,
        [Kind::ExecutableInVar, Kind::ExecutableInPath].as_slice(),
        parts.as_slice(),
    )?;
    Ok(least_bad_shim(shims.as_slice()))
}

// The least fault of what stands in an element: of repeats, and of shims.
fn inner_fault(alloc: Global, ways: Ways, e: &Part) -> Result<Option<Fault>, Memory>
    ensures { IfOk result (λ f. f ≡ least (map (λ r. fault_at r kind.BadPart) (repeats_in (ways_of ways.entry) (element_view e.now) ++ shims_in (ways_of ways.entry) (element_view e.now)))) }
{
    let repeat = repeat_in(alloc, ways, e)?;
    let shim = shim_in(alloc, ways, e)?;
    Ok(lesser_of(repeat, shim))
}

/// The least fault at an element where this is said along its path, itself included, of repeats in it and of shims in it.
/// Memory is the one refusal.
#[tactic(auto, unfolding(crate::specs::Faults::faults_with))]
pub fn fault_with(
    alloc: Global,
    ways: Ways,
    said: &Carried,
    part: &Part,
) -> Result<Option<Fault>, Memory>
    requires { IsChecked (ways_of ways) said.now }
    ensures { IfOk result (λ f. f ≡ least (faults_with (ways_of ways.entry) (said_by said.now) (element_view part.now))) }
{
    let e = part.element();
    if is_unclear(alloc, e)? {
        return Ok(Some(fault_at(e, FeedKind::BadRange)));
    }
    let own = match kind_at(alloc, ways, said, part)? {
        Some(kind) => Some(fault_at(e, kind)),
        None => None,
    };
    Ok(lesser_of(own, inner_fault(alloc, ways, part)?))
}
