//! What is made of what is said along a path: once for the element that says it, and then shared.
ghost use Rattle.std.specs.Prelude.{◌≡◌, IfOk, option_copied, option_and_then};
ghost use Rattle.zi_version.specs.Range.{a_version};
ghost use Rattle.zi_elements.specs.Forest.{element_view};
ghost use Rattle.zi_policy.specs.Platform.{arch_of};
ghost use Rattle.zi_reading.specs.Ways.{ways_of};
ghost use Rattle.zi_faults.specs.Said.{version_text, unsaid, taken};
ghost use Rattle.zi_faults.specs.Carrying.{said_by};
ghost use Rattle.zi_feed.specs.Impls.{langs_of};
ghost use Rattle.zi_feed.specs.Inward.{placed_in, made_of};

use crate::around::Around;
use std::alloc::Global;
use zi_address::{is_local, place};
use zi_elements::Element;
use zi_faults::{Carried, says_version, version_text};
use zi_inherited::Shared;
use zi_parts::{copied, copied_arch};
use zi_policy::Arch;
use zi_reading::{Ways, has, lent, version_in, words_in};
use zi_text::{List, Memory, Text};
use zi_version::Version;

/// What is made of what is said along a path.
pub struct Made {
    /// The version with its modifier, where it is one.
    pub version: Option<Version>,
    /// The platform, where it is one.
    pub arch: Option<Arch>,
    /// The languages.
    pub langs: Shared<List<Text>>,
    /// Where the local path lies, in a feed that is local.
    pub local: Option<Text>,
}

// One call wherever one is dropped.
impl Drop for Made {
    fn drop(self) {
        let Made {
            version: _,
            arch: _,
            langs: _,
            local: _,
        } = self;
    }
}

/// The platform that a text is, where it is one.
pub fn arch_in(alloc: Global, text: Option<&str>) -> Result<Option<Arch>, Memory>
    ensures { IfOk result (λ a. a ≡ option_and_then arch_of (option_copied text.entry)) }
{
    match text {
        Some(text) => Arch::parse(alloc, text),
        None => Ok(None),
    }
}

/// The words of a text, where there is one.
pub fn langs_of(alloc: Global, text: Option<&str>) -> Result<List<Text>, Memory>
    ensures { IfOk result (λ ls. ls ≡ langs_of (option_copied text.entry)) }
{
    match text {
        Some(text) => words_in(alloc, text),
        None => Ok(List::new(alloc)),
    }
}

// The version that a path says, with its modifier, where it is one.
fn version_along(alloc: Global, said: &Carried) -> Result<Option<Version>, Memory>
    ensures { IfOk result (λ v. v ≡ option_and_then a_version (version_text (said_by said.now))) }
{
    match version_text(alloc, said)? {
        Some(text) => version_in(alloc, &text),
        None => Ok(None),
    }
}

/// Where a local path lies, in a feed that is local.
pub fn placed_in(alloc: Global, ways: Ways, text: Option<&str>) -> Result<Option<Text>, Memory>
    ensures { IfOk result (λ t. t ≡ placed_in (ways_of ways.entry) (option_copied text.entry)) }
{
    let Ways::InFeed(uri) = ways else {
        return Ok(None);
    };
    if !is_local(uri) {
        return Ok(None);
    }
    match text {
        Some(text) => place(alloc, uri, text),
        None => Ok(None),
    }
}

/// The same version once more, where there is one.
pub fn copied_version(alloc: Global, version: &Option<Version>) -> Result<Option<Version>, Memory>
    ensures { IfOk result (λ v. v ≡ version.now) }
{
    match version {
        Some(version) => Ok(Some(version.copy(alloc)?)),
        None => Ok(None),
    }
}

// The version at an element where this is said along its path.
fn version_made(
    alloc: Global,
    outer: &Around,
    said: &Carried,
    e: &Element,
) -> Result<Option<Version>, Memory>
    requires said { said_by said.now ≡ taken (said_by outer.now.said) (element_view e.now) }
    requires made { outer.now.made.version ≡ option_and_then a_version (version_text (said_by outer.now.said)) }
    ensures { IfOk result (λ v. v ≡ option_and_then a_version (version_text (said_by said.now))) }
{
    if says_version(e) {
        return version_along(alloc, said);
    }
    copied_version(alloc, &outer.made.version)
}

// The platform there.
fn arch_made(
    alloc: Global,
    outer: &Around,
    said: &Carried,
    e: &Element,
) -> Result<Option<Arch>, Memory>
    requires said { said_by said.now ≡ taken (said_by outer.now.said) (element_view e.now) }
    requires made { outer.now.made.arch ≡ option_and_then arch_of (said_by outer.now.said).arch }
    ensures { IfOk result (λ a. a ≡ option_and_then arch_of (said_by said.now).arch) }
{
    if has(e, "arch") {
        return arch_in(alloc, lent(said.arch));
    }
    copied_arch(alloc, &outer.made.arch)
}

// The languages there.
fn langs_made(
    alloc: Global,
    outer: &Around,
    said: &Carried,
    e: &Element,
) -> Result<Shared<List<Text>>, Memory>
    requires said { said_by said.now ≡ taken (said_by outer.now.said) (element_view e.now) }
    requires made { outer.now.made.langs ≡ langs_of (said_by outer.now.said).langs }
    ensures { IfOk result (λ ls. ls ≡ langs_of (said_by said.now).langs) }
{
    if has(e, "langs") {
        let langs = langs_of(alloc, lent(said.langs))?;
        return Shared::new(alloc, langs);
    }
    outer.made.langs.share()
}

// Where the local path lies there.
fn local_made(
    alloc: Global,
    ways: Ways,
    outer: &Around,
    said: &Carried,
    e: &Element,
) -> Result<Option<Text>, Memory>
    requires said { said_by said.now ≡ taken (said_by outer.now.said) (element_view e.now) }
    requires made { outer.now.made.local ≡ placed_in (ways_of ways) (said_by outer.now.said).local_path }
    ensures { IfOk result (λ t. t ≡ placed_in (ways_of ways.entry) (said_by said.now).local_path) }
{
    if has(e, "local-path") {
        return placed_in(alloc, ways, lent(said.local_path));
    }
    copied(alloc, outer.made.local.as_ref())
}

/// What is made where nothing is said.
pub fn made_nothing(alloc: Global, ways: Ways) -> Result<Made, Memory>
    ensures { IfOk result (λ m. m ≡ made_of (ways_of ways.entry) unsaid) }
{
    let none = List::new(alloc);
    let langs = Shared::new(alloc, none)?;
    Ok(Made {
        version: None,
        arch: None,
        langs,
        local: None,
    })
}

/// What is made at an element where this is said along its path, and this stands around it: anew what the element says itself.
pub fn made_at(
    alloc: Global,
    ways: Ways,
    outer: &Around,
    said: &Carried,
    e: &Element,
) -> Result<Made, Memory>
    requires said { said_by said.now ≡ taken (said_by outer.now.said) (element_view e.now) }
    requires made { outer.now.made ≡ made_of (ways_of ways) (said_by outer.now.said) }
    ensures { IfOk result (λ m. m ≡ made_of (ways_of ways.entry) (said_by said.now)) }
{
    let version = version_made(alloc, outer, said, e)?;
    let arch = arch_made(alloc, outer, said, e)?;
    let langs = langs_made(alloc, outer, said, e)?;
    let local = local_made(alloc, ways, outer, said, e)?;
    Ok(Made {
        version,
        arch,
        langs,
        local,
    })
}
