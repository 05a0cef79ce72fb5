//! What implementations and imports mean.
ghost use Rattle.std.specs.Prelude.{◌≡◌, IfOk, codes, option_copied, option_and_then, unwrap_or};
ghost use Rattle.std.specs.List.{filter_map};
ghost use Rattle.zi_version.specs.Range.{a_version};
ghost use Rattle.zi_elements.specs.Forest.{element_view, value};
ghost use Rattle.zi_policy.specs.Platform.{arch_of};
ghost use Rattle.zi_policy.specs.declared.types.Stability.TheVariants.{Testing};
ghost use Rattle.zi_reading.specs.Ways.{ways_of};
ghost use Rattle.zi_reading.specs.Forms.{stability_of};
ghost use Rattle.zi_reading.specs.Reading.{parts as parts_in};
ghost use Rattle.zi_reading.specs.Words.{latest};
ghost use Rattle.zi_parts.specs.Digests.{digests_of};
ghost use Rattle.zi_parts.specs.Methods.{method_of};
ghost use Rattle.zi_faults.specs.Said.{version_text};
ghost use Rattle.zi_faults.specs.Carrying.{said_by};
ghost use Rattle.zi_feed.specs.Impls.{are_alike, local_of, langs_of, impl_with, import_of, with_main};
ghost use Rattle.zi_feed.specs.Inward.{made_of, IsAdded, impl_at};

use crate::along::commands_along;
use crate::around::Around;
use crate::made::{arch_in, langs_of, placed_in};
use std::alloc::Global;
use zi_digest::DigestName;
use zi_elements::Element;
use zi_faults::own_path;
use zi_inherited::{Inherited, Shared};
use zi_parts::{
    Binding, Command, Dep, Impl, Import, Method, address_in, copied, copied_arch, digests_of,
    methods_of, value_text,
};
use zi_policy::{Arch, Stability};
use zi_reading::{Part, Ways, attribute, lent, parts, stability_of};
use zi_text::{List, Memory, Text};
use zi_version::Version;

// The stability that a text is; testing where it is none.
fn stability_in(text: Option<&str>) -> Stability
    ensures { result ≡ unwrap_or (option_and_then stability_of (option_copied text.entry)) Testing }
{
    match text {
        Some(text) => stability_of(text).unwrap_or(Stability::Testing),
        None => Stability::Testing,
    }
}

/// The import that an element means.
#[tactic(auto, unfolding(crate::specs::Impls::import_of))]
pub fn import_of(alloc: Global, ways: Ways, e: &Element) -> Result<Import, Memory>
    ensures { IfOk result (λ i. i ≡ import_of (ways_of ways.entry) (element_view e.now)) }
{
    let uri = address_in(alloc, ways, "src", e)?;
    let arch = arch_in(alloc, attribute(e, "arch"))?;
    let langs = langs_of(alloc, attribute(e, "langs"))?;
    Ok(Import { uri, arch, langs })
}

// Where an implementation lies, in a feed that is local.
fn local_of(alloc: Global, ways: Ways, around: &Around, e: &Element) -> Result<Option<Text>, Memory>
    requires { around.now.made ≡ made_of (ways_of ways) (said_by around.now.said) }
    ensures { IfOk result (λ t. t ≡ local_of (ways_of ways.entry) (said_by around.now.said) (element_view e.now)) }
{
    match around.said.local_path {
        Some(_) => copied(alloc, around.made.local.as_ref()),
        None => placed_in(alloc, ways, lent(own_path(e))),
    }
}

// How an implementation is fetched.
#[derive(Drop)]
struct Sources {
    digests: List<DigestName>,
    methods: List<Method>,
}

// How an element says that it is fetched.
fn sources_of(alloc: Global, ways: Ways, part: &Part) -> Result<Sources, Memory>
    ensures { IfOk result
        (λ f. f
        ≡ record {
          digests = digests_of (ways_of ways.entry) (element_view part.now);
          methods = filter_map (method_of (ways_of ways.entry)) (parts_in (ways_of ways.entry) (element_view part.now));
        }) }
{
    let parts = parts(alloc, ways, part)?;
    let e = part.element();
    Ok(Sources {
        digests: digests_of(alloc, ways, e, parts.as_slice())?,
        methods: methods_of(alloc, ways, parts.as_slice())?,
    })
}

// The texts of an implementation, and its platform.
#[derive(Drop)]
struct Told {
    id: Text,
    arch: Option<Arch>,
    released: Option<Text>,
    local: Option<Text>,
}

// What an element and its path tell of it.
fn told_of(alloc: Global, ways: Ways, around: &Around, e: &Element) -> Result<Told, Memory>
    requires arch { around.now.made.arch ≡ option_and_then arch_of (said_by around.now.said).arch }
    requires made { around.now.made ≡ made_of (ways_of ways) (said_by around.now.said) }
    ensures { IfOk result
        (λ t. t
        ≡ record {
          id = value (codes "id") (element_view e.now);
          arch = option_and_then arch_of (said_by around.now.said).arch;
          released = (said_by around.now.said).released;
          local = local_of (ways_of ways.entry) (said_by around.now.said) (element_view e.now);
        }) }
{
    let id = value_text(alloc, e, "id")?;
    let arch = copied_arch(alloc, &around.made.arch)?;
    let released = copied(alloc, around.said.released)?;
    let local = local_of(alloc, ways, around, e)?;
    Ok(Told {
        id,
        arch,
        released,
        local,
    })
}

/// What an implementation or a package shares with the others of its groups.
#[derive(Drop)]
pub struct Along {
    pub langs: Shared<List<Text>>,
    pub deps: Inherited<Dep>,
    pub commands: Inherited<Shared<Command>>,
    pub bindings: Inherited<Binding>,
}

/// What stands along a path of it.
pub fn along_of(alloc: Global, around: &Around) -> Result<Along, Memory>
    requires added { IsAdded around.now.added }
    requires langs { around.now.made.langs ≡ langs_of (said_by around.now.said).langs }
    ensures { IfOk result
        (λ a. a
        ≡ record {
          langs = langs_of (said_by around.now.said).langs;
          deps = around.now.added.deps;
          commands = with_main (said_by around.now.said).main (latest are_alike around.now.added.commands);
          bindings = around.now.added.bindings;
        }) }
{
    let langs = around.made.langs.share()?;
    let deps = around.added.deps.share()?;
    let commands = commands_along(alloc, around.said.main, &around.added)?;
    let bindings = around.added.bindings.share()?;
    Ok(Along {
        langs,
        deps,
        commands,
        bindings,
    })
}

// The implementation of an element, of this version.
fn impl_with(
    alloc: Global,
    ways: Ways,
    around: &Around,
    part: &Part,
    version: Version,
) -> Result<Impl, Memory>
    requires added { IsAdded around.now.added }
    requires arch { around.now.made.arch ≡ option_and_then arch_of (said_by around.now.said).arch }
    requires langs { around.now.made.langs ≡ langs_of (said_by around.now.said).langs }
    requires made { around.now.made ≡ made_of (ways_of ways) (said_by around.now.said) }
    ensures { IfOk result
        (λ i. i
        ≡ impl_with (ways_of ways.entry) (said_by around.now.said) around.now.added.deps around.now.added.commands around.now.added.bindings
        (element_view part.now) version) }
{
    let e = part.element();
    let Sources { digests, methods } = sources_of(alloc, ways, part)?;
    let methods = Shared::new(alloc, methods)?;
    let Told {
        id,
        arch,
        released,
        local,
    } = told_of(alloc, ways, around, e)?;
    let Along {
        langs,
        deps,
        commands,
        bindings,
    } = along_of(alloc, around)?;
    Ok(Impl {
        id,
        version,
        arch,
        stability: stability_in(lent(around.said.stability)),
        langs,
        released,
        local,
        digests,
        methods,
        deps,
        commands,
        bindings,
        place: e.place,
        package: None,
    })
}

/// The implementation of an element, where this stands along its path, itself included; none where its version is none, which
/// is a fault.
#[tactic(auto, unfolding(crate::specs::Impls::impl_from, crate::specs::Inward::impl_at))]
pub fn impl_at(alloc: Global, ways: Ways, around: &Around, e: &Part) -> Result<Option<Impl>, Memory>
    requires added { IsAdded around.now.added }
    requires version { around.now.made.version ≡ option_and_then a_version (version_text (said_by around.now.said)) }
    requires made { around.now.made ≡ made_of (ways_of ways) (said_by around.now.said) }
    ensures { IfOk result (λ i. i ≡ impl_at (ways_of ways.entry) (said_by around.now.said) around.now.added (element_view e.now)) }
{
    match &around.made.version {
        Some(version) => {
            let version = version.copy(alloc)?;
            Ok(Some(impl_with(alloc, ways, around, e, version)?))
        }
        None => Ok(None),
    }
}
