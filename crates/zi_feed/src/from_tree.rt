ghost use Rattle.std.specs.Prelude.{◌≡◌, true, IfOk, Some, None, codes, option_copied};
ghost use Rattle.zi_elements.specs.Forest.{element_view};
ghost use Rattle.zi_reading.specs.Ways.{AsWritten};
ghost use Rattle.zi_feed.specs.Active.{active_feed, kept_feed};
ghost use Rattle.zi_feed.specs.Feeds.{feed_fault, feed_of, part_fault};
ghost use Rattle.zi_parts.specs.Digests.{said_digests};
ghost use Rattle.zi_feed.specs.Means.{Reads, counts_as, counts_as_binding};
ghost use Rattle.zi_feed.specs.Shares.{AreShared, NativesAreShared, IsGathered, feed_in};
ghost use Rattle.zi_parts.specs.Values.{binding_of, dep_of, command_of};
ghost use Rattle.zi_faults.specs.declared.fault.FeedFault.TheVariants.{Bad};

use crate::feed::Feed;
use crate::finding;
use crate::shares::{Gathered, ReadFeed};
use crate::walking::found_in;
use std::alloc::Global;
use zi_digest::DigestName;
use zi_elements::{Document, Element};
use zi_faults::{Fault, FeedFault};
use zi_inherited::Shared;
use zi_parts::{Binding, Command, Dep, Import};
use zi_policy::Policy;
use zi_reading::{BINDINGS, Part, Ways, is, is_left_out};
use zi_text::{List, Memory, Text};

// The answer of a fault.
fn bad(fault: Fault) -> FeedFault
    ensures { result ≡ Bad fault.kind fault.place }
{
    FeedFault::Bad {
        kind: fault.kind,
        place: fault.place,
    }
}

// A feed with what its implementations and packages share.
fn shared_feed(
    alloc: Global,
    uri: &str,
    imports: List<Import>,
    gathered: Gathered,
) -> Result<ReadFeed, Memory>
    ensures feed { IfOk result (λ r. r.feed ≡ record { uri = uri.now; imports = imports; impls = gathered.impls; natives = gathered.natives }) }
    ensures shares { IfOk result (λ r. r.shares ≡ gathered.shares) }
{
    let Gathered {
        impls,
        natives,
        shares,
    } = gathered;
    let shares = Shared::new(alloc, shares)?;
    let uri = Text::from_str(alloc, uri)?;
    Ok(ReadFeed {
        feed: Feed {
            uri,
            imports,
            impls,
            natives,
        },
        shares,
    })
}

// The feed that a document's root says, with what is active of it under a policy; all of it where there is none. Beside it stands
// what its implementations and packages share.
fn from_root(
    alloc: Global,
    root: &Element,
    uri: &str,
    policy: Option<&Policy>,
) -> Result<ReadFeed, FeedFault>
    ensures reads { Reads (feed_fault (element_view root.now) uri.now) (kept_feed (option_copied policy.entry) (feed_of (element_view root.now) uri.now)) (feed_in result) }
    ensures shares { IfOk result (λ r. AreShared r.shares r.feed.impls) }
    ensures natives { IfOk result (λ r. NativesAreShared r.shares r.feed.natives) }
{
    let root = Part::new(root);
    let found = found_in(alloc, &root, uri, policy)?;
    if let Some(fault) = finding::feed_fault(alloc, &root, uri, found.seen.as_slice())? {
        return Err(bad(fault));
    }
    let imports = finding::imports_of(alloc, &root, uri, found.seen.as_slice())?;
    Ok(shared_feed(alloc, uri, imports, found.gathered)?)
}

impl Feed {
    /// The feed that a document says (the Zero Install feed format), read under an address. Bad exactly where it has a
    /// fault: of all, the one of least place, and there the one of least kind. Memory is the other refusal. It goes as deep
    /// as the document, whose type bounds that.
    pub fn from_tree(alloc: Global, tree: &Document, uri: &str) -> Result<Feed, FeedFault>
        ensures { Reads (feed_fault (element_view tree.now) uri.now) (feed_of (element_view tree.now) uri.now) result }
    {
        match from_root(alloc, tree.root(), uri, None) {
            Ok(ReadFeed { feed, .. }) => Ok(feed),
            Err(fault) => Err(fault),
        }
    }

    /// The same, with the dependencies alone that are active under a policy, in commands too, and with what its implementations
    /// and packages share.
    pub fn active_from_tree(
        alloc: Global,
        tree: &Document,
        uri: &str,
        policy: &Policy,
    ) -> Result<ReadFeed, FeedFault>
        ensures reads { Reads (feed_fault (element_view tree.now) uri.now) (active_feed policy.now (feed_of (element_view tree.now) uri.now)) (feed_in result) }
        ensures shares { IfOk result (λ r. AreShared r.shares r.feed.impls) }
        ensures natives { IfOk result (λ r. NativesAreShared r.shares r.feed.natives) }
    {
        from_root(alloc, tree.root(), uri, Some(policy))
    }
}

/// Whether an element has this name in the namespace of feeds, and its condition `if-0install-version` doesn't leave it out:
/// what the readers of single elements ask for. Memory is the one refusal.
pub fn counts_as(alloc: Global, e: &Element, name: &str) -> Result<bool, Memory>
    ensures { IfOk result (λ b. b ≡ counts_as name.now (element_view e.now)) }
{
    Ok(is(e, name) && !is_left_out(alloc, e)?)
}

/// Whether an element is one of the bindings of the format, and its condition `if-0install-version` doesn't leave it out:
/// what `binding_of` asks for. Memory is the one refusal.
pub fn counts_as_binding(alloc: Global, e: &Element) -> Result<bool, Memory>
    ensures { IfOk result (λ b. b ≡ counts_as_binding (element_view e.now)) }
{
    let part = Part::new(e);
    Ok(part.is_ours() && part.is_one_of(BINDINGS.as_slice()) && !is_left_out(alloc, e)?)
}

/// The binding that an element of a selections document means, or the fault of it and all in it. It is one of the bindings
/// of the format, and its condition `if-0install-version` doesn't leave it out. Memory is the other refusal.
pub fn binding_of(alloc: Global, e: &Element) -> Result<Binding, FeedFault>
    requires { counts_as_binding (element_view e.now) ≡ true }
    ensures { Reads (part_fault (element_view e.now)) (binding_of (element_view e.now)) result }
{
    let part = Part::new(e);
    if let Some(fault) = finding::part_fault(alloc, &part)? {
        return Err(bad(fault));
    }
    Ok(zi_parts::binding_of(alloc, &part)?)
}

/// The digests that a `manifest-digest` says, in the order of use, or its fault. Its condition `if-0install-version`
/// doesn't leave it out. Memory is the other refusal.
pub fn digests_of(alloc: Global, e: &Element) -> Result<List<DigestName>, FeedFault>
    requires { counts_as (codes "manifest-digest") (element_view e.now) ≡ true }
    ensures { Reads (part_fault (element_view e.now)) (said_digests (element_view e.now)) result }
{
    let part = Part::new(e);
    if let Some(fault) = finding::part_fault(alloc, &part)? {
        return Err(bad(fault));
    }
    Ok(zi_parts::said_digests(alloc, &part)?)
}

/// The dependency that a `requires` of a selections document means, its address as it is written and without restrictions,
/// or the fault of it and all in it. Its condition `if-0install-version` doesn't leave it out. Memory is the other refusal.
pub fn dep_of(alloc: Global, e: &Element) -> Result<Dep, FeedFault>
    requires { counts_as (codes "requires") (element_view e.now) ≡ true }
    ensures { Reads (part_fault (element_view e.now)) (dep_of AsWritten (element_view e.now)) result }
{
    let part = Part::new(e);
    if let Some(fault) = finding::part_fault(alloc, &part)? {
        return Err(bad(fault));
    }
    Ok(zi_parts::dep_of(alloc, Ways::AsWritten, &part)?)
}

/// The command that a `command` of a selections document means, addresses as they are written and without restrictions, or
/// the fault of it and all in it. Its condition `if-0install-version` doesn't leave it out. Memory is the other refusal.
pub fn command_of(alloc: Global, e: &Element) -> Result<Command, FeedFault>
    requires { counts_as (codes "command") (element_view e.now) ≡ true }
    ensures { Reads (part_fault (element_view e.now)) (command_of AsWritten (element_view e.now)) result }
{
    let part = Part::new(e);
    if let Some(fault) = finding::part_fault(alloc, &part)? {
        return Err(bad(fault));
    }
    Ok(zi_parts::command_of(alloc, Ways::AsWritten, &part)?)
}
