//! The one walk over a feed: it lists the elements that are read, each with what is said along its path, and gathers the
//! implementations and packages, with what stands along theirs.
ghost use Rattle.std.specs.Prelude.{◌≡◌, true, false, [], ◌∷◌, if◌then◌else◌, ◌++◌, ◌&&◌, ◌||◌, not, IfOk, codes, map, option_copied};
ghost use Rattle.zi_elements.specs.Forest.{element_view, node_view, nodes_view};
ghost use Rattle.zi_reading.specs.Ways.{InFeed, ways_of};
ghost use Rattle.zi_reading.specs.Words.{optional};
ghost use Rattle.zi_reading.specs.Reading.{is, is_closed};
ghost use Rattle.zi_faults.specs.Carrying.{IsChecked, AreChecked, seen_view, said_by, carried_sites, carried_at, sites_in, seen_within};
ghost use Rattle.zi_feed.specs.Active.{kept_feed};
ghost use Rattle.zi_faults.specs.Faults.{is_impl, counts};
ghost use Rattle.zi_feed.specs.Feeds.{feed_of};
ghost use Rattle.zi_feed.specs.Impls.{langs_of};
ghost use Rattle.zi_feed.specs.Natives.{is_package, counts_native};
ghost use Rattle.zi_feed.specs.Inward.{made_of, IsAdded, impl_at, native_at, carried_impls, carried_impls_in, carried_natives, carried_natives_in};
ghost use Rattle.zi_feed.specs.Shares.{IsGathered, NumbersFit, Gathers};

use crate::around::{Around, around_nothing, around_with};
use crate::impls::impl_at;
use crate::natives::native_at;
use crate::shares::{Gathered, NativeNumbers, Shares};
use std::alloc::Global;
use zi_elements::Node;
use zi_faults::{Seen, see, walk};
use zi_policy::Policy;
use zi_reading::{Kind, Part, Ways, is_closed, stands};
use zi_text::{List, Memory};

/// What was found so far.
#[derive(Drop)]
pub struct Found<'a> {
    /// The elements that are read, in document order.
    pub seen: Vec<Seen<'a>>,
    /// The implementations, and what is said of packages, with what they share.
    pub gathered: Gathered,
}

// Adds the elements that are read inside one, and the implementations and packages, where this stands along their groups.
#[cycle(gathering)]
fn gather<'a>(
    alloc: Global,
    ways: Ways,
    policy: Option<&Policy>,
    parent: &Part<'a>,
    around: &Around<'a>,
    found: &mut Found<'a>,
) -> Result<(), Memory>
    requires checked { IsChecked (ways_of ways) around.now.said }
    requires added { IsAdded around.now.added }
    requires made { around.now.made ≡ made_of (ways_of ways) (said_by around.now.said) }
    requires shared { IsGathered found.old.gathered }
    requires fit { NumbersFit found.old.gathered.shares around.now.numbers around.now.made.version around.now.made.langs around.now.added.deps }
    ensures checked { IfOk result (λ _. AreChecked (ways_of ways.entry) found.old.seen.items → AreChecked (ways_of ways.entry) found.new.seen.items) }
    ensures seen { IfOk result (λ _. map seen_view found.new.seen.items
        ≡ map seen_view found.old.seen.items ++ carried_sites (ways_of ways.entry) (said_by around.now.said) parent.now.name (nodes_view parent.now.children)) }
    ensures impls { IfOk result (λ _. found.new.gathered.impls
        ≡ found.old.gathered.impls ++ carried_impls (ways_of ways.entry) (option_copied policy.entry) (said_by around.now.said, around.now.added) parent.now.name (nodes_view parent.now.children)) }
    ensures natives { IfOk result (λ _. found.new.gathered.natives
        ≡ found.old.gathered.natives ++ carried_natives (ways_of ways.entry) (option_copied policy.entry) (said_by around.now.said, around.now.added) parent.now.name (nodes_view parent.now.children)) }
    ensures shares { IfOk result (λ _. Gathers found.old.gathered found.new.gathered) }
{
    for node in parent.element().children.as_slice() {
        gather_node(alloc, ways, policy, parent, node, around, found)?;
    }
    Ok(())
}

// The same at a node.
#[cycle(gathering)]
#[tactic(auto, using(zi_faults::proofs::SeenLaws::seeing), unfolding(crate::specs::Inward::carried_impls, crate::specs::Inward::carried_natives, zi_faults::specs::Carrying::carried_sites))]
fn gather_node<'a>(
    alloc: Global,
    ways: Ways,
    policy: Option<&Policy>,
    parent: &Part<'a>,
    node: &'a Node,
    around: &Around<'a>,
    found: &mut Found<'a>,
) -> Result<(), Memory>
    requires checked { IsChecked (ways_of ways) around.now.said }
    requires added { IsAdded around.now.added }
    requires made { around.now.made ≡ made_of (ways_of ways) (said_by around.now.said) }
    requires shared { IsGathered found.old.gathered }
    requires fit { NumbersFit found.old.gathered.shares around.now.numbers around.now.made.version around.now.made.langs around.now.added.deps }
    ensures checked { IfOk result (λ _. AreChecked (ways_of ways.entry) found.old.seen.items → AreChecked (ways_of ways.entry) found.new.seen.items) }
    ensures seen { IfOk result (λ _. map seen_view found.new.seen.items
        ≡ map seen_view found.old.seen.items ++ carried_at (ways_of ways.entry) (said_by around.now.said) parent.now.name node.now) }
    ensures impls { IfOk result (λ _. found.new.gathered.impls
        ≡ found.old.gathered.impls ++ carried_impls (ways_of ways.entry) (option_copied policy.entry) (said_by around.now.said, around.now.added) parent.now.name (node_view node.now)) }
    ensures natives { IfOk result (λ _. found.new.gathered.natives
        ≡ found.old.gathered.natives ++ carried_natives (ways_of ways.entry) (option_copied policy.entry) (said_by around.now.said, around.now.added) parent.now.name (node_view node.now)) }
    ensures shares { IfOk result (λ _. Gathers found.old.gathered found.new.gathered) }
{
    match node {
        Node::Child(e) => gather_at(alloc, ways, policy, parent, &Part::new(e), around, found),
        Node::Words(_) => Ok(()),
    }
}

// The same at an element.
#[cycle(gathering)]
fn gather_at<'a>(
    alloc: Global,
    ways: Ways,
    policy: Option<&Policy>,
    parent: &Part<'a>,
    e: &Part<'a>,
    around: &Around<'a>,
    found: &mut Found<'a>,
) -> Result<(), Memory>
    requires checked { IsChecked (ways_of ways) around.now.said }
    requires added { IsAdded around.now.added }
    requires made { around.now.made ≡ made_of (ways_of ways) (said_by around.now.said) }
    requires shared { IsGathered found.old.gathered }
    requires fit { NumbersFit found.old.gathered.shares around.now.numbers around.now.made.version around.now.made.langs around.now.added.deps }
    ensures checked { IfOk result (λ _. AreChecked (ways_of ways.entry) found.old.seen.items → AreChecked (ways_of ways.entry) found.new.seen.items) }
    ensures seen { IfOk result (λ _. map seen_view found.new.seen.items
        ≡ map seen_view found.old.seen.items ++ sites_in (ways_of ways.entry) (said_by around.now.said) parent.now.name (element_view e.now)) }
    ensures impls { IfOk result (λ _. found.new.gathered.impls
        ≡ found.old.gathered.impls ++ carried_impls_in (ways_of ways.entry) (option_copied policy.entry) (said_by around.now.said, around.now.added) parent.now.name (element_view e.now)) }
    ensures natives { IfOk result (λ _. found.new.gathered.natives
        ≡ found.old.gathered.natives ++ carried_natives_in (ways_of ways.entry) (option_copied policy.entry) (said_by around.now.said, around.now.added) parent.now.name (element_view e.now)) }
    ensures shares { IfOk result (λ _. Gathers found.old.gathered found.new.gathered) }
{
    if !stands(alloc, ways, parent, e)? {
        return Ok(());
    }
    if !gathers(alloc, e)? {
        return see(alloc, ways, e, around.said, &mut found.seen);
    }
    let inner = around_with(alloc, ways, policy, around, e, &mut found.gathered.shares)?;
    found.seen.push(Seen {
        element: e.again(),
        said: inner.said,
    })?;
    if e.is(Kind::Group) {
        return gather(alloc, ways, policy, e, &inner, found);
    }
    walk(alloc, ways, e, inner.said, &mut found.seen)?;
    add_at(alloc, ways, &inner, e, &mut found.gathered)
}

// Whether an element is an implementation or names a package.
fn is_one(e: &Part) -> bool
    ensures { result ≡ (is_impl (element_view e.now) || is_package (element_view e.now)) }
{
    e.is(Kind::Implementation) || e.is(Kind::PackageImplementation)
}

// Whether an element is a group, an implementation or one that names a package, and something is read in it.
fn gathers(alloc: Global, e: &Part) -> Result<bool, Memory>
    ensures { IfOk result
        (λ b. b ≡ ((is (codes "group") (element_view e.now) || (is_impl (element_view e.now) || is_package (element_view e.now))) && not (is_closed (element_view e.now)))) }
{
    Ok((e.is(Kind::Group) || is_one(e)) && !is_closed(alloc, e)?)
}

// Adds an implementation or what is said of a package, with its numbers.
fn add_at(
    alloc: Global,
    ways: Ways,
    around: &Around,
    e: &Part,
    found: &mut Gathered,
) -> Result<(), Memory>
    requires one { (is_impl (element_view e.now) || is_package (element_view e.now)) ≡ true }
    requires read { is_closed (element_view e.now) ≡ false }
    requires added { IsAdded around.now.added }
    requires made { around.now.made ≡ made_of (ways_of ways) (said_by around.now.said) }
    requires shared { IsGathered found.old }
    requires fit { NumbersFit found.old.shares around.now.numbers around.now.made.version around.now.made.langs around.now.added.deps }
    ensures impls { IfOk result (λ _. found.new.impls
        ≡ found.old.impls ++ (if counts (element_view e.now) then optional (impl_at (ways_of ways.entry) (said_by around.now.said) around.now.added (element_view e.now)) else [])) }
    ensures natives { IfOk result (λ _. found.new.natives
        ≡ found.old.natives ++ (if counts_native (element_view e.now) then native_at (said_by around.now.said) around.now.added (element_view e.now) ∷ [] else [])) }
    ensures shares { IfOk result (λ _. Gathers found.old found.new) }
{
    if e.is(Kind::Implementation) {
        return add_impl(alloc, ways, around, e, found);
    }
    add_native(alloc, around, e, found)
}

// Adds an implementation, with its numbers.
fn add_impl(
    alloc: Global,
    ways: Ways,
    around: &Around,
    e: &Part,
    found: &mut Gathered,
) -> Result<(), Memory>
    requires added { IsAdded around.now.added }
    requires made { around.now.made ≡ made_of (ways_of ways) (said_by around.now.said) }
    requires shared { IsGathered found.old }
    requires fit { NumbersFit found.old.shares around.now.numbers around.now.made.version around.now.made.langs around.now.added.deps }
    ensures impls { IfOk result (λ _. found.new.impls ≡ found.old.impls ++ optional (impl_at (ways_of ways.entry) (said_by around.now.said) around.now.added (element_view e.now))) }
    ensures natives { IfOk result (λ _. found.new.natives ≡ found.old.natives) }
    ensures shares { IfOk result (λ _. Gathers found.old found.new) }
{
    let imp = impl_at(alloc, ways, around, e)?;
    match imp {
        None => Ok(()),
        Some(imp) => found.push(imp, around.numbers),
    }
}

// Adds what is said of a package, with its numbers.
fn add_native(alloc: Global, around: &Around, e: &Part, found: &mut Gathered) -> Result<(), Memory>
    requires added { IsAdded around.now.added }
    requires langs { around.now.made.langs ≡ langs_of (said_by around.now.said).langs }
    requires shared { IsGathered found.old }
    requires fit { NumbersFit found.old.shares around.now.numbers around.now.made.version around.now.made.langs around.now.added.deps }
    ensures impls { IfOk result (λ _. found.new.impls ≡ found.old.impls) }
    ensures natives { IfOk result (λ _. found.new.natives ≡ found.old.natives ++ native_at (said_by around.now.said) around.now.added (element_view e.now) ∷ []) }
    ensures shares { IfOk result (λ _. Gathers found.old found.new) }
{
    let native = native_at(alloc, around, e)?;
    let numbers = NativeNumbers {
        langs: around.numbers.langs,
        level: around.numbers.level,
    };
    found.push_native(native, numbers)
}

/// The elements that are read in a feed, and its implementations and packages, with what is active of them under a policy; all of it
/// where there is none.
pub fn found_in<'a>(
    alloc: Global,
    root: &Part<'a>,
    uri: &str,
    policy: Option<&Policy>,
) -> Result<Found<'a>, Memory>
    ensures seen { IfOk result (λ f. map seen_view f.seen.items ≡ seen_within (InFeed uri.now) (element_view root.now)) }
    ensures checked { IfOk result (λ f. AreChecked (InFeed uri.now) f.seen.items) }
    ensures impls { IfOk result (λ f. f.gathered.impls ≡ (kept_feed (option_copied policy.entry) (feed_of (element_view root.now) uri.now)).impls) }
    ensures natives { IfOk result (λ f. f.gathered.natives ≡ (kept_feed (option_copied policy.entry) (feed_of (element_view root.now) uri.now)).natives) }
    ensures shares { IfOk result (λ f. IsGathered f.gathered) }
{
    let around = around_nothing(alloc, Ways::InFeed(uri))?;
    let shares = Shares::nothing(alloc)?;
    let room = Vec::with_capacity(alloc, 1)?;
    let impls = List::from_vec(room);
    let natives = List::new(alloc);
    let gathered = Gathered {
        impls,
        natives,
        shares,
    };
    let seen = Vec::new(alloc);
    let mut found = Found { seen, gathered };
    gather(alloc, Ways::InFeed(uri), policy, root, &around, &mut found)?;
    Ok(found)
}
