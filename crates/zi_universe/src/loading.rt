//! The loading, interface by interface.
ghost use Rattle.std.specs.Prelude.{◌≡◌, ◌+◌, ◌<◌, ◌≤◌, length, slice_get, Some, IfOk, IfErr, OnOk, MatchResult};
ghost use Rattle.zi_outside.specs.Views.{holding};
ghost use Rattle.zi_universe.specs.Loading.{store_of};
ghost use Rattle.zi_universe.specs.Whole.{BeginsWith, most_feeds, most_candidates};
ghost use Rattle.zi_universe.specs.Tables.{addresses};
ghost use Rattle.zi_universe.specs.Loading.{task_of, names_of, LoadsAsking, RefusesAsking};
ghost use Rattle.zi_universe.specs.Offering.{candidates_of, AreNumbered};
ghost use Rattle.zi_universe.specs.Stages.{Gathers, IsAt, IsBegun, Finishes, StopsFinishing, LoadsNext};
ghost use Rattle.zi_universe.specs.Asked.{GetsMore, LeavesLooking, StopsLoading};

use crate::fault::LoadFault;
use crate::feeds::list_feeds;
use crate::limits::{MOST_CANDIDATES, MOST_INTERFACES};
use crate::naming::{add_asked, copy_at, single};
use crate::offers::{Offered, Offers, gather};
use crate::ranking::rank;
use crate::table::FeedTable;
use crate::types::{Candidate, Interface, Requirement};
use crate::universe::Universe;
use crate::wanted::Wanted;
use indexmap::IndexSet;
use std::alloc::Global;
use std::mem;
use zi_digest::DigestName;
use zi_outside::Feeds;
use zi_packages::Packages;
use zi_policy::Policy;
use zi_text::{List, Memory, Text};

/// How far a loading has come.
#[derive(Drop)]
struct Loading {
    /// The addresses of the interfaces that are asked for, as they were first asked for.
    names: IndexSet<Text>,
    /// The feeds got so far.
    table: FeedTable,
    /// The interfaces that are done: the first of those that are asked for.
    done: List<Interface>,
    /// The number of their candidates.
    count: usize,
}

// Nothing is done; the root is asked for.
fn begin(alloc: Global, req: &Requirement) -> Result<Loading, Memory>
    ensures { IfOk result (IsBegun req.now.interface) }
{
    let names = single(alloc, &req.interface)?;
    Ok(Loading {
        names,
        table: FeedTable::new(alloc),
        done: List::new(alloc),
        count: 0,
    })
}

// The candidates alone.
fn candidates_in(alloc: Global, offered: Vec<Offered>) -> Result<Vec<Candidate>, Memory>
    ensures { IfOk result (λ cs. cs.items ≡ candidates_of offered.items) }
{
    let mut candidates = Vec::with_capacity(alloc, offered.len())?;
    for one in offered {
        let Offered { candidate, .. } = one;
        candidates.push(candidate)?;
    }
    Ok(candidates)
}

// An interface with these candidates, which are ranked and counted, and what they ask for is named.
fn finish(
    alloc: Global,
    wanted: &Wanted,
    uri: Text,
    offers: Offers,
    state: &mut Loading,
) -> Result<(), LoadFault>
    requires few { state.old.count ≤ most_candidates }
    requires numbered { AreNumbered offers.feeds offers.offered.items }
    ensures { MatchResult result (λ _. Finishes wanted.now.policy uri (candidates_of offers.offered.items) state.old state.new)
        (StopsFinishing wanted.now.policy (candidates_of offers.offered.items) state.old) }
{
    let Offers { offered, feeds } = offers;
    if offered.len() > MOST_CANDIDATES - state.count {
        let limit = MOST_CANDIDATES as u64;
        return Err(LoadFault::TooManyCandidates { limit });
    }
    state.count += offered.len();
    let shares = feeds.as_slice();
    let ranked = rank(alloc, shares, offered, wanted.policy())?;
    let all = ranked.as_slice();
    add_asked(alloc, shares, all, &mut state.names)?;
    if state.names.len() > MOST_INTERFACES {
        let limit = MOST_INTERFACES as u64;
        return Err(LoadFault::TooManyInterfaces { limit });
    }
    let items = candidates_in(alloc, ranked)?;
    let candidates = List::from_vec(items);
    state.done.push(Interface { uri, candidates })?;
    Ok(())
}

// What the feeds of an interface, which are got first, offer for it.
fn look_for<F: Feeds>(
    alloc: Global,
    wanted: &Wanted,
    uri: &Text,
    table: &mut FeedTable,
    feeds: &mut F,
) -> Result<Offers, LoadFault>
    requires { length table.old ≤ most_feeds }
    ensures gathers { MatchResult result
        (λ os. Gathers (holding (F.seen feeds.old)) wanted.now.req wanted.now.policy (store_of wanted.now) uri.now table.old (candidates_of os.offered.items) table.new)
        (λ e. LeavesLooking (holding (F.seen feeds.old)) wanted.now.req wanted.now.policy (store_of wanted.now) uri.now table.old (F.seen feeds.old) e (F.seen feeds.new)) }
    ensures asks { OnOk result (GetsMore (addresses table.old) (addresses table.new) (F.seen feeds.old) (F.seen feeds.new)) }
    ensures numbered { IfOk result (λ os. AreNumbered os.feeds os.offered.items) }
{
    let here = list_feeds(
        alloc,
        &wanted.req().interface,
        wanted.policy(),
        uri,
        table,
        feeds,
    )?;
    gather(alloc, wanted, uri, table, here.as_slice())
}

// The first of the interfaces that are asked for and aren't done.
fn load_next<F: Feeds>(
    alloc: Global,
    wanted: &Wanted,
    state: &mut Loading,
    feeds: &mut F,
) -> Result<(), LoadFault>
    requires at { IsAt (holding (F.seen feeds.old)) wanted.now.req wanted.now.policy (store_of wanted.now) state.old }
    requires more { length state.old.done < length state.old.names.keys }
    ensures next { MatchResult result
        (λ _. LoadsNext (holding (F.seen feeds.old)) wanted.now.req wanted.now.policy (store_of wanted.now) state.old state.new)
        (λ e. StopsLoading (holding (F.seen feeds.old)) wanted.now.req wanted.now.policy (store_of wanted.now) (addresses state.old.table) (F.seen feeds.old) e (F.seen feeds.new)) }
    ensures asks { OnOk result (GetsMore (addresses state.old.table) (addresses state.new.table) (F.seen feeds.old) (F.seen feeds.new)) }
{
    let uri = copy_at(alloc, &state.names, state.done.len())?;
    let offers = look_for(alloc, wanted, &uri, &mut state.table, feeds)?;
    finish(alloc, wanted, uri, offers, state)
}

// All that are asked for. The feeds stay in memory, since the program ends soon, and what candidates share with them lies among them.
fn load_all<F: Feeds>(
    alloc: Global,
    wanted: &Wanted,
    feeds: &mut F,
) -> Result<List<Interface>, LoadFault>
    ensures all { MatchResult result
        (λ is. LoadsAsking (task_of wanted.now) (F.seen feeds.old) is (F.seen feeds.new))
        (λ e. RefusesAsking (task_of wanted.now) (F.seen feeds.old) e (F.seen feeds.new)) }
{
    let mut state = begin(alloc, wanted.req())?;
    while state.done.len() < state.names.len() {
        load_next(alloc, wanted, &mut state, feeds)?;
    }
    let Loading { done, table, .. } = state;
    mem::forget(table);
    Ok(done)
}

/// The universe of a requirement under a policy: the root's interface and, as long as more are asked for, those that active
/// dependencies and runners of candidates ask for, each with its candidates in rank order. `stored` has the digests of the
/// trees that the store holds, `packages` the packages of the operating system, of which those that feeds name are candidates.
///
/// Each feed is got once, when it is first reached: the feeds of an interface are its own and those that these import,
/// unless an import is skipped. The first refusal that is met is answered; for one feed the order is: the object failed,
/// too many bytes, an absent root, bad bytes. A limit is passed as the number would pass it: a feed counts before it is got,
/// an interface's candidates once its feeds are there, and interfaces as candidates ask for them. `Memory` says nothing.
pub fn load<F: Feeds>(
    alloc: Global,
    req: &Requirement,
    policy: &Policy,
    stored: &[DigestName],
    packages: &Packages,
    feeds: &mut F,
) -> Result<Universe, LoadFault>
    ensures loads { IfOk result (λ u. LoadsAsking (record { req = req.now; policy = policy.now; stored = names_of stored.now packages.now }) (F.seen feeds.old) u (F.seen feeds.new)) }
    ensures refuses { IfErr result (λ e. RefusesAsking (record { req = req.now; policy = policy.now; stored = names_of stored.now packages.now }) (F.seen feeds.old) e (F.seen feeds.new)) }
    ensures rooted { IfOk result (λ u. BeginsWith u req.now.interface) }
{
    let wanted = Wanted::new(alloc, req, policy, stored, packages)?;
    let interfaces = load_all(alloc, &wanted, feeds)?;
    Ok(Universe::from_whole(interfaces))
}
