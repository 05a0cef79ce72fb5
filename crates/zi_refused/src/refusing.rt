//! What of feeds is no candidate for an interface.
ghost use Rattle.std.specs.Prelude.{◌≡◌, ◌++◌, [], IfOk, OnOk};
ghost use Rattle.std.specs.List.{cons_option, filter_map, flat_map};
ghost use Rattle.zi_packages.specs.Picks.{picked, all_picked};
ghost use Rattle.zi_universe.specs.Candidates.{all_impls};
ghost use Rattle.zi_universe.specs.Loading.{store_of};
ghost use Rattle.zi_refused.specs.Refused.{refusal_at, refused_by, refused};

use crate::refusal::Refusal;
use crate::standing::refusal;
use crate::terms::Terms;
use std::alloc::Global;
use zi_feed::Feed;
use zi_packages::Pick;
use zi_parts::Impl;
use zi_text::{List, Memory, Text};

// Adds an implementation, if it is no candidate.
fn add_impl(
    alloc: Global,
    terms: &Terms,
    interface: &Text,
    imp: &Impl,
    refusals: &mut List<Refusal>,
) -> Result<(), Memory>
    ensures { OnOk result (refusals.new ≡ refusals.old ++ cons_option (refusal_at terms.now.req terms.now.policy (store_of terms.now) interface.now imp.now) []) }
{
    match refusal(alloc, terms, interface, imp)? {
        None => Ok(()),
        Some(one) => refusals.push(one),
    }
}

// Adds those of implementations that are no candidates.
fn add_impls(
    alloc: Global,
    terms: &Terms,
    interface: &Text,
    impls: &[Impl],
    refusals: &mut List<Refusal>,
) -> Result<(), Memory>
    ensures { OnOk result (refusals.new ≡ refusals.old ++ filter_map (refusal_at terms.now.req terms.now.policy (store_of terms.now) interface.now) impls.now) }
{
    for imp in impls {
        add_impl(alloc, terms, interface, imp, refusals)?;
    }
    Ok(())
}

// Adds the implementation of a row that was picked, if it is no candidate.
fn add_row(
    alloc: Global,
    terms: &Terms,
    interface: &Text,
    pick: &Pick,
    refusals: &mut List<Refusal>,
) -> Result<(), Memory>
    ensures { OnOk result (refusals.new ≡ refusals.old ++ cons_option (refusal_at terms.now.req terms.now.policy (store_of terms.now) interface.now (picked pick.now)) []) }
{
    let imp = pick.row.implementation(alloc, pick.native)?;
    add_impl(alloc, terms, interface, &imp, refusals)
}

// Adds those of rows that were picked.
fn add_rows(
    alloc: Global,
    terms: &Terms,
    interface: &Text,
    picks: &[Pick],
    refusals: &mut List<Refusal>,
) -> Result<(), Memory>
    ensures { OnOk result (refusals.new ≡ refusals.old ++ filter_map (refusal_at terms.now.req terms.now.policy (store_of terms.now) interface.now) (all_picked picks.now)) }
{
    for pick in picks {
        add_row(alloc, terms, interface, pick, refusals)?;
    }
    Ok(())
}

// Adds what of a feed is no candidate: of its implementations, and of the packages that it names.
fn add_feed(
    alloc: Global,
    terms: &Terms,
    interface: &Text,
    feed: &Feed,
    refusals: &mut List<Refusal>,
) -> Result<(), Memory>
    ensures { OnOk result (refusals.new ≡ refusals.old ++ refused_by terms.now.req terms.now.policy (store_of terms.now) interface.now feed.now) }
{
    let impls = feed.impls.as_slice();
    let picks = terms.rows().picks(alloc, impls, feed.natives.as_slice())?;
    add_impls(alloc, terms, interface, impls, refusals)?;
    add_rows(alloc, terms, interface, picks.as_slice(), refusals)
}

/// What of these feeds is no candidate for an interface, with the first of six reasons for each, feed by feed: of the implementations of
/// a feed in its order, and behind them of the rows of packages that it names. Memory is the one refusal.
pub fn refused(
    alloc: Global,
    terms: &Terms,
    interface: &Text,
    feeds: &[Feed],
) -> Result<List<Refusal>, Memory>
    ensures { IfOk result (λ rs. rs ≡ refused terms.now.req terms.now.policy (store_of terms.now) interface.now feeds.now) }
{
    let mut refusals = List::new(alloc);
    for feed in feeds {
        add_feed(alloc, terms, interface, feed, &mut refusals)?;
    }
    Ok(refusals)
}
