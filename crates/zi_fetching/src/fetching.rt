//! All that is selected and isn't there is fetched, in the order of the document.
ghost use Rattle.std.specs.Prelude.{◌≡◌, All};
ghost use Rattle.zi_fetching.specs.Fetching.{from_chosen, names_in, IsFetchable, AreInstalled, FetchesAll};

use crate::item::{fetch_item, first_uninstalled};
use crate::stored::Stored;
use std::alloc::Global;
use zi_choice::Names;
use zi_choosing::Chosen;
use zi_outcome::Outcome;
use zi_outside::Web;
use zi_shelf::Shelf;

/// Fetches what the best choice selects, selection by selection: what is local, is a package of the operating system, or has a digest that
/// was stored when the choice was made or that this call added, is passed over; of any other the first method of its candidate makes a tree
/// of what the web has, and that is added under the first of its digests. The answer is the digest names that are stored then.
///
/// `NotInstalled` comes before anything is fetched, with the first selected package that isn't installed. The first selection that can't be
/// fetched ends it, with an outcome of the making or of the adding; what was added before it stays.
pub fn fetch_all<W: Web, K: Shelf>(
    alloc: Global,
    chosen: &Chosen,
    web: &mut W,
    shelf: &mut K,
) -> Result<Stored, Outcome>
    requires { All (IsFetchable (from_chosen chosen.now) (names_in chosen.now)) chosen.now.sels.items }
    ensures { FetchesAll chosen.now (record { web = W.seen web.old; shelf = K.seen shelf.old }) result (record { web = W.seen web.new; shelf = K.seen shelf.new }) }
{
    let names = Names::of(alloc, &chosen.universe)?;
    let picks = chosen.choice.picks.as_slice();
    let items = chosen.sels.items.as_slice();
    if let Some(name) = first_uninstalled(&names, picks, items) {
        let package = name.copy(alloc)?;
        return Err(Outcome::NotInstalled { package });
    }
    fetch_in_turn(alloc, chosen, &names, web, shelf)
}

// The same, where each package that is selected is installed.
fn fetch_in_turn<W: Web, K: Shelf>(
    alloc: Global,
    chosen: &Chosen,
    names: &Names<'_>,
    web: &mut W,
    shelf: &mut K,
) -> Result<Stored, Outcome>
    requires fetchable { All (IsFetchable (from_chosen chosen.now) (names_in chosen.now)) chosen.now.sels.items }
    requires installed { AreInstalled chosen.now }
    requires names { names.now ≡ chosen.now.universe }
    ensures { FetchesAll chosen.now (record { web = W.seen web.old; shelf = K.seen shelf.old }) result (record { web = W.seen web.new; shelf = K.seen shelf.new }) }
{
    let picks = chosen.choice.picks.as_slice();
    let mut stored = Stored::of(alloc, chosen.known.each.as_slice())?;
    let items = chosen.sels.items.as_slice();
    for item in items {
        fetch_item(alloc, names, picks, item, &mut stored, web, shelf)?;
    }
    Ok(stored)
}
