//! Laws of what the program answers, over definitions alone.
ghost use Rattle.std.specs.Prelude.{ℕ, List};
ghost use Rattle.zi_app.specs.Laws.{HasOneCause};
ghost use Rattle.zi_feed.specs.IdLaws.{AreDistinct};
ghost use Rattle.zi_feed.specs.declared.feed.Feed.{Feed};
ghost use Rattle.zi_universe.specs.Loading.{Says};

use zi_doc::one_answer;

/// What stands at an address has one cause: its bytes have one fault or say one feed, and never both.
#[tactic(auto, using(crate::proofs::CauseLaws::one_cause))]
pub fn one_cause()
    ensures { (uri : List ℕ) (bytes : List ℕ) → HasOneCause uri bytes }
{
    one_answer();
}

/// In the feed that stands at an address each implementation has an id of its own.
#[tactic(auto, using(crate::proofs::CauseLaws::ids_apart))]
pub fn ids_differ()
    ensures { (uri : List ℕ) (bytes : List ℕ) (feed : Feed) → Says uri bytes feed → AreDistinct feed.impls }
{}
