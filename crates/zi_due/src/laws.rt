//! That what is due comes.
//! Each law is a function without parameters and with no work to do, whose clause is the law.
ghost use Rattle.zi_due.specs.Laws.{NamesAreOne, SelectEndsAsDue, RefuteEndsAsDue, CheckEndsAsDue, TakenFindsNone, WaysMakeOne, TextsAreOne, LoadingsAreOne, LaunchesAreOne};

use zi_packages::laws::{bad_line_is_one, table_is_one};
use zi_plan::{one_plan, one_shims};
use zi_proof::laws::a_text_has_one_certificate;
use zi_sels::one_reading;
use zi_universe::laws::{one_refusal, one_universe, universe_excludes};
use zi_words::laws::one_request;

/// A store has one list of digest names: each once, in byte order.
pub fn names_are_one()
    ensures { NamesAreOne }
{}

/// Where each of the 10,000 temporary names is taken, the adding of a tree that nobody disturbs finds no place for it: it is answered neither
/// that the tree was stored nor that its name was there.
pub fn taken_finds_none()
    ensures { TakenFindsNone }
{}

/// What a web holds makes one thing by a way to fetch: a tree, or its first fault. A failed call and want of memory may come in the place of either.
pub fn ways_make_one()
    ensures { WaysMakeOne }
{}

/// What is due of a choice comes, whatever is shown of it.
pub fn select_ends_as_due()
    ensures { SelectEndsAsDue }
{
    one_universe();
    universe_excludes();
    one_refusal();
}

/// What is due of a proof comes.
pub fn refute_ends_as_due()
    ensures { RefuteEndsAsDue }
{
    one_universe();
    universe_excludes();
    one_refusal();
    a_text_has_one_certificate();
}

/// What is due of selections and their certificate comes.
pub fn check_ends_as_due()
    ensures { CheckEndsAsDue }
{
    one_universe();
    universe_excludes();
    one_refusal();
    one_reading();
    a_text_has_one_certificate();
}

/// All of these at once, for whoever says that what is due comes, and that words make one request, feeds one universe or one refusal, and
/// selections one plan and one list of shims.
pub fn what_is_due_comes()
    ensures select { SelectEndsAsDue }
    ensures refute { RefuteEndsAsDue }
    ensures check { CheckEndsAsDue }
    ensures texts { TextsAreOne }
    ensures loadings { LoadingsAreOne }
    ensures launches { LaunchesAreOne }
{
    select_ends_as_due();
    refute_ends_as_due();
    check_ends_as_due();
    table_is_one();
    bad_line_is_one();
    one_reading();
    one_request();
    one_universe();
    universe_excludes();
    one_refusal();
    one_plan();
    one_shims();
}
