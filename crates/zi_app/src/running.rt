//! The work of any words, and the line of how it ended.
ghost use Rattle.std.specs.Prelude.{◌≡◌, ℕ, map};
ghost use Rattle.zi_app.specs.Answers.{Answers, Works, Runs};
ghost use Rattle.zi_outcome.specs.declared.outcome.Outcome.TheVariants.{Child};
ghost use Rattle.zi_outcome.specs.Line.{Tells};
ghost use Rattle.zi_app.specs.Words.{IsInForm, Stops, RefusesWords, words_outcome};

use crate::help::{HELP, VERSION};
use std::alloc::Global;
use zi_choosing::{Asked, check, demonstrate, explain, refute, select, tell_conflict};
use zi_due::what_is_due_comes;
use zi_fetching::download;
use zi_launching::launch;
use zi_outcome::{Outcome, put_text, tell};
use zi_outside::{Feeds, Sink, SinkFault, Spawner, Vars, Web};
use zi_scripting::{script, script_file};
use zi_shelf::Shelf;
use zi_showing::show;
use zi_storing::{add, list, manifest, purge, verify_tree};
use zi_text::Text;
use zi_words::{Request, WordsFault};

/// Does all that the program does: reads the words, does what they ask for, and writes the line of how that ended.
///
/// Trees are stored in several stores: `shelf` is the one that is written, and `others` are read besides, in the order in which
/// they are searched, behind it.
///
/// `select` finds out which digests are in which store and, by the table that `ZI_PACKAGES` names among the variables, which packages the
/// system has; it loads the universe that its words ask for, and writes the document of the best choice, a certificate of it, or a
/// proof that there is none. `why` chooses so too, and writes why each candidate that the best choice passes over isn't chosen;
/// `conflict` writes what leaves no choice; `refute` loads the same, and says whether a proof shows that there is none, and `check`
/// whether selections are the best choice. `download` chooses as `select` does, fetches from the web what is selected and no store has,
/// and writes the document, where each package that is selected is installed; `run` fetches as `download` does and starts the program,
/// and `launch` starts that of a document of selections, each once every stored tree in it was read and found to be what its name says.
/// `script` does all that `run`, or `launch`, does up to the start, and writes the launch as a script for the shell.
/// `show` reads a document of selections, and writes its selections as people read them, and which of them are stored.
/// `manifest` and `store verify` read the first store that has the tree, and `store list` reads all; `store add` puts files into the
/// one that is written, as a tree, and `store purge` takes away from it each tree whose digest no selection in its files has. `demo`
/// counts what the best choice of a demonstration selects, whose feeds it makes itself; `--help` and `--version`
/// write their texts.
pub fn run<F: Feeds, K: Shelf, R: Shelf, W: Web, P: Spawner, O: Sink, E: Sink>(
    alloc: Global,
    words: &[Text],
    vars: &Vars,
    feeds: &mut F,
    shelf: &mut K,
    others: &mut [R],
    web: &mut W,
    spawner: &mut P,
    out: &mut O,
    err: &mut E,
) -> Outcome
    ensures { Runs words.now vars.now
        (record { feeds = F.seen feeds.old; shelf = K.seen shelf.old; others = map R.seen others.old; web = W.seen web.old; spawner = P.seen spawner.old; out = O.seen out.old })
        (record { feeds = F.seen feeds.new; shelf = K.seen shelf.new; others = map R.seen others.new; web = W.seen web.new; spawner = P.seen spawner.new; out = O.seen out.new })
        (E.seen err.old) (E.seen err.new) result }
{
    what_is_due_comes();
    let outcome = work(alloc, words, vars, feeds, shelf, others, web, spawner, out);
    told(outcome, err)
}

/// Refuses words of which one isn't text. `words` are those before the first such word, which is right nowhere: the index is
/// the number of words in their longest front that right words begin with, so at most their number. Nothing is done but that
/// the line of how it ended is written.
pub fn refuse<E: Sink>(alloc: Global, words: &[Text], err: &mut E) -> Outcome
    ensures { RefusesWords words.now (E.seen err.old) (E.seen err.new) result }
{
    let outcome = stopped(alloc, words);
    told(outcome, err)
}

// The work of any words.
#[tactic(auto, using(crate::proofs::RunLemmas::in_form))]
fn work<F: Feeds, K: Shelf, R: Shelf, W: Web, P: Spawner, O: Sink>(
    alloc: Global,
    words: &[Text],
    vars: &Vars,
    feeds: &mut F,
    shelf: &mut K,
    others: &mut [R],
    web: &mut W,
    spawner: &mut P,
    out: &mut O,
) -> Outcome
    ensures { Works words.now vars.now
        (record { feeds = F.seen feeds.old; shelf = K.seen shelf.old; others = map R.seen others.old; web = W.seen web.old; spawner = P.seen spawner.old; out = O.seen out.old })
        (record { feeds = F.seen feeds.new; shelf = K.seen shelf.new; others = map R.seen others.new; web = W.seen web.new; spawner = P.seen spawner.new; out = O.seen out.new })
        result }
{
    match Request::read(alloc, words) {
        Ok(request) => answer(
            alloc, request, vars, feeds, shelf, others, web, spawner, out,
        ),
        Err(fault) => unread(fault),
    }
}

// The outcome of words that aren't read.
fn unread(fault: WordsFault) -> Outcome
    ensures { result ≡ words_outcome fault }
{
    match fault {
        WordsFault::Usage { index } => Outcome::Usage { index },
        WordsFault::Memory => Outcome::Memory,
    }
}

// The work of a request.
#[tactic(auto, using(crate::proofs::RunLemmas::answering))]
fn answer<F: Feeds, K: Shelf, R: Shelf, W: Web, P: Spawner, O: Sink>(
    alloc: Global,
    request: Request,
    vars: &Vars,
    feeds: &mut F,
    shelf: &mut K,
    others: &mut [R],
    web: &mut W,
    spawner: &mut P,
    out: &mut O,
) -> Outcome
    requires { IsInForm request }
    ensures { Answers request vars.now
        (record { feeds = F.seen feeds.old; shelf = K.seen shelf.old; others = map R.seen others.old; web = W.seen web.old; spawner = P.seen spawner.old; out = O.seen out.old })
        (record { feeds = F.seen feeds.new; shelf = K.seen shelf.new; others = map R.seen others.new; web = W.seen web.new; spawner = P.seen spawner.new; out = O.seen out.new })
        result }
{
    match request {
        Request::Select { ask, proof } => {
            let Ok(asked) = Asked::by(alloc, ask, vars) else {
                return Outcome::Memory;
            };
            select(alloc, asked, proof, feeds, shelf, others, out)
        }
        Request::Why { ask } => {
            let Ok(asked) = Asked::by(alloc, ask, vars) else {
                return Outcome::Memory;
            };
            explain(alloc, asked, feeds, shelf, others, out)
        }
        Request::Conflict { ask } => {
            let Ok(asked) = Asked::by(alloc, ask, vars) else {
                return Outcome::Memory;
            };
            tell_conflict(alloc, asked, feeds, shelf, others, out)
        }
        Request::Refute { ask, proof } => {
            let Ok(asked) = Asked::by(alloc, ask, vars) else {
                return Outcome::Memory;
            };
            refute(alloc, asked, proof, feeds, shelf, others, out)
        }
        Request::Download { ask } => {
            let Ok(asked) = Asked::by(alloc, ask, vars) else {
                return Outcome::Memory;
            };
            download(alloc, asked, feeds, shelf, others, web, out)
        }
        Request::Run { ask, user } => {
            let Ok(asked) = Asked::by(alloc, ask, vars) else {
                return Outcome::Memory;
            };
            let user = user.as_slice();
            zi_launching::run(alloc, asked, user, vars, feeds, shelf, others, web, spawner)
        }
        Request::Launch { file, user } => {
            launch(
                alloc,
                file,
                user.as_slice(),
                vars,
                feeds,
                shelf,
                others,
                spawner,
            )
        }
        Request::Script { ask, user } => {
            let Ok(asked) = Asked::by(alloc, ask, vars) else {
                return Outcome::Memory;
            };
            let user = user.as_slice();
            script(alloc, asked, user, vars, feeds, shelf, others, web, out)
        }
        Request::ScriptLaunch { file, user } => {
            let words = user.as_slice();
            script_file(alloc, file, words, vars, feeds, shelf, others, out)
        }
        Request::Check { ask, sels, proof } => {
            let Ok(asked) = Asked::by(alloc, ask, vars) else {
                return Outcome::Memory;
            };
            check(alloc, asked, sels, proof, feeds, shelf, others, out)
        }
        Request::Manifest { algorithm, name } => manifest(
            alloc, algorithm, name, shelf, others, out,
        ),
        Request::Add { name, files } => add(alloc, name, files, feeds, shelf, out),
        Request::Purge { files } => purge(alloc, files, feeds, shelf, out),
        Request::Verify { name } => verify_tree(alloc, name, shelf, others, out),
        Request::Names => list(alloc, shelf, others, out),
        Request::Show { file } => show(alloc, file, feeds, shelf, others, out),
        Request::Demo { n } => demonstrate(alloc, n, out),
        Request::Help => put_text(HELP.as_bytes(), out),
        Request::Version => put_text(VERSION.as_bytes(), out),
    }
}

// Where words stop that stand before one that isn't text.
#[tactic(auto, using(crate::proofs::RunLemmas::stopping))]
fn stopped(alloc: Global, words: &[Text]) -> Outcome
    ensures { Stops words.now result }
{
    let Err(fault) = Request::read(alloc, words) else {
        return Outcome::Usage {
            index: words.len() as u64,
        };
    };
    unread(fault)
}

// Tells the line of how the work ended, and answers that, or Memory where telling it lacks memory. A program's status has no line.
fn told<E: Sink>(work: Outcome, err: &mut E) -> Outcome
    ensures tells { Tells work (E.seen err.old) (E.seen err.new) result }
    ensures status { (n : ℕ) → work ≡ Child n → result ≡ Child n }
{
    if let Outcome::Child { .. } = &work {
        return work;
    }
    match tell(&work, err) {
        Ok(()) => work,
        Err(SinkFault::Failed) => work,
        Err(SinkFault::Memory) => Outcome::Memory,
    }
}
