//! All words, by the command word.

ghost use Rattle.std.specs.Prelude.{MatchResult};
ghost use Rattle.zi_words.specs.Words.{Right, FaultMeans};
ghost use Rattle.zi_words.specs.Refused.{Refused};

use crate::demo::demo;
use crate::launch::{launch, script, show};
use crate::loader::Loader;
use crate::loading::loading;
use crate::refusal::Refusal;
use crate::request::{Request, WordsFault};
use crate::store::{ended, manifest, store};
use std::alloc::Global;
use zi_text::Text;

// The request of all words.
fn request(alloc: Global, words: &[Text]) -> Result<Request, Refusal>
    ensures { MatchResult result (Right words.now) (Refused Right words.now) }
{
    let Some((word, behind)) = words.split_first() else {
        return Err(Refusal::Left(0));
    };
    match word.as_str() {
        "select" => loading(alloc, Loader::Select, behind),
        "download" => loading(alloc, Loader::Download, behind),
        "run" => loading(alloc, Loader::Run, behind),
        "check" => loading(alloc, Loader::Check, behind),
        "refute" => loading(alloc, Loader::Refute, behind),
        "why" => loading(alloc, Loader::Why, behind),
        "conflict" => loading(alloc, Loader::Conflict, behind),
        "script" => script(alloc, behind),
        "manifest" => manifest(alloc, behind),
        "store" => store(alloc, behind),
        "demo" => demo(behind),
        "launch" => launch(alloc, behind),
        "show" => show(alloc, behind),
        "--help" => ended(Request::Help, behind),
        "--version" => ended(Request::Version, behind),
        _ => Err(Refusal::Left(words.len())),
    }
}

impl Request {
    /// What the words of a command line ask for, the program's own name left out.
    ///
    /// Right words are `select [options] ROOT`, `download [options] ROOT`, `run [options] ROOT WORDS..`,
    /// `launch FILE WORDS..`, `script [options] ROOT WORDS..`, `script --launch FILE WORDS..`, `show FILE`, `check [options] ROOT SELS PROOF`, `refute [options] ROOT PROOF`, `why [options] ROOT`,
    /// `conflict [options] ROOT`, `manifest ALG NAME`, `store add NAME FILE..`, `store verify NAME`, `store list`,
    /// `store purge FILE..` with one FILE or more, `demo N`, and `--help` or `--version` alone. The options and what each sets are
    /// in `Kind`; they come before ROOT, and `--` may end them. A word that looks like an option is a value where a value stands,
    /// and a FILE of `store purge`. All words behind ROOT of `run` and `script`, and behind FILE of `launch` and `script --launch`, are
    /// the program's, whatever they look like. `--launch` stands right behind `script`.
    ///
    /// `Usage` is answered exactly where no request is right for the words. Its index counts from 0: it is the number of
    /// words in their longest front that is also a front of some right list of words. `Memory` is answered where memory was
    /// refused, and says nothing of the words. The work is linear in the words, but for a search in a sorted set for each
    /// `--rate`.
    pub fn read(alloc: Global, words: &[Text]) -> Result<Request, WordsFault>
        ensures { MatchResult result (Right words.now) (FaultMeans words.now) }
    {
        match request(alloc, words) {
            Ok(request) => Ok(request),
            Err(Refusal::Left(left)) => Err(WordsFault::Usage {
                index: (words.len() - left) as u64,
            }),
            Err(Refusal::Memory) => Err(WordsFault::Memory),
        }
    }
}
