//! The words of the commands that load feeds.

ghost use Rattle.std.specs.Prelude.{◌≡◌, map, unwrap_or, Some, codes, IfOk, MatchResult};
ghost use Rattle.zi_words.specs.Options.{or_english, wanted, nothing, ask_of};
ghost use Rattle.zi_words.specs.Words.{HasMany, request_of, AsksLoading};
ghost use Rattle.zi_words.specs.Refused.{Refused};
ghost use Rattle.zi_words.specs.Taken.{PastDashes, IsEnd};

use crate::address::Address;
use crate::arguments::is_address;
use crate::asked::{Asked, Limit};
use crate::loader::Loader;
use crate::options::options;
use crate::refusal::Refusal;
use crate::request::{Ask, Request, Wanted};
use std::alloc::Global;
use zi_policy::{Network, Policy, Stability};
use zi_text::{List, Memory, Text};

// The words behind the `--` that may end the options.
fn past_dashes<'a>(words: &'a [Text]) -> &'a [Text]
    ensures { PastDashes words.now result.now }
{
    match words.split_first() {
        None => words,
        Some((word, behind)) => { if word.as_str() == "--" { behind } else { words } }
    }
}

// The root at the front of the words, and those behind it, as many as the command may have there.
fn end<'a>(loader: Loader, words: &'a [Text]) -> Result<(&'a Text, &'a [Text]), Refusal>
    ensures { MatchResult result (λ v. IsEnd loader words.now (v.0.now, v.1.now)) (Refused (IsEnd loader) words.now) }
{
    match words.split_first() {
        None => Err(Refusal::Left(0)),
        Some((root, behind)) => {
            if !is_address(root.as_str()) {
                Err(Refusal::Left(words.len()))
            } else if loader.takes_more() {
                Ok((root, behind))
            } else if behind.len() < loader.count() {
                Err(Refusal::Left(0))
            } else if behind.len() > loader.count() {
                Err(Refusal::Left(behind.len() - loader.count()))
            } else {
                Ok((root, behind))
            }
        }
    }
}

// The text, or the default where there is none.
fn or_default(alloc: Global, text: Option<Text>, default: &str) -> Result<Text, Memory>
    ensures { IfOk result (λ t. t ≡ unwrap_or text default.now) }
{
    match text {
        Some(text) => Ok(text),
        None => Text::from_str(alloc, default),
    }
}

// The command that is wanted: `run` where none is said.
fn or_run(alloc: Global, command: Option<Option<Text>>) -> Result<Option<Text>, Memory>
    ensures { IfOk result (λ c. c ≡ unwrap_or command (Some (codes "run"))) }
{
    match command {
        Some(command) => Ok(command),
        None => {
            let run = Text::from_str(alloc, "run")?;
            Ok(Some(run))
        }
    }
}

// The languages, or English where there are none.
fn or_english(alloc: Global, langs: List<Text>) -> Result<List<Text>, Memory>
    ensures { IfOk result (λ l. l ≡ or_english langs) }
{
    if !langs.is_empty() {
        return Ok(langs);
    }
    let mut langs = List::new(alloc);
    langs.push(Text::from_str(alloc, "en")?)?;
    Ok(langs)
}

// What a limit wants, by the program's address.
fn wanted(alloc: Global, root: &str, limit: Limit) -> Result<Wanted, Memory>
    ensures { IfOk result (λ w. w ≡ wanted root.now limit) }
{
    let Limit { interface, range } = limit;
    match interface {
        Some(interface) => Ok(Wanted { interface, range }),
        None => {
            let interface = Text::from_str(alloc, root)?;
            Ok(Wanted { interface, range })
        }
    }
}

fn all_wanted(alloc: Global, root: &str, limits: List<Limit>) -> Result<List<Wanted>, Memory>
    ensures { IfOk result (λ l. l ≡ map (wanted root.now) limits) }
{
    let mut all = List::new(alloc);
    for limit in limits.into_vec() {
        let one = wanted(alloc, root, limit)?;
        all.push(one)?;
    }
    Ok(all)
}

impl Asked {
    // What is asked of the program at an address, with the defaults for what isn't said.
    #[tactic(auto, unfolding(crate::specs::Options::ask_of))]
    fn into_ask(self, alloc: Global, root: Address) -> Result<Ask, Memory>
        ensures { IfOk result (λ a. a ≡ ask_of root self) }
    {
        let Asked {
            command,
            version: _,
            limits,
            os,
            cpu,
            langs,
            level,
            network,
            uses,
            overrides,
            search,
            proof: _,
        } = self;
        let command = or_run(alloc, command)?;
        let os = or_default(alloc, os, "Linux")?;
        let machine = or_default(alloc, cpu, "x86_64")?;
        let langs = or_english(alloc, langs)?;
        let limits = all_wanted(alloc, root.as_str(), limits)?;
        Ok(Ask {
            root,
            command,
            limits,
            policy: Policy {
                os,
                machine,
                langs,
                level: level.unwrap_or(Stability::Stable),
                network: network.unwrap_or(Network::Full),
                uses,
                overrides,
            },
            search: search.unwrap_or(100_000),
        })
    }
}

impl Ask {
    /// What is asked of the program at an address where no option is given: its command `run`, each version, and what the
    /// policy has by itself. Memory is its one refusal.
    pub fn without_options(alloc: Global, root: Address) -> Result<Ask, Memory>
        ensures { IfOk result (λ a. a ≡ ask_of root nothing) }
    {
        Asked::new(alloc).into_ask(alloc, root)
    }
}

/// The words as a list of their own.
pub fn copied(alloc: Global, words: &[Text]) -> Result<List<Text>, Memory>
    ensures { IfOk result (λ copy. copy ≡ words.now) }
{
    let mut copy = List::new(alloc);
    for word in words {
        copy.push(word.copy(alloc)?)?;
    }
    Ok(copy)
}

// What a command asks for with the words behind the root.
fn request(
    alloc: Global,
    loader: Loader,
    ask: Ask,
    proof: bool,
    named: &[Text],
) -> Result<Request, Memory>
    requires { HasMany loader named.now }
    ensures { IfOk result (λ r. r ≡ request_of loader ask proof named.now) }
{
    match loader {
        Loader::Select => Ok(Request::Select { ask, proof }),
        Loader::Download => Ok(Request::Download { ask }),
        Loader::Why => Ok(Request::Why { ask }),
        Loader::Conflict => Ok(Request::Conflict { ask }),
        Loader::Run => {
            let user = copied(alloc, named)?;
            Ok(Request::Run { ask, user })
        }
        Loader::Script => {
            let user = copied(alloc, named)?;
            Ok(Request::Script { ask, user })
        }
        Loader::Check => {
            let sels = named[0].copy(alloc)?;
            let proof = named[1].copy(alloc)?;
            Ok(Request::Check { ask, sels, proof })
        }
        Loader::Refute => {
            let proof = named[0].copy(alloc)?;
            Ok(Request::Refute { ask, proof })
        }
    }
}

/// The request of the words behind a command that loads feeds.
pub fn loading(alloc: Global, loader: Loader, words: &[Text]) -> Result<Request, Refusal>
    ensures { MatchResult result (AsksLoading loader words.now) (Refused (AsksLoading loader) words.now) }
{
    let (asked, left) = options(alloc, loader, words)?;
    let (root, named) = match end(loader, past_dashes(left)) {
        Ok(end) => end,
        Err(refusal) => return Err(refusal),
    };
    let proof = asked.proof;
    let text = root.copy(alloc)?;
    let ask = asked.into_ask(alloc, Address::of(text))?;
    let request = request(alloc, loader, ask, proof, named)?;
    Ok(request)
}
