//! The options of the commands that load feeds.

ghost use Rattle.std.specs.Prelude.{◌≡◌, ◌≢◌, ℕ, true, List, [], ◌∷◌, Some, MatchOption, MatchResult};
ghost use Rattle.zi_words.specs.declared.kind.Kind.TheVariants as kind;
ghost use Rattle.zi_words.specs.declared.kind.Kind.{Kind as AKind};
ghost use Rattle.zi_words.specs.Forms.{Word};
ghost use Rattle.zi_words.specs.Options.{name_of, has_option, nothing};
ghost use Rattle.zi_words.specs.Words.{AsksLoading};
ghost use Rattle.zi_words.specs.Refused.{Refused};
ghost use Rattle.zi_words.specs.Taken.{Sets, Takes, BreaksRate, has, NoOption, Gathers};

use crate::arguments;
use crate::arguments::{address, name, range, stability};
use crate::asked::{Asked, Limit};
use crate::kind::Kind;
use crate::loader::Loader;
use crate::refusal::Refusal;
use std::alloc::Global;
use std::collections::BTreeSet;
use zi_policy::Override;
use zi_text::{List, Memory, Text};

// The option that a word names.
fn kind_of(word: &str) -> Option<Kind>
    ensures { MatchOption result ((k : AKind) → word.now ≢ name_of k) (λ k. word.now ≡ name_of k) }
{
    match word {
        "--command" => Some(Kind::Command),
        "--no-command" => Some(Kind::NoCommand),
        "--version" => Some(Kind::Version),
        "--version-for" => Some(Kind::VersionFor),
        "--os" => Some(Kind::Os),
        "--cpu" => Some(Kind::Cpu),
        "--lang" => Some(Kind::Lang),
        "--level" => Some(Kind::Level),
        "--network" => Some(Kind::Network),
        "--use" => Some(Kind::Use),
        "--rate" => Some(Kind::Rate),
        "--search" => Some(Kind::Search),
        "--proof" => Some(Kind::Proof),
        _ => None,
    }
}

// The option of the command at the front of the words, and the words behind its name.
fn first_option<'a>(loader: Loader, words: &'a [Text]) -> Option<(Kind, &'a [Text])>
    ensures { MatchOption result (NoOption loader words.now) (λ v. (words.now ≡ name_of v.0 ∷ v.1.now) × (has_option loader v.0 ≡ true)) }
{
    let (word, behind) = words.split_first()?;
    let kind = kind_of(word.as_str())?;
    if loader.has(kind) {
        Some((kind, behind))
    } else {
        None
    }
}

impl Asked {
    /// Nothing is asked yet.
    pub(crate) fn new(alloc: Global) -> Asked
        ensures { result ≡ nothing }
    {
        Asked {
            command: None,
            version: false,
            limits: List::new(alloc),
            os: None,
            cpu: None,
            langs: List::new(alloc),
            level: None,
            network: None,
            uses: List::new(alloc),
            overrides: List::new(alloc),
            search: None,
            proof: false,
        }
    }

    // Whether an option that may stand once stands already.
    fn has(&self, kind: Kind) -> bool
        ensures { result ≡ has kind self.now }
    {
        match kind {
            Kind::Command | Kind::NoCommand => self.command.is_some(),
            Kind::Version => self.version,
            Kind::Os => self.os.is_some(),
            Kind::Cpu => self.cpu.is_some(),
            Kind::Level => self.level.is_some(),
            Kind::Network => self.network.is_some(),
            Kind::Search => self.search.is_some(),
            Kind::Proof => self.proof,
            Kind::VersionFor | Kind::Lang | Kind::Use | Kind::Rate => false,
        }
    }
}

// `--command NAME`.
fn command<'a>(alloc: Global, asked: &mut Asked, words: &'a [Text]) -> Result<&'a [Text], Refusal>
    ensures { Sets kind.Command asked.old words.now result asked.new }
{
    let (command, behind) = name(words)?;
    let command = command.copy(alloc)?;
    asked.command = Some(Some(command));
    Ok(behind)
}

// `--version RANGE`.
fn version<'a>(alloc: Global, asked: &mut Asked, words: &'a [Text]) -> Result<&'a [Text], Refusal>
    ensures { Sets kind.Version asked.old words.now result asked.new }
{
    let (range, behind) = range(alloc, words)?;
    asked.limits.push(Limit {
        interface: None,
        range,
    })?;
    asked.version = true;
    Ok(behind)
}

// `--version-for URI RANGE`.
fn version_for<'a>(
    alloc: Global,
    asked: &mut Asked,
    words: &'a [Text],
) -> Result<&'a [Text], Refusal>
    ensures { Sets kind.VersionFor asked.old words.now result asked.new }
{
    let (uri, behind) = address(words)?;
    let (range, behind) = range(alloc, behind)?;
    let uri = uri.copy(alloc)?;
    asked.limits.push(Limit {
        interface: Some(uri),
        range,
    })?;
    Ok(behind)
}

// `--os NAME`.
fn os<'a>(alloc: Global, asked: &mut Asked, words: &'a [Text]) -> Result<&'a [Text], Refusal>
    ensures { Sets kind.Os asked.old words.now result asked.new }
{
    let (os, behind) = name(words)?;
    let os = os.copy(alloc)?;
    asked.os = Some(os);
    Ok(behind)
}

// `--cpu NAME`.
fn cpu<'a>(alloc: Global, asked: &mut Asked, words: &'a [Text]) -> Result<&'a [Text], Refusal>
    ensures { Sets kind.Cpu asked.old words.now result asked.new }
{
    let (cpu, behind) = name(words)?;
    let cpu = cpu.copy(alloc)?;
    asked.cpu = Some(cpu);
    Ok(behind)
}

// `--lang TAG`.
fn lang<'a>(alloc: Global, asked: &mut Asked, words: &'a [Text]) -> Result<&'a [Text], Refusal>
    ensures { Sets kind.Lang asked.old words.now result asked.new }
{
    let (tag, behind) = name(words)?;
    let tag = tag.copy(alloc)?;
    asked.langs.push(tag)?;
    Ok(behind)
}

// `--use NAME`.
fn wanted_use<'a>(
    alloc: Global,
    asked: &mut Asked,
    words: &'a [Text],
) -> Result<&'a [Text], Refusal>
    ensures { Sets kind.Use asked.old words.now result asked.new }
{
    let (wanted, behind) = name(words)?;
    let wanted = wanted.copy(alloc)?;
    asked.uses.push(wanted)?;
    Ok(behind)
}

// `--level LEVEL`.
fn level<'a>(asked: &mut Asked, words: &'a [Text]) -> Result<&'a [Text], Refusal>
    ensures { Sets kind.Level asked.old words.now result asked.new }
{
    let (level, behind) = arguments::level(words)?;
    asked.level = Some(level);
    Ok(behind)
}

// `--network NETWORK`.
fn network<'a>(asked: &mut Asked, words: &'a [Text]) -> Result<&'a [Text], Refusal>
    ensures { Sets kind.Network asked.old words.now result asked.new }
{
    let (network, behind) = arguments::network(words)?;
    asked.network = Some(network);
    Ok(behind)
}

// `--search N`.
fn search<'a>(asked: &mut Asked, words: &'a [Text]) -> Result<&'a [Text], Refusal>
    ensures { Sets kind.Search asked.old words.now result asked.new }
{
    let (budget, behind) = arguments::budget(words)?;
    asked.search = Some(budget);
    Ok(behind)
}

// `--rate URI ID STABILITY`, where no pair stands twice.
fn rate<'a>(
    alloc: Global,
    asked: &mut Asked,
    pairs: &mut BTreeSet<(&'a str, &'a str)>,
    words: &'a [Text],
) -> Result<&'a [Text], Refusal>
    ensures { Takes kind.Rate asked.old pairs.old words.now result asked.new pairs.new }
{
    let (interface, behind) = address(words)?;
    let Some((id, last)) = behind.split_first() else {
        return Err(Refusal::Left(0));
    };
    if !pairs.insert((interface.as_str(), id.as_str()))? {
        return Err(Refusal::Left(behind.len()));
    }
    let (stability, left) = match stability(last) {
        Ok(rated) => rated,
        Err(refusal) => return Err(refusal),
    };
    let interface = interface.copy(alloc)?;
    let id = id.copy(alloc)?;
    asked.overrides.push(Override {
        interface,
        id,
        stability,
    })?;
    Ok(left)
}

// What an option says with the words behind its name; gives the words behind its arguments.
fn option<'a>(
    alloc: Global,
    asked: &mut Asked,
    pairs: &mut BTreeSet<(&'a str, &'a str)>,
    kind: Kind,
    words: &'a [Text],
) -> Result<&'a [Text], Refusal>
    ensures { Takes kind asked.old pairs.old words.now result asked.new pairs.new }
{
    match kind {
        Kind::Command => command(alloc, asked, words),
        Kind::NoCommand => {
            asked.command = Some(None);
            Ok(words)
        }
        Kind::Version => version(alloc, asked, words),
        Kind::VersionFor => version_for(alloc, asked, words),
        Kind::Os => os(alloc, asked, words),
        Kind::Cpu => cpu(alloc, asked, words),
        Kind::Lang => lang(alloc, asked, words),
        Kind::Level => level(asked, words),
        Kind::Network => network(asked, words),
        Kind::Use => wanted_use(alloc, asked, words),
        Kind::Rate => rate(alloc, asked, pairs, words),
        Kind::Search => search(asked, words),
        Kind::Proof => {
            asked.proof = true;
            Ok(words)
        }
    }
}

/// What the options of a command at the front of the words say, and the words behind them.
pub fn options<'a>(
    alloc: Global,
    loader: Loader,
    words: &'a [Text],
) -> Result<(Asked, &'a [Text]), Refusal>
    ensures { MatchResult result (λ v. Gathers loader words.now v.0 v.1.now) (Refused (AsksLoading loader) words.now) }
{
    let mut asked = Asked::new(alloc);
    let mut pairs = BTreeSet::new(alloc);
    let mut left = words;
    while let Some((kind, behind)) = first_option(loader, left) {
        if asked.has(kind) {
            return Err(Refusal::Left(left.len()));
        }
        match option(alloc, &mut asked, &mut pairs, kind, behind) {
            Ok(rest) => left = rest,
            Err(refusal) => return Err(refusal),
        }
    }
    Ok((asked, left))
}
