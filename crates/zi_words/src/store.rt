//! The words of the commands on the store.

ghost use Rattle.std.specs.Prelude.{◌≡◌, ◌≢◌, ℕ, List, [], ◌∷◌, ◌<◌, length, MatchOption, MatchResult};
ghost use Rattle.zi_digest.specs.Name.{spelling, IsDigest};
ghost use Rattle.zi_digest.specs.declared.Algorithm.{Algorithm as AnAlgorithm};
ghost use Rattle.zi_words.specs.Store.{word_of, is_name, last_part, AsksAdd, AsksVerify, AsksPurge, AsksStore, AsksManifest};
ghost use Rattle.zi_words.specs.Refused.{Refused};
ghost use Rattle.zi_words.specs.Taken.{MissesDigest, AreFiles, IsEnded};

use crate::loading::copied;
use crate::refusal::Refusal;
use crate::request::Request;
use std::alloc::Global;
use zi_digest::{Algorithm, DigestName};
use zi_text::{List, Memory, Text};

// The algorithm that a word names.
fn algorithm_of(word: &str) -> Option<Algorithm>
    ensures { MatchOption result ((a : AnAlgorithm) → word.now ≢ word_of a) (λ a. word.now ≡ word_of a) }
{
    match word {
        "sha1new" => Some(Algorithm::Sha1new),
        "sha256" => Some(Algorithm::Sha256),
        "sha256new" => Some(Algorithm::Sha256new),
        _ => None,
    }
}

// Whether a text can be the name of something in a tree.
#[tactic(auto, unfolding(crate::specs::Store::is_name))]
fn is_name(text: &str) -> bool
    ensures { result ≡ is_name text.now }
{
    let bytes = text.as_bytes();
    text != "" && text != "." && text != ".." && !bytes.contains(&b'/') && !bytes.contains(&0)
}

// What stands behind the first slash of a path, where it has one.
fn behind_slash<'a>(path: &'a str) -> Option<&'a str>
    ensures { MatchOption result (last_part path.now ≡ path.now)
        (λ behind. (last_part path.now ≡ last_part behind.now) × (length behind.now < length path.now)) }
{
    match path.split_once('/') {
        None => None,
        Some((_, behind)) => Some(behind),
    }
}

/// The last part of a path between its slashes.
pub fn last_part<'a>(path: &'a str) -> &'a str
    ensures { result.now ≡ last_part path.now }
{
    let mut left = path;
    while let Some(behind) = behind_slash(left) {
        left = behind;
    }
    left
}

// The words as paths of files, whose last parts can be names in a tree.
fn paths(alloc: Global, words: &[Text]) -> Result<List<Text>, Refusal>
    ensures { MatchResult result (AreFiles words.now) (Refused AreFiles words.now) }
{
    let mut files = List::new(alloc);
    let mut left = words;
    while let Some((word, behind)) = left.split_first() {
        if !is_name(last_part(word.as_str())) {
            return Err(Refusal::Left(left.len()));
        }
        let file = word.copy(alloc)?;
        files.push(file)?;
        left = behind;
    }
    Ok(files)
}

// The digest's name at the front of the words.
fn digest<'a>(words: &'a [Text]) -> Result<(DigestName, &'a [Text]), Refusal>
    ensures { MatchResult result (λ v. (words.now ≡ spelling v.0 ∷ v.1.now) × IsDigest v.0) (MissesDigest words.now) }
{
    match words.split_first() {
        None => Err(Refusal::Left(0)),
        Some((word, behind)) => match DigestName::parse(word.as_str()) {
            Some(name) => Ok((name, behind)),
            None => Err(Refusal::Left(words.len())),
        },
    }
}

/// A request that no word may follow.
pub fn ended(request: Request, behind: &[Text]) -> Result<Request, Refusal>
    ensures { IsEnded request behind.now result }
{
    if behind.is_empty() {
        return Ok(request);
    }
    drop(request);
    Err(Refusal::Left(behind.len()))
}

// The request of the words behind `store add`.
fn add(alloc: Global, words: &[Text]) -> Result<Request, Refusal>
    ensures { MatchResult result (AsksAdd words.now) (Refused AsksAdd words.now) }
{
    let (name, behind) = match digest(words) {
        Ok(read) => read,
        Err(refusal) => return Err(refusal),
    };
    match paths(alloc, behind) {
        Ok(files) => Ok(Request::Add { name, files }),
        Err(refusal) => Err(refusal),
    }
}

// The request of the words behind `store verify`.
fn verify(words: &[Text]) -> Result<Request, Refusal>
    ensures { MatchResult result (AsksVerify words.now) (Refused AsksVerify words.now) }
{
    let (name, behind) = match digest(words) {
        Ok(read) => read,
        Err(refusal) => return Err(refusal),
    };
    ended(Request::Verify { name }, behind)
}

// The request of the words behind `store purge`.
fn purge(alloc: Global, words: &[Text]) -> Result<Request, Refusal>
    ensures { MatchResult result (AsksPurge words.now) (Refused AsksPurge words.now) }
{
    if words.is_empty() {
        return Err(Refusal::Left(0));
    }
    let files = copied(alloc, words)?;
    Ok(Request::Purge { files })
}

/// The request of the words behind `store`.
pub fn store(alloc: Global, words: &[Text]) -> Result<Request, Refusal>
    ensures { MatchResult result (AsksStore words.now) (Refused AsksStore words.now) }
{
    let Some((word, behind)) = words.split_first() else {
        return Err(Refusal::Left(0));
    };
    match word.as_str() {
        "add" => add(alloc, behind),
        "verify" => verify(behind),
        "purge" => purge(alloc, behind),
        "list" => ended(Request::Names, behind),
        _ => Err(Refusal::Left(words.len())),
    }
}

/// The request of the words behind `manifest`.
pub fn manifest(alloc: Global, words: &[Text]) -> Result<Request, Refusal>
    ensures { MatchResult result (AsksManifest words.now) (Refused AsksManifest words.now) }
{
    let Some((word, behind)) = words.split_first() else {
        return Err(Refusal::Left(0));
    };
    let Some(algorithm) = algorithm_of(word.as_str()) else {
        return Err(Refusal::Left(words.len()));
    };
    let Some((name, last)) = behind.split_first() else {
        return Err(Refusal::Left(0));
    };
    if !is_name(name.as_str()) {
        return Err(Refusal::Left(behind.len()));
    }
    let name = name.copy(alloc)?;
    ended(Request::Manifest { algorithm, name }, last)
}
