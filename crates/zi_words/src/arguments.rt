//! The words that stand behind an option or a command, each by its form.

ghost use Rattle.std.specs.Prelude.{◌≡◌, ◌≢◌, [], ◌∷◌, ◌||◌, ◌&&◌, true, Some, None, codes, MatchResult};
ghost use Rattle.std.specs.List.{list_all};
ghost use Rattle.std.specs.Str.{chars};
ghost use Rattle.zi_version.specs.Range.{range_of};
ghost use Rattle.zi_policy.specs.Stabilities.{stability_of};
ghost use Rattle.zi_words.specs.Forms.{Word, begins, is_carried, is_address, level_of, network_of, budget_of, demo_number, Address, Name, Range as ARange, Level, «Network'», Rating, Budget};
ghost use Rattle.zi_words.specs.Taken.{MissesWith};

use crate::refusal::Refusal;
use std::alloc::Global;
use zi_policy::{Network, Stability};
use zi_text::{Text, numeral};
use zi_version::{Range, RangeFault};

// The greatest number of lemmas that may be asked for.
const MOST_LEMMAS: u64 = 4_000_000_000;

// The greatest number of a demonstration.
const MOST_CHOICES: u64 = 1_000;

// A character that XML can carry, no tab and no line end.
#[tactic(auto, unfolding(crate::specs::Forms::is_carried))]
fn is_carried(c: char) -> bool
    ensures { result ≡ is_carried c }
{
    (c >= ' ' && c <= '\u{D7FF}') || (c >= '\u{E000}' && c <= '\u{FFFD}') || c >= '\u{10000}'
}

fn are_carried(text: &str) -> bool
    ensures { result ≡ list_all is_carried (chars text.now) }
{
    text.chars().all(|c| is_carried(c))
}

#[tactic(auto, using(std::proofs::lemmas::Str::Pattern::starts_text))]
fn begins_address(text: &str) -> bool
    ensures { result ≡ (begins (codes "http://") text.now || (begins (codes "https://") text.now || begins (codes "/") text.now)) }
{
    text.starts_with("http://") || text.starts_with("https://") || text.starts_with("/")
}

/// Whether a word is an address.
#[tactic(auto, unfolding(crate::specs::Forms::is_address))]
pub fn is_address(text: &str) -> bool
    ensures { result ≡ is_address text.now }
{
    begins_address(text) && are_carried(text)
}

/// The address at the front of the words.
pub fn address<'a>(words: &'a [Text]) -> Result<(&'a Text, &'a [Text]), Refusal>
    ensures { MatchResult result (λ v. (words.now ≡ v.0.now ∷ v.1.now) × (is_address v.0.now ≡ true)) (MissesWith Address words.now) }
{
    match words.split_first() {
        None => Err(Refusal::Left(0)),
        Some((word, behind)) => {
            if is_address(word.as_str()) {
                Ok((word, behind))
            } else {
                Err(Refusal::Left(words.len()))
            }
        }
    }
}

/// The name at the front of the words: any word but the empty one.
pub fn name<'a>(words: &'a [Text]) -> Result<(&'a Text, &'a [Text]), Refusal>
    ensures { MatchResult result (λ v. (words.now ≡ v.0.now ∷ v.1.now) × (v.0.now ≢ [])) (MissesWith Name words.now) }
{
    match words.split_first() {
        None => Err(Refusal::Left(0)),
        Some((word, behind)) => {
            if word.is_empty() {
                Err(Refusal::Left(words.len()))
            } else {
                Ok((word, behind))
            }
        }
    }
}

/// The version expression at the front of the words.
pub fn range<'a>(alloc: Global, words: &'a [Text]) -> Result<(Range, &'a [Text]), Refusal>
    ensures { MatchResult result (λ v. (w : Word) × (words.now ≡ w ∷ v.1.now) × (range_of w ≡ Some v.0)) (MissesWith ARange words.now) }
{
    match words.split_first() {
        None => Err(Refusal::Left(0)),
        Some((word, behind)) => match Range::parse(alloc, word.as_str()) {
            Ok(range) => Ok((range, behind)),
            Err(RangeFault::Bad { place: _ }) => Err(Refusal::Left(words.len())),
            Err(RangeFault::Memory) => Err(Refusal::Memory),
        },
    }
}

// The level that a word names.
#[tactic(auto, unfolding(crate::specs::Forms::level_of))]
fn level_of(text: &str) -> Option<Stability>
    ensures { result ≡ level_of text.now }
{
    match text {
        "developer" => Some(Stability::Developer),
        "testing" => Some(Stability::Testing),
        "stable" => Some(Stability::Stable),
        _ => None,
    }
}

/// The level at the front of the words.
pub fn level<'a>(words: &'a [Text]) -> Result<(Stability, &'a [Text]), Refusal>
    ensures { MatchResult result (λ v. (w : Word) × (words.now ≡ w ∷ v.1.now) × (level_of w ≡ Some v.0)) (MissesWith Level words.now) }
{
    match words.split_first() {
        None => Err(Refusal::Left(0)),
        Some((word, behind)) => match level_of(word.as_str()) {
            Some(level) => Ok((level, behind)),
            None => Err(Refusal::Left(words.len())),
        },
    }
}

/// The stability at the front of the words.
pub fn stability<'a>(words: &'a [Text]) -> Result<(Stability, &'a [Text]), Refusal>
    ensures { MatchResult result (λ v. (w : Word) × (words.now ≡ w ∷ v.1.now) × (stability_of w ≡ Some v.0)) (MissesWith Rating words.now) }
{
    match words.split_first() {
        None => Err(Refusal::Left(0)),
        Some((word, behind)) => match Stability::named(word.as_str()) {
            Some(stability) => Ok((stability, behind)),
            None => Err(Refusal::Left(words.len())),
        },
    }
}

// The network that a word names.
#[tactic(auto, unfolding(crate::specs::Forms::network_of))]
fn network_of(text: &str) -> Option<Network>
    ensures { result ≡ network_of text.now }
{
    match text {
        "full" => Some(Network::Full),
        "minimal" => Some(Network::Minimal),
        "off" => Some(Network::Off),
        _ => None,
    }
}

/// The network at the front of the words.
pub fn network<'a>(words: &'a [Text]) -> Result<(Network, &'a [Text]), Refusal>
    ensures { MatchResult result (λ v. (w : Word) × (words.now ≡ w ∷ v.1.now) × (network_of w ≡ Some v.0)) (MissesWith «Network'» words.now) }
{
    match words.split_first() {
        None => Err(Refusal::Left(0)),
        Some((word, behind)) => match network_of(word.as_str()) {
            Some(network) => Ok((network, behind)),
            None => Err(Refusal::Left(words.len())),
        },
    }
}

/// The number of a demonstration that a word says.
#[tactic(auto, unfolding(crate::specs::Forms::demo_number))]
pub fn demo_number(text: &str) -> Option<u64>
    ensures { result ≡ demo_number text.now }
{
    let number = numeral(text)?;
    if number >= 1 && number <= MOST_CHOICES {
        Some(number)
    } else {
        None
    }
}

// The number of lemmas that a word says.
#[tactic(auto, unfolding(crate::specs::Forms::budget_of))]
fn budget_of(text: &str) -> Option<u64>
    ensures { result ≡ budget_of text.now }
{
    let number = numeral(text)?;
    if number <= MOST_LEMMAS {
        Some(number)
    } else {
        None
    }
}

/// The number of lemmas at the front of the words.
pub fn budget<'a>(words: &'a [Text]) -> Result<(u64, &'a [Text]), Refusal>
    ensures { MatchResult result (λ v. (w : Word) × (words.now ≡ w ∷ v.1.now) × (budget_of w ≡ Some v.0)) (MissesWith Budget words.now) }
{
    match words.split_first() {
        None => Err(Refusal::Left(0)),
        Some((word, behind)) => match budget_of(word.as_str()) {
            Some(budget) => Ok((budget, behind)),
            None => Err(Refusal::Left(words.len())),
        },
    }
}
