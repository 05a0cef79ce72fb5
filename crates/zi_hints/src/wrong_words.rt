//! Hints on words that are wrong.
ghost use Rattle.std.specs.Prelude.{◌≡◌, Some, None, OnOk};
ghost use Rattle.std.specs.Option.{option_map};
ghost use Rattle.std.specs.Io.KnownBytes.{Appends};
ghost use Rattle.zi_hints.specs.Saying.{hint};
ghost use Rattle.zi_hints.specs.WrongWords.{advice_text, advice_on, wrong_word, advice_for, former_for};

use crate::saying::{say, say_five, say_some, say_three};
use std::io::{self, Write};
use zi_text::Text;
use zi_usage::{Advice, Place, advise, former, standing};

/// Which word it is, and what may stand there.
pub fn say_wrong<W: Write>(place: Place, word: Option<&Text>, writer: &mut W) -> io::Result<()>
    ensures { OnOk result (Appends (W.contents writer.old) (W.contents writer.new) (hint (wrong_word place (option_map (λ w. w.now) word.entry)))) }
{
    match word {
        Some(word) => say_five(
            "it is '",
            word.as_str(),
            "', and there may stand ",
            standing(place),
            "",
            writer,
        ),
        None => say_three("a word is missing: ", standing(place), "", writer),
    }
}

// What to do.
fn advice_text(advice: Advice) -> &'static str
    ensures { result.now ≡ advice_text advice }
{
    match advice {
        Advice::BehindCommand => "an option stands behind the command, before ROOT",
        Advice::BeforeRoot => "options stand before ROOT",
        Advice::Once => {
            "an option stands once, --command without --no-command, and --proof behind select alone"
        }
        Advice::TwoWords => "an option and its value are two words, as --version 1.2",
        Advice::WholePath => "a path has to begin with /",
        Advice::FilesAlone => "a folder isn't added: its files are, each by its path",
        Advice::LastLine => "zi manifest ALGORITHM NAME has the digest of a tree in its last line",
    }
}

// What to do about a word.
fn say_advice_on<W: Write>(advice: Advice, word: &str, writer: &mut W) -> io::Result<()>
    ensures { OnOk result (Appends (W.contents writer.old) (W.contents writer.new) (hint (advice_on advice word.now))) }
{
    match advice {
        Advice::WholePath => say_three(
            "a path has to begin with /, as \"$PWD\"/'",
            word,
            "'",
            writer,
        ),
        _ => say(advice_text(advice), writer),
    }
}

/// What to do about a word at its place.
#[tactic(auto, using(zi_shown::proofs::ShownLemmas::nothing_more))]
pub fn say_advice<W: Write>(place: Place, word: Option<&Text>, writer: &mut W) -> io::Result<()>
    ensures { OnOk result (Appends (W.contents writer.old) (W.contents writer.new) (hint (advice_for place (option_map (λ w. w.now) word.entry)))) }
{
    let Some(word) = word else {
        return Ok(());
    };
    match advise(place, word.as_str()) {
        Some(advice) => say_advice_on(advice, word.as_str(), writer),
        None => Ok(()),
    }
}

/// What zi has for a word of 0install at its place.
#[tactic(auto, using(zi_shown::proofs::ShownLemmas::nothing_more))]
pub fn say_former<W: Write>(place: Place, word: Option<&Text>, writer: &mut W) -> io::Result<()>
    ensures { OnOk result (Appends (W.contents writer.old) (W.contents writer.new) (hint (former_for place (option_map (λ w. w.now) word.entry)))) }
{
    match word {
        Some(word) => say_some(former(place, word.as_str()), writer),
        None => Ok(()),
    }
}
