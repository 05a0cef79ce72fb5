//! One line of a hint.
ghost use Rattle.std.specs.Prelude.{◌≡◌, ◌++◌, Some, None, OnOk};
ghost use Rattle.std.specs.Option.{option_map};
ghost use Rattle.std.specs.Io.KnownBytes.{Appends};
ghost use Rattle.zi_shown.specs.Shown.{shown};
ghost use Rattle.zi_hints.specs.Saying.{line, hint, told};

use std::io::{self, Write};
use zi_shown::show;

// Writes two texts, shown.
#[tactic(auto, using(crate::proofs::SayingLemmas::two_shown))]
fn show_two<W: Write>(a: &str, b: &str, writer: &mut W) -> io::Result<()>
    ensures { OnOk result (Appends (W.contents writer.old) (W.contents writer.new) (shown (a.now ++ b.now))) }
{
    show(a, writer)?;
    show(b, writer)
}

// Writes three texts, shown.
fn show_three<W: Write>(a: &str, b: &str, c: &str, writer: &mut W) -> io::Result<()>
    ensures { OnOk result (Appends (W.contents writer.old) (W.contents writer.new) (shown (a.now ++ b.now ++ c.now))) }
{
    show_two(a, b, writer)?;
    show(c, writer)
}

// Writes four texts, shown.
fn show_four<W: Write>(a: &str, b: &str, c: &str, d: &str, writer: &mut W) -> io::Result<()>
    ensures { OnOk result (Appends (W.contents writer.old) (W.contents writer.new) (shown (a.now ++ b.now ++ c.now ++ d.now))) }
{
    show_three(a, b, c, writer)?;
    show(d, writer)
}

// Writes five texts, shown.
fn show_five<W: Write>(
    a: &str,
    b: &str,
    c: &str,
    d: &str,
    e: &str,
    writer: &mut W,
) -> io::Result<()>
    ensures { OnOk result (Appends (W.contents writer.old) (W.contents writer.new) (shown (a.now ++ b.now ++ c.now ++ d.now ++ e.now))) }
{
    show_four(a, b, c, d, writer)?;
    show(e, writer)
}

/// Writes a hint of this text. The system's error is its one refusal, here and below.
#[tactic(auto, using(crate::proofs::SayingLemmas::line_of))]
pub fn say<W: Write>(text: &str, writer: &mut W) -> io::Result<()>
    ensures { OnOk result (Appends (W.contents writer.old) (W.contents writer.new) (line text.now)) }
{
    writer.write_all(b"hint: ")?;
    show(text, writer)?;
    writer.write_all(b"\n")
}

/// Writes a hint of three texts.
#[tactic(auto, using(crate::proofs::SayingLemmas::line_of))]
pub fn say_three<W: Write>(a: &str, b: &str, c: &str, writer: &mut W) -> io::Result<()>
    ensures { OnOk result (Appends (W.contents writer.old) (W.contents writer.new) (line (a.now ++ b.now ++ c.now))) }
{
    writer.write_all(b"hint: ")?;
    show_three(a, b, c, writer)?;
    writer.write_all(b"\n")
}

/// Writes a hint of five texts.
#[tactic(auto, using(crate::proofs::SayingLemmas::line_of))]
pub fn say_five<W: Write>(
    a: &str,
    b: &str,
    c: &str,
    d: &str,
    e: &str,
    writer: &mut W,
) -> io::Result<()>
    ensures { OnOk result (Appends (W.contents writer.old) (W.contents writer.new) (line (a.now ++ b.now ++ c.now ++ d.now ++ e.now))) }
{
    writer.write_all(b"hint: ")?;
    show_five(a, b, c, d, e, writer)?;
    writer.write_all(b"\n")
}

/// Writes a hint of a text, where there is one.
#[tactic(auto, using(zi_shown::proofs::ShownLemmas::nothing_more))]
pub fn say_some<W: Write>(text: Option<&str>, writer: &mut W) -> io::Result<()>
    ensures { OnOk result (Appends (W.contents writer.old) (W.contents writer.new) (hint (option_map (λ t. t.now) text.entry))) }
{
    match text {
        Some(text) => say(text, writer),
        None => Ok(()),
    }
}

/// Writes a hint of a text that isn't empty.
#[tactic(auto, using(zi_shown::proofs::ShownLemmas::nothing_more))]
pub fn say_told<W: Write>(text: &str, writer: &mut W) -> io::Result<()>
    ensures { OnOk result (Appends (W.contents writer.old) (W.contents writer.new) (hint (told text.now))) }
{
    if text.is_empty() {
        Ok(())
    } else {
        say(text, writer)
    }
}
