//! What may be shown in a line on a terminal: a character that a terminal would obey, or that would change how the line is read,
//! stands as its escape there.
//!
//! specs/Shown.antt says which characters may stand as they are, and what a text and bytes look like; `laws`, what that is good for.
#![tactic(auto)]

ghost use Rattle.std.specs.Prelude.{◌≡◌, ◌<◌, false, OnOk};
ghost use Rattle.std.specs.List.{list_all, flat_map};
ghost use Rattle.std.specs.Str.{chars, encode_utf8_all};
ghost use Rattle.std.specs.Fmt.{digit_glyph};
ghost use Rattle.std.specs.Io.KnownBytes.{Appends};
ghost use Rattle.zi_shown.specs.Shown.{may_stand, visible, visible_byte, shown, shown_bytes};

pub mod laws;

use std::io::{self, Write};

/// Whether a character may stand in a line on a terminal as it is. It may not where it is a control character (U+0000 to U+001F and
/// U+007F to U+009F), a control of the direction of text (`Bidi_Control` of the Unicode standard), or a separator of lines or
/// paragraphs (U+2028, U+2029).
#[tactic(auto, unfolding(crate::specs::Shown::may_stand))]
pub fn may_stand(c: char) -> bool
    ensures { result ≡ may_stand c }
{
    !c.is_control()
        && c != '\u{61C}'
        && !('\u{200E}'..='\u{200F}').contains(&c)
        && !('\u{2028}'..='\u{202E}').contains(&c)
        && !('\u{2066}'..='\u{2069}').contains(&c)
}

// Whether all characters of a text may.
fn all_may_stand(text: &str) -> bool
    ensures { result ≡ list_all may_stand (chars text.now) }
{
    text.chars().all(|c| may_stand(c))
}

// Writes a character, or its escape.
#[tactic(auto, using(crate::proofs::ShownLemmas::escaped, crate::proofs::ShownLemmas::stands))]
fn show_char<W: Write>(c: char, writer: &mut W) -> io::Result<()>
    ensures { OnOk result (Appends (W.contents writer.old) (W.contents writer.new) (encode_utf8_all (visible c))) }
{
    if may_stand(c) {
        let mut bytes = [0u8; 4];
        writer.write_all(c.encode_utf8(&mut bytes).as_bytes())
    } else {
        write!(writer, "\\u{{{:x}}}", c as u32)
    }
}

// Writes a text of which a character may not stand as it is.
fn show_chars<W: Write>(text: &str, writer: &mut W) -> io::Result<()>
    ensures { OnOk result (Appends (W.contents writer.old) (W.contents writer.new) (shown text.now)) }
{
    for c in text.chars() {
        show_char(c, writer)?;
    }
    Ok(())
}

/// Writes a text: each character that may stand as it is, every other as `\u{..}` with its number in hexadecimal digits. A text in which
/// all may is written at once. The system's error is its one refusal; a front of it may have been written then.
#[tactic(auto, using(crate::proofs::ShownLemmas::as_it_is))]
pub fn show<W: Write>(text: &str, writer: &mut W) -> io::Result<()>
    ensures { OnOk result (Appends (W.contents writer.old) (W.contents writer.new) (shown text.now)) }
{
    if all_may_stand(text) {
        writer.write_all(text.as_bytes())
    } else {
        show_chars(text, writer)
    }
}

// The hexadecimal digit of a number.
fn digit(number: u8) -> u8
    requires { number < 16 }
    ensures { result ≡ digit_glyph false number }
{
    if number < 10 {
        b'0' + number
    } else {
        b'a' + (number - 10)
    }
}

// Writes a byte, or its escape.
fn show_byte<W: Write>(byte: u8, writer: &mut W) -> io::Result<()>
    ensures { OnOk result (Appends (W.contents writer.old) (W.contents writer.new) (visible_byte byte)) }
{
    if byte >= b' ' && byte <= b'~' {
        writer.write_all(&[byte])
    } else {
        writer.write_all(&[b'\\', b'x', digit(byte / 16), digit(byte % 16)])
    }
}

// Writes bytes that are no text.
#[tactic(auto, using(crate::proofs::ShownLemmas::grown_index))]
fn show_each<W: Write>(bytes: &[u8], writer: &mut W) -> io::Result<()>
    ensures { OnOk result (Appends (W.contents writer.old) (W.contents writer.new) (flat_map visible_byte bytes.now)) }
{
    for byte in bytes {
        show_byte(*byte, writer)?;
    }
    Ok(())
}

/// Writes bytes: a text as by `show`; of what is no text (UTF-8) each byte that is a letter, a digit, a mark or a space of ASCII, every
/// other as `\x` and two hexadecimal digits. The system's error is its one refusal, as there.
#[tactic(auto, using(crate::proofs::ShownLemmas::is_text, crate::proofs::ShownLemmas::no_text), unfolding(crate::specs::Shown::shown_bytes))]
pub fn show_bytes<W: Write>(bytes: &[u8], writer: &mut W) -> io::Result<()>
    ensures { OnOk result (Appends (W.contents writer.old) (W.contents writer.new) (shown_bytes bytes.now)) }
{
    match str::from_utf8(bytes) {
        Ok(text) => show(text, writer),
        Err(_) => show_each(bytes, writer),
    }
}
