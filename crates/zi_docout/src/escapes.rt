ghost use Rattle.std.specs.Prelude.{◌≡◌, ◌∷◌, [], ◌++◌, OnOk};
ghost use Rattle.zi_docout.specs.Canonical.{word_escaped, value_escaped, words_text, value_text, attr_text, tag_text, end_text, indent as indented};
ghost use Rattle.std.specs.Prelude.{flat_map};

use zi_elements::Attr;
use zi_text::Memory;

/// Adds these bytes.
pub fn put(text: &mut Vec<u8>, piece: &[u8]) -> Result<(), Memory>
    ensures { OnOk result (text.new.items ≡ text.old.items ++ piece.now) }
{
    text.extend_from_slice(piece)?;
    Ok(())
}

// Adds a byte of a text, which is written as a reference where XML would take it for markup or for another line end.
#[tactic(auto, unfolding(crate::specs::Canonical::word_escaped))]
fn put_word_byte(text: &mut Vec<u8>, b: u8) -> Result<(), Memory>
    ensures { OnOk result (text.new.items ≡ text.old.items ++ word_escaped b) }
{
    match b {
        b'&' => put(text, b"&amp;"),
        b'<' => put(text, b"&lt;"),
        b'>' => put(text, b"&gt;"),
        b'\r' => put(text, b"&#13;"),
        _ => {
            text.push(b)?;
            Ok(())
        }
    }
}

// Adds a byte of a value, where quotes and white space other than spaces are written as references too.
#[tactic(auto, unfolding(crate::specs::Canonical::value_escaped))]
fn put_value_byte(text: &mut Vec<u8>, b: u8) -> Result<(), Memory>
    ensures { OnOk result (text.new.items ≡ text.old.items ++ value_escaped b) }
{
    match b {
        b'"' => put(text, b"&quot;"),
        b'\t' => put(text, b"&#9;"),
        b'\n' => put(text, b"&#10;"),
        _ => put_word_byte(text, b),
    }
}

/// Adds a text.
pub fn put_words(text: &mut Vec<u8>, words: &[u8]) -> Result<(), Memory>
    ensures { OnOk result (text.new.items ≡ text.old.items ++ words_text words.now) }
{
    for b in words {
        put_word_byte(text, *b)?;
    }
    Ok(())
}

fn put_value(text: &mut Vec<u8>, value: &[u8]) -> Result<(), Memory>
    ensures { OnOk result (text.new.items ≡ text.old.items ++ value_text value.now) }
{
    for b in value {
        put_value_byte(text, *b)?;
    }
    Ok(())
}

fn put_attr(text: &mut Vec<u8>, attr: &Attr) -> Result<(), Memory>
    ensures { OnOk result (text.new.items ≡ text.old.items ++ attr_text attr.now) }
{
    put(text, b" ")?;
    put(text, attr.name.as_str().as_bytes())?;
    put(text, b"=\"")?;
    put_value(text, attr.value.as_str().as_bytes())?;
    put(text, b"\"")
}

/// Adds attributes in their order.
pub fn put_attrs(text: &mut Vec<u8>, attrs: &[Attr]) -> Result<(), Memory>
    ensures { OnOk result (text.new.items ≡ text.old.items ++ flat_map attr_text attrs.now) }
{
    for attr in attrs {
        put_attr(text, attr)?;
    }
    Ok(())
}

/// Adds an end tag.
pub fn put_end(text: &mut Vec<u8>, name: &str) -> Result<(), Memory>
    ensures { OnOk result (text.new.items ≡ text.old.items ++ end_text name.now) }
{
    put(text, b"</")?;
    put(text, name.as_bytes())?;
    put(text, b">")
}

#[tactic(auto, using(crate::proofs::WalkLemmas::indent_more))]
/// Adds the spaces before an element that so many stand around.
pub fn put_indent(text: &mut Vec<u8>, around: u64) -> Result<(), Memory>
    ensures { OnOk result (text.new.items ≡ text.old.items ++ indented around) }
{
    for _i in 0..around {
        put(text, b"  ")?;
    }
    Ok(())
}
