use std::alloc::Global;
use zi_text::Memory;

/// The byte that the text behind a backslash begins with, and what comes behind it; none where no byte is spelled so.
fn spelled(text: &str) -> Option<(u8, &str)> {
    if let Some(rest) = text.strip_prefix('n') {
        return Some((b'\n', rest));
    }
    if let Some(rest) = text.strip_prefix('t') {
        return Some((b'\t', rest));
    }
    let byte = u8::from_str_radix(text.get(1..3)?, 16).ok()?;
    Some((byte, text.get(3..)?))
}

/// Adds the byte that stands behind a backslash, and what comes behind it; the text itself where no byte is spelled so.
fn put_byte(bytes: &mut Vec<u8>, text: &str) -> Result<(), Memory> {
    match spelled(text) {
        Some((byte, rest)) => {
            bytes.push(byte)?;
            Ok(bytes.extend_from_slice(rest.as_bytes())?)
        }
        None => Ok(bytes.extend_from_slice(text.as_bytes())?),
    }
}

/// Adds the bytes of a text, in which `\n`, `\t` and `\x` with two hexadecimal digits stand for one each.
pub(crate) fn put_bytes(bytes: &mut Vec<u8>, text: &str) -> Result<(), Memory> {
    for (i, piece) in text.split('\\').enumerate() {
        if i == 0 {
            bytes.extend_from_slice(piece.as_bytes())?;
        } else {
            put_byte(bytes, piece)?;
        }
    }
    Ok(())
}
