//! The names of messages by each algorithm, and spellings that are names or none.
use std::alloc::Global;
use zi_digest::{Algorithm, DigestName, Hasher};
use zi_lines::{Sheet, halves};
use zi_text::Memory;

/// The algorithm that a word names.
fn algorithm(word: &str) -> Algorithm {
    match word {
        "sha1new" => Algorithm::Sha1new,
        "sha256" => Algorithm::Sha256,
        _ => Algorithm::Sha256new,
    }
}

/// Adds the name of the message that stands in pieces apart by `|`, where the row is the algorithm and the pieces.
pub(crate) fn put_digest(alloc: Global, out: &mut Sheet, row: &str) {
    let (word, pieces) = halves(row);
    let mut hasher = Hasher::new(algorithm(word));
    for piece in pieces.split('|') {
        hasher.update(piece.as_bytes());
    }
    out.made(hasher.finish().text(alloc));
}

/// Adds the message of 1,064 bytes whose byte at a place is the low byte of 7 times the place and 3.
fn take_long(message: &mut Vec<u8>) -> Result<(), Memory> {
    let mut byte = 3u8;
    for _ in 0..1064 {
        message.push(byte)?;
        byte = byte.wrapping_add(7);
    }
    Ok(())
}

/// Adds the name of a message in two pieces, where the row is the algorithm and the length of the first piece.
fn put_cut(alloc: Global, out: &mut Sheet, row: &str, message: &[u8]) {
    let (word, cut) = halves(row);
    let cut = cut.parse::<u32>().unwrap_or(0) as usize;
    let (first, second) = message.split_at(cut.min(message.len()));
    let mut hasher = Hasher::new(algorithm(word));
    hasher.update(first);
    hasher.update(second);
    out.made(hasher.finish().text(alloc));
}

/// Adds the name of the long message in two pieces, where the row is the algorithm and the length of the first piece.
pub(crate) fn put_pieces(alloc: Global, out: &mut Sheet, row: &str) {
    let mut message = Vec::new(alloc);
    out.needs(take_long(&mut message));
    put_cut(alloc, out, row, message.as_slice());
}

/// Adds what a digest's name has.
fn put_name(alloc: Global, out: &mut Sheet, name: &DigestName) {
    out.value(&name.algorithm());
    out.put(" ");
    out.number(name.hash().len() as u64);
    out.put(" ");
    out.made(name.hex(alloc));
    out.put(" ");
    out.made(name.text(alloc));
}

/// Adds the algorithm of a digest's name, how many bytes its hash has, their digits, and the name again; `none` where a text is no name.
pub(crate) fn put_parsed(alloc: Global, out: &mut Sheet, text: &str) {
    match DigestName::parse(text) {
        Some(name) => put_name(alloc, out, &name),
        None => out.put("none"),
    }
}
