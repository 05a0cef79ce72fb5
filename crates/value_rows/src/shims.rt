//! Shims: their texts and trees, and the words that texts say.
ghost use Rattle.std.specs.Prelude.{◌≡◌, true};
ghost use Rattle.zi_shim.specs.Trees.{is_shim_name};

use crate::bytes::put_bytes;
use std::alloc::Global;
use std::str;
use zi_digest::Algorithm;
use zi_lines::{Sheet, halves};
use zi_manifest::{ManifestOutFault, digest, write};
use zi_shim::{read_shim, shim_text, shim_tree};
use zi_text::{List, Memory, Text};
use zi_tree::Tree;

/// The word that a piece of a row spells.
fn word_of(alloc: Global, piece: &str) -> Result<Text, Memory> {
    let mut bytes = Vec::new(alloc);
    put_bytes(&mut bytes, piece)?;
    Text::from_str(alloc, str::from_utf8(bytes.as_slice()).unwrap_or("no text"))
}

/// Adds the words of a row, each behind `|`.
fn take_words(alloc: Global, words: &mut List<Text>, row: &str) -> Result<(), Memory> {
    let Some(row) = row.strip_prefix('|') else {
        return Ok(());
    };
    for piece in row.split('|') {
        words.push(word_of(alloc, piece)?)?;
    }
    Ok(())
}

/// Adds the text of the shim of these words.
pub(crate) fn put_text(alloc: Global, out: &mut Sheet, row: &str) {
    let mut words = List::new(alloc);
    out.needs(take_words(alloc, &mut words, row));
    match shim_text(alloc, words.as_slice()) {
        Ok(bytes) => out.put(str::from_utf8(bytes.as_slice()).unwrap_or("no text")),
        Err(Memory) => out.lose(),
    }
}

/// Adds words, each as it is spelled for those who look for faults.
fn put_words(out: &mut Sheet, words: &List<Text>) {
    out.number(words.len() as u64);
    for word in words.as_slice() {
        out.put(" ");
        out.value(&word.as_str());
    }
}

/// Adds how many words bytes say, and the words; `none` where they are no shim's text.
pub(crate) fn put_said(alloc: Global, out: &mut Sheet, row: &str) {
    let mut bytes = Vec::new(alloc);
    out.needs(put_bytes(&mut bytes, row));
    match read_shim(alloc, bytes.as_slice()) {
        Ok(Some(words)) => put_words(out, &words),
        Ok(None) => out.put("none"),
        Err(Memory) => out.lose(),
    }
}

/// Adds the manifest of a tree.
fn put_manifest(out: &mut Sheet, manifest: &Result<Vec<u8>, ManifestOutFault>) {
    match manifest {
        Ok(bytes) => out.put(str::from_utf8(bytes.as_slice()).unwrap_or("no text")),
        Err(fault) => out.value(fault),
    }
}

/// Adds the manifest of a tree and its digest, both by SHA-256.
fn put_tree(alloc: Global, out: &mut Sheet, tree: &Tree) {
    put_manifest(out, &write(alloc, tree, Algorithm::Sha256new));
    match digest(alloc, tree, Algorithm::Sha256new) {
        Ok(name) => out.made(name.text(alloc)),
        Err(fault) => out.value(&fault),
    }
}

/// The name of a shim that a word stands for.
fn name_of(word: &str) -> &'static str
    ensures { is_shim_name result.now ≡ true }
{
    match word {
        "odd" => "-é a.b=\\'$",
        _ => "py",
    }
}

/// Adds the tree of the shim of these words under a name.
fn put_named(alloc: Global, out: &mut Sheet, name: &Text, row: &str)
    requires { is_shim_name name.now ≡ true }
{
    let mut words = List::new(alloc);
    out.needs(take_words(alloc, &mut words, row));
    match shim_tree(alloc, name, words.as_slice()) {
        Ok(tree) => put_tree(alloc, out, &tree),
        Err(Memory) => out.lose(),
    }
}

/// Adds the manifest and the digest of the tree of a shim, where the row is the word for its name and its words.
pub(crate) fn put_shim_tree(alloc: Global, out: &mut Sheet, row: &str) {
    let (word, row) = halves(row);
    match Text::from_str(alloc, name_of(word)) {
        Ok(name) => put_named(alloc, out, &name, row),
        Err(Memory) => out.lose(),
    }
}
