//! The lines, each put at the end of a text.
ghost use Rattle.std.specs.Prelude.{◌≡◌, ◌++◌, map, IfOk, OnOk};
ghost use Rattle.std.specs.List.{find, flat_map};
ghost use Rattle.zi_digest.specs.Name.{spelling};
ghost use Rattle.zi_shown.specs.Shown.{shown};
ghost use Rattle.zi_universe.specs.Naming.{with_one, joined};
ghost use Rattle.zi_showing.specs.Text.{indent, deeper, stored_names, is_stored, digest_words, folder_words, place_words, item_line, command_line, item_text};
ghost use Rattle.zi_showing.specs.Steps.{digest_line_words, place_seen, place_text};

use crate::walking::{Place, deeper};
use indexmap::IndexSet;
use std::alloc::Global;
use zi_digest::DigestName;
use zi_parts::Command;
use zi_sels::Selection;
use zi_shown::show;
use zi_text::{List, Memory, Text};

// One name more.
fn add_name(alloc: Global, digest: &DigestName, names: &mut IndexSet<Text>) -> Result<(), Memory>
    ensures { OnOk result (names.new.keys ≡ with_one names.old.keys (spelling digest.now)) }
{
    let name = digest.text(alloc)?;
    names.insert(name)?;
    Ok(())
}

/// The names of digests, among which one is found in constant time.
pub(crate) fn names_of(alloc: Global, digests: &[DigestName]) -> Result<IndexSet<Text>, Memory>
    ensures { IfOk result (λ names. names.keys ≡ stored_names digests.now) }
{
    let mut names = IndexSet::new(alloc);
    for digest in digests {
        add_name(alloc, digest, &mut names)?;
    }
    Ok(names)
}

// Puts words.
fn put(words: &str, text: &mut Vec<u8>) -> Result<(), Memory>
    ensures { OnOk result (text.new.items ≡ text.old.items ++ words.now) }
{
    text.extend_from_slice(words.as_bytes())?;
    Ok(())
}

// Puts a name of the document, each character that may not stand in a line as its escape.
fn put_shown(name: &str, text: &mut Vec<u8>) -> Result<(), Memory>
    ensures { OnOk result (text.new.items ≡ text.old.items ++ shown name.now) }
{
    match show(name, text) {
        Ok(()) => Ok(()),
        Err(_) => Err(Memory),
    }
}

// Puts two spaces a level.
fn put_indent(level: u8, text: &mut Vec<u8>) -> Result<(), Memory>
    ensures { OnOk result (text.new.items ≡ text.old.items ++ indent level) }
{
    let mut left = level;
    while left > 0 {
        left -= 1;
        put("  ", text)?;
    }
    Ok(())
}

// The first of some digests that is stored.
fn find_stored(
    alloc: Global,
    names: &IndexSet<Text>,
    digests: &[DigestName],
) -> Result<Option<DigestName>, Memory>
    ensures { IfOk result (λ d. d ≡ find (is_stored names.now.keys) digests.now) }
{
    for digest in digests {
        let name = digest.text(alloc)?;
        if names.contains(&name) {
            return Ok(Some(*digest));
        }
    }
    Ok(None)
}

// Puts a digest, and words behind it.
fn put_digest(
    alloc: Global,
    digest: &DigestName,
    words: &str,
    text: &mut Vec<u8>,
) -> Result<(), Memory>
    ensures { OnOk result (text.new.items ≡ text.old.items ++ digest_line_words digest.now words.now) }
{
    let name = digest.text(alloc)?;
    put(" ", text)?;
    put(name.as_str(), text)?;
    put(words, text)
}

// Puts the digest that is told, and whether it is stored.
fn put_stored(
    alloc: Global,
    names: &IndexSet<Text>,
    digests: &[DigestName],
    text: &mut Vec<u8>,
) -> Result<(), Memory>
    ensures { OnOk result (text.new.items ≡ text.old.items ++ digest_words names.now.keys digests.now) }
{
    if let Some(digest) = find_stored(alloc, names, digests)? {
        return put_digest(alloc, &digest, " stored", text);
    }
    match digests.first() {
        Some(digest) => put_digest(alloc, digest, " not stored", text),
        None => put(" no folder", text),
    }
}

// Puts where a selection is.
fn put_place(
    alloc: Global,
    names: &IndexSet<Text>,
    item: &Selection,
    text: &mut Vec<u8>,
) -> Result<(), Memory>
    ensures { OnOk result (text.new.items ≡ text.old.items ++ place_words names.now.keys item.now.«package» item.now.local item.now.digests) }
{
    if let Some(package) = &item.package {
        put(" package ", text)?;
        return put_shown(package.as_str(), text);
    }
    if let Some(path) = &item.local {
        put(" ", text)?;
        return put_shown(path.as_str(), text);
    }
    put_stored(alloc, names, item.digests.as_slice(), text)
}

// Puts the line of a selection.
fn put_item(
    alloc: Global,
    names: &IndexSet<Text>,
    level: u8,
    item: &Selection,
    text: &mut Vec<u8>,
) -> Result<(), Memory>
    ensures { OnOk result (text.new.items ≡ text.old.items ++ item_line names.now.keys level item.now) }
{
    put_indent(level, text)?;
    put_shown(item.interface.as_str(), text)?;
    put(" ", text)?;
    put_shown(item.version.as_str(), text)?;
    put_place(alloc, names, item, text)?;
    put("\n", text)
}

// Puts the line of a command.
fn put_command(level: u8, command: &Command, text: &mut Vec<u8>) -> Result<(), Memory>
    ensures { OnOk result (text.new.items ≡ text.old.items ++ command_line level command.now) }
{
    put_indent(level, text)?;
    put("command ", text)?;
    put_shown(command.name.as_str(), text)?;
    put("\n", text)
}

// Puts the lines of commands.
fn put_commands(level: u8, commands: &[Command], text: &mut Vec<u8>) -> Result<(), Memory>
    ensures { OnOk result (text.new.items ≡ text.old.items ++ flat_map (command_line level) commands.now) }
{
    for command in commands {
        put_command(level, command, text)?;
    }
    Ok(())
}

// Puts the lines of a selection at its level.
fn put_lines(
    alloc: Global,
    names: &IndexSet<Text>,
    place: &Place,
    text: &mut Vec<u8>,
) -> Result<(), Memory>
    ensures { OnOk result (text.new.items ≡ text.old.items ++ place_text names.now.keys (place_seen place.now)) }
{
    put_item(alloc, names, place.level, place.item, text)?;
    put_commands(deeper(place.level), place.item.commands.as_slice(), text)
}

/// The lines of selections at their levels.
pub(crate) fn lines_of(
    alloc: Global,
    names: &IndexSet<Text>,
    places: &[Place],
) -> Result<Vec<u8>, Memory>
    ensures { IfOk result (λ text. text.items ≡ flat_map (place_text names.now.keys) (map place_seen places.now)) }
{
    let mut text = Vec::new(alloc);
    for place in places {
        put_lines(alloc, names, place, &mut text)?;
    }
    Ok(text)
}
