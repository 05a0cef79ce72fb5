//! Arguments are expanded.
ghost use Rattle.std.specs.Prelude.{◌≡◌, ◌++◌, ◌∷◌, [], IfOk, Option, map, option_copied, option_map, Ok, Some, None, false, ◌≤◌, ◌<◌, ◌^◌, length, OnOk};
ghost use Rattle.std.specs.List.{slice_split, prefix_len, list_all};
ghost use Rattle.zi_outside.specs.Vars.{value_of};
ghost use Rattle.zi_bind.specs.Expansion.{with_item, begins, goes_on, is_variable, named, braced, bare, reference, referred, is_dollar, expanded_text, expanded_texts, for_items, items_of, expanded, behind_dollars, in_pieces, items_in, room, cut_past, alone};
ghost use Rattle.zi_bind.specs.Answers.{Answers, Adds, PutsPiece};

use crate::BindFault;
use std::alloc::{AllocError, Global};
use zi_outside::Vars;
use zi_parts::Word;
use zi_text::{List, Memory, Text};

// Whether a name goes on with this byte.
#[tactic(auto, unfolding(crate::specs::Expansion::goes_on))]
fn goes_on(b: u8) -> bool
    ensures { result ≡ goes_on b }
{
    b.is_ascii_alphanumeric() || b == b'_'
}

// Whether a name begins with this byte.
#[tactic(auto, unfolding(crate::specs::Expansion::begins))]
fn begins(b: u8) -> bool
    ensures { result ≡ begins b }
{
    b.is_ascii_alphabetic() || b == b'_'
}

// Whether a name goes on with all of these.
fn all_go_on(bytes: &[u8]) -> bool
    ensures { result ≡ list_all goes_on bytes.now }
{
    bytes.iter().all(|b| goes_on(*b))
}

// Whether a text is a variable's name.
#[tactic(auto, unfolding(crate::specs::Expansion::is_variable))]
fn is_variable(name: &str) -> bool
    ensures { result ≡ is_variable name.now }
{
    match name.as_bytes() {
        [] => false,
        [first, more @ ..] => begins(*first) && all_go_on(more),
    }
}

// How many bytes a name takes at the front of a text.
fn name_len(text: &str) -> usize
    ensures { result ≡ prefix_len goes_on text.now }
{
    text.as_bytes().iter().take_while(|b| goes_on(**b)).count()
}

// A name and the text behind it, where it is a name.
fn named<'a>(name: &'a str, rest: &'a str) -> Option<(&'a str, &'a str)>
    ensures { option_map (λ p. (p.0.now, p.1.now)) result ≡ named name.entry.now rest.entry.now }
{
    if is_variable(name) {
        Some((name, rest))
    } else {
        None
    }
}

// The name up to a closing brace, and the text behind that.
#[tactic(auto, unfolding(crate::specs::Expansion::braced))]
fn braced(text: &str) -> Option<(&str, &str)>
    ensures { option_map (λ p. (p.0.now, p.1.now)) result ≡ braced text.now }
{
    match text.split_once('}') {
        Some((name, rest)) => named(name, rest),
        None => None,
    }
}

// The name at the front of a text, and the text behind that.
#[tactic(auto, unfolding(crate::specs::Expansion::bare))]
fn bare(text: &str) -> Option<(&str, &str)>
    ensures { option_map (λ p. (p.0.now, p.1.now)) result ≡ bare text.now }
{
    let (name, rest) = text.split_at(name_len(text));
    named(name, rest)
}

// The name that a dollar before this text refers to, and the text behind that.
#[tactic(auto, unfolding(crate::specs::Expansion::reference))]
fn reference(text: &str) -> Option<(&str, &str)>
    ensures { option_map (λ p. (p.0.now, p.1.now)) result ≡ reference text.now }
{
    match text.strip_prefix('{') {
        Some(inside) => braced(inside),
        None => bare(text),
    }
}

// The value of a variable, where the item of a `for-each`, if there is one, goes before a variable named `item`.
fn value_of<'a>(vars: &'a Vars, item: Option<&'a str>, name: &str) -> Option<&'a str>
    ensures { option_copied result ≡ with_item (option_copied item.entry) (value_of vars.now) name.now }
{
    if let Some(item) = item {
        if name == "item" {
            return Some(item);
        }
    }
    match vars.get(name) {
        Some(value) => Some(value.as_str()),
        None => None,
    }
}

// The pieces of a text between its dollars.
fn pieces(alloc: Global, text: &str) -> Result<Vec<&str>, AllocError>
    ensures { IfOk result (λ v. map (λ x. x.now) v.items ≡ slice_split is_dollar text.now) }
{
    text.split('$').collect(alloc)
}

// Adds what a dollar at a place and the text behind it, up to the next dollar, stand for.
fn put_referred(
    alloc: Global,
    place: u64,
    text: &str,
    vars: &Vars,
    item: Option<&str>,
    out: &mut Text,
) -> Result<(), BindFault>
    ensures { Adds (referred (with_item (option_copied item.entry) (value_of vars.now)) place text.now) out.old result out.new }
{
    let Some((name, rest)) = reference(text) else {
        return Err(BindFault::BadDollar { place });
    };
    let Some(value) = value_of(vars, item, name) else {
        let name = Text::from_str(alloc, name)?;
        return Err(BindFault::Unset { name });
    };
    out.push_str(value)?;
    out.push_str(rest)?;
    Ok(())
}

// Adds what the next piece of an argument stands for, and says whether the one behind it stands as it is. A dollar behind a
// dollar is one, and the piece behind it stands as it is, as the first does.
fn put_piece(
    alloc: Global,
    piece: &str,
    plain: bool,
    next: u64,
    vars: &Vars,
    item: Option<&str>,
    out: &mut Text,
) -> Result<bool, BindFault>
    requires { plain ≡ false → 1 ≤ next }
    ensures { PutsPiece (with_item (option_copied item.entry) (value_of vars.now)) plain next piece.now out.old result out.new }
{
    if plain {
        out.push_str(piece)?;
        return Ok(false);
    }
    if piece.is_empty() {
        out.push_str("$")?;
        return Ok(true);
    }
    match put_referred(alloc, next - 1, piece, vars, item, out) {
        Ok(()) => Ok(false),
        Err(fault) => Err(fault),
    }
}

// Adds what an argument stands for, by the pieces between its dollars.
fn put_pieces(
    alloc: Global,
    pieces: &[&str],
    vars: &Vars,
    item: Option<&str>,
    out: &mut Text,
) -> Result<(), BindFault>
    requires some { 0 < length pieces.now }
    requires few { room (map (λ x. x.now) pieces.now) < 2 ^ 64 }
    ensures { Adds (in_pieces (with_item (option_copied item.entry) (value_of vars.now)) (map (λ x. x.now) pieces.now)) out.old result out.new }
{
    let mut plain = true;
    let mut next = 0u64;
    for piece in pieces {
        match put_piece(alloc, piece, plain, next, vars, item, out) {
            Ok(is_plain) => plain = is_plain,
            Err(fault) => return Err(fault),
        }
        next += piece.len() as u64 + 1;
    }
    if plain {
        return Err(BindFault::BadDollar { place: next - 2 });
    }
    Ok(())
}

// What an argument stands for.
#[tactic(auto, unfolding(crate::specs::Expansion::expanded_text))]
fn expanded_text(
    alloc: Global,
    text: &str,
    vars: &Vars,
    item: Option<&str>,
) -> Result<Text, BindFault>
    ensures { Answers (expanded_text (with_item (option_copied item.entry) (value_of vars.now)) text.now) result }
{
    let mut out = Text::new(alloc);
    let _bytes = text.as_bytes();
    let Ok(pieces) = pieces(alloc, text) else {
        return Err(BindFault::Memory);
    };
    put_pieces(alloc, pieces.as_slice(), vars, item, &mut out)?;
    Ok(out)
}

// Adds what arguments stand for, one after another.
fn put_texts(
    alloc: Global,
    args: &[Text],
    vars: &Vars,
    item: Option<&str>,
    out: &mut List<Text>,
) -> Result<(), BindFault>
    ensures { Adds (expanded_texts (with_item (option_copied item.entry) (value_of vars.now)) args.now) out.old result out.new }
{
    for arg in args {
        match expanded_text(alloc, arg.as_str(), vars, item) {
            Ok(text) => out.push(text)?,
            Err(fault) => return Err(fault),
        }
    }
    Ok(())
}

// Adds the pieces of a text between separators.
fn cut<'a>(separator: &str, text: &'a str, items: &mut Vec<&'a str>) -> Result<(), AllocError>
    requires { 0 < length separator.now }
    ensures { OnOk result (map (λ x. x.now) items.new.items ≡ map (λ x. x.now) items.old.items ++ cut_past 0 separator.now text.entry.now) }
{
    let mut rest = text;
    while let Some((item, more)) = rest.split_once(separator) {
        items.push(item)?;
        rest = more;
    }
    items.push(rest)?;
    Ok(())
}

// The items of a text.
#[tactic(auto, unfolding(crate::specs::Expansion::items_of))]
fn items<'a>(alloc: Global, separator: &str, text: &'a str) -> Result<Vec<&'a str>, AllocError>
    ensures { IfOk result (λ v. map (λ x. x.now) v.items ≡ items_of separator.now text.entry.now) }
{
    let mut items = Vec::new(alloc);
    if separator.is_empty() {
        items.push(text)?;
    } else {
        cut(separator, text, &mut items)?;
    }
    Ok(items)
}

// Adds the arguments once for each item.
fn put_items(
    alloc: Global,
    items: &[&str],
    args: &[Text],
    vars: &Vars,
    out: &mut List<Text>,
) -> Result<(), BindFault>
    ensures { Adds (for_items (value_of vars.now) args.now (map (λ x. x.now) items.now)) out.old result out.new }
{
    for item in items {
        match put_texts(alloc, args, vars, Some(item), out) {
            Ok(()) => {}
            Err(fault) => return Err(fault),
        }
    }
    Ok(())
}

// What the arguments of a `for-each` stand for.
fn expanded_each(
    alloc: Global,
    item_from: &str,
    separator: &str,
    args: &[Text],
    vars: &Vars,
) -> Result<List<Text>, BindFault>
    ensures { Answers (for_items (value_of vars.now) args.now (items_in separator.now (value_of vars.now item_from.now))) result }
{
    let mut out = List::new(alloc);
    let Some(text) = vars.get(item_from) else {
        return Ok(out);
    };
    let Ok(items) = items(alloc, separator, text.as_str()) else {
        return Err(BindFault::Memory);
    };
    put_items(alloc, items.as_slice(), args, vars, &mut out)?;
    Ok(out)
}

// What an argument alone stands for, as a list.
#[tactic(auto, using(crate::proofs::EachLaws::alone_is))]
fn expanded_arg(alloc: Global, text: &str, vars: &Vars) -> Result<List<Text>, BindFault>
    ensures { Answers (alone (expanded_text (value_of vars.now) text.now)) result }
{
    let mut out = List::new(alloc);
    let text = expanded_text(alloc, text, vars, None)?;
    out.push(text)?;
    Ok(out)
}

/// What a word of a command stands for: an argument with its variables replaced, or the arguments of a `for-each` once for each
/// item of its variable.
///
/// Unset and BadDollar are answered exactly for the first reference that can't be replaced, in the order of the texts that are
/// made; the place is the dollar's offset in its argument.
#[tactic(auto, unfolding(crate::specs::Expansion::expanded))]
pub fn expand(alloc: Global, word: &Word, vars: &Vars) -> Result<List<Text>, BindFault>
    ensures { Answers (expanded (value_of vars.now) word.now) result }
{
    match word {
        Word::Arg(text) => expanded_arg(alloc, text.as_str(), vars),
        Word::ForEach {
            item_from,
            separator,
            args,
        } => expanded_each(
            alloc,
            item_from.as_str(),
            separator.as_str(),
            args.as_slice(),
            vars,
        ),
    }
}
