//! What the addresses in a feed mean: in a feed of the web joined to its own by the URL Standard, in a local one placed
//! after the feed's folder.
ghost use Rattle.std.specs.Prelude.{◌≡◌, ℕ, List, [], ◌∷◌, ◌++◌, ◌==◌, ◌⊎◌, ◌↔◌, true, Some, IsTrue, IfOk, option_map, map, ◌||◌, codes};
ghost use Rattle.std.specs.List.{list_all};
ghost use Rattle.url.specs.Parser.{Gives, Parsed, IsOutOfRoom, parse_url};
ghost use Rattle.url.specs.Parts.{Parts};
ghost use Rattle.zi_address.specs.Address.{is_web as is_web_text, is_local as is_local_text, is_seen as is_seen_text, without_last, settled, path_of, placed, resolved, joined_to, Shows};
ghost use Rattle.zi_address.specs.Texts.{pieces_of, is_none, same};

use std::alloc::Global;
use url::{ParseError, Url};
use zi_text::{Memory, Text};

/// The address that a text means in the feed at `base`: an `interface`, a `src` or an `href`.
///
/// A text that begins with `http://` or `https://` stands as it is written. In a local feed, whose own address begins with
/// `/`, any other text is a path: one that begins with `/` stands as it is, and another is placed after the feed's folder,
/// without empty and `.` parts and with `..` taking away the part before it; where no part is left the path is `/`. In any
/// other feed the text is joined to the feed's address by the URL Standard.
///
/// None exactly where a `..` has no part before it in a local feed, and elsewhere where the URL Standard refuses the feed's
/// address or the join, or where the join begins with neither `http://` nor `https://`, or has another character than `!` to
/// `~`, which the URL Standard's serializer never gives. Memory is the one refusal; a URL of 4 GiB or more, which `url` doesn't
/// hold, counts as such.
#[tactic(auto, unfolding(crate::specs::Address::resolved))]
pub fn resolve(alloc: Global, base: &str, text: &str) -> Result<Option<Text>, Memory>
    ensures { IfOk result (λ address. address ≡ resolved base.now text.now) }
{
    if is_web(text) {
        return Ok(Some(Text::from_str(alloc, text)?));
    }
    if is_local(base) {
        place(alloc, base, text)
    } else {
        join(alloc, base, text)
    }
}

/// The path that a text means in the local feed at `base`, also where it looks like an address of the web: where a local
/// implementation lies. None exactly where a `..` has no part before it. Memory is the one refusal.
#[tactic(auto, unfolding(crate::specs::Address::placed))]
pub fn place(alloc: Global, base: &str, text: &str) -> Result<Option<Text>, Memory>
    ensures { IfOk result (λ path. path ≡ placed base.now text.now) }
{
    if is_local(text) {
        return Ok(Some(Text::from_str(alloc, text)?));
    }
    let mut path = Text::from_str(alloc, folder(base))?;
    path.push_str(without_dot(text))?;
    if is_settled(path.as_str()) {
        return Ok(Some(path));
    }
    settle(alloc, path.as_str())
}

/// A text without a `./` at its front, which says nothing in a path.
fn without_dot(text: &str) -> &str
    ensures { (front : List (List ℕ)) → settled (front ++ pieces_of 47 result.now) ≡ settled (front ++ pieces_of 47 text.now) }
{
    let Some(behind) = text.strip_prefix('.') else {
        return text;
    };
    match behind.strip_prefix('/') {
        Some(rest) => rest,
        None => text,
    }
}

/// Whether a byte begins a part of a path that may fall away or take another away: it is a slash or a dot.
fn is_slash_or_dot(b: u8) -> bool
    ensures { result ≡ (b == 47 || b == 46) }
{
    b == b'/' || b == b'.'
}

/// Whether a path is settled as it is written, since it begins with a slash, and behind each slash stands a byte that is neither a
/// slash nor a dot.
#[tactic(auto, using(crate::proofs::SettledLaws::scan_on, crate::proofs::SettledLaws::scan_end, crate::proofs::SettledLaws::is_settled))]
fn is_settled(path: &str) -> bool
    ensures { result ≡ true → option_map path_of (settled (pieces_of 47 path.now)) ≡ Some path.now }
{
    if !is_local(path) {
        return false;
    }
    let mut is_behind = false;
    for b in path.as_bytes() {
        if is_behind && is_slash_or_dot(*b) {
            return false;
        }
        is_behind = *b == b'/';
    }
    !is_behind
}

/// Whether a text begins with `http://` or `https://`.
fn is_web(text: &str) -> bool
    ensures { result ≡ is_web_text text.now }
{
    let bytes = text.as_bytes();
    bytes.starts_with(b"http://") || bytes.starts_with(b"https://")
}

/// Whether a byte is a character that is seen: `!` to `~`.
fn is_seen_byte(b: u8) -> bool
    ensures { result ≡ is_seen_text b }
{
    b'!' <= b && b <= b'~'
}

/// Whether a text is of characters that are seen.
fn is_seen(text: &str) -> bool
    ensures { result ≡ list_all is_seen_text text.now }
{
    text.as_bytes().iter().all(|b| is_seen_byte(*b))
}

/// Whether a text begins with a slash, as the address of a local feed does.
pub fn is_local(text: &str) -> bool
    ensures { result ≡ is_local_text text.now }
{
    text.as_bytes().starts_with(b"/")
}

/// An address up to its last slash; nothing where it has none.
fn folder(base: &str) -> &str
    ensures { (more : List ℕ) → pieces_of 47 (result.now ++ more) ≡ without_last (pieces_of 47 base.now) ++ pieces_of 47 more }
{
    match base.rfind('/') {
        Some(last) => &base[..last + 1],
        None => "",
    }
}

/// The path of the parts that are left of a text, or None where a `..` has none before it.
fn settle(alloc: Global, text: &str) -> Result<Option<Text>, Memory>
    ensures { IfOk result (λ path. path ≡ option_map path_of (settled (pieces_of 47 text.now))) }
{
    let mut parts: Vec<&str> = Vec::new(alloc);
    for part in text.split('/') {
        if falls_away(part) {
            continue;
        }
        if part == ".." {
            if parts.pop().is_none() {
                return Ok(None);
            }
        } else {
            parts.push(part)?;
        }
    }
    Ok(Some(path_with(alloc, parts.as_slice())?))
}

/// Whether a part of a path says nothing: it is empty or `.`.
#[tactic(auto, unfolding(crate::specs::Texts::same))]
fn falls_away(part: &str) -> bool
    ensures { result ≡ (is_none part.now || same part.now (codes ".")) }
{
    part.is_empty() || part == "."
}

/// The path with these parts.
fn path_with(alloc: Global, parts: &[&str]) -> Result<Text, Memory>
    ensures { IfOk result (λ path. path ≡ path_of (map (λ part. part.now) parts.now)) }
{
    if parts.is_empty() {
        return Text::from_str(alloc, "/");
    }
    let mut path = Text::new(alloc);
    for part in parts {
        path.push('/')?;
        path.push_str(part)?;
    }
    Ok(path)
}

/// A text joined to the address of a feed of the web, or None where that gives no web address.
fn join(alloc: Global, base: &str, text: &str) -> Result<Option<Text>, Memory>
    ensures { IfOk result (λ address. address ≡ joined_to (parse_url None base.now) text.now) }
{
    let Some(base) = shown(Url::parse(alloc, base))? else {
        return Ok(None);
    };
    let Some(url) = shown(base.join(text))? else {
        return Ok(None);
    };
    let address = url.as_str();
    if is_web(address) && is_seen(address) {
        Ok(Some(Text::from_str(alloc, address)?))
    } else {
        Ok(None)
    }
}

/// The URL, or None where the URL Standard refuses it. Want of room is Memory, also for a URL that came to 4 GiB.
fn shown(answer: Result<Url, ParseError>) -> Result<Option<Url>, Memory>
    ensures { IfOk result (λ found. (expected : Parsed Parts) → Gives answer expected → Shows found expected) }
{
    match answer {
        Ok(url) => Ok(Some(url)),
        Err(error) => {
            if is_out_of_room(&error) {
                Err(Memory)
            } else {
                Ok(None)
            }
        }
    }
}

fn is_out_of_room(error: &ParseError) -> bool
    ensures { IsTrue result ↔ IsOutOfRoom error.now }
{
    matches!(error, ParseError::OutOfMemory | ParseError::Overflow)
}
