//! Digests as attributes of one element.
ghost use Rattle.std.specs.Prelude.{◌≡◌, ◌∷◌, [], ◌++◌, ◌==◌, length, codes, IfOk, OnOk, MatchOption};
ghost use Rattle.std.specs.List.{position_or_len, after_first};
ghost use Rattle.zi_elements.specs.Forest.{element_view};
ghost use Rattle.zi_docout.specs.Elements.{elem, Adds};
ghost use Rattle.zi_parts.specs.Digests.{attribute_by};
ghost use Rattle.zi_sels.specs.Written.{digits, is_by, digest_attr, digest_attrs_by, digest_attrs, digests_elems};

use std::alloc::Global;
use zi_digest::{Algorithm, DigestName};
use zi_docout::{Attr, Element, Node, element, put_attr, put_child};
use zi_text::{List, Memory, Text};

// The attribute of an algorithm.
fn attribute_by(algorithm: Algorithm) -> &'static str
    ensures { result.now ≡ attribute_by algorithm }
{
    match algorithm {
        Algorithm::Sha1new => "sha1new",
        Algorithm::Sha256 => "sha256",
        Algorithm::Sha256new => "sha256new",
    }
}

// What stands behind the first `_` of a text.
fn behind<'a>(text: &'a str) -> Option<&'a str>
    ensures { MatchOption result (position_or_len (λ b. b == 95) text.now ≡ length text.now)
        (λ rest. rest.now ≡ after_first (λ b. b == 95) text.now) }
{
    match text.split_once('_') {
        Some((_, rest)) => Some(rest),
        None => None,
    }
}

// The digits of a digest, without the algorithm's name before them.
#[tactic(auto, using(crate::proofs::WritingLemmas::letters))]
fn digits(alloc: Global, name: &DigestName) -> Result<Text, Memory>
    ensures { IfOk result (λ t. t ≡ digits name.now) }
{
    match name {
        DigestName::Sha1new(_) => name.hex(alloc),
        DigestName::Sha256(_) => name.hex(alloc),
        DigestName::Sha256new(_) => {
            let text = name.text(alloc)?;
            match behind(text.as_str()) {
                Some(letters) => Text::from_str(alloc, letters),
                None => Ok(text),
            }
        }
    }
}

/// Whether a digest is by this algorithm.
pub fn is_by(algorithm: Algorithm, name: &DigestName) -> bool
    ensures { result ≡ is_by algorithm name.now }
{
    name.algorithm() == algorithm
}

// Adds a digest.
fn put_digest(alloc: Global, attrs: &mut List<Attr>, name: &DigestName) -> Result<(), Memory>
    ensures { OnOk result (attrs.new ≡ attrs.old ++ digest_attr name.now ∷ []) }
{
    let digits = digits(alloc, name)?;
    put_attr(
        alloc,
        attrs,
        attribute_by(name.algorithm()),
        digits.as_str(),
    )
}

// Adds the digests by an algorithm.
fn put_digests_by(
    alloc: Global,
    attrs: &mut List<Attr>,
    names: &[DigestName],
    algorithm: Algorithm,
) -> Result<(), Memory>
    ensures { OnOk result (attrs.new ≡ attrs.old ++ digest_attrs_by names.now algorithm) }
{
    for name in names {
        if is_by(algorithm, name) {
            put_digest(alloc, attrs, name)?;
        }
    }
    Ok(())
}

// Adds digests, algorithm by algorithm.
fn put_each(alloc: Global, attrs: &mut List<Attr>, names: &[DigestName]) -> Result<(), Memory>
    ensures { OnOk result (attrs.new ≡ attrs.old ++ digest_attrs names.now) }
{
    put_digests_by(alloc, attrs, names, Algorithm::Sha1new)?;
    put_digests_by(alloc, attrs, names, Algorithm::Sha256)?;
    put_digests_by(alloc, attrs, names, Algorithm::Sha256new)
}

// The element with digests.
fn digests_element(alloc: Global, names: &[DigestName]) -> Result<Element, Memory>
    ensures { IfOk result (λ e. element_view e ≡ elem (codes "manifest-digest") (digest_attrs names.now) []) }
{
    let mut attrs = List::new(alloc);
    put_each(alloc, &mut attrs, names)?;
    element(alloc, "manifest-digest", attrs, List::new(alloc))
}

/// Adds the element with the digests, where there are any.
#[tactic(auto, using(crate::proofs::WritingLemmas::all_digests))]
pub fn put_digests(
    alloc: Global,
    children: &mut List<Node>,
    names: &List<DigestName>,
) -> Result<(), Memory>
    ensures { OnOk result (Adds children.old children.new (digests_elems names.now)) }
{
    if names.is_empty() {
        return Ok(());
    }
    let digests = digests_element(alloc, names.as_slice())?;
    put_child(children, digests)
}
