//! The digests of a selection: what its elements say, and its id.
ghost use Rattle.std.specs.Prelude.{◌≡◌, ◌++◌, IfOk};
ghost use Rattle.std.specs.List.{find, flat_map};
ghost use Rattle.zi_reading.specs.Words.{optional};
ghost use Rattle.zi_parts.specs.Digests.{digest_of};
ghost use Rattle.zi_sels.specs.Written.{is_by};
ghost use Rattle.zi_sels.specs.Read.{in_order_of_use};

use crate::digests::is_by;
use std::alloc::Global;
use zi_digest::{Algorithm, DigestName};
use zi_text::{List, Memory};

// In the order of use.
const ALGORITHMS: [Algorithm; 3] = [Algorithm::Sha256new, Algorithm::Sha256, Algorithm::Sha1new];

// The digest name that is spelled so.
fn digest_of(text: &str) -> Option<DigestName>
    ensures { result ≡ digest_of text.now }
{
    DigestName::parse(text)
}

// All that is said, one behind another, and the id behind it where that is a digest.
fn all_said(alloc: Global, said: &[List<DigestName>], id: &str) -> Result<Vec<DigestName>, Memory>
    ensures { IfOk result (λ v. v.items ≡ flat_map (λ ds. ds) said.now ++ optional (digest_of id.now)) }
{
    let mut all = Vec::new(alloc);
    for names in said {
        all.extend_from_slice(names.as_slice())?;
    }
    if let Some(name) = digest_of(id) {
        all.push(name)?;
    }
    Ok(all)
}

// The first digest by an algorithm.
fn first_by(algorithm: Algorithm, names: &[DigestName]) -> Option<DigestName>
    ensures { result ≡ find (is_by algorithm) names.now }
{
    for name in names {
        if is_by(algorithm, name) {
            return Some(*name);
        }
    }
    None
}

/// By each algorithm the first digest of what is said and the id, in the order of use.
pub fn in_order_of_use(
    alloc: Global,
    said: &[List<DigestName>],
    id: &str,
) -> Result<List<DigestName>, Memory>
    ensures { IfOk result (λ ds. ds ≡ in_order_of_use (flat_map (λ ds. ds) said.now ++ optional (digest_of id.now))) }
{
    let all = all_said(alloc, said, id)?;
    let mut digests = List::new(alloc);
    for algorithm in ALGORITHMS.as_slice() {
        if let Some(name) = first_by(*algorithm, all.as_slice()) {
            digests.push(name)?;
        }
    }
    Ok(digests)
}
