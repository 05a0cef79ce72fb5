//! Versions of an interface, put at the end of a text.
ghost use Rattle.std.specs.Prelude.{◌≡◌, ◌++◌, length, filter, OnOk};
ghost use Rattle.std.specs.List.{flat_map};
ghost use Rattle.zi_facts.specs.Lines.{same_version, is_shared, id_text, version_text, text_at, next_text, versions_text};

use zi_text::{Memory, Text};
use zi_universe::Candidate;

// Whether a candidate has the version of another.
fn same_version(k: &Candidate, l: &Candidate) -> bool
    ensures { result ≡ same_version k.now l.now }
{
    l.imp.version.text() == k.imp.version.text()
}

// How many candidates have the version of this one.
fn sharing(all: &[Candidate], k: &Candidate) -> usize
    ensures { result ≡ length (filter (same_version k.now) all.now) }
{
    all.iter().filter(|l| same_version(k, l)).count()
}

// Whether another candidate has the version of this one.
fn is_shared(all: &[Candidate], k: &Candidate) -> bool
    ensures { result ≡ is_shared all.now k.now }
{
    sharing(all, k) > 1
}

// Puts an id behind a version that others share.
fn put_id(shared: bool, id: &Text, out: &mut Text) -> Result<(), Memory>
    ensures { OnOk result (out.new ≡ out.old ++ id_text shared id.now) }
{
    if !shared {
        return Ok(());
    }
    out.push_str(" (")?;
    out.push_str(id.as_str())?;
    out.push_str(")")
}

// Puts a version, with the id where another candidate of the interface has the same.
fn put_version(all: &[Candidate], k: &Candidate, out: &mut Text) -> Result<(), Memory>
    ensures { OnOk result (out.new ≡ out.old ++ version_text all.now k.now) }
{
    out.push_str(k.imp.version.text())?;
    put_id(is_shared(all, k), &k.imp.id, out)
}

// Puts the version of a number.
fn put_at(all: &[Candidate], n: u32, out: &mut Text) -> Result<(), Memory>
    ensures { OnOk result (out.new ≡ out.old ++ text_at all.now n) }
{
    match all.get(n as usize) {
        None => Ok(()),
        Some(k) => put_version(all, k, out),
    }
}

// Puts the version of a number behind others.
fn put_next(all: &[Candidate], n: u32, out: &mut Text) -> Result<(), Memory>
    ensures { OnOk result (out.new ≡ out.old ++ next_text all.now n) }
{
    out.push_str(", ")?;
    put_at(all, n, out)
}

// Puts the versions of these numbers behind others.
fn put_others(all: &[Candidate], numbers: &[u32], out: &mut Text) -> Result<(), Memory>
    ensures { OnOk result (out.new ≡ out.old ++ flat_map (next_text all.now) numbers.now) }
{
    for n in numbers {
        put_next(all, *n, out)?;
    }
    Ok(())
}

/// Puts the versions of these numbers.
pub(crate) fn put_versions(all: &[Candidate], numbers: &[u32], out: &mut Text) -> Result<(), Memory>
    ensures { OnOk result (out.new ≡ out.old ++ versions_text all.now numbers.now) }
{
    match numbers.split_first() {
        None => Ok(()),
        Some((first, others)) => {
            put_at(all, *first, out)?;
            put_others(all, others, out)
        }
    }
}
