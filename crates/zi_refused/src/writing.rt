//! The text of refusals.
ghost use Rattle.std.specs.Prelude.{◌≡◌, ◌++◌, [], OnOk};
ghost use Rattle.std.specs.List.{flat_map};
ghost use Rattle.zi_refused.specs.Words.{reason_text, named_text, refusal_text, refusals_text};

use crate::refusal::{Reason, Refusal};
use zi_text::{Memory, Text};

// What a reason says of an implementation.
fn reason_words(reason: Reason) -> &'static str
    ensures { result.now ≡ reason_text reason }
{
    match reason {
        Reason::Stability => " is buggy or insecure",
        Reason::Source => " is source code",
        Reason::Arch => " is for another operating system or machine",
        Reason::Unreachable => " is neither local nor stored, and can't be fetched",
        Reason::Offline => " is neither local nor stored, and the network is off",
        Reason::Limit => " is no version that is asked for",
    }
}

// Puts the interface, the version and the id.
fn put_named(interface: &Text, one: &Refusal, out: &mut Text) -> Result<(), Memory>
    ensures { OnOk result (out.new ≡ out.old ++ named_text interface.now one.now) }
{
    out.push_str("  ")?;
    out.push_str(interface.as_str())?;
    out.push_str(" ")?;
    out.push_str(one.version.text())?;
    out.push_str(" (")?;
    out.push_str(one.id.as_str())?;
    out.push_str(")")
}

// Puts the line of a refusal.
fn put_refusal(interface: &Text, one: &Refusal, out: &mut Text) -> Result<(), Memory>
    ensures { OnOk result (out.new ≡ out.old ++ refusal_text interface.now one.now) }
{
    put_named(interface, one, out)?;
    out.push_str(reason_words(one.reason))?;
    out.push_str("\n")
}

// Puts the line of each.
fn put_each(interface: &Text, refusals: &[Refusal], out: &mut Text) -> Result<(), Memory>
    ensures { OnOk result (out.new ≡ out.old ++ flat_map (refusal_text interface.now) refusals.now) }
{
    for one in refusals {
        put_refusal(interface, one, out)?;
    }
    Ok(())
}

// Puts that there is no implementation.
fn put_none(interface: &Text, out: &mut Text) -> Result<(), Memory>
    ensures { OnOk result (out.new ≡ out.old ++ refusals_text interface.now []) }
{
    out.push_str("  ")?;
    out.push_str(interface.as_str())?;
    out.push_str(" has no implementation in its feeds\n")
}

/// For an interface that has no candidate, puts a line for each implementation of its feeds, which says why it is none; where there is no
/// implementation, a line that says so. Memory is the one refusal.
pub fn put_refusals(interface: &Text, refusals: &[Refusal], out: &mut Text) -> Result<(), Memory>
    ensures { OnOk result (out.new ≡ out.old ++ refusals_text interface.now refusals.now) }
{
    if refusals.is_empty() {
        return put_none(interface, out);
    }
    put_each(interface, refusals, out)
}
