//! What is looked up in a universe.
ghost use Rattle.std.specs.Prelude.{◌≡◌, ◌≤◌, length};
ghost use Rattle.zi_choice.specs.Vars.{candidates_of};
ghost use Rattle.zi_build.specs.Clauses.{is_admitted};
ghost use Rattle.zi_facts.specs.Lines.{is_named, has_command};

use zi_choice::Names;
use zi_parts::{Command, Dep};
use zi_text::Text;
use zi_universe::Candidate;

/// The candidates of an interface; none where there is no such interface.
pub(crate) fn candidates<'u>(names: &'u Names<'u>, i: u32) -> &'u [Candidate]
    ensures is { result.now ≡ candidates_of names.now i }
    ensures few { length result.now ≤ 65536 }
{
    match names.universe().interfaces().get(i as usize) {
        None => &[],
        Some(x) => x.candidates.as_slice(),
    }
}

/// Whether a candidate's version is admitted.
pub(crate) fn is_admitted(dep: &Dep, k: &Candidate) -> bool
    ensures { result ≡ is_admitted dep.now k.now }
{
    dep.ranges
        .as_slice()
        .iter()
        .all(|r| r.admits(&k.imp.version))
}

// Whether a command has a name.
fn is_named(name: &Text, m: &Command) -> bool
    ensures { result ≡ is_named name.now m.now }
{
    m.name.as_str() == name.as_str()
}

/// Whether a candidate has a command of a name.
pub(crate) fn has_command(k: &Candidate, name: &Text) -> bool
    ensures { result ≡ has_command k.now name.now }
{
    for n in 0..k.imp.commands.len() {
        if is_named(name, k.imp.commands.at(n).as_ref()) {
            return true;
        }
    }
    false
}
