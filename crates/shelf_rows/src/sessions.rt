//! Sessions: which begin, what each step answers, and what is left behind. A session is named by its number, from 0.
use crate::telling::Told;
use std::alloc::Global;
use zi_digest::DigestName;
use zi_lines::Sheet;
use zi_session::{BeginFault, Session};
use zi_shelf::Shelf;
use zi_text::Memory;

/// The number that a word is; one that no session has, for any other word.
pub(crate) fn number(word: &str) -> usize {
    word.parse::<u32>().unwrap_or(u32::MAX) as usize
}

/// Takes a session that began.
fn take_session(told: &mut Told, session: Session) -> Result<(), Memory> {
    Ok(told.sessions.push(Some(session))?)
}

/// Adds why a session doesn't begin.
fn put_fault(alloc: Global, out: &mut Sheet, fault: &BeginFault) {
    match fault {
        BeginFault::BadName { path } => {
            out.put("bad ");
            out.value(&path.as_str());
        }
        BeginFault::Mismatch { found } => {
            out.put("found ");
            out.made(found.text(alloc));
        }
        BeginFault::Memory => out.lose(),
    }
}

/// Adds whether a session with the tree that was told begins under this name.
pub(crate) fn put_begun(alloc: Global, out: &mut Sheet, name: &str, told: &mut Told) {
    let Some(name) = DigestName::parse(name) else {
        return out.put("no digest");
    };
    match Session::begin(alloc, name, told.taken(alloc)) {
        Ok(session) => {
            out.needs(take_session(told, session));
            out.put("begun");
        }
        Err(fault) => put_fault(alloc, out, &fault),
    }
}

/// Adds what a session answers that makes one step, or runs to its end.
pub(crate) fn put_step<K: Shelf>(
    alloc: Global,
    out: &mut Sheet,
    word: &str,
    row: &str,
    shelf: &mut K,
    sessions: &mut Vec<Option<Session>>,
) {
    let Some(Some(session)) = sessions.get_mut(number(row)) else {
        return out.put("no session");
    };
    let step = if word == "step" {
        session.step(alloc, shelf)
    } else {
        session.run(alloc, shelf)
    };
    out.value(&step);
}

/// Adds the temporary entry that a session leaves behind as it stands.
pub(crate) fn put_residue(out: &mut Sheet, row: &str, told: &Told) {
    let Some(Some(session)) = told.sessions.get(number(row)) else {
        return out.put("no session");
    };
    out.put(session.residue().unwrap_or("none"));
}

/// Adds the entry that a session is blamed for, and ends the session.
pub(crate) fn put_blamed(alloc: Global, out: &mut Sheet, row: &str, told: &mut Told) {
    let Some(place) = told.sessions.get_mut(number(row)) else {
        return out.put("no session");
    };
    match place.take() {
        Some(session) => out.value(&session.into_blamed(alloc).as_str()),
        None => out.put("no session"),
    }
}
