//! The variables of the environment.
ghost use Rattle.std.specs.Prelude.{◌≡◌, IsUtf8, option_map, OnOk, OnErr};
ghost use Rattle.std.specs.Option.{option_copied};
ghost use Rattle.zi_edge.specs.Entries.{named, halves, with_new, helper_of};

use std::alloc::Global;
use std::env::FillError;
use std::rt::Env;
use std::str::from_utf8;
use zi_outside::Vars;
use zi_text::{Memory, Text};

// The first room for an entry.
const ROOM: usize = 256;

// Reads an entry by its number; false behind the last.
fn read_entry<R: Env>(rt: &R, i: usize, entry: &mut Vec<u8>) -> Result<bool, Memory> {
    let mut room = ROOM;
    for _ in 0..usize::BITS {
        entry.resize(room, 0u8)?;
        match rt.var_at(i, entry.as_mut_slice()) {
            Ok(len) => {
                entry.truncate(len);
                return Ok(true);
            }
            Err(FillError::NotPresent) => return Ok(false),
            Err(FillError::TooLong) => room = room.saturating_add(room),
        }
    }
    Err(Memory)
}

// A name and a value, where there is a name.
fn named<'a>(name: &'a str, value: &'a str) -> Option<(&'a str, &'a str)>
    ensures { option_map (λ p. (p.0.now, p.1.now)) result ≡ named name.entry.now value.entry.now }
{
    if name.is_empty() {
        None
    } else {
        Some((name, value))
    }
}

// The name and the value of an entry, where it has a name.
fn halves(entry: &str) -> Option<(&str, &str)>
    ensures { option_map (λ p. (p.0.now, p.1.now)) result ≡ halves entry.now }
{
    match entry.split_once('=') {
        Some((name, value)) => named(name, value),
        None => None,
    }
}

// Takes an entry in, where it is a variable that isn't there yet.
fn add(vars: &mut Vars, entry: &str) -> Result<(), Memory>
    ensures ok { OnOk result (vars.new ≡ with_new (halves entry.now) vars.old) }
    ensures err { OnErr result (vars.new ≡ vars.old) }
{
    let Some((name, value)) = halves(entry) else {
        return Ok(());
    };
    if vars.get(name).is_some() {
        return Ok(());
    }
    vars.set(name, value)
}

// The same of an entry that may be no text, and is passed over then.
fn add_entry(vars: &mut Vars, entry: &[u8]) -> Result<(), Memory>
    ensures text { IsUtf8 entry.now → OnOk result (vars.new ≡ with_new (halves entry.now) vars.old) }
    ensures other { ¬ (IsUtf8 entry.now) → vars.new ≡ vars.old }
    ensures err { OnErr result (vars.new ≡ vars.old) }
{
    match from_utf8(entry) {
        Ok(text) => add(vars, text),
        Err(_) => Ok(()),
    }
}

/// The variables of the environment, each under its name. What isn't text isn't among them, and of two with one name the first
/// counts.
pub fn variables<R: Env>(rt: &R, alloc: Global) -> Result<Vars, Memory> {
    let mut vars = Vars::new(alloc);
    let mut entry = Vec::new(alloc);
    for i in 0..usize::MAX {
        if !read_entry(rt, i, &mut entry)? {
            break;
        }
        add_entry(&mut vars, entry.as_slice())?;
    }
    Ok(vars)
}

/// The program that fetches: the value of `ZI_FETCH`. None where that isn't set or is empty.
pub fn helper(vars: &Vars) -> Option<&Text>
    ensures { option_copied result ≡ helper_of vars.now }
{
    match vars.get("ZI_FETCH") {
        Some(helper) if !helper.is_empty() => Some(helper),
        _ => None,
    }
}
