//! The text of a script.
ghost use Rattle.std.specs.Prelude.{◌≡◌, [], ◌∷◌, ◌++◌, IfOk, OnOk, string_bytes};
ghost use Rattle.std.specs.List.{flat_map};
ghost use Rattle.zi_shim.specs.Shim.{quoted_words};
ghost use Rattle.zi_script.specs.Script.{line, lines, script, Scripted};

use crate::ScriptFault;
use crate::naming::{is_changed, unsettable};
use std::alloc::{AllocError, Global};
use zi_outside::{Launch, Vars};
use zi_shim::{put_quoted, put_word};
use zi_text::{Memory, Text};

// Adds the line that sets a variable.
fn put_line(name: &str, value: &str, out: &mut String) -> Result<(), AllocError>
    ensures { OnOk result (string_bytes out.new ≡ string_bytes out.old ++ line (record { name = name.now; value = value.now })) }
{
    out.push_str("export ")?;
    out.push_str(name)?;
    out.push_str("=")?;
    put_quoted(value, out)?;
    out.push_str("\n")
}

// Adds it, unless the variable is as it was.
fn put_changed(name: &str, value: &str, old: &Vars, out: &mut String) -> Result<(), AllocError>
    ensures { OnOk result (string_bytes out.new ≡ string_bytes out.old ++ lines old.now (record { name = name.now; value = value.now } ∷ [])) }
{
    if !is_changed(name, value, old) {
        return Ok(());
    }
    put_line(name, value, out)
}

// Adds the line of each variable that is changed.
fn put_lines(new: &Vars, old: &Vars, out: &mut String) -> Result<(), AllocError>
    ensures { OnOk result (string_bytes out.new ≡ string_bytes out.old ++ lines old.now new.now) }
{
    for i in 0..new.len() {
        put_changed(new.name_at(i).as_str(), new.value_at(i).as_str(), old, out)?;
    }
    Ok(())
}

// Adds words, each quoted behind a space.
fn put_words(words: &[Text], out: &mut String) -> Result<(), AllocError>
    ensures { OnOk result (string_bytes out.new ≡ string_bytes out.old ++ quoted_words words.now) }
{
    for word in words {
        put_word(word.as_str(), out)?;
    }
    Ok(())
}

// The text of the script whose variables a shell can all set.
fn whole(alloc: Global, launch: &Launch, old: &Vars) -> Result<String, Memory>
    ensures { IfOk result (λ text. string_bytes text ≡ script old.now launch.now) }
{
    let mut text = String::new(alloc);
    put_lines(&launch.vars, old, &mut text)?;
    text.push_str("exec")?;
    put_words(launch.words.as_slice(), &mut text)?;
    text.push_str("\n")?;
    Ok(text)
}

/// The text of the script of a launch, for a shell whose exported variables are these: a line of `export` for each variable that the
/// launch changes, and a line of `exec` with its words, each value and each word quoted.
///
/// BadName is answered exactly where the launch changes a variable whose name a shell can't set, and names the first of them.
pub fn script_text(alloc: Global, launch: &Launch, old: &Vars) -> Result<String, ScriptFault>
    ensures { Scripted old.now launch.now result }
{
    if let Some(name) = unsettable(&launch.vars, old) {
        return Err(ScriptFault::BadName {
            name: name.copy(alloc)?,
        });
    }
    Ok(whole(alloc, launch, old)?)
}
