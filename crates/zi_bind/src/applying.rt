//! Bindings are applied to variables.
ghost use Rattle.std.specs.Prelude.{◌≡◌, ◌++◌, ◌∷◌, IfOk, OnOk, OnErr, None, codes, option_copied};
ghost use Rattle.std.specs.Option.{option_or};
ghost use Rattle.zi_outside.specs.Vars.{with_var};
ghost use Rattle.zi_parts.specs.declared.types.Extra.TheVariants.{Insert};
ghost use Rattle.zi_parts.specs.declared.types.Mode.TheVariants.{Prepend};
ghost use Rattle.zi_bind.specs.Bound.{standard_value, is_folder_itself, extra_text, old_value, new_value, with_binding, fault_of_extra};
ghost use Rattle.zi_bind.specs.Shims.{is_shimmed, with_shim};
ghost use Rattle.zi_bind.specs.Answers.{Applies, AppliesOne, ExtraIs};

use crate::ApplyFault;
use std::alloc::Global;
use zi_outside::Vars;
use zi_parts::{Binding, Extra, Mode};
use zi_text::{Memory, Text};
use zi_tree::RelPath;

// What counts as the old value of a variable that isn't set and has no default.
#[tactic(auto, unfolding(crate::specs::Bound::standard_value))]
fn standard_value(name: &str) -> Option<&'static str>
    ensures { option_copied result ≡ standard_value name.now }
{
    match name {
        "PATH" => Some("/bin:/usr/bin"),
        "XDG_CONFIG_DIRS" => Some("/etc/xdg"),
        "XDG_DATA_DIRS" => Some("/usr/local/share:/usr/share"),
        _ => None,
    }
}

// The old value of a variable.
fn old_value<'a>(vars: &'a Vars, name: &str, default: &'a Option<Text>) -> Option<&'a str>
    ensures { option_copied result ≡ old_value vars.now name.now default.now }
{
    if let Some(value) = vars.get(name) {
        return Some(value.as_str());
    }
    match default {
        Some(value) => Some(value.as_str()),
        None => standard_value(name),
    }
}

// Two texts with a separator between them.
fn joined(alloc: Global, front: &str, separator: &str, back: &str) -> Result<Text, Memory>
    ensures { IfOk result (λ t. t ≡ front.now ++ (separator.now ++ back.now)) }
{
    let mut text = Text::from_str(alloc, front)?;
    text.push_str(separator)?;
    text.push_str(back)?;
    Ok(text)
}

// The new value of a variable.
fn new_value(
    alloc: Global,
    mode: Mode,
    separator: &str,
    extra: Text,
    old: Option<&str>,
) -> Result<Text, Memory>
    ensures { IfOk result (λ t. t ≡ new_value mode separator.now extra (option_copied old.entry)) }
{
    match (mode, old) {
        (Mode::Replace, _) | (_, None) => Ok(extra),
        (Mode::Prepend, Some(old)) => joined(alloc, extra.as_str(), separator, old),
        (Mode::Append, Some(old)) => joined(alloc, old, separator, extra.as_str()),
    }
}

// A path in a folder.
#[tactic(auto, unfolding(crate::specs::Bound::extra_text))]
fn inside(alloc: Global, folder: &str, path: &str) -> Result<Text, Memory>
    ensures { IfOk result (λ t. t ≡ extra_text folder.now (Insert path.now)) }
{
    if path == "" || path == "." {
        Text::from_str(alloc, folder)
    } else {
        joined(alloc, folder, "/", path)
    }
}

// What a binding adds.
#[tactic(auto, unfolding(crate::specs::Bound::extra_text))]
fn extra_text(alloc: Global, folder: &str, extra: &Extra) -> Result<Text, ApplyFault>
    ensures { ExtraIs folder.now extra.now result }
{
    match extra {
        Extra::Value(text) => Ok(text.copy(alloc)?),
        Extra::Insert(path) => match RelPath::parse(alloc, path.as_str())? {
            Some(_) => Ok(inside(alloc, folder, path.as_str())?),
            None => Err(ApplyFault::BadPath {
                text: path.copy(alloc)?,
            }),
        },
    }
}

/// Applies one binding, with the folder of what is selected. One that makes a command available is passed over.
#[tactic(auto, unfolding(crate::specs::Bound::with_binding, crate::specs::Bound::fault_of))]
pub fn apply_binding(
    alloc: Global,
    binding: &Binding,
    folder: &str,
    vars: &mut Vars,
) -> Result<(), ApplyFault>
    ensures { AppliesOne folder.now binding.now vars.old result vars.new }
{
    match binding {
        Binding::Unbuilt { element } => Err(ApplyFault::Unbuilt {
            element: element.copy(alloc)?,
        }),
        Binding::Env {
            name,
            extra,
            mode,
            separator,
            default,
        } => {
            let extra = extra_text(alloc, folder, extra)?;
            let old = old_value(vars, name.as_str(), default);
            let value = new_value(alloc, *mode, separator.as_str(), extra, old)?;
            vars.set(name.as_str(), value.as_str())?;
            Ok(())
        }
        Binding::ExecVar { .. } | Binding::ExecPath { .. } => Ok(()),
    }
}

/// Applies bindings with the folder of an implementation, one after another.
///
/// Unbuilt and BadPath are answered exactly for the first binding that isn't built, or that inserts what is no relative path,
/// and the variables are then those after the bindings before it. After want of memory they are those after some of the first.
#[tactic(auto)]
pub fn apply(
    alloc: Global,
    bindings: &[Binding],
    folder: &str,
    vars: &mut Vars,
) -> Result<(), ApplyFault>
    ensures { Applies folder.now bindings.now vars.old result vars.new }
{
    for binding in bindings {
        match apply_binding(alloc, binding, folder, vars) {
            Ok(()) => {}
            Err(fault) => return Err(fault),
        }
    }
    Ok(())
}

/// Whether a binding makes a command available.
pub fn is_shimmed(binding: &Binding) -> bool
    ensures { result ≡ is_shimmed binding.now }
{
    matches!(binding, Binding::ExecVar { .. } | Binding::ExecPath { .. })
}

// Sets a variable to a shim's path.
fn set_path(alloc: Global, name: &str, folder: &str, vars: &mut Vars) -> Result<(), Memory>
    ensures ok { OnOk result (vars.new ≡ with_var name.now (folder.now ++ 47 ∷ name.now) vars.old) }
    ensures err { OnErr result (vars.new ≡ vars.old) }
{
    let path = joined(alloc, folder, "/", name)?;
    vars.set(name, path.as_str())
}

// Puts a shim's folder before what is in PATH.
fn put_first(alloc: Global, folder: &str, vars: &mut Vars) -> Result<(), Memory>
    ensures ok { OnOk result (vars.new ≡ with_var (codes "PATH") (new_value Prepend (codes ":") folder.now (old_value vars.old (codes "PATH") None)) vars.old) }
    ensures err { OnErr result (vars.new ≡ vars.old) }
{
    let extra = Text::from_str(alloc, folder)?;
    let value = {
        let old = old_value(vars, "PATH", &None);
        new_value(alloc, Mode::Prepend, ":", extra, old)?
    };
    vars.set("PATH", value.as_str())
}

/// Applies a binding that makes a command available, with the folder of its shim. Any other is passed over. After want of memory
/// the variables are as before.
#[tactic(auto, unfolding(crate::specs::Shims::with_shim, crate::specs::Bound::with_binding, crate::specs::Bound::extra_text))]
pub fn apply_shim(
    alloc: Global,
    binding: &Binding,
    folder: &str,
    vars: &mut Vars,
) -> Result<(), Memory>
    ensures ok { OnOk result (vars.new ≡ with_shim folder.now binding.now vars.old) }
    ensures err { OnErr result (vars.new ≡ vars.old) }
{
    match binding {
        Binding::ExecVar { name, .. } => set_path(alloc, name.as_str(), folder, vars),
        Binding::ExecPath { .. } => put_first(alloc, folder, vars),
        _ => Ok(()),
    }
}
