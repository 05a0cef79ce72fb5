//! What is asked for, as the commands take it.
ghost use Rattle.std.specs.Prelude.{◌≡◌, IfOk};
ghost use Rattle.zi_choosing.specs.Table.{filled, table_in};
ghost use Rattle.zi_choosing.specs.Wanted.{asked_in};

use std::alloc::Global;
use zi_outside::Vars;
use zi_text::{Memory, Text};
use zi_words::Ask;

/// What words ask for, and over which packages.
#[derive(Drop)]
pub struct Asked {
    /// What the words ask for.
    pub ask: Ask,
    /// The file with the table of the packages that the operating system has; without one it has none.
    pub table: Option<Text>,
}

// A text that isn't empty.
fn filled(alloc: Global, text: &Text) -> Result<Option<Text>, Memory>
    ensures { IfOk result (λ t. t ≡ filled text.now) }
{
    if text.is_empty() {
        return Ok(None);
    }
    Ok(Some(text.copy(alloc)?))
}

// The file of the table, as variables name it.
fn table_in(alloc: Global, vars: &Vars) -> Result<Option<Text>, Memory>
    ensures { IfOk result (λ t. t ≡ table_in vars.now) }
{
    match vars.get("ZI_PACKAGES") {
        Some(text) => filled(alloc, text),
        None => Ok(None),
    }
}

impl Asked {
    /// What words ask for, over the packages in the table that `ZI_PACKAGES` names among these variables. Where that is unset or
    /// empty there is no table. Memory is the one refusal.
    pub fn by(alloc: Global, ask: Ask, vars: &Vars) -> Result<Asked, Memory>
        ensures { IfOk result (λ a. a ≡ asked_in vars.now ask) }
    {
        let table = table_in(alloc, vars)?;
        Ok(Asked { ask, table })
    }
}
