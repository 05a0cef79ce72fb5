use zi_text::{Memory, Text};

/// Why there is no script of a launch.
#[derive(Drop)]
pub enum ScriptFault {
    /// The launch changes this variable, and a shell can set none of such a name.
    BadName { name: Text },
    /// Memory was refused, which says nothing of the launch.
    Memory,
}

impl From<Memory> for ScriptFault {
    ghost use Rattle.std.specs.Prelude.{◌≡◌};
    ghost use Rattle.zi_script.specs.declared.fault.ScriptFault.TheVariants.{Memory as Lacking};

    ghost from_gives = { λ _ e. e ≡ Lacking };

    fn from(_: Memory) -> ScriptFault {
        ScriptFault::Memory
    }
}
