use zi_bind::BindFault;
use zi_text::{Memory, Text};

/// Why selections can't be launched: the first check that fails.
#[derive(Drop)]
pub enum PlanFault {
    /// Nothing is selected for an interface on the chain of runners.
    NoSelection { interface: Text },
    /// The selection has no command of this name, or no command is asked for.
    NoCommand { interface: Text, command: Text },
    /// The last command of the chain of runners has no path.
    NoPath { interface: Text, command: Text },
    /// The chain of runners comes back to this command.
    Loop { interface: Text, command: Text },
    /// An argument stands for nothing.
    Bind(BindFault),
    /// This element isn't built.
    Unbuilt { element: Text },
    /// This is no relative path, or has no part where one is needed.
    BadPath { text: Text },
    /// A selection has no folder.
    NoFolder { interface: Text },
    /// Memory was refused, which says nothing of the selections.
    Memory,
}

impl From<Memory> for PlanFault {
    ghost use Rattle.std.specs.Prelude.{◌≡◌};
    ghost use Rattle.zi_plan.specs.declared.fault.PlanFault.TheVariants.{Memory as Lacking};

    ghost from_gives = { λ _ e. e ≡ Lacking };

    fn from(_: Memory) -> PlanFault {
        PlanFault::Memory
    }
}
