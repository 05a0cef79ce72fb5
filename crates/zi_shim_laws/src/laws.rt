//! What holds of the names of shims, and of the commands that they run.
//! Each law is a function without parameters and with no work to do, whose clauses are the law.
ghost use Rattle.std.specs.Prelude.{ℕ, List, Option};
ghost use Rattle.zi_policy.specs.declared.types.Policy.{Policy};
ghost use Rattle.zi_outside.specs.Views.{Holding};
ghost use Rattle.zi_universe.specs.declared.types.Requirement.{Requirement};
ghost use Rattle.zi_universe.specs.declared.types.Interface.{Interface};
ghost use Rattle.zi_universe.specs.Candidates.{Store};
ghost use Rattle.zi_universe.specs.Loading.{Loads};
ghost use Rattle.zi_choice.specs.Choice.{Choice};
ghost use Rattle.zi_choice.specs.Valid.{IsValid};
ghost use Rattle.zi_sels.specs.declared.types.Selections.{Selections};
ghost use Rattle.zi_sels.specs.Chosen.{AreSelected};
ghost use Rattle.zi_sels.specs.Reading.{Says};
ghost use Rattle.zi_shim_laws.specs.Names.{HaveShimNames};
ghost use Rattle.zi_shim_laws.specs.Programs.{HavePrograms};

use zi_doc_laws::what_is_read_keeps;

/// Each binding of selections that makes a command available has a name that a shim may have: so a tree can be made of its shim.
pub fn names_of_shims_are_right()
    // as a document says them
    ensures read { (bytes : List ℕ) (s : Selections) → Says bytes s → HaveShimNames s }
    // as a choice selects them in a universe that was loaded
    ensures chosen { (told : Option Holding) (req : Requirement) (policy : Policy) (stored : Store) (universe : List Interface) (choice : Choice) (s : Selections)
        → Loads told req policy stored universe → AreSelected universe req choice s → HaveShimNames s }
{
    what_is_read_keeps();
}

/// What a valid choice selects in a universe that was loaded has each command that its bindings make available: that of a dependency's
/// binding is there, where something is selected for the interface of the dependency. So no shim of what is chosen lacks its command.
pub fn commands_of_shims_are_there()
    ensures { (told : Option Holding) (req : Requirement) (policy : Policy) (stored : Store) (universe : List Interface) (choice : Choice) (s : Selections)
        → Loads told req policy stored universe → IsValid universe req choice → AreSelected universe req choice s → HavePrograms s }
{}
