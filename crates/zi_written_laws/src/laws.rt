//! What holds of what is selected.
//! The law is a function without parameters and with no work to do, whose clause is the law.
ghost use Rattle.std.specs.Prelude.{◌≡◌, ℕ, true, List, Option, None};
ghost use Rattle.zi_policy.specs.declared.types.Policy.{Policy};
ghost use Rattle.zi_outside.specs.Views.{Holding};
ghost use Rattle.zi_docout.specs.Amiss.{is_carried, first_amiss};
ghost use Rattle.zi_universe.specs.declared.types.Requirement.{Requirement};
ghost use Rattle.zi_universe.specs.declared.types.Interface.{Interface};
ghost use Rattle.zi_universe.specs.Candidates.{Store};
ghost use Rattle.zi_universe.specs.Loading.{Loads};
ghost use Rattle.zi_choice.specs.Choice.{Choice};
ghost use Rattle.zi_choice.specs.Valid.{IsValid};
ghost use Rattle.zi_sels.specs.declared.types.Selections.{Selections};
ghost use Rattle.zi_sels.specs.Chosen.{AreSelected};
ghost use Rattle.zi_sels.specs.Written.{tree, document};
ghost use Rattle.zi_sels.specs.Reading.{Says};
ghost use Rattle.zi_sels_laws.specs.Rows.{HasRightRows};

use zi_doc_laws::what_is_read_keeps;
use zi_sels_laws::what_is_chosen_is_read_back;

/// Of what a valid choice selects in a universe that was loaded, every element of the tree can be written, where XML can carry the
/// address of the root: so `zi_sels::write` never answers `Unwritable` of it. The universe is one that `zi_universe::load` answers for
/// the requirement of the choice, over whatever feeds are held and a table of packages whose rows are right.
pub fn what_is_chosen_can_be_written()
    ensures { (told : Option Holding) (req : Requirement) (policy : Policy) (stored : Store) (universe : List Interface) (choice : Choice) (s : Selections)
        → is_carried req.interface ≡ true → HasRightRows stored.packages → Loads told req policy stored universe → IsValid universe req choice → AreSelected universe req choice s → first_amiss (tree s) ≡ None }
{
    what_is_read_keeps();
}

/// What a valid choice selects in a universe that was loaded is what the canonical document of it says, where XML can carry the
/// address of the root: `zi_sels::read` gives it again of what `zi_sels::write` writes, as `from_choice` gave it.
pub fn what_is_chosen_is_written_and_read_back()
    ensures { (told : Option Holding) (req : Requirement) (policy : Policy) (stored : Store) (universe : List Interface) (choice : Choice) (s : Selections)
        → is_carried req.interface ≡ true → HasRightRows stored.packages → Loads told req policy stored universe → IsValid universe req choice → AreSelected universe req choice s → Says (document s) s }
{
    what_is_chosen_can_be_written();
    what_is_chosen_is_read_back();
}
