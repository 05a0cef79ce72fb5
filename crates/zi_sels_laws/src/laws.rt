//! What holds of selections documents as such.
//! Each law is a function without parameters and with no work to do, whose clause is the law.
ghost use Rattle.std.specs.Prelude.{◌≡◌, ℕ, List, Option, None};
ghost use Rattle.zi_policy.specs.declared.types.Policy.{Policy};
ghost use Rattle.zi_outside.specs.Views.{Holding};
ghost use Rattle.zi_packages.specs.declared.types.Packages.{Packages};
ghost use Rattle.zi_packages.specs.Table.{IsTableText};
ghost use Rattle.zi_docout.specs.Amiss.{first_amiss};
ghost use Rattle.zi_universe.specs.declared.types.Requirement.{Requirement};
ghost use Rattle.zi_universe.specs.declared.types.Interface.{Interface};
ghost use Rattle.zi_universe.specs.Candidates.{Store};
ghost use Rattle.zi_universe.specs.Loading.{Loads};
ghost use Rattle.zi_choice.specs.Choice.{Choice};
ghost use Rattle.zi_choice.specs.Valid.{IsValid};
ghost use Rattle.zi_sels.specs.declared.types.Selections.{Selections};
ghost use Rattle.zi_sels.specs.Chosen.{AreSelected};
ghost use Rattle.zi_sels.specs.Written.{tree, document};
ghost use Rattle.zi_sels.specs.Reading.{Says};
ghost use Rattle.zi_sels_laws.specs.Whole.{AreWhole};
ghost use Rattle.zi_sels_laws.specs.Trees.{PackagesHaveNoTrees};
ghost use Rattle.zi_sels_laws.specs.Rows.{HasRightRows};

use zi_docout::what_is_written_is_read;

/// What bytes say as selections, where its tree can be written, is what the canonical document of it says: `read` gives it again of
/// what `write` writes. No document says two values (`zi_sels::one_reading`), so nothing else is read of it.
pub fn what_is_read_is_read_again()
    ensures { (bytes : List ℕ) (s : Selections) → Says bytes s → first_amiss (tree s) ≡ None → Says (document s) s }
{
    what_is_written_is_read();
}

/// What a valid choice selects in a universe that was loaded, where its tree can be written, is what the canonical document of it
/// says: `read` gives it again of what `write` writes, as `from_choice` gave it. The universe is one that `zi_universe::load` answers,
/// for the requirement of the choice, over whatever feeds are held and a table of packages whose rows are right, as all are that
/// `zi_packages::Packages::read` reads. The tree can't be written where a text of it is none that XML
/// can carry, as the root's address may be, which comes from no document.
pub fn what_is_chosen_is_read_back()
    ensures { (told : Option Holding) (req : Requirement) (policy : Policy) (stored : Store) (universe : List Interface) (choice : Choice) (s : Selections)
        → HasRightRows stored.packages → Loads told req policy stored universe → IsValid universe req choice → AreSelected universe req choice s → first_amiss (tree s) ≡ None → Says (document s) s }
{
    what_is_written_is_read();
}

/// Each row of a table of packages that a text says is right: so what is said here of a universe over right rows is said of every table
/// that `zi_packages::Packages::read` reads.
pub fn rows_that_are_read_are_right()
    ensures { (bytes : List ℕ) (packages : Packages) → IsTableText bytes packages → HasRightRows packages }
{}

/// What a valid choice selects in a universe that was loaded lacks no command: the one that is asked for is there, and so is the one
/// that each runner asks for. So no interface of a runner lacks its selection.
pub fn what_is_chosen_is_whole()
    ensures { (told : Option Holding) (req : Requirement) (policy : Policy) (stored : Store) (universe : List Interface) (choice : Choice) (s : Selections)
        → Loads told req policy stored universe → IsValid universe req choice → AreSelected universe req choice s → AreWhole s }
{}

/// A selection of a package of the operating system has neither a folder nor digests, whether it is read of a document or selected by a
/// valid choice: so it is never looked for in a store, fetched or verified.
pub fn packages_have_no_trees()
    // as a document says it
    ensures read { (bytes : List ℕ) (s : Selections) → Says bytes s → PackagesHaveNoTrees s }
    // as a choice selects it
    ensures chosen { (told : Option Holding) (req : Requirement) (policy : Policy) (stored : Store) (universe : List Interface) (choice : Choice) (s : Selections)
        → Loads told req policy stored universe → IsValid universe req choice → AreSelected universe req choice s → PackagesHaveNoTrees s }
{}
