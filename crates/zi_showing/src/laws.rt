//! What holds of the trees of every document, over definitions alone.
ghost use Rattle.std.specs.Prelude.{◌≡◌};
ghost use Rattle.zi_sels.specs.declared.types.Selections.{Selections};
ghost use Rattle.zi_showing.specs.Tree.{Trees, AreTrees};
ghost use Rattle.zi_showing.specs.Laws.{ShowsEachOnce};

/// Each selection is shown exactly once, and nothing else is.
pub fn each_is_shown_once()
    ensures { (sels : Selections) (trees : Trees) → AreTrees sels trees → ShowsEachOnce sels trees }
{}

/// A document has one list of trees.
pub fn one_list_of_trees()
    ensures { (sels : Selections) (a b : Trees) → AreTrees sels a → AreTrees sels b → a ≡ b }
{}
