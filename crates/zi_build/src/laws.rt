//! What the constraints say of choices: each function's clause is a law, proved over the definitions alone.

ghost use Rattle.zi_build.specs.Laws.{IsFormed, ValidIsModel, NoneIsNoModel, ModelHoldsValid};

/// A choice is valid exactly where it is the candidate part of a model, and its chosen interfaces are exactly the chosen ones
/// of its walk.
pub fn valid_is_model()
    ensures { ValidIsModel }
{}

/// No choice is valid exactly where there is no model.
pub fn none_is_no_model()
    ensures { NoneIsNoModel }
{}

/// A model holds a valid choice: some of its true candidates.
pub fn model_holds_valid()
    ensures { ModelHoldsValid }
{}

/// The formula is well formed where its constraints are few enough, and they are hardly more than their literals.
pub fn is_formed()
    ensures { IsFormed }
{}
