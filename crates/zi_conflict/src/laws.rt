//! What holds of cores as such, over the definitions alone.

ghost use Rattle.zi_conflict.specs.Laws.{CoreIsNone};

/// Where some constraints leave no choice, no choice is valid.
pub fn core_is_none()
    ensures { CoreIsNone }
{}
