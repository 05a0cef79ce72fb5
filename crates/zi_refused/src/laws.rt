//! What holds of refusals as such, over the definitions alone.

ghost use Rattle.zi_refused.specs.Laws.{EachHasItsReason, NoneIsLost};

/// What is offered for an interface is admitted exactly where there is no reason against it.
pub fn each_has_its_reason()
    ensures { EachHasItsReason }
{}

/// The candidates of an interface, and what of its feeds is refused, are together all that they offer.
pub fn none_is_lost()
    ensures { NoneIsLost }
{}
