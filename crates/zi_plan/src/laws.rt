//! Laws of plans. Each function does nothing; its clause is the law.

ghost use Rattle.zi_plan.specs.Laws.{PlanIsOne, ShimsAreOne, ShimsChangeNoFault};

/// Selections have one plan: a launch, or the first check that fails.
#[tactic(auto, using(crate::proofs::LeadsLaws::plans_once))]
pub fn one_plan()
    ensures { PlanIsOne }
{}

/// They have one list of calls of shims, or one fault.
#[tactic(auto, using(crate::proofs::CallLaws::shims_once))]
pub fn one_shims()
    ensures { ShimsAreOne }
{}

/// Whether there is a plan, and its fault, is the same whatever the folders of the shims are.
pub fn shims_change_no_fault()
    ensures { ShimsChangeNoFault }
{}
