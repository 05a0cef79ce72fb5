//! What holds of reasons as such, over the definitions alone.

ghost use Rattle.zi_why.specs.Laws.{ReasonsAreTrue, BlocksAreTrue};
ghost use Rattle.zi_why.specs.Reports.{ReportIsOne};

/// Where a reason that speaks of no search is given for a candidate at a place, no valid choice that agrees on all earlier
/// places has the candidate there.
pub fn reasons_are_true()
    ensures { ReasonsAreTrue }
{}

/// Where a certificate has a block for a candidate at a place, no valid choice that agrees on all earlier places has the
/// candidate there.
pub fn blocks_are_true()
    ensures { BlocksAreTrue }
{}

/// A block has one report at most.
pub fn report_is_one()
    ensures { ReportIsOne }
{}
