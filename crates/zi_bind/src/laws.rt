//! A law of arguments. The function does nothing; its clause is the law.

ghost use Rattle.zi_bind.specs.Names.{FaultsByNames};

/// Whether words have a fault, and which, is told by the names of the variables that are set, whatever their values are.
pub fn faults_by_names()
    ensures { FaultsByNames }
{}
