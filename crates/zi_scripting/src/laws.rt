//! The law that joins a script with the plan of its launch. The function does nothing; its clause is the law.
ghost use Rattle.zi_scripting.specs.Laws.{ScriptsMakeTheirVariables};

/// A plan takes no variable away. So where a script sets what the plan changes, over the variables that were there, each variable is what it is in
/// the plan, the ones that the script doesn't set too.
pub fn scripts_make_their_variables()
    ensures { ScriptsMakeTheirVariables }
{}
