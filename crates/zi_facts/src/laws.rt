//! What holds of facts and of their lines, over the definitions alone.

ghost use Rattle.zi_facts.specs.Laws.{FactsAreRules, LinesAreFew};

/// Each fact is the constraint of its number.
pub fn facts_are_rules()
    ensures { FactsAreRules }
{}

/// Facts have no more lines than they are: that of the root, and the others.
pub fn lines_are_few()
    ensures { LinesAreFew }
{}
