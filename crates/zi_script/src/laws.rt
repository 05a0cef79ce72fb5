//! The law that joins a script with its launch. The function does nothing; its clause is the law.
ghost use Rattle.zi_script.specs.Laws.{ScriptsSayTheirLaunch};

/// A script says the variables that its launch changes, and its words; a text says one list of each; and where the variables are set in turn
/// over what was there, each has the value that it has in the launch.
pub fn scripts_say_their_launch()
    ensures { ScriptsSayTheirLaunch }
{}
