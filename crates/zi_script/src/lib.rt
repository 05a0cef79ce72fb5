//! Scripts: a launch as a text for the POSIX shell, which sets the variables that the launch changes and then runs its words in the
//! shell's own place. A script says these variables and these words, whatever stands in them, and nothing else.
//!
//! Read specs/Script.antt (which variables are changed, the text of a script, and what a text of that form says; the words are written
//! and read as those of shims, in zi_shim's specs/Shell.antt), then Laws.antt. Code: `naming` (which variables are changed, and whether
//! a shell can set them), `writing` (`script_text`); `laws` has the law that joins a script with its launch.
#![tactic(auto)]

mod fault;
pub mod laws;
mod naming;
mod writing;

pub use fault::ScriptFault;
pub use writing::script_text;
