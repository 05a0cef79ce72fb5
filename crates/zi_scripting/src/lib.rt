//! `script`: all that `run` or `launch` does up to the start, and then, in place of the start, the launch written as a script for the shell.
//! A shell that runs the script becomes the program.
//!
//! specs/Scripting.antt says what the two commands come to: what `run` or `launch` comes to over a spawner that takes the launch down, and
//! the script of that launch. Code: `scripting` (`script`, `script_file`); zi_launching prepares the launch, zi_script makes the text.
//! `laws` has the law that a script makes the variables of its launch (Laws.antt).
#![tactic(auto)]

pub mod laws;
mod scripting;

pub use scripting::{script, script_file};
