//! Launching: what is selected gets its folders, the plan of the launch is made, the shims that no store has are added to the store that
//! is written, each stored tree in the plan is verified, and the program is started, last of all calls. `run` chooses and fetches first,
//! `launch` reads a document of selections.
//! Contracts say what each outcome means and what became of each object (specs/Launching.antt).
//!
//! `places` says in which store a digest stands, `folders` finds the folders, `zi_plan` makes the plan, `shims` adds what its shims are to
//! run as trees, `verifying` reads each stored tree, `starting` starts the program; `launching` has the others in their order, `running` and
//! `opening` the commands `run` and `launch`, each in two steps: all up to the start, which a caller may make otherwise, and the start.
//! specs/Folders.antt, Shims.antt, Verifying.antt and Launching.antt say the same stages; Run.antt and Opening.antt are the two commands,
//! Placing.antt is what the finding out of the stores promises.
#![tactic(auto)]

mod folders;
mod launching;
mod opening;
mod places;
mod running;
mod shims;
mod starting;
mod verifying;

pub use opening::{launch, prepare_file};
pub use running::{prepare_run, run};
