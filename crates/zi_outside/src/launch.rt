ghost use Rattle.std.specs.Prelude.{◌≡◌, IfOk};

use crate::vars::Vars;
use std::alloc::Global;
use zi_text::{List, Memory, Text};

/// What is launched.
#[derive(Debug, Drop)]
pub struct Launch {
    /// The program's path, and then its arguments.
    pub words: List<Text>,
    /// Its variables.
    pub vars: Vars,
    /// The folders that it is given, in the order of the selections.
    pub dirs: List<Dir>,
    /// The folders of small programs, shims, that it is given: one for each binding that makes a command available, in the order of the bindings.
    pub shims: List<Dir>,
}

/// A folder that a launch exposes.
#[derive(Debug, Drop)]
pub struct Dir {
    /// The address of the interface that it is selected for.
    pub interface: Text,
    /// Its path.
    pub folder: Text,
}

impl Dir {
    /// The same folder once more. Memory is its one refusal.
    pub fn copy(&self, alloc: Global) -> Result<Dir, Memory>
        ensures { IfOk result (λ dir. dir ≡ self.now) }
    {
        Ok(Dir {
            interface: self.interface.copy(alloc)?,
            folder: self.folder.copy(alloc)?,
        })
    }
}

// The same words once more.
fn copy_words(alloc: Global, words: &[Text]) -> Result<List<Text>, Memory>
    ensures { IfOk result (λ copy. copy ≡ words.now) }
{
    let mut copy = List::new(alloc);
    for word in words {
        copy.push(word.copy(alloc)?)?;
    }
    Ok(copy)
}

// The same folders once more.
fn copy_dirs(alloc: Global, dirs: &[Dir]) -> Result<List<Dir>, Memory>
    ensures { IfOk result (λ copy. copy ≡ dirs.now) }
{
    let mut copy = List::new(alloc);
    for dir in dirs {
        copy.push(dir.copy(alloc)?)?;
    }
    Ok(copy)
}

impl Launch {
    /// The same launch once more. Memory is its one refusal.
    pub fn copy(&self, alloc: Global) -> Result<Launch, Memory>
        ensures { IfOk result (λ launch. launch ≡ self.now) }
    {
        Ok(Launch {
            words: copy_words(alloc, self.words.as_slice())?,
            vars: self.vars.copy(alloc)?,
            dirs: copy_dirs(alloc, self.dirs.as_slice())?,
            shims: copy_dirs(alloc, self.shims.as_slice())?,
        })
    }
}
