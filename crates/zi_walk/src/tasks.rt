//! What a walk has still to do, as lists that share what comes later, so that it can be taken up again where it stood.
ghost use Rattle.std.specs.Prelude.{◌≡◌, ◌≤◌, ◌<◌, ◌+◌, ◌++◌, ◌∷◌, [], length, take, IfOk, OnErr, OnOk, IfSome, IfNone};
ghost use Rattle.zi_walk.specs.Lists.{list_at, IsAdded};

use std::alloc::Global;
use std::marker::Model;
use zi_parts::Dep;
use zi_text::{Memory, Text};

/// What is to be done.
#[derive(Clone, Copy)]
pub(crate) enum Task<'u> {
    /// These dependencies are followed.
    Follow(&'u [Dep]),
    /// This one is followed.
    FollowOne(&'u Dep),
    /// These commands are needed of an interface.
    Need(u32, &'u [Text]),
}

/// A task, and the number of the list of those to be done after it.
#[derive(Clone, Copy)]
pub(crate) struct Node<'u> {
    pub task: Task<'u>,
    pub later: usize,
}

/// Lists of tasks. Each is known by its number: 0 is the empty one, and n is the task that was added as the n-th with a list
/// that was there before it. Contracts see all lists, by their numbers.
#[derive(Drop)]
pub(crate) struct Tasks<'u> {
    nodes: Vec<Node<'u>>,
}

impl<'u> Model for Tasks<'u> {
    ghost use Rattle.std.specs.Prelude.{List as Items};
    ghost use Rattle.zi_walk.specs.declared.tasks.Task.{Task as ATask};
    ghost use Rattle.zi_walk.specs.Lists.{lists_of, AreEarlier};

    ghost Value = { Items (Items ATask) };

    ghost view = { λ t. lists_of t.nodes.items };

    ghost invariant = { λ t. AreEarlier t.nodes.items };
}

impl<'u> Tasks<'u> {
    /// The empty list alone.
    pub fn new(alloc: Global) -> Tasks<'u>
        ensures { result ≡ [] ∷ [] }
    {
        Tasks {
            nodes: Vec::new(alloc),
        }
    }

    /// How many tasks were added.
    pub fn len(&self) -> usize
        ensures { length self.now ≡ result + 1 }
    {
        self.nodes.len()
    }

    /// Forgets the tasks that were added after so many.
    pub fn truncate(&mut self, len: usize)
        ensures { self.new ≡ take (len + 1) self.old }
    {
        self.nodes.truncate(len);
    }

    /// The list with a task before it.
    pub fn add(&mut self, task: Task<'u>, later: usize) -> Result<usize, Memory>
        requires { later < length self.old }
        ensures added { IfOk result (λ n. IsAdded self.old later task.entry self.new n) }
        ensures same { OnErr result (self.new ≡ self.old) }
    {
        self.nodes.push(Node { task, later })?;
        Ok(self.len())
    }

    /// The first task of a list, and the list of the later ones.
    pub fn first(&self, list: usize) -> Option<(Task<'u>, usize)>
        requires { list < length self.now }
        ensures none { IfNone result (list_at self.now list ≡ []) }
        ensures some { IfSome result (λ r. (list_at self.now list ≡ r.0 ∷ list_at self.now r.1) × (r.1 < length self.now)) }
    {
        let _added = self.nodes.len();
        if list == 0 {
            return None;
        }
        let node = self.nodes[list - 1];
        Some((node.task, node.later))
    }
}
