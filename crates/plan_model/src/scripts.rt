//! What planners want done, each in an order of its own.
ghost use Rattle.std.specs.Prelude.{◌≡◌, ◌<◌, ◌++◌, ◌∷◌, [], length, slice_index_or, OnOk, OnErr};
ghost use Rattle.plan_model.specs.Journal.{with_task};

use rail_model::{Edit, List, Name, OutOfMemory};
use std::alloc::Global;
use std::marker::Model;

/// What a planner wants done.
#[derive(Drop)]
pub enum Task {
    /// An edit of the tables.
    Edit(Edit),
    /// The answer of the section of this name.
    Ask(Name),
}

/// The scripts of planners: script p, from 1, is that of planner p, and stands at the place p - 1.
/// Contracts see the list of the scripts, each as the list of its tasks.
#[derive(Drop)]
pub struct Scripts {
    alloc: Global,
    scripts: List<List<Task>>,
}

impl Model for Scripts {
    ghost use Rattle.std.specs.Prelude.{List};
    ghost use Rattle.plan_model.specs.declared.scripts.Task.{Task};

    ghost Value = { List (List Task) };

    ghost view = { λ s. s.scripts };
}

impl Scripts {
    /// No scripts, which asks for no memory.
    pub fn new(alloc: Global) -> Scripts
        ensures { result ≡ [] }
    {
        Scripts {
            alloc,
            scripts: List::new(alloc),
        }
    }

    /// Begins a script after the others, without tasks. Without memory the scripts stay as they
    /// were.
    pub fn begin(&mut self) -> Result<(), OutOfMemory>
        ensures ok { OnOk result (self.new ≡ self.old ++ [] ∷ []) }
        ensures err { OnErr result (self.new ≡ self.old) }
    {
        self.scripts.push(List::new(self.alloc))
    }

    /// Puts a task at the end of the last script. Without memory the scripts stay as they were.
    pub fn push(&mut self, task: Task) -> Result<(), OutOfMemory>
        requires { 0 < length self.old }
        ensures ok { OnOk result (self.new ≡ with_task self.old task) }
        ensures err { OnErr result (self.new ≡ self.old) }
    {
        let last = self.scripts.len() - 1;
        self.scripts.get_mut(last).push(task)
    }

    /// How many scripts there are.
    pub fn len(&self) -> usize
        ensures { result ≡ length self.now }
    {
        self.scripts.len()
    }

    /// The tasks of the script at `i`, in their order.
    pub fn script(&self, i: usize) -> &[Task]
        requires { i < length self.now }
        ensures { result.now ≡ slice_index_or self.now i [] }
    {
        self.scripts.slice()[i].slice()
    }
}
