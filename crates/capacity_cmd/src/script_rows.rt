//! The scripts that rows spell, one after the other.
ghost use Rattle.std.specs.Prelude.{◌≡◌, ◌≤◌, ◌↔◌, ◌∷◌, ◌++◌, [], length, sum_by, IsTrue, IfOk};
ghost use Rattle.plan_model.specs.Journal.{with_task};
ghost use Rattle.plan_book.specs.declared.book.TheConstants.{TASKS};
ghost use Rattle.capacity_cmd.specs.Input.{takes_planner, takes_task};
ghost use Rattle.capacity_cmd.specs.InputSoFar.{TakesIf};

use crate::Cause;
use plan_book::TASKS;
use plan_model::{Scripts, Task};
use rail_model::OutOfMemory;
use std::alloc::Global;
use std::marker::Model;

// The scripts of planners, with the count of all their tasks. Contracts see the list of the
// scripts.
#[derive(Drop)]
pub(crate) struct ScriptRows {
    scripts: Scripts,
    tasks: usize,
}

impl Model for ScriptRows {
    ghost use Rattle.std.specs.Prelude.{◌≡◌, ◌≤◌, List, length, sum_by};
    ghost use Rattle.plan_model.specs.declared.scripts.Task.{Task};
    ghost use Rattle.plan_book.specs.declared.book.TheConstants.{TASKS};

    ghost Value = { List (List Task) };

    ghost view = { λ s. s.scripts };

    ghost invariant = { λ s. (s.tasks ≡ sum_by length s.scripts) × (s.tasks ≤ TASKS) };
}

impl ScriptRows {
    pub(crate) fn new(alloc: Global) -> ScriptRows
        ensures { result ≡ [] }
    {
        ScriptRows {
            scripts: Scripts::new(alloc),
            tasks: 0,
        }
    }

    // Whether no script has begun.
    pub(crate) fn is_empty(&self) -> bool
        ensures { IsTrue result ↔ (length self.now ≡ 0) }
    {
        self.scripts.len() == 0
    }

    // Begins the script of a planner, unless it is not that of the next or there are so many
    // already.
    pub(crate) fn begin(
        &mut self,
        planners: usize,
        planner: u32,
    ) -> Result<Option<Cause>, OutOfMemory>
        ensures { IfOk result (TakesIf
            (takes_planner planners self.old planner) (self.old ++ [] ∷ []) self.new) }
    {
        let before = self.scripts.len();
        if before >= planners || planner as usize != before + 1 {
            return Ok(Some(Cause::Script));
        }
        self.scripts.begin()?;
        Ok(None)
    }

    // Puts a task at the end of the last script, unless none has begun or there are as many tasks
    // as a session takes.
    pub(crate) fn push(&mut self, task: Task) -> Result<Option<Cause>, OutOfMemory>
        ensures { IfOk result (TakesIf
            (takes_task self.old) (with_task self.old task) self.new) }
    {
        if self.scripts.len() == 0 || self.tasks >= TASKS {
            return Ok(Some(Cause::Script));
        }
        self.scripts.push(task)?;
        self.tasks += 1;
        Ok(None)
    }

    pub(crate) fn end(self) -> Scripts
        ensures same { result ≡ self }
        ensures tasks { sum_by length self ≤ TASKS }
    {
        self.scripts
    }
}
