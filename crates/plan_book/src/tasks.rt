//! Planners' tasks, one after the other.
ghost use Rattle.std.specs.Prelude.{◌≡◌, ℕ, ◌^◌, ◌<◌, ◌≤◌, IfOk, Some, length, slice_index_or};
ghost use Rattle.plan_model.specs.Journal.{issued};
ghost use Rattle.plan_model.specs.Board.{Gives};
ghost use Rattle.plan_model.specs.Outcome.{IsPlanner, StepsTo, next_task};
ghost use Rattle.plan_model.specs.declared.scripts.Task.TheVariants as tasks;
ghost use Rattle.plan_book.specs.Kept.{IsCounted};

use crate::Book;
use crate::reading::scripts_of;
use plan_model::{Stepped, Task};
use rail_model::{Edit, OutOfMemory};

impl Book {
    /// Does the next task of a planner's script, as an edit or a question of that planner, by a
    /// pass. `Ended` comes exactly where none is left, and then nothing is added. Without memory
    /// the journal stays as it was.
    pub fn step(&mut self, who: u32, planner: u32) -> Result<Stepped, OutOfMemory>
        requires issued { who < issued self.old }
        requires planner { IsPlanner self.old planner }
        ensures { Gives (StepsTo who planner) result self.old self.new }
    {
        match self.next_task(planner)? {
            Some(task) => self.do_task(who, planner, task),
            None => Ok(Stepped::Ended),
        }
    }

    // Does a task, which is the next of a planner.
    fn do_task(&mut self, who: u32, planner: u32, task: Task) -> Result<Stepped, OutOfMemory>
        requires issued { who < issued self.old }
        requires planner { IsPlanner self.old planner }
        requires next { next_task self.old planner ≡ Some task }
        ensures { Gives (StepsTo who planner) result self.old self.new }
    {
        match task {
            Task::Edit(edit) => self.step_edit(who, planner, edit),
            Task::Ask(section) => Ok(Stepped::Asked(self.ask_by(who, planner, section)?)),
        }
    }

    // Does a task that is an edit.
    fn step_edit(&mut self, who: u32, planner: u32, edit: Edit) -> Result<Stepped, OutOfMemory>
        requires issued { who < issued self.old }
        requires planner { IsPlanner self.old planner }
        requires next { next_task self.old planner ≡ Some (tasks.Edit edit) }
        ensures { Gives (StepsTo who planner) result self.old self.new }
    {
        match self.edit_by(who, planner, edit)? {
            Ok(at) => Ok(Stepped::Edited { at }),
            Err(rule) => Ok(Stepped::Refused { rule }),
        }
    }

    // The next task of a planner.
    fn next_task(&self, planner: u32) -> Result<Option<Task>, OutOfMemory>
        requires { IsPlanner self.now planner }
        ensures { IfOk result (λ task. task ≡ next_task self.now planner) }
    {
        let place = planner as usize - 1;
        let script = scripts_of(self.journal.slice()).script(place);
        match script.get(self.done[place]) {
            Some(Task::Edit(edit)) => Ok(Some(Task::Edit(edit.copy(self.alloc)?))),
            Some(Task::Ask(section)) => Ok(Some(Task::Ask(*section))),
            None => Ok(None),
        }
    }
}

// Counts one task more as done by a planner. Planner 0, which stands for calls outside the scripts,
// has no tasks.
pub(crate) fn count_task(done: &mut Vec<usize>, planner: u32)
    requires there { planner ≤ length done.old.items }
    requires room { (k : ℕ) → k < length done.old.items
        → slice_index_or done.old.items k 0 < 2 ^ 63 }
    ensures { IsCounted planner done.old.items done.new.items }
{
    if planner > 0 {
        done[planner as usize - 1] += 1;
    }
}
