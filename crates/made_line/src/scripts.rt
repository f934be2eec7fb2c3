//! The scripts of the made line's planners.
ghost use Rattle.std.specs.Prelude.{◌≡◌, ◌<◌, ◌≤◌, ◌++◌, ◌∷◌, [], length, All, IfOk, OnOk};
ghost use Rattle.plan_model.specs.Journal.{with_task};
ghost use Rattle.plan_model.specs.declared.scripts.Task.TheVariants as task;
ghost use Rattle.made_line.specs.Base as made;

use crate::base::BLOCKS;
use crate::counts::PLANNERS;
use crate::draws::Draws;
use crate::names::section_name;
use crate::runs::runs;
use plan_model::{Scripts, Task};
use rail_model::{Edit, Item, List, OutOfMemory, Run};
use std::alloc::Global;

// How many runs each planner changes.
const CHANGES: u32 = 16;

/// The scripts of four planners for the line made from `n`: each changes 16 runs, which are its
/// own, to start 30 s later, and asks for a section after each change.
pub fn made_scripts(alloc: Global, n: u32) -> Result<Scripts, OutOfMemory>
    ensures { IfOk result (λ scripts. scripts ≡ made.scripts_of_made n) }
{
    let mut draws = Draws::from(n);
    draws.skip(BLOCKS);
    let runs = runs(alloc, &mut draws)?;
    scripts_over(alloc, runs.slice())
}

// The scripts that change these runs.
fn scripts_over(alloc: Global, runs: &[Run]) -> Result<Scripts, OutOfMemory>
    requires count { length runs.now ≡ 300 }
    requires starts { All (λ r. r.start_s < 1000000) runs.now }
    ensures { IfOk result (λ scripts. scripts ≡ made.first_scripts runs.now 4) }
{
    let mut scripts = Scripts::new(alloc);
    for i in 0..PLANNERS {
        put_script(&mut scripts, runs, i + 1)?;
    }
    Ok(scripts)
}

// Puts the script of a planner after the others.
fn put_script(scripts: &mut Scripts, runs: &[Run], p: u32) -> Result<(), OutOfMemory>
    requires last { p ≤ 4 }
    requires count { length runs.now ≡ 300 }
    requires starts { All (λ r. r.start_s < 1000000) runs.now }
    ensures { OnOk result (scripts.new ≡ scripts.old ++ made.first_tasks runs.now p 16 ∷ []) }
{
    scripts.begin()?;
    for k in 0..CHANGES {
        put_tasks(scripts, &runs[(60 * p + k) as usize], k)?;
    }
    Ok(())
}

// Puts two tasks at the end of the last script: a run starts later, and a section is asked for.
fn put_tasks(scripts: &mut Scripts, run: &Run, k: u32) -> Result<(), OutOfMemory>
    requires some { 0 < length scripts.old }
    requires start { run.now.start_s < 1000000 }
    ensures { OnOk result (scripts.new ≡ with_task
        (with_task scripts.old (task.Edit (made.change_run run.now))) (made.ask_task k)) }
{
    let later = later_run(run)?;
    scripts.push(Task::Edit(Edit::Change(Item::Run(later))))?;
    scripts.push(Task::Ask(section_name(k % 8)))
}

// A run that starts 30 s later.
fn later_run(run: &Run) -> Result<Run, OutOfMemory>
    requires { run.now.start_s < 1000000 }
    ensures { IfOk result (λ later. later ≡ made.later_run run.now) }
{
    Ok(Run {
        name: run.name,
        route: run.route,
        length_m: run.length_m,
        tail_s: run.tail_s,
        start_s: run.start_s + 30,
        legs: run.legs.clone()?,
    })
}
