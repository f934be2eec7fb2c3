//! The text that spells the made line and its scripts.
ghost use Rattle.std.specs.Prelude.{◌≡◌, ◌<◌, ◌++◌, ◌∷◌, [], length, map, IfOk, OnOk};
ghost use Rattle.row_text.specs.Lines.{row_in};
ghost use Rattle.row_text.specs.declared.line.Line.TheVariants as line;
ghost use Rattle.made_line.specs.Text as made;

use crate::base::base_edits;
use crate::scripts::made_scripts;
use plan_model::{Scripts, Task};
use rail_model::{Edit, List, OutOfMemory};
use row_text::{Line, Sheet, spell};
use std::alloc::Global;

/// The text of the line made from `n`: the rows of its base, and then its four scripts.
///
/// For the made line as a file, to look at it or to give it to another program. The command `made
/// N` makes tables and scripts without a text.
pub fn made_input(alloc: Global, n: u32) -> Result<List<u8>, OutOfMemory>
    ensures { IfOk result (λ text. text ≡ made.made_text n) }
{
    let mut sheet = Sheet::new(alloc);
    write_edits(alloc, &mut sheet, base_edits(alloc, n)?.slice())?;
    write_scripts(alloc, &mut sheet, &made_scripts(alloc, n)?)?;
    Ok(List::from_vec(sheet.into_text()))
}

// Writes the rows of edits.
fn write_edits(alloc: Global, sheet: &mut Sheet, edits: &[Edit]) -> Result<(), OutOfMemory>
    ensures { OnOk result (sheet.new.rows
        ≡ sheet.old.rows ++ made.rows_of (map line.Edit edits.now)) }
{
    for edit in edits {
        write_line(alloc, sheet, &Line::Edit(edit.copy(alloc)?))?;
    }
    Ok(())
}

// Writes the rows of all scripts.
fn write_scripts(alloc: Global, sheet: &mut Sheet, scripts: &Scripts) -> Result<(), OutOfMemory>
    requires { length scripts.now < 100 }
    ensures { OnOk result (sheet.new.rows
        ≡ sheet.old.rows ++ made.rows_of (made.lines_of_scripts scripts.now)) }
{
    for i in 0..scripts.len() {
        write_line(alloc, sheet, &Line::Planner(i as u32 + 1))?;
        write_tasks(alloc, sheet, scripts.script(i))?;
    }
    Ok(())
}

// Writes the rows of a script's tasks.
fn write_tasks(alloc: Global, sheet: &mut Sheet, tasks: &[Task]) -> Result<(), OutOfMemory>
    ensures { OnOk result (sheet.new.rows
        ≡ sheet.old.rows ++ made.rows_of (map made.line_of tasks.now)) }
{
    for task in tasks {
        write_line(alloc, sheet, &line_of(alloc, task)?)?;
    }
    Ok(())
}

// The line of a task.
fn line_of(alloc: Global, task: &Task) -> Result<Line, OutOfMemory>
    ensures { IfOk result (λ line. line ≡ made.line_of task.now) }
{
    match task {
        Task::Edit(edit) => Ok(Line::Edit(edit.copy(alloc)?)),
        Task::Ask(section) => Ok(Line::Ask(*section)),
    }
}

// Writes the row of a line.
fn write_line(alloc: Global, sheet: &mut Sheet, line: &Line) -> Result<(), OutOfMemory>
    ensures { OnOk result (sheet.new.rows ≡ sheet.old.rows ++ row_in 1 line.now ∷ []) }
{
    let row = spell(alloc, line)?;
    sheet.write_row(&row)?;
    Ok(())
}
