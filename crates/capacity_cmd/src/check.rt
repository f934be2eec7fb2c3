//! The command `check`.
ghost use Rattle.std.specs.Prelude.{◌≡◌, IfOk};
ghost use Rattle.capacity_cmd.specs.Ends.{IsCheckText};

use capacity_report::{conflict_rows, stairways};
use conflict_finder::conflicts;
use line_tables::LineTables;
use rail_model::OutOfMemory;
use row_text::{Sheet, Text};
use std::alloc::Global;
use std::thread::Threads;

// The rows of the timetable's conflicts.
pub(crate) fn check_text(
    rt: &(impl Threads + Sync),
    alloc: Global,
    tables: &LineTables,
) -> Result<Text, OutOfMemory>
    ensures { IfOk result (IsCheckText tables.now) }
{
    let stairs = stairways(rt, alloc, tables)?;
    let found = conflicts(rt, alloc, &stairs)?;
    let mut sheet = Sheet::new(alloc);
    conflict_rows(&mut sheet, tables, &found)?;
    Text::of(sheet.into_text())
}
