//! The timetable of a line, whose conflicts are looked for.
ghost use Rattle.std.specs.Prelude.{◌≡◌, IfOk};
ghost use Rattle.rail_model.specs.Conflict.{IsTimetable, timetable};

use line_tables::LineTables;
use rail_model::{List, OutOfMemory, Stair};
use std::alloc::Global;
use std::thread::Threads;

/// The stairway of each run, in the order of the runs' names: a timetable of which
/// `conflict_finder` finds the conflicts. Several threads make them.
pub fn stairways(
    rt: &(impl Threads + Sync),
    alloc: Global,
    tables: &LineTables,
) -> Result<List<Stair>, OutOfMemory>
    ensures same { IfOk result (λ all. all ≡ timetable tables.now) }
    ensures fits { IfOk result IsTimetable }
{
    tables.learn_sound();
    let all = section_cut::stairways_in_parts(rt, alloc, tables)?;
    Ok(all)
}
