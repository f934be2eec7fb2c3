//! The stairways of a line's runs, without the uses of runs that start too late to enter a section.
ghost use Rattle.std.specs.Prelude.{◌≡◌, ◌+◌, ◌<◌, IfOk, length, nat_le};
ghost use Rattle.line_tables.specs.Paths.{paths_of};
ghost use Rattle.rail_model.specs.Tables.{run_at};
ghost use Rattle.rail_model.specs.Tables.{section_at};
ghost use Rattle.section_cut.specs.Late.{AreStairsFor, stair_to};

use blocking_time::stairs;
use line_tables::{LineTables, Paths};
use rail_model::{List, OutOfMemory, Stair};
use std::alloc::Global;

// The stair of each run, in the order of the runs' names, without its uses where the run starts too
// late to enter the section.
pub(crate) fn stairways_to(
    alloc: Global,
    tables: &LineTables,
    section: u32,
) -> Result<List<Stair>, OutOfMemory>
    requires { section < length tables.now.sections }
    ensures { IfOk result (λ all. AreStairsFor tables.now (section_at tables.now section) all) }
{
    let to_s = tables.section(section).to_s;
    let paths = tables.paths()?;
    let lead = paths.most_lead();
    let mut all = List::with_capacity(alloc, tables.runs() as usize)?;
    for run in 0..tables.runs() {
        all.push(stair_to(alloc, tables, &paths, run, to_s, lead)?)?;
    }
    Ok(all)
}

// The stair of the run of a number, without its uses where it starts too late for a window that
// ends at this moment.
fn stair_to(
    alloc: Global,
    tables: &LineTables,
    paths: &Paths<'_>,
    run: u32,
    to_s: u32,
    lead: u64,
) -> Result<Stair, OutOfMemory>
    requires there { run < length tables.now.runs }
    requires paths { paths.now ≡ paths_of tables.now }
    ensures { IfOk result
        (λ stair. stair ≡ stair_to tables.now to_s lead (run_at tables.now run)) }
{
    let entry = tables.run(run);
    if is_late(entry.start_s, to_s, lead) {
        return Ok(Stair {
            run: entry.name,
            uses: List::new(alloc),
        });
    }
    let path = paths.path(run)?;
    stairs(alloc, &path)
}

// Whether a run with this start keeps no block before a window's end, where forming and watching
// take at most the lead.
fn is_late(start_s: u32, to_s: u32, lead: u64) -> bool
    ensures { result ≡ nat_le (to_s + lead) start_s }
{
    start_s >= to_s && u64::from(start_s - to_s) >= lead
}
