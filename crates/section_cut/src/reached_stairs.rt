//! The stairs after an edit of a block, a signal or a route of the runs that pass it.
ghost use Rattle.std.specs.Prelude.{◌≡◌, ◌<◌, if◌then◌else◌, length, IfOk, IfSome, Some, None, option_map};
ghost use Rattle.line_tables.specs.Paths.{paths_of};
ghost use Rattle.rail_model.specs.Blocking.{Fits};
ghost use Rattle.rail_model.specs.Rules as rules;
ghost use Rattle.rail_model.specs.Tables.{run_at, path_in};
ghost use Rattle.section_cut.specs.ReachedRuns.{IsSameTraffic, KeepsBlocks, AreReachedRuns};
ghost use Rattle.section_cut.specs.Wanted.{HasAll, stair_wanted};

use crate::passing_runs::passing_runs;
use crate::timed_stair::TimedStair;
use crate::wanted_blocks::wanted_blocks;
use blocking_time::{stair_on, stairs};
use line_tables::{LineTables, Paths};
use rail_model::{Edit, OutOfMemory, Path, Stair};
use std::alloc::Global;

// How many reached runs each get a path of their own: for more, the paths of all runs are made.
const FEW: usize = 32;

// For each run, in the order of the runs' names, its stair after an edit, where the edit may change
// its path: only the runs that pass what is put or changed are looked at. Where the edit moves the
// uses of one block alone, stairs have their uses in the sections with this block, and no others.
pub(crate) fn reached_runs(
    alloc: Global,
    before: &LineTables,
    after: &LineTables,
    edit: &Edit,
    block: Option<u32>,
) -> Result<Vec<Option<TimedStair>>, OutOfMemory>
    requires after { after.now ≡ rules.after before.now edit.now }
    requires keeps { KeepsBlocks edit.now }
    requires same { IsSameTraffic before.now after.now }
    ensures { IfOk result (λ stairs. AreReachedRuns before.now after.now block stairs.items) }
{
    let passing = passing_runs(alloc, after, edit)?;
    after.learn_sound();
    let told = wanted_for(alloc, after, &passing, block)?;
    let wanted = &told;
    let found = paths_for(after, &passing)?;
    let paths = &found;
    let mut all = Vec::with_capacity(alloc, after.runs() as usize)?;
    for run in 0..after.runs() {
        let stair = stair_if_passing(alloc, after, paths, wanted, run, passing[run as usize])?;
        all.push(stair)?;
    }
    Ok(all)
}

// The paths of all runs, where more than a few of them are wanted. `None` says nothing: each run
// then gets a path of its own.
fn paths_for<'a>(after: &'a LineTables, passing: &[bool]) -> Result<Option<Paths<'a>>, OutOfMemory>
    ensures { IfOk result (λ paths. IfSome paths (λ all. all ≡ paths_of after.now)) }
{
    if are_few(passing) {
        return Ok(None);
    }
    Ok(Some(after.paths()?))
}

// Whether no more than a few of these are `true`. No clause says so: either way is right.
fn are_few(passing: &[bool]) -> bool {
    let mut left = FEW;
    for passes in passing {
        if *passes {
            if left == 0 {
                return false;
            }
            left -= 1;
        }
    }
    true
}

// The stair after an edit of the run of a number, if it passes what is edited.
fn stair_if_passing(
    alloc: Global,
    after: &LineTables,
    paths: &Option<Paths<'_>>,
    wanted: &Option<Vec<bool>>,
    run: u32,
    passes: bool,
) -> Result<Option<TimedStair>, OutOfMemory>
    requires there { run < length after.now.runs }
    requires paths { IfSome paths.now (λ all. all ≡ paths_of after.now) }
    ensures { IfOk result (λ stair. stair
        ≡ (if passes then Some (stair_wanted (option_map (λ t. t.items) wanted.now)
        (path_in after.now (run_at after.now run))) else None)) }
{
    if !passes {
        return Ok(None);
    }
    let path = path_by(after, paths, run)?;
    Ok(Some(TimedStair::of(stair_wanted(alloc, &path, wanted)?)))
}

// A run's stair with its uses of the blocks that are told, or with all where none are.
fn stair_wanted(
    alloc: Global,
    path: &Path,
    wanted: &Option<Vec<bool>>,
) -> Result<Stair, OutOfMemory>
    requires { Fits path.now }
    ensures { IfOk result
        (λ stair. stair ≡ stair_wanted (option_map (λ t. t.items) wanted.now) path.now) }
{
    match wanted {
        Some(told) => stair_on(alloc, path, told),
        None => stairs(alloc, path),
    }
}

// The blocks of the sections that have a block, if it is given and more than a few runs pass.
// `None` says nothing: stairs are then made whole.
fn wanted_for(
    alloc: Global,
    after: &LineTables,
    passing: &[bool],
    block: Option<u32>,
) -> Result<Option<Vec<bool>>, OutOfMemory>
    ensures { IfOk result
        (λ told. IfSome (option_map (λ t. t.items) told) (HasAll after.now block)) }
{
    if are_few(passing) {
        return Ok(None);
    }
    match block {
        Some(block) if block < after.blocks() => Ok(Some(wanted_blocks(alloc, after, block)?)),
        _ => Ok(None),
    }
}

// The path of the run of a number, by the paths of all runs where these are there.
fn path_by(after: &LineTables, paths: &Option<Paths<'_>>, run: u32) -> Result<Path, OutOfMemory>
    requires there { run < length after.now.runs }
    requires paths { IfSome paths.now (λ all. all ≡ paths_of after.now) }
    ensures same { IfOk result (λ path. path ≡ path_in after.now (run_at after.now run)) }
    ensures fits { IfOk result Fits }
{
    match paths {
        Some(all) => all.path(run),
        None => after.path(run),
    }
}
