//! Which rows of cuts an edit can reach, and the stairways that they are made of, once for all
//! sections.
//!
//! An edit of a section reaches its own rows, and an edit of a run its row, and those that its
//! connections join. An edit of a connection reaches the rows of its two runs, or that of the first
//! where only the minimum changes. A put or drop of a block, a signal or a route reaches none, and a
//! change of one reaches the rows of the runs that pass it. Where a changed signal keeps its block,
//! only sections with the block are reached.
ghost use Rattle.std.specs.Prelude.{◌≡◌, ◌≢◌, true, false, All, IfOk, IfSome, Some, None};
ghost use Rattle.rail_model.specs.Rules as rules;
ghost use Rattle.section_cut.specs.EditedConnection.{connection_edited};
ghost use Rattle.section_cut.specs.ReachedRuns.{KeepsBlocks, AreReachedRuns, StayBeside};
ghost use Rattle.section_cut.specs.Reach.{IsReach, IsRowReach, ReachesNoRun, section_edited};
ghost use Rattle.rail_model.specs.Rules.{IsSound};
ghost use Rattle.rail_model.specs.Conflict.{timetable};

use crate::all_stairways::{AllStairways, stairways};
use crate::connected::joined_runs;
use crate::one_block::block_moved;
use crate::one_connection::{EditedConnection, connection_edited, connection_named, keeps_runs};
use crate::one_run::{EditedRun, edited_run, run_edited};
use crate::reached_runs::{ReachedRuns, lists_over};
use crate::reached_stairs::reached_runs;
use crate::same_value::same_name;
use crate::timed_stair::TimedStair;
use line_tables::LineTables;
use rail_model::{Connection, Edit, Item, Kind, Name, OutOfMemory};
use std::alloc::Global;

// What rows an edit can reach, by the tables after it.
#[derive(Drop)]
pub(crate) enum Reach {
    // Any row: the stairways of all runs.
    All(AllStairways),
    // All rows of the section of a name, and none of another.
    Section(Name),
    // Some rows of sections that stay.
    Rows(RowReach),
}

// Which rows of sections that stay an edit can reach, by the tables after it.
#[derive(Drop)]
pub(crate) enum RowReach {
    // None.
    Nothing,
    // That of one run.
    Run(EditedRun),
    // Those of the two runs of a connection.
    Connection(EditedConnection),
    // That of the first run of a connection, of which only the minimum changes.
    Minimum(Connection),
    // Those of some runs.
    Runs(ReachedRuns),
}

// What rows an edit can reach.
pub(crate) fn reach_of(
    alloc: Global,
    before: &LineTables,
    after: &LineTables,
    edit: &Edit,
) -> Result<Reach, OutOfMemory>
    requires { after.now ≡ rules.after before.now edit.now }
    ensures { IfOk result (IsReach before.now after.now) }
{
    if let Some(name) = section_edited(edit) {
        return Ok(Reach::Section(name));
    }
    if let Some(name) = run_edited(edit) {
        let edited = edited_run(alloc, before, after, name)?;
        return Ok(Reach::Rows(RowReach::Run(edited)));
    }
    if let Some(name) = connection_edited(edit) {
        return Ok(Reach::Rows(reach_of_connection(before, after, edit, name)));
    }
    before.learn_sound();
    after.learn_sound();
    if reaches_no_run(before, edit) {
        return Ok(Reach::Rows(RowReach::Nothing));
    }
    if keeps_blocks(edit) {
        let block = block_moved(before, edit);
        let stairs = reached_runs(alloc, before, after, edit, block)?;
        return Ok(Reach::Rows(reach_of_runs(alloc, before, after, stairs, block)?));
    }
    Ok(Reach::All(stairs_of_all(alloc, after)?))
}

// What rows the edit of the connection of a name can reach.
fn reach_of_connection(before: &LineTables, after: &LineTables, edit: &Edit, name: Name) -> RowReach
    requires after { after.now ≡ rules.after before.now edit.now }
    requires name { connection_edited edit.now ≡ Some name }
    ensures { IsRowReach before.now after.now result }
{
    if let Edit::Change(Item::Connection(connection)) = edit {
        if keeps_runs(before, connection) {
            return RowReach::Minimum(*connection);
        }
    }
    RowReach::Connection(EditedConnection {
        name,
        after: connection_named(after, &name),
    })
}

// The stairways of all runs.
fn stairs_of_all(alloc: Global, tables: &LineTables) -> Result<AllStairways, OutOfMemory>
    ensures { IfOk result (λ stairs. stairs ≡ timetable tables.now) }
{
    AllStairways::of(alloc, stairways(alloc, tables)?)
}

// The name of the section that an edit puts, changes or drops, if it is an edit of a section.
fn section_edited(edit: &Edit) -> Option<Name>
    ensures { result ≡ section_edited edit.now }
{
    match edit {
        Edit::Put(Item::Section(section)) | Edit::Change(Item::Section(section)) => Some(
            section.name,
        ),
        Edit::Drop(Kind::Section, name) => Some(*name),
        _ => None,
    }
}

// Whether an edit puts a block that isn't there or a route that no run is on, or drops a block, a
// signal or a route. What is dropped is in no run's way, since the tables after the edit are sound.
// `false` says nothing: the slow way follows.
fn reaches_no_run(tables: &LineTables, edit: &Edit) -> bool
    ensures { result ≡ true → ReachesNoRun tables.now edit.now }
{
    match edit {
        Edit::Put(Item::Block(block)) => tables.block_number(&block.name).is_none(),
        Edit::Put(Item::Route(route)) => has_no_run(tables, &route.name),
        Edit::Drop(Kind::Block | Kind::Signal | Kind::Route, _) => true,
        _ => false,
    }
}

// Whether no run is on the route of a name. `false` says nothing.
fn has_no_run(tables: &LineTables, route: &Name) -> bool
    ensures { result ≡ true → All (λ r. r.route ≢ route.now) tables.now.runs }
{
    for n in 0..tables.runs() {
        if same_name(&tables.run(n).route, route) {
            return false;
        }
    }
    true
}

// Whether an edit puts a signal or a route, or changes a block, a signal or a route. `false` says
// nothing: the slow way follows.
fn keeps_blocks(edit: &Edit) -> bool
    ensures { result ≡ true → KeepsBlocks edit.now }
{
    match edit {
        Edit::Put(Item::Signal(_) | Item::Route(_)) => true,
        Edit::Change(Item::Block(_) | Item::Signal(_) | Item::Route(_)) => true,
        _ => false,
    }
}

// What rows an edit can reach, by the stairs of the runs that it reaches and, where it is known, the
// block whose uses alone it moves. Where no run is reached, no row is.
fn reach_of_runs(
    alloc: Global,
    before: &LineTables,
    after: &LineTables,
    stairs: Vec<Option<TimedStair>>,
    block: Option<u32>,
) -> Result<RowReach, OutOfMemory>
    requires before { IsSound before.now }
    requires after { IsSound after.now }
    requires reached { AreReachedRuns before.now after.now block stairs.items }
    requires block { IfSome block (StayBeside before.now after.now) }
    ensures { IfOk result (IsRowReach before.now after.now) }
{
    if !reaches_some(&stairs) {
        return Ok(RowReach::Nothing);
    }
    let over = lists_over(alloc, &stairs)?;
    let joined = joined_runs(alloc, before)?;
    Ok(RowReach::Runs(ReachedRuns {
        stairs,
        over,
        joined,
        block,
    }))
}

// Whether one of these stairs is there. `true` says nothing: the slow way follows.
fn reaches_some(stairs: &[Option<TimedStair>]) -> bool
    ensures { result ≡ false → All (λ s. s ≡ None) stairs.now }
{
    for stair in stairs {
        if stair.is_some() {
            return true;
        }
    }
    false
}
