//! What a change of a block, a signal or a route makes of a section's cut. It reaches the rows of the
//! runs that pass what is edited, and no other. Where those of these runs that have connections enter
//! the section as before, the same connections bind; else they are bound anew.
ghost use Rattle.std.specs.Prelude.{◌≡◌, ◌↔◌, ◌<◌, ◌++◌, IsTrue, true, All, length, map, slice_index_or, IfOk, IfSome, OnOk, Some, None, option_map};
ghost use Rattle.std.specs.Option.{option_to_list, option_copied};
ghost use Rattle.rail_model.specs.Tables.{run_at};
ghost use Rattle.section_cut.specs.Stored.{IsStored, IsChangeOfStored};
ghost use Rattle.section_cut.specs.Members.{rows_on_blocks, members_by_run};
ghost use Rattle.section_cut.specs.Positions.{IsPositions};
ghost use Rattle.section_cut.specs.ReachedRuns.{uses_if_there};
ghost use Rattle.section_cut.specs.Reach.{AreRunsOf};
ghost use Rattle.section_cut.specs.Spans.{AreOver, AreSpans, part_of};
ghost use Rattle.section_cut.specs.RowsAfter.{AreBeside, AllStay, AreRowsAfter, IsOwnOf};
ghost use Rattle.section_cut.specs.Stamps.{AreBefore, IsReached};
ghost use Rattle.rail_model.specs.Name.{NamesRise};
ghost use Rattle.section_cut.specs.Wanted.{IsTouched};

use crate::bound_anew::cut_by_members;
use crate::cut_changes::{BothTables, CutChange, StoredCut};
use crate::members::{MemberRows, add_run};
use crate::one_block::is_beside;
use crate::positions::{SectionTable, positions};
use crate::reached_rows::{member_anew, row_anew, row_stays};
use crate::spans::{BlockLists, BlockRange, part};
use crate::stamps::next_row;
use crate::timed_stair::TimedStair;
use line_tables::LineTables;
use plan_model::{Cut, CutRow};
use rail_model::{List, OutOfMemory, Use};
use std::alloc::Global;

// The runs that an edit reaches: for each run its stair after the edit, if it is one of them; the
// lists of blocks that these stairs are over; of each run whether it has a connection; and the block
// whose uses alone the edit moves, where it is known.
#[derive(Drop)]
pub(crate) struct ReachedRuns {
    pub(crate) stairs: Vec<Option<TimedStair>>,
    pub(crate) over: BlockLists,
    pub(crate) joined: Vec<bool>,
    pub(crate) block: Option<u32>,
}

// The lists of blocks that stairs are over.
pub(crate) fn lists_over(
    alloc: Global,
    stairs: &[Option<TimedStair>],
) -> Result<BlockLists, OutOfMemory>
    ensures { IfOk result (AreOver (map uses_if_there stairs.now)) }
{
    let mut over = BlockLists::new(alloc);
    for stair in stairs {
        over.add(alloc, uses_if_there(stair))?;
    }
    Ok(over)
}

// Of the uses of the stair at a place, if it is there, those that may be in a section, by the spans.
fn looked_at<'a>(
    stairs: &'a [Option<TimedStair>],
    spans: &[Option<BlockRange>],
    n: usize,
) -> &'a [Use]
    requires { n < length stairs.now }
    ensures { result.now ≡ part_of (slice_index_or spans.now n None)
        (uses_if_there (slice_index_or stairs.now n None)) }
{
    part(uses_if_there(&stairs[n]), spans, n)
}

// The uses of a stair, if it is there.
fn uses_if_there(stair: &Option<TimedStair>) -> &[Use]
    ensures { result.now ≡ uses_if_there stair.now }
{
    match stair {
        Some(stair) => stair.stair().uses.slice(),
        None => &[],
    }
}

// What the edit makes of the cut of a section that is there.
pub(crate) fn cut_after_runs(
    alloc: Global,
    stored: StoredCut<'_>,
    runs: &ReachedRuns,
) -> Result<CutChange, OutOfMemory>
    requires stored { IsStored stored }
    requires runs { AreRunsOf stored.both.before.now stored.both.after.now runs.now }
    ensures { IfOk result (IsChangeOfStored stored.entry) }
{
    let section = &stored.cut.section;
    let Some(place) = stored.both.after.section_number(stored.section) else {
        unreachable!();
    };
    let positions = positions(alloc, stored.both.after, place)?;
    if is_beside(runs.block, &positions, section.blocks.len()) {
        return Ok(CutChange::Untouched);
    }
    let spans = runs.over.spans(alloc, &positions, section.blocks.len())?;
    let table = SectionTable {
        section,
        positions: &positions,
        spans: &spans,
    };
    cut_by_table(alloc, stored, runs, table)
}

// What the edit makes of the cut of a section that is there, by the positions of blocks in the
// section and the spans of the stairs.
fn cut_by_table(
    alloc: Global,
    stored: StoredCut<'_>,
    runs: &ReachedRuns,
    table: SectionTable<'_>,
) -> Result<CutChange, OutOfMemory>
    requires stored { IsStored stored }
    requires runs { AreRunsOf stored.both.before.now stored.both.after.now runs.now }
    requires section { table.section.now ≡ stored.cut.now.section }
    requires touched { IsTouched stored.both.after.now runs.now.block table.section.now }
    requires positions { IsPositions stored.both.after.now table.section.now table.positions.now }
    requires spans { AreSpans table.positions.now (length table.section.now.blocks)
        (map uses_if_there runs.now.stairs.items) table.spans.now }
    ensures { IfOk result (IsChangeOfStored stored.entry) }
{
    let old = stored.cut.rows.slice();
    if rows_stay(alloc, stored.both, &runs.stairs, table, old)? {
        return Ok(CutChange::Untouched);
    }
    let Some(rows) = rows_after(alloc, stored.both, runs, table, old, stored.number)? else {
        let members = members_after(alloc, stored.both, runs, table, old, stored.number)?;
        return cut_by_members(alloc, stored, members);
    };
    Ok(CutChange::Touched(Some(cut_of_rows(alloc, stored.cut, rows)?)))
}

// A cut with these rows in place of its own.
fn cut_of_rows(alloc: Global, old: &Cut, rows: List<CutRow>) -> Result<Cut, OutOfMemory>
    ensures { IfOk result (λ cut. cut ≡ record old.now { rows = rows }) }
{
    Ok(Cut {
        section: old.section.copy(alloc)?,
        connections: old.connections.copy(alloc)?,
        rows,
    })
}

// Whether all rows have the values after an edit that they had before it.
fn rows_stay(
    alloc: Global,
    both: BothTables<'_>,
    reached: &[Option<TimedStair>],
    table: SectionTable<'_>,
    old: &[CutRow],
) -> Result<bool, OutOfMemory>
    requires beside { AreBeside both.before.now both.after.now reached.now table.section.now
        table.positions.now old.now }
    requires spans { AreSpans table.positions.now (length table.section.now.blocks)
        (map uses_if_there reached.now) table.spans.now }
    ensures { IfOk result (λ stay. IsTrue stay ↔ AllStay both.entry.after.now reached.now
        table.entry.section.now table.entry.positions.now old.now) }
{
    let mut at = 0;
    for n in 0..both.after.runs() {
        let own = row_of(both.after, n, old, &mut at);
        let uses = looked_at(reached, table.spans, n as usize);
        if !row_stays(alloc, table, &reached[n as usize], uses, own)? {
            return Ok(false);
        }
    }
    Ok(true)
}

// The rows after the edit of a number: their values and their stamps. `None`, as where a run that
// has a connection doesn't enter as before, says nothing: the slow way follows.
fn rows_after(
    alloc: Global,
    both: BothTables<'_>,
    runs: &ReachedRuns,
    table: SectionTable<'_>,
    old: &[CutRow],
    number: u64,
) -> Result<Option<List<CutRow>>, OutOfMemory>
    requires runs { AreRunsOf both.before.now both.after.now runs.now }
    requires beside { AreBeside both.before.now both.after.now runs.now.stairs.items
        table.section.now table.positions.now old.now }
    requires spans { AreSpans table.positions.now (length table.section.now.blocks)
        (map uses_if_there runs.now.stairs.items) table.spans.now }
    ensures { IfOk result (λ rows. IfSome rows (AreRowsAfter both.entry.before.now
        both.entry.after.now table.entry.section.now number old.now)) }
{
    let mut rows = List::new(alloc);
    let mut at = 0;
    for n in 0..both.after.runs() {
        let own = row_of(both.after, n, old, &mut at);
        let uses = looked_at(&runs.stairs, table.spans, n as usize);
        let row = row_anew(alloc, table, &runs.stairs[n as usize], uses, own, number)?;
        if runs.joined[n as usize] && !enters_as(&row, own) {
            return Ok(None);
        }
        push_row(&mut rows, row)?;
    }
    Ok(Some(rows))
}

// The members' rows after the edit, each with this stamp and without its uses of connections, and
// for each run which of them is its.
fn members_after(
    alloc: Global,
    both: BothTables<'_>,
    runs: &ReachedRuns,
    table: SectionTable<'_>,
    old: &[CutRow],
    stamp: u64,
) -> Result<MemberRows, OutOfMemory>
    requires beside { AreBeside both.before.now both.after.now runs.now.stairs.items
        table.section.now table.positions.now old.now }
    requires spans { AreSpans table.positions.now (length table.section.now.blocks)
        (map uses_if_there runs.now.stairs.items) table.spans.now }
    ensures rows { IfOk result (λ all. all.rows
        ≡ rows_on_blocks both.entry.after.now table.entry.section.now stamp) }
    ensures of_run { IfOk result (λ all. all.of_run.items
        ≡ members_by_run both.entry.after.now table.entry.section.now) }
{
    let mut all = MemberRows {
        rows: List::new(alloc),
        of_run: Vec::with_capacity(alloc, both.after.runs() as usize)?,
    };
    let mut at = 0;
    for n in 0..both.after.runs() {
        let own = row_of(both.after, n, old, &mut at);
        let uses = looked_at(&runs.stairs, table.spans, n as usize);
        let row = member_anew(alloc, table, &runs.stairs[n as usize], uses, own, stamp)?;
        add_run(&mut all, row)?;
    }
    Ok(all)
}

// Whether a row has the entry of another, or neither is there. `false` says nothing.
fn enters_as(row: &Option<CutRow>, own: Option<&CutRow>) -> bool
    ensures { result ≡ true → option_map (λ r. r.entry) row.now
        ≡ option_map (λ r. r.entry) (option_copied own.entry) }
{
    match row {
        Some(row) => match own {
            Some(own) => row.entry == own.entry,
            None => false,
        },
        None => own.is_none(),
    }
}

// The row of the run of a number, if it has one, where all rows below a place have names before the
// run's. The place is then that of the first row whose name isn't before it.
pub(crate) fn row_of<'a>(
    tables: &LineTables,
    run: u32,
    rows: &'a [CutRow],
    at: &mut usize,
) -> Option<&'a CutRow>
    requires there { run < length tables.now.runs }
    requires rise { NamesRise (λ r. r.name) rows.now }
    requires before { AreBefore rows.now (run_at tables.now run).name at.old }
    ensures at { IsReached rows.now (run_at tables.now run).name at.new }
    ensures own { IsOwnOf tables.now run rows.now (option_copied result) }
{
    next_row(rows, &tables.run(run).name, at)
}

// Adds a row, if there is one.
fn push_row(rows: &mut List<CutRow>, row: Option<CutRow>) -> Result<(), OutOfMemory>
    ensures { OnOk result (rows.new ≡ rows.old ++ option_to_list row) }
{
    match row {
        Some(row) => rows.push(row),
        None => Ok(()),
    }
}
