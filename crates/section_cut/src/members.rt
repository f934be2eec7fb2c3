//! The members of a section: the runs that enter it within its window.
ghost use Rattle.std.specs.Prelude.{◌≡◌, ◌+◌, ◌<◌, All, ◌++◌, ◌∷◌, [], None, length, map, slice_index_or, IfOk, IfSome, OnOk, option_map};
ghost use Rattle.std.specs.Option.{option_to_list};
ghost use Rattle.plan_model.specs.Cut.{least};
ghost use Rattle.section_cut.specs.Late.{AreStairsFrom};
ghost use Rattle.section_cut.specs.Positions.{IsPositions, uses_in};
ghost use Rattle.section_cut.specs.Spans.{AreSpans, IsSpan, blocks_of};
ghost use Rattle.rail_model.specs.Conflict.{stair_at};
ghost use Rattle.section_cut.specs.Members.{AreMembersTo};
ghost use Rattle.section_cut.specs.Members as rows;

use crate::all_stairways::AllStairways;
use crate::positions::{SectionTable, gather};
use crate::spans::part;
use line_tables::LineTables;
use plan_model::{CutRow, SharedUses, least_start};
use rail_model::{List, Name, OutOfMemory, Section, Stair, Use};
use std::alloc::Global;

// A member's row by its place among the rows, and its entry.
#[derive(Clone, Copy)]
pub(crate) struct Member {
    pub(crate) row: usize,
    pub(crate) entry: i64,
}

// The members' rows, and for each run which of them is its, if it is a member.
#[derive(Drop)]
pub(crate) struct MemberRows {
    pub(crate) rows: List<CutRow>,
    pub(crate) of_run: Vec<Option<Member>>,
}

// No rows, and room for so many members among so many runs.
pub(crate) fn no_members(
    alloc: Global,
    runs: usize,
    members: usize,
) -> Result<MemberRows, OutOfMemory>
    ensures rows { IfOk result (λ all. all.rows ≡ []) }
    ensures of_run { IfOk result (λ all. all.of_run.items ≡ []) }
{
    Ok(MemberRows {
        rows: List::with_capacity(alloc, members)?,
        of_run: Vec::with_capacity(alloc, runs)?,
    })
}

// Adds the rows of the members among the runs from a number on, by their stairs, to those of the
// runs before. They are still without their uses of connections.
pub(crate) fn add_members(
    alloc: Global,
    tables: &LineTables,
    table: SectionTable<'_>,
    stairs: &AllStairways,
    from: u32,
    stamp: u64,
    all: &mut MemberRows,
) -> Result<(), OutOfMemory>
    requires stairs { AreStairsFrom tables.now table.section.now from stairs.now }
    requires positions { IsPositions tables.now table.section.now table.positions.now }
    requires spans { AreSpans table.positions.now (length table.section.now.blocks)
        (map (λ s. s.uses) stairs.now) table.spans.now }
    requires rows { AreMembersTo tables.now table.section.now stamp from all.old }
    ensures { OnOk result (AreMembersTo tables.now table.entry.section.now stamp
        (from + length stairs.now) all.new) }
{
    tables.learn_sound();
    let mut uses = Vec::new(alloc);
    for n in 0..stairs.len() {
        let row = row_at(alloc, table, stairs, n, stamp, &mut uses)?;
        add_run(all, row)?;
    }
    Ok(())
}

// The row of the run of the stairway at a place, if it is a member. The uses of the section's
// blocks are gathered in a list that serves run after run.
fn row_at(
    alloc: Global,
    table: SectionTable<'_>,
    stairs: &AllStairways,
    n: usize,
    stamp: u64,
    found: &mut Vec<Use>,
) -> Result<Option<CutRow>, OutOfMemory>
    requires at { n < length stairs.now }
    requires there { All (λ u. u.block < length table.positions.now) (stair_at stairs.now n).uses }
    requires span { IfSome (slice_index_or table.spans.now n None) (IsSpan table.positions.now
        (length table.section.now.blocks) (blocks_of (stair_at stairs.now n).uses)) }
    ensures { IfOk result
        (λ row. row ≡ rows.member_row table.entry.section.now (stair_at stairs.now n).run stamp
        (uses_in table.entry.positions.now (length table.entry.section.now.blocks)
        (stair_at stairs.now n).uses)) }
{
    if stairs.passes_by(n, table.section) {
        return Ok(None);
    }
    let stair = stairs.stair(n);
    gather(found, table, part(stair.uses.slice(), table.spans, n))?;
    member_row(alloc, table.section, stair.run, stamp, found)
}

// The row of a run with these uses of the section's blocks, if it is a member.
pub(crate) fn member_row(
    alloc: Global,
    section: &Section,
    name: Name,
    stamp: u64,
    uses: &[Use],
) -> Result<Option<CutRow>, OutOfMemory>
    ensures { IfOk result (λ row. row ≡ rows.member_row section.now name stamp uses.now) }
{
    let entry = least_start(uses);
    if !enters(section, uses, entry) {
        return Ok(None);
    }
    let uses = SharedUses::copy_of(alloc, uses)?;
    Ok(Some(CutRow {
        name,
        stamp,
        entry,
        uses,
    }))
}

// The row of a run with these uses of the section's blocks, whose least start is the entry, if it
// is a member. The row takes the uses.
pub(crate) fn row_with(
    section: &Section,
    name: Name,
    stamp: u64,
    entry: i64,
    uses: SharedUses,
) -> Option<CutRow>
    requires { entry ≡ least (map (λ u. u.start) uses) }
    ensures { result ≡ rows.member_row section.now name stamp uses }
{
    if !enters(section, uses.slice(), entry) {
        return None;
    }
    Some(CutRow {
        name,
        stamp,
        entry,
        uses,
    })
}

// Whether a run with these uses and this entry is a member.
fn enters(section: &Section, uses: &[Use], entry: i64) -> bool
    requires { entry ≡ least (map (λ u. u.start) uses.now) }
    ensures { result ≡ rows.enters section.now uses.now }
{
    let from = i64::from(section.from_s);
    let to = i64::from(section.to_s);
    !uses.is_empty() && from <= entry && entry < to
}

// Adds the next run: its row, if it is a member.
pub(crate) fn add_run(all: &mut MemberRows, row: Option<CutRow>) -> Result<(), OutOfMemory>
    ensures rows { OnOk result (all.new.rows ≡ all.old.rows ++ option_to_list row) }
    ensures of_run { OnOk result (all.new.of_run.items
        ≡ all.old.of_run.items ++ option_map (rows.member_of (length all.old.rows)) row ∷ []) }
{
    match row {
        Some(row) => {
            all.of_run.push(Some(Member {
                row: all.rows.len(),
                entry: row.entry,
            }))?;
            all.rows.push(row)
        }
        None => {
            all.of_run.push(None)?;
            Ok(())
        }
    }
}
