//! A section's cut whose connections are bound anew, where it is known which runs are its members,
//! and their uses of its blocks.
ghost use Rattle.std.specs.Prelude.{◌≡◌, length, IfOk, IfSome, option_map};
ghost use Rattle.std.specs.Option.{option_copied};
ghost use Rattle.plan_model.specs.Cut.{AreBlocksFirst};
ghost use Rattle.section_cut.specs.Members.{rows_on_blocks, members_by_run};
ghost use Rattle.section_cut.specs.RowsAfter.{AreOfMembers};
ghost use Rattle.section_cut.specs.RowsAfter as bare;
ghost use Rattle.section_cut.specs.Stored.{IsStored, IsChangeOfStored};

use crate::connected::block_part;
use crate::cut_changes::{CutChange, StoredCut, compared};
use crate::cuts::cut_of_members;
use crate::members::{MemberRows, add_run};
use crate::reached_runs::row_of;
use line_tables::LineTables;
use plan_model::{Cut, CutRow, SharedUses};
use rail_model::{List, OutOfMemory, Section};
use std::alloc::Global;

// What the edit of a number makes of the cut of a section that stays, by rows with the uses of blocks
// of the members after it.
pub(crate) fn cut_bound_anew(
    alloc: Global,
    stored: StoredCut<'_>,
    rows: &[CutRow],
) -> Result<CutChange, OutOfMemory>
    requires stored { IsStored stored }
    requires sections { stored.both.after.now.sections ≡ stored.both.before.now.sections }
    requires members { AreOfMembers stored.both.after.now stored.cut.now.section rows.now }
    ensures { IfOk result (IsChangeOfStored stored.entry) }
{
    let after = stored.both.after;
    let members = members_by_rows(alloc, after, &stored.cut.section, rows, stored.number)?;
    cut_by_members(alloc, stored, members)
}

// What the edit of a number makes of the cut of a section that stays, by its members after the
// edit, whose rows are still without uses of connections.
pub(crate) fn cut_by_members(
    alloc: Global,
    stored: StoredCut<'_>,
    members: MemberRows,
) -> Result<CutChange, OutOfMemory>
    requires stored { IsStored stored }
    requires sections { stored.both.after.now.sections ≡ stored.both.before.now.sections }
    requires rows { members.rows
        ≡ rows_on_blocks stored.both.after.now stored.cut.now.section stored.number }
    requires of_run { members.of_run.items
        ≡ members_by_run stored.both.after.now stored.cut.now.section }
    ensures { IfOk result (IsChangeOfStored stored.entry) }
{
    let old = stored.cut;
    let later = cut_of_members(alloc, stored.both.after, &old.section, members)?;
    Ok(compared(old, later, stored.number))
}

// The members' rows without their uses of connections, and for each run which of them is its.
fn members_by_rows(
    alloc: Global,
    tables: &LineTables,
    section: &Section,
    own: &[CutRow],
    stamp: u64,
) -> Result<MemberRows, OutOfMemory>
    requires { AreOfMembers tables.now section.now own.now }
    ensures rows { IfOk result
        (λ all. all.rows ≡ rows_on_blocks tables.now section.now stamp) }
    ensures of_run { IfOk result
        (λ all. all.of_run.items ≡ members_by_run tables.now section.now) }
{
    let mut all = MemberRows {
        rows: List::new(alloc),
        of_run: Vec::with_capacity(alloc, tables.runs() as usize)?,
    };
    let mut at = 0;
    for n in 0..tables.runs() {
        let its = row_of(tables, n, own, &mut at);
        let row = on_blocks(alloc, section, its, stamp)?;
        add_run(&mut all, row)?;
    }
    Ok(all)
}

// A row, if it is there, with this stamp and without its uses of connections.
pub(crate) fn on_blocks(
    alloc: Global,
    section: &Section,
    own: Option<&CutRow>,
    stamp: u64,
) -> Result<Option<CutRow>, OutOfMemory>
    requires { IfSome (option_copied own)
        (λ r. AreBlocksFirst (length section.now.blocks) r.uses) }
    ensures { IfOk result
        (λ row. row ≡ option_map (bare.on_blocks section.now stamp) (option_copied own.entry)) }
{
    let Some(row) = own else {
        return Ok(None);
    };
    let uses = block_part(section, row.uses.slice());
    Ok(Some(CutRow {
        name: row.name,
        stamp,
        entry: row.entry,
        uses: SharedUses::copy_of(alloc, uses)?,
    }))
}
