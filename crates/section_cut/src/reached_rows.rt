//! The row of one run in a section's cut after an edit that changes paths, with the uses of
//! connections that it had. A row of the same uses as before is kept with its stamp. Of a stair only
//! the part of its uses is looked at that may be in the section.
ghost use Rattle.std.specs.Prelude.{◌≡◌, ◌↔◌, ◌<◌, ℕ, true, IsTrue, option_map, All, length, IfOk, IfSome, Some, slice_index};
ghost use Rattle.std.specs.Option.{option_copied};
ghost use Rattle.plan_model.specs.Cut.{stamped_row, AreBlocksFirst};
ghost use Rattle.section_cut.specs.Connected.{with_rest};
ghost use Rattle.section_cut.specs.Members.{member_row};
ghost use Rattle.section_cut.specs.Positions.{uses_in};
ghost use Rattle.section_cut.specs.ReachedRuns.{IsOwnRow, IsRowAfter, StaysRow, row_after};
ghost use Rattle.section_cut.specs.RowsAfter.{member_after};
ghost use Rattle.section_cut.specs.Spans.{IsLookedAt};
ghost use Rattle.section_cut.specs.Starts.{EntersEarly};

use crate::bound_anew::on_blocks;
use crate::connected::block_part;
use crate::members::{member_row, row_with};
use crate::positions::{SectionTable, gather, placed, same_first, same_placed};
use crate::same_value::same_row;
use crate::stamps::stamp_of;
use crate::timed_stair::TimedStair;
use plan_model::{CutRow, least_start};
use rail_model::{OutOfMemory, Use};
use std::alloc::Global;

// Whether a run's row after an edit has the value of its own before it, if that is there. Of a run
// that isn't reached nothing is looked at.
pub(crate) fn row_stays(
    alloc: Global,
    table: SectionTable<'_>,
    stair: &Option<TimedStair>,
    uses: &[Use],
    own: Option<&CutRow>,
) -> Result<bool, OutOfMemory>
    requires uses { IfSome stair.now
        (IsLookedAt table.positions.now (length table.section.now.blocks) uses.now) }
    requires own { IfSome stair.now
        (λ s. IfSome (option_copied own) (IsOwnRow table.section.now s.run)) }
    ensures { IfOk result (λ stays. IsTrue stays
        ↔ StaysRow table.entry.section.now table.entry.positions.now stair.now (option_copied own.entry)) }
{
    let Some(stair) = stair else {
        return Ok(true);
    };
    if has_uses(own, table, stair, uses) {
        return Ok(true);
    }
    let row = joined_to(table, row_made(alloc, table, stair, uses, 0)?, own)?;
    Ok(is_same(&row, own))
}

// Whether a row is there, and has these uses of a stair, all of them. `false` says nothing: the slow
// way follows.
fn has_uses(own: Option<&CutRow>, table: SectionTable<'_>, stair: &TimedStair, uses: &[Use]) -> bool
    requires uses { IsLookedAt table.positions.now (length table.section.now.blocks)
        uses.now stair.now }
    requires own { IfSome (option_copied own) (IsOwnRow table.section.now stair.now.run) }
    ensures { result ≡ true → StaysRow table.entry.section.now table.entry.positions.now (Some stair.now)
        (option_copied own.entry) }
{
    match own {
        Some(row) => {
            same_placed(
                block_part(table.section, row.uses.slice()),
                table.positions,
                uses,
            )
        }
        None => false,
    }
}

// Whether two rows are equal but for their stamps, or neither is there.
fn is_same(row: &Option<CutRow>, own: Option<&CutRow>) -> bool
    ensures { IsTrue result ↔ (option_map (stamped_row 0) row.now
        ≡ option_map (stamped_row 0) (option_copied own.entry)) }
{
    match row {
        Some(row) => match own {
            Some(own) => same_row(row, own),
            None => false,
        },
        None => match own {
            Some(_) => false,
            None => true,
        },
    }
}

// A run's row after the edit of a number: by its stair, if the edit reaches it, and otherwise its
// own before it, if that is there.
pub(crate) fn row_anew(
    alloc: Global,
    table: SectionTable<'_>,
    stair: &Option<TimedStair>,
    uses: &[Use],
    own: Option<&CutRow>,
    number: u64,
) -> Result<Option<CutRow>, OutOfMemory>
    requires uses { IfSome stair.now
        (IsLookedAt table.positions.now (length table.section.now.blocks) uses.now) }
    requires own { IfSome stair.now
        (λ s. IfSome (option_copied own) (IsOwnRow table.section.now s.run)) }
    ensures { IfOk result (IsRowAfter (row_after table.entry.section.now table.entry.positions.now stair.now
        (option_map (stamped_row 0) (option_copied own.entry))) number (option_copied own.entry)) }
{
    match stair {
        Some(stair) => row_by_stair(alloc, table, stair, uses, own, number),
        None => copied(own),
    }
}

// A copy of a row, if it is there.
fn copied(own: Option<&CutRow>) -> Result<Option<CutRow>, OutOfMemory>
    ensures { IfOk result (λ row. (number : ℕ)
        → IsRowAfter (option_map (stamped_row 0) (option_copied own.entry)) number
        (option_copied own.entry) row) }
{
    let Some(row) = own else {
        return Ok(None);
    };
    Ok(Some(row.copy()?))
}

// The row after the edit of a number of the run of a stair, if it is a member, by its own before
// the edit, if that is there.
fn row_by_stair(
    alloc: Global,
    table: SectionTable<'_>,
    stair: &TimedStair,
    uses: &[Use],
    own: Option<&CutRow>,
    number: u64,
) -> Result<Option<CutRow>, OutOfMemory>
    requires uses { IsLookedAt table.positions.now (length table.section.now.blocks)
        uses.now stair.now }
    requires own { IfSome (option_copied own) (IsOwnRow table.section.now stair.now.run) }
    ensures { IfOk result (IsRowAfter (row_after table.entry.section.now table.entry.positions.now
        (Some stair.now) (option_map (stamped_row 0) (option_copied own.entry))) number (option_copied own.entry)) }
{
    if let Some(row) = own {
        if let Some(made) = whole_row(alloc, table, stair, uses, row, number)? {
            return Ok(made);
        }
    }
    let row = joined_to(table, row_made(alloc, table, stair, uses, number)?, own)?;
    Ok(with_own_stamp(row, own, number))
}

// This row, where the one before the edit has as many uses of blocks as are looked at: it is copied
// where it has the same, and otherwise those that differ are written in a copy of them. `None`, as
// where it hasn't as many, or a block isn't in the section, says nothing: the slow way follows.
fn whole_row(
    alloc: Global,
    table: SectionTable<'_>,
    stair: &TimedStair,
    stairway: &[Use],
    own: &CutRow,
    number: u64,
) -> Result<Option<Option<CutRow>>, OutOfMemory>
    requires uses { IsLookedAt table.positions.now (length table.section.now.blocks)
        stairway.now stair.now }
    requires own { IsOwnRow table.section.now stair.now.run own.now }
    ensures { IfOk result (λ made. IfSome made (IsRowAfter (row_after table.entry.section.now
        table.entry.positions.now (Some stair.now) (Some (stamped_row 0 own.now))) number (Some own.now))) }
{
    let uses = block_part(table.section, own.uses.slice());
    if uses.len() != stairway.len() {
        return Ok(None);
    }
    let same = same_first(uses, table.positions, stairway);
    if same == uses.len() {
        return Ok(Some(Some(own.copy()?)));
    }
    let Some(uses) = placed(alloc, table, uses, same, stairway)? else {
        return Ok(None);
    };
    let entry = least_start(uses.slice());
    let row = row_with(table.section, stair.stair().run, number, entry, uses);
    let row = joined_to(table, row, Some(own))?;
    Ok(Some(with_own_stamp(row, Some(own), number)))
}

// A row, if it is there, with the uses of connections of another, if that is there.
fn joined_to(
    table: SectionTable<'_>,
    row: Option<CutRow>,
    own: Option<&CutRow>,
) -> Result<Option<CutRow>, OutOfMemory>
    requires { IfSome (option_copied own)
        (λ r. AreBlocksFirst (length table.section.now.blocks) r.uses) }
    ensures { IfOk result (λ made. made
        ≡ option_map (with_rest table.entry.section.now (option_copied own.entry)) row) }
{
    let Some(mut row) = row else {
        return Ok(None);
    };
    let Some(own) = own else {
        return Ok(Some(row));
    };
    let uses = own.uses.slice();
    let from = block_part(table.section, uses).len();
    for one in &uses[from..] {
        row.uses.push(*one)?;
    }
    Ok(Some(row))
}

// A row with its stamp after the edit of a number, by the row of its name before it.
fn with_own_stamp(row: Option<CutRow>, own: Option<&CutRow>, number: u64) -> Option<CutRow>
    ensures { IsRowAfter (option_map (stamped_row 0) row) number (option_copied own.entry) result }
{
    let mut row = row?;
    row.stamp = stamp_of(&row, own, number);
    Some(row)
}

// The row of the run of a stair, if it is a member.
fn row_made(
    alloc: Global,
    table: SectionTable<'_>,
    stair: &TimedStair,
    uses: &[Use],
    stamp: u64,
) -> Result<Option<CutRow>, OutOfMemory>
    requires { IsLookedAt table.positions.now (length table.section.now.blocks)
        uses.now stair.now }
    ensures { IfOk result (λ row. row ≡ member_row table.entry.section.now stair.now.run stamp
        (uses_in table.entry.positions.now (length table.entry.section.now.blocks) stair.now.uses)) }
{
    if stair.passes_by(table.section) {
        return Ok(None);
    }
    if enters_early(table, stair) {
        return Ok(None);
    }
    let mut found = Vec::new(alloc);
    gather(&mut found, table, uses)?;
    member_row(alloc, table.section, stair.stair().run, stamp, &found)
}

// Whether the first use of a stair is of one of a section's blocks and starts before its window.
// `false` says nothing: the slow way follows.
fn enters_early(table: SectionTable<'_>, stair: &TimedStair) -> bool
    requires { All (λ u. u.block < length table.positions.now) stair.now.uses }
    ensures { result ≡ true
        → EntersEarly table.entry.section.now (slice_index table.entry.positions.now) stair.now.uses }
{
    let Some(block) = stair.early_block(table.section) else {
        return false;
    };
    table.positions[block as usize] < table.section.blocks.len() as u32
}

// A run's row after the edit without its uses of connections: by its stair, if the edit reaches it,
// and otherwise by its own before it, if that is there.
pub(crate) fn member_anew(
    alloc: Global,
    table: SectionTable<'_>,
    stair: &Option<TimedStair>,
    uses: &[Use],
    own: Option<&CutRow>,
    stamp: u64,
) -> Result<Option<CutRow>, OutOfMemory>
    requires uses { IfSome stair.now
        (IsLookedAt table.positions.now (length table.section.now.blocks) uses.now) }
    requires own { IfSome (option_copied own)
        (λ r. AreBlocksFirst (length table.section.now.blocks) r.uses) }
    ensures { IfOk result (λ row. row ≡ member_after table.entry.section.now
        table.entry.positions.now stair.now stamp (option_copied own.entry)) }
{
    match stair {
        Some(stair) => row_made(alloc, table, stair, uses, stamp),
        None => on_blocks(alloc, table.section, own, stamp),
    }
}
