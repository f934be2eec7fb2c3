//! The cut of a section.
ghost use Rattle.std.specs.Prelude.{◌≡◌, ℕ, ◌+◌, ◌<◌, ◌≤◌, length, map, IfOk, IfSome, OnOk, option_map};
ghost use Rattle.plan_model.specs.Cut.{stamped, IsSoundCut};
ghost use Rattle.plan_model.specs.Cut as cuts;
ghost use Rattle.rail_model.specs.Conflict.{timetable};
ghost use Rattle.rail_model.specs.Tables.{section_at};
ghost use Rattle.rail_model.specs.declared.limits.TheConstants.{PATH_HOPS};
ghost use Rattle.section_cut.specs.Late.{AreStairsFor, AreStairsFrom};
ghost use Rattle.section_cut.specs.Members.{AreMembersTo, AreSectionRowsTo};
ghost use Rattle.section_cut.specs.Members as rows;

use crate::all_stairways::AllStairways;
use crate::connections::connections;
use crate::late::stairways_to;
use crate::members::{MemberRows, add_members, no_members};
use crate::positions::{SectionTable, positions};
use line_tables::LineTables;
use plan_model::Cut;
use rail_model::{Name, OutOfMemory, Section};
use std::alloc::Global;

// The rows of a section's members among the first runs, and the position of each block of the
// tables in the section, by which the rows of further runs are made.
#[derive(Drop)]
pub(crate) struct SectionRows {
    pub(crate) positions: Vec<u32>,
    pub(crate) members: MemberRows,
}

/// The cut of the section of a name, each row with this stamp, and `None` exactly where the section
/// isn't there. A run is a member where it uses a block of the section and its entry, the least
/// start of its blockings there, lies in the section's window: from the window's start, and before
/// its end.
pub fn cut_of(
    alloc: Global,
    tables: &LineTables,
    section: &Name,
    stamp: u64,
) -> Result<Option<Cut>, OutOfMemory>
    ensures same { IfOk result
        (λ cut. cut ≡ option_map (stamped stamp) (cuts.cut_of tables.now section.now)) }
    ensures sound { IfOk result (λ cut. IfSome cut IsSoundCut) }
{
    let Some(number) = tables.section_number(section) else {
        return Ok(None);
    };
    let stairs = AllStairways::of(alloc, stairways_to(alloc, tables, number)?)?;
    Ok(Some(cut_by(alloc, tables, &stairs, number, stamp)?))
}

/// The cut of the section of a number, by all stairways, which are made once for many sections by
/// `stairways` and `AllStairways::of`. A run whose blockings all start before the section's window,
/// or all at its end or later, is passed over without a look at each of them.
pub fn cut_among(
    alloc: Global,
    tables: &LineTables,
    stairs: &AllStairways,
    section: u32,
    stamp: u64,
) -> Result<Cut, OutOfMemory>
    requires stairs { stairs.now ≡ timetable tables.now }
    requires there { section < length tables.now.sections }
    ensures same { IfOk result (λ cut. cut
        ≡ stamped stamp (cuts.section_cut tables.now (section_at tables.now section))) }
    ensures sound { IfOk result IsSoundCut }
{
    cut_by(alloc, tables, stairs, section, stamp)
}

// The cut of the section of a number by stairs that may be without the uses of runs that are no
// members.
fn cut_by(
    alloc: Global,
    tables: &LineTables,
    stairs: &AllStairways,
    section: u32,
    stamp: u64,
) -> Result<Cut, OutOfMemory>
    requires there { section < length tables.now.sections }
    requires stairs { AreStairsFor tables.now (section_at tables.now section) stairs.now }
    ensures same { IfOk result (λ cut. cut
        ≡ stamped stamp (cuts.section_cut tables.now (section_at tables.now section))) }
    ensures sound { IfOk result IsSoundCut }
{
    let members = stairs.candidates(tables.section(section));
    let mut rows = no_section_rows(alloc, tables, section, stairs.len(), members)?;
    add_to_section(alloc, tables, section, stairs, 0, stamp, &mut rows)?;
    cut_of_section(alloc, tables, section, rows.members)
}

// The positions of the blocks in the section of a number, and no rows yet, with room for so many
// members among so many runs.
pub(crate) fn no_section_rows(
    alloc: Global,
    tables: &LineTables,
    section: u32,
    runs: usize,
    members: usize,
) -> Result<SectionRows, OutOfMemory>
    requires { section < length tables.now.sections }
    ensures { IfOk result (λ rows. (stamp : ℕ)
        → AreSectionRowsTo tables.now (section_at tables.now section) stamp 0 rows) }
{
    Ok(SectionRows {
        positions: positions(alloc, tables, section)?,
        members: no_members(alloc, runs, members)?,
    })
}

// Adds to the rows of a section those of its members among the next runs, whose stairs these are.
pub(crate) fn add_to_section(
    alloc: Global,
    tables: &LineTables,
    section: u32,
    stairs: &AllStairways,
    from: u32,
    stamp: u64,
    rows: &mut SectionRows,
) -> Result<(), OutOfMemory>
    requires there { section < length tables.now.sections }
    requires stairs { AreStairsFrom tables.now (section_at tables.now section) from stairs.now }
    requires rows { AreSectionRowsTo tables.now (section_at tables.now section) stamp from rows.old }
    ensures { OnOk result (AreSectionRowsTo tables.now (section_at tables.now section) stamp
        (from + length stairs.now) rows.new) }
{
    tables.learn_sound();
    let section = tables.section(section);
    let spans = stairs.spans(alloc, &rows.positions, section.blocks.len())?;
    let table = SectionTable {
        section,
        positions: &rows.positions,
        spans: &spans,
    };
    add_members(alloc, tables, table, stairs, from, stamp, &mut rows.members)
}

// The cut of the section of a number by its members' rows, which all have one stamp.
pub(crate) fn cut_of_section(
    alloc: Global,
    tables: &LineTables,
    section: u32,
    members: MemberRows,
) -> Result<Cut, OutOfMemory>
    requires there { section < length tables.now.sections }
    requires rows { (stamp : ℕ) × AreMembersTo tables.now (section_at tables.now section) stamp
        (length tables.now.runs) members }
    ensures same { IfOk result (λ cut. (stamp : ℕ)
        → AreMembersTo tables.now (section_at tables.now section) stamp (length tables.now.runs) members
        → cut ≡ stamped stamp (cuts.section_cut tables.now (section_at tables.now section))) }
    ensures sound { IfOk result IsSoundCut }
{
    tables.learn_sound();
    cut_of_members(alloc, tables, tables.section(section), members)
}

// The cut of a section by its members' rows, which are still without uses of connections.
pub(crate) fn cut_of_members(
    alloc: Global,
    tables: &LineTables,
    section: &Section,
    members: MemberRows,
) -> Result<Cut, OutOfMemory>
    requires of_run { members.of_run.items ≡ rows.members_by_run tables.now section.now }
    requires names { map (λ r. r.name) members.rows
        ≡ map (λ r. r.name) (rows.members_of tables.now section.now) }
    requires blocks { length section.now.blocks ≤ PATH_HOPS }
    ensures { IfOk result (λ cut. (stamp : ℕ)
        → members.rows ≡ rows.rows_on_blocks tables.now section.now stamp
        → cut ≡ stamped stamp (cuts.section_cut tables.now section.now)) }
{
    tables.learn_sound();
    let MemberRows { mut rows, of_run } = members;
    let connections = connections(alloc, tables, section, &of_run, &mut rows)?;
    Ok(Cut {
        section: section.copy(alloc)?,
        connections,
        rows,
    })
}
