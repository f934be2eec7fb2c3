//! The rows of a section that is not compressed.
ghost use Rattle.std.specs.Prelude.{[], ◌∷◌};
ghost use Rattle.row_text.specs.Adds.{Adds};
ghost use Rattle.answer_parts.specs.Adding.{AddsRow};
ghost use Rattle.answer_parts.specs.Rows as rows;

use crate::links::link_rows;
use plan_model::Link;
use rail_model::{Name, OutOfMemory};
use row_text::{Field, Sheet};

/// Adds the row of two trains, each of which precedes the other at one of two places:
/// `opposite,SECTION,FIRST,SECOND,BLOCK1,BLOCK2`. A row that is open is dropped first. It takes
/// memory; where that runs out, no row is added.
pub fn opposite_row<'a>(
    sheet: &mut Sheet,
    section: &'a Name,
    first: &'a Name,
    second: &'a Name,
    block1: &'a Name,
    block2: &'a Name,
) -> Result<(), OutOfMemory>
    ensures { AddsRow result sheet.old sheet.new
        (rows.opposite_row section.now first.now second.now block1.now block2.now) }
{
    sheet.write(&[
        Field::Text(b"opposite"),
        Field::Name(section),
        Field::Name(first),
        Field::Name(second),
        Field::Name(block1),
        Field::Name(block2),
    ])
}

/// Adds the rows of a ring: `ring,SECTION,LINKS`, with the number of its links, and then the links.
/// A row that is open is dropped first. It takes memory; where that runs out, only a prefix of the
/// rows is added, and the next row may be open.
pub fn ring_rows(sheet: &mut Sheet, section: &Name, links: &[Link]) -> Result<(), OutOfMemory>
    ensures { Adds result sheet.old sheet.new (rows.ring_rows section.now links.now) }
{
    ring_row(sheet, section, links.len() as u64)?;
    link_rows(sheet, links)
}

// Adds the row of a ring with so many links.
fn ring_row(sheet: &mut Sheet, section: &Name, links: u64) -> Result<(), OutOfMemory>
    ensures { Adds result sheet.old sheet.new (rows.ring_row section.now links ∷ []) }
{
    sheet.write(&[
        Field::Text(b"ring"),
        Field::Name(section),
        Field::Count(links),
    ])
}

/// Adds the row of a section with more members than are compressed: `crowded,SECTION,COUNT`. A row
/// that is open is dropped first. It takes memory; where that runs out, no row is added.
pub fn crowded_row(sheet: &mut Sheet, section: &Name, count: u32) -> Result<(), OutOfMemory>
    ensures { AddsRow result sheet.old sheet.new (rows.crowded_row section.now count) }
{
    sheet.write(&[
        Field::Text(b"crowded"),
        Field::Name(section),
        Field::Count(u64::from(count)),
    ])
}
