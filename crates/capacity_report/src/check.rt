//! The rows of `check`.
ghost use Rattle.std.specs.Prelude.{◌≡◌, ◌<◌, ◌++◌, ◌∷◌, [], List, length, map, All, OnOk, OnErr};
ghost use Rattle.rail_model.specs.Conflict.{Conflict as Whole, AreConflicts, timetable};
ghost use Rattle.conflict_finder.specs.Found.{IsFound};
ghost use Rattle.row_text.specs.Adds.{Adds, AddsFirst};
ghost use Rattle.answer_parts.specs.Adding.{AddsRow};
ghost use Rattle.capacity_report.specs.Rows as rows;

use conflict_finder::{Conflict, Conflicts};
use line_tables::LineTables;
use rail_model::OutOfMemory;
use row_text::{Field, Sheet};

/// Adds the rows of the conflicts that are listed, in their order, and how many are listed and how
/// many there are besides. A row that is open is dropped first. Where memory runs out, only a
/// prefix of the rows is added, and the next row may be open.
pub fn conflict_rows(
    sheet: &mut Sheet,
    tables: &LineTables,
    found: &Conflicts,
) -> Result<(), OutOfMemory>
    requires { IsFound (timetable tables.now) found.now }
    ensures ok { OnOk result ((all : List Whole) × AreConflicts (timetable tables.now) all
        × (sheet.new.rows ≡ sheet.old.rows ++ rows.check_rows tables.now all)) }
    ensures closed { OnOk result (sheet.new.row ≡ []) }
    ensures err { OnErr result ((all : List Whole) × AreConflicts (timetable tables.now) all
        × AddsFirst sheet.old sheet.new (rows.check_rows tables.now all)) }
{
    let _runs = tables.runs();
    found_rows(sheet, tables, found)
}

// Adds the rows of the conflicts that are listed, and then that of the counts.
fn found_rows(sheet: &mut Sheet, tables: &LineTables, found: &Conflicts) -> Result<(), OutOfMemory>
    requires { All (λ c. c.block < length tables.now.blocks) found.now.list }
    ensures { Adds result sheet.old sheet.new (rows.found_rows tables.now found.now) }
{
    listed_rows(sheet, tables, found.list.slice())?;
    count_row(sheet, found.list.len() as u64, found.more)
}

// Adds the rows of the conflicts that are listed.
fn listed_rows(
    sheet: &mut Sheet,
    tables: &LineTables,
    listed: &[Conflict],
) -> Result<(), OutOfMemory>
    requires { All (λ c. c.block < length tables.now.blocks) listed.now }
    ensures { Adds result sheet.old sheet.new (map (rows.conflict_row tables.now) listed.now) }
{
    sheet.drop_row();
    for conflict in listed {
        conflict_row(sheet, tables, conflict)?;
    }
    Ok(())
}

// Adds the row of a conflict, `conflict,BLOCK,FIRST,SECOND,FROM,TO`.
fn conflict_row<'a>(
    sheet: &mut Sheet,
    tables: &'a LineTables,
    conflict: &'a Conflict,
) -> Result<(), OutOfMemory>
    requires { conflict.now.block < length tables.now.blocks }
    ensures { AddsRow result sheet.old sheet.new (rows.conflict_row tables.now conflict.now) }
{
    sheet.write(&[
        Field::Text(b"conflict"),
        Field::Name(&tables.block(conflict.block).name),
        Field::Name(&conflict.first),
        Field::Name(&conflict.second),
        Field::Number(conflict.from),
        Field::Number(conflict.to),
    ])
}

// Adds the row of the two counts, `conflicts,LISTED,MORE`.
fn count_row(sheet: &mut Sheet, listed: u64, more: u64) -> Result<(), OutOfMemory>
    ensures { AddsRow result sheet.old sheet.new (rows.count_row listed more) }
{
    sheet.write(&[
        Field::Text(b"conflicts"),
        Field::Count(listed),
        Field::Count(more),
    ])
}
