//! The rows of a section that is filled.
ghost use Rattle.std.specs.Prelude.{◌≡◌, ◌<◌, [], ◌∷◌, IfOk, codes, decimal, string_bytes};
ghost use Rattle.row_text.specs.Adds.{Adds};
ghost use Rattle.answer_parts.specs.Adding.{AddsRow};
ghost use Rattle.path_fill.specs.Filling as rows;

use crate::found::Fill;
use answer_parts::push_consumption;
use occupancy_rate::consumption;
use rail_model::{Name, OutOfMemory, Section};
use row_text::{Field, Sheet};
use std::alloc::{AllocError, Global};

/// Adds the rows of a section that is filled with copies of a run: `fill,SECTION,RUN,COPIES` and
/// `at,COPIES,OCCUPANCY,CONSUMPTION,PERCENT,VERDICT` for so many copies and for one more; or
/// `fill,SECTION,RUN,none` and one such row for 0 copies. A row that is open is dropped first. It
/// takes memory; where that runs out, only a prefix of the rows is added, and the next row may be
/// open.
pub fn fill_rows(
    alloc: Global,
    sheet: &mut Sheet,
    section: &Section,
    run: &Name,
    fill: &Fill,
) -> Result<(), OutOfMemory>
    requires { section.now.from_s < section.now.to_s }
    ensures { Adds result sheet.old sheet.new (rows.fill_rows section.now run.now fill.now) }
{
    match fill {
        Fill::Over { occupancy } => {
            none_row(sheet, section, run)?;
            at_row(alloc, sheet, section, 0, *occupancy)
        }
        Fill::Fits {
            copies,
            occupancy,
            next,
        } => {
            fill_row(sheet, section, run, *copies)?;
            at_row(alloc, sheet, section, u128::from(*copies), *occupancy)?;
            at_row(alloc, sheet, section, u128::from(*copies) + 1, *next)
        }
    }
}

fn fill_row<'a>(
    sheet: &mut Sheet,
    section: &'a Section,
    run: &'a Name,
    copies: u64,
) -> Result<(), OutOfMemory>
    ensures { AddsRow result sheet.old sheet.new
        (rows.fill_row section.now run.now (decimal copies)) }
{
    sheet.write(&[
        Field::Text(b"fill"),
        Field::Name(&section.name),
        Field::Name(run),
        Field::Count(copies),
    ])
}

fn none_row<'a>(sheet: &mut Sheet, section: &'a Section, run: &'a Name) -> Result<(), OutOfMemory>
    ensures { AddsRow result sheet.old sheet.new
        (rows.fill_row section.now run.now (codes "none")) }
{
    sheet.write(&[
        Field::Text(b"fill"),
        Field::Name(&section.name),
        Field::Name(run),
        Field::Text(b"none"),
    ])
}

// Adds the row of the consumption with so many copies. A row that is open is dropped first. Where
// memory runs out, no row is added.
fn at_row(
    alloc: Global,
    sheet: &mut Sheet,
    section: &Section,
    copies: u128,
    time: u64,
) -> Result<(), OutOfMemory>
    requires { section.now.from_s < section.now.to_s }
    ensures { AddsRow result sheet.old sheet.new (rows.at_row section.now copies time) }
{
    let rate = consumption(time, section.add_percent, section.to_s - section.from_s);
    let count = count_text(alloc, copies)?;
    sheet.drop_row();
    sheet.push_field(b"at")?;
    sheet.push_field(count.as_bytes())?;
    sheet.push_count(time)?;
    push_consumption(alloc, sheet, &rate)?;
    sheet.end_row()
}

// A number in plain decimal.
fn count_text(alloc: Global, count: u128) -> Result<String, AllocError>
    ensures { IfOk result (λ text. string_bytes text ≡ decimal count) }
{
    format!(in alloc; "{count}")
}
