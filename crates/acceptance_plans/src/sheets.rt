//! Rows of any length that are written field by field.
use rail_model::OutOfMemory;
use row_text::{Sheet, Written};
use small_lines::Text;
use std::alloc::Global;

// The text of a sheet with three rows, after which a field is dropped.
pub(crate) fn write_sheet(alloc: Global, text: &mut Text) {
    let mut sheet = Sheet::new(alloc);
    if push_rows(alloc, &mut sheet).is_err() {
        text.lose();
    }
    text.put(&sheet.into_text());
}

fn push_rows(alloc: Global, sheet: &mut Sheet) -> Result<(), OutOfMemory> {
    push_written(alloc, sheet)?;
    push_numbers(sheet)?;
    push_short_rows(sheet)?;
    sheet.push_field(b"dropped")
}

fn push_written(alloc: Global, sheet: &mut Sheet) -> Result<(), OutOfMemory> {
    let written = Written::new(alloc, b"use")?.with(alloc, b"say \"x\"")?;
    sheet.push_written(&written)
}

fn push_numbers(sheet: &mut Sheet) -> Result<(), OutOfMemory> {
    sheet.push_field(b"a,b")?;
    sheet.push_numbers(&[-1, 0, 99, 100, 12_345, i64::MIN])?;
    sheet.push_count(u64::MAX)?;
    sheet.end_row()
}

fn push_short_rows(sheet: &mut Sheet) -> Result<(), OutOfMemory> {
    sheet.push_field(b"")?;
    sheet.end_row()?;
    sheet.push_number(-10)?;
    sheet.push_field(b"")?;
    sheet.end_row()
}
