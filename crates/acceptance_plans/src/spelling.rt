//! Lines that are spelled again.
ghost use Rattle.std.specs.Prelude.{◌<◌, length};

use rail_model::OutOfMemory;
use row_text::{Fields, Line, RowList, Sheet, has_times_in, read_row, spell, spell_in};
use small_lines::{Text, word};
use std::alloc::Global;

// The lines of rows in version 1, as their rows in a version; a line with a time that the version
// can't write is left out.
pub(crate) fn write_spelled(alloc: Global, text: &mut Text, version: u32, rows: &RowList<'_>) {
    let mut sheet = Sheet::new(alloc);
    for i in 0..rows.len() {
        if spell_row(alloc, &mut sheet, rows, i, version).is_err() {
            text.lose();
        }
    }
    text.put(sheet.text());
}

fn spell_row(
    alloc: Global,
    sheet: &mut Sheet,
    rows: &RowList<'_>,
    i: usize,
    version: u32,
) -> Result<(), OutOfMemory>
    requires { i < length rows.now }
{
    let row = rows.row(alloc, i)?;
    match read_row(alloc, &row)? {
        Ok(line) => spell_line(alloc, sheet, version, &line),
        Err(_) => Ok(()),
    }
}

fn spell_line(
    alloc: Global,
    sheet: &mut Sheet,
    version: u32,
    line: &Line,
) -> Result<(), OutOfMemory> {
    if !has_times_in(alloc, version, line)? {
        return Ok(());
    }
    let row = spell_in(alloc, version, line)?;
    if row.is_empty() {
        return Ok(());
    }
    sheet.write_row(&row)
}

// A line of two fields, pushed one by one: how many fields its row has when it is spelled again,
// as fields and as a row, and the second of them.
pub(crate) fn write_again(alloc: Global, text: &mut Text, line: &[u8]) {
    let mut fields = Fields::new(alloc);
    if push_two(&mut fields, word(line, 1), word(line, 2)).is_err() {
        text.lose();
    }
    match read_row(alloc, &fields) {
        Ok(Ok(line)) => write_line(alloc, text, &line),
        Ok(Err(_)) => text.put_line(b"no line"),
        Err(_) => text.lose(),
    }
}

fn push_two(fields: &mut Fields, one: &[u8], other: &[u8]) -> Result<(), OutOfMemory> {
    fields.push(one)?;
    fields.push(other)
}

fn write_line(alloc: Global, text: &mut Text, line: &Line) {
    match spell(alloc, line) {
        Ok(fields) => write_fields(text, &fields),
        Err(_) => text.lose(),
    }
}

fn write_fields(text: &mut Text, fields: &Fields) {
    text.show(b"", fields.len());
    text.show(b" fields, ", fields.row().len());
    text.put(b" in the row, the second ");
    if fields.len() < 2 {
        return text.put_line(b"is missing");
    }
    text.put_line(fields.get(1));
}
