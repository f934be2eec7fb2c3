//! What a field alone says, as rows are read.
use crate::row_at::{field_at, len_of};
use rail_model::{Edit, Form, Item, OutOfMemory, PATH_HOPS};
use row_text::{Fields, Line, RowList, read_row_in};
use std::alloc::Global;

// What a field says where a time or a rate is to stand.
#[derive(Clone, Copy)]
pub(crate) struct Said {
    // In version 2 of the rows: seconds.
    pub(crate) time: Option<u32>,
    pub(crate) is_rate: bool,
}

// What the fields of a row say, so many as a row may have.
pub(crate) fn said_by(
    alloc: Global,
    rows: &RowList<'_>,
    place: usize,
) -> Result<Vec<Said>, OutOfMemory> {
    let mut said = Vec::new(alloc);
    for at in 0..len_of(rows, place).min(6 + 2 * PATH_HOPS) {
        said.push(said_by_field(alloc, field_at(rows, place, at))?)?;
    }
    Ok(said)
}

fn said_by_field(alloc: Global, field: &[u8]) -> Result<Said, OutOfMemory> {
    let time = start_of(alloc, field, b"0")?;
    let rate = start_of(alloc, b"0", field)?;
    Ok(Said {
        time,
        is_rate: rate.is_some(),
    })
}

// The start of the section that a row with this start and this rate spells, if it spells one.
fn start_of(alloc: Global, start: &[u8], rate: &[u8]) -> Result<Option<u32>, OutOfMemory> {
    let line = read_row_in(alloc, 2, &fields_of(alloc, start, rate)?)?;
    Ok(start_in(&line))
}

fn fields_of(alloc: Global, start: &[u8], rate: &[u8]) -> Result<Fields, OutOfMemory> {
    let row: [&[u8]; 6] = [b"section", b"S", start, b"1", rate, b"A"];
    let mut fields = Fields::new(alloc);
    for field in &row {
        fields.push(field)?;
    }
    Ok(fields)
}

fn start_in(line: &Result<Line, Form>) -> Option<u32> {
    match line {
        Ok(Line::Edit(Edit::Put(Item::Section(section)))) => Some(section.from_s),
        _ => None,
    }
}
