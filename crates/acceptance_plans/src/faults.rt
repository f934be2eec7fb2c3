//! The first fault of a row, if it has one.
use rail_model::Form;
use row_text::{Fields, Line, RowList, read_row_in};
use small_lines::Text;
use std::alloc::Global;

// Of the first row, in a version.
pub(crate) fn write_first(alloc: Global, text: &mut Text, version: u32, rows: &RowList<'_>) {
    if rows.is_empty() {
        return text.put_line(b"no row");
    }
    match rows.row(alloc, 0) {
        Ok(fields) => write_read(alloc, text, version, &fields),
        Err(_) => text.lose(),
    }
}

fn write_read(alloc: Global, text: &mut Text, version: u32, fields: &Fields) {
    match read_row_in(alloc, version, fields) {
        Ok(found) => put_found(text, &found),
        Err(_) => text.lose(),
    }
}

// Of the row at a place, in version 1.
pub(crate) fn write_at(alloc: Global, text: &mut Text, place: usize, rows: &RowList<'_>) {
    if place >= rows.len() {
        return text.put_line(b"no row");
    }
    match rows.line(alloc, 1, place) {
        Ok(found) => put_found(text, &found),
        Err(_) => text.lose(),
    }
}

// What was read: a line, or a fault's word.
fn put_found(text: &mut Text, found: &Result<Line, Form>) {
    match found {
        Ok(_) => text.put_line(b"a line"),
        Err(Form::Kind) => text.put_line(b"fault: kind"),
        Err(Form::Fields) => text.put_line(b"fault: fields"),
        Err(Form::Number) => text.put_line(b"fault: number"),
        Err(Form::BadName) => text.put_line(b"fault: name"),
        Err(Form::Order) => text.put_line(b"fault: order"),
    }
}
