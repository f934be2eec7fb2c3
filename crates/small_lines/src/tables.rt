//! The tables that rows make.
use crate::Text;
use line_tables::LineTables;
use rail_model::Edit;
use row_text::{Line, RowList, rows};
use std::alloc::Global;

/// The edit that the first row of bytes spells, if it spells one. `text` notes where memory runs out.
pub fn edit_of(alloc: Global, text: &mut Text, row: &[u8]) -> Option<Edit> {
    match rows(alloc, row) {
        Ok(rows) => edit_at(alloc, text, &rows, 0),
        Err(_) => {
            text.lose();
            None
        }
    }
}

fn edit_at(alloc: Global, text: &mut Text, rows: &RowList<'_>, i: usize) -> Option<Edit> {
    if i >= rows.len() {
        return None;
    }
    match rows.line(alloc, 1, i) {
        Ok(Ok(Line::Edit(edit))) => Some(edit),
        Ok(_) => None,
        Err(_) => {
            text.lose();
            None
        }
    }
}

/// The tables that rows make; none where one of them spells no edit or is refused. `text` notes where
/// memory runs out.
pub fn tables_of(alloc: Global, text: &mut Text, bytes: &[u8]) -> Option<LineTables> {
    let mut tables = LineTables::new(alloc);
    if are_applied(alloc, text, &mut tables, bytes) {
        return Some(tables);
    }
    None
}

fn are_applied(alloc: Global, text: &mut Text, tables: &mut LineTables, bytes: &[u8]) -> bool {
    match rows(alloc, bytes) {
        Ok(rows) => are_made(alloc, text, tables, &rows),
        Err(_) => {
            text.lose();
            false
        }
    }
}

fn are_made(alloc: Global, text: &mut Text, tables: &mut LineTables, rows: &RowList<'_>) -> bool {
    for i in 0..rows.len() {
        if !is_made(alloc, text, tables, rows, i) {
            return false;
        }
    }
    true
}

fn is_made(
    alloc: Global,
    text: &mut Text,
    tables: &mut LineTables,
    rows: &RowList<'_>,
    i: usize,
) -> bool {
    match edit_at(alloc, text, rows, i) {
        Some(edit) => is_taken(tables, &edit),
        None => false,
    }
}

fn is_taken(tables: &mut LineTables, edit: &Edit) -> bool {
    matches!(tables.apply(edit), Ok(Ok(())))
}
