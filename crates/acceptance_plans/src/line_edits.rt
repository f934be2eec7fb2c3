//! Edits of a line's tables, each with the rule that refuses it.
use line_tables::LineTables;
use rail_model::Edit;
use small_lines::{Text, edit_of, parts_of};
use std::alloc::Global;

// Edits of tables, one after the other, and what each is answered; then how many blocks, runs,
// sections and connections there are.
pub(crate) fn write_edits(alloc: Global, text: &mut Text, tables: &mut LineTables, edits: &[u8]) {
    let mut rest = edits;
    for _ in 0..edits.len() {
        let (row, later) = parts_of(rest, b'\n');
        if !row.is_empty() {
            write_edit(alloc, text, tables, row);
        }
        rest = later;
    }
    write_counts(text, tables);
}

fn write_edit(alloc: Global, text: &mut Text, tables: &mut LineTables, row: &[u8]) {
    text.put(row);
    match edit_of(alloc, text, row) {
        Some(edit) => write_answer(text, tables, &edit),
        None => text.put_line(b" is no edit"),
    }
}

fn write_answer(text: &mut Text, tables: &mut LineTables, edit: &Edit) {
    match tables.apply(edit) {
        Ok(answer) => text.show_all(b" -> ", &answer),
        Err(_) => text.lose(),
    }
    text.put(b"\n");
}

fn write_counts(text: &mut Text, tables: &LineTables) {
    text.show(b"blocks ", tables.blocks());
    text.show(b", runs ", tables.runs());
    text.show(b", sections ", tables.sections());
    text.show(b", connections ", tables.connections());
    text.put(b"\n");
}
