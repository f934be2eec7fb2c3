//! What edits make of a section's cut.
ghost use Rattle.std.specs.Prelude.{◌≡◌, IfOk, option_map};
ghost use Rattle.plan_model.specs.Cut.{stamped, cut_of};

use crate::cuts::put_cut;
use line_tables::LineTables;
use plan_model::Cut;
use rail_model::{Edit, Name, OutOfMemory};
use section_cut::{cut_change, cut_of};
use small_lines::{Text, edit_of, parts_of};
use std::alloc::Global;

// The section S of tables: its rows are stamped 8 before all. For each edit, with the numbers from
// 9 on, whether it touches the section, and the section's cut after it.
pub(crate) fn write_changes(alloc: Global, text: &mut Text, tables: &mut LineTables, edits: &[u8]) {
    let Ok(name) = Name::read(b"S") else {
        return text.put_line(b"no name");
    };
    match cut_of(alloc, tables, &name, 8) {
        Ok(mut cut) => write_edits(alloc, text, tables, &mut cut, &name, edits),
        Err(_) => text.lose(),
    }
}

fn write_edits(
    alloc: Global,
    text: &mut Text,
    tables: &mut LineTables,
    cut: &mut Option<Cut>,
    name: &Name,
    edits: &[u8],
)
    requires { cut_of tables.old name.now ≡ option_map (stamped 0) cut.old }
{
    let mut rest = edits;
    let mut number = 9u64;
    for _edit in 0..edits.len() {
        let (row, later) = parts_of(rest, b'\n');
        if row.is_empty() {
            return;
        }
        let Ok(touched) = edited(alloc, text, tables, cut, name, row, number) else {
            return text.lose();
        };
        write_change(text, row, number, touched);
        write_after(text, cut);
        rest = later;
        number = number.saturating_add(1);
    }
}

// Makes the edit of a row, and the section's cut that of the tables after it; whether it touches
// the section.
fn edited(
    alloc: Global,
    text: &mut Text,
    tables: &mut LineTables,
    cut: &mut Option<Cut>,
    name: &Name,
    row: &[u8],
    number: u64,
) -> Result<Option<bool>, OutOfMemory>
    requires { cut_of tables.old name.now ≡ option_map (stamped 0) cut.old }
    ensures { IfOk result (λ _. cut_of tables.new name.now ≡ option_map (stamped 0) cut.new) }
{
    match edit_of(alloc, text, row) {
        Some(edit) => made(alloc, tables, cut, name, &edit, number),
        None => Ok(None),
    }
}

fn made(
    alloc: Global,
    tables: &mut LineTables,
    cut: &mut Option<Cut>,
    name: &Name,
    edit: &Edit,
    number: u64,
) -> Result<Option<bool>, OutOfMemory>
    requires { cut_of tables.old name.now ≡ option_map (stamped 0) cut.old }
    ensures { IfOk result (λ _. cut_of tables.new name.now ≡ option_map (stamped 0) cut.new) }
{
    let before = tables.copy()?;
    made_from(alloc, &before, tables, cut, name, edit, number)
}

// Where the tables are these before the edit.
fn made_from(
    alloc: Global,
    before: &LineTables,
    tables: &mut LineTables,
    cut: &mut Option<Cut>,
    name: &Name,
    edit: &Edit,
    number: u64,
) -> Result<Option<bool>, OutOfMemory>
    requires before { before.now ≡ tables.old }
    requires cut { cut_of tables.old name.now ≡ option_map (stamped 0) cut.old }
    ensures { IfOk result (λ _. cut_of tables.new name.now ≡ option_map (stamped 0) cut.new) }
{
    if tables.apply(edit)?.is_err() {
        return Ok(None);
    }
    Ok(Some(cut_change(alloc, cut, name, before, tables, edit, number)?))
}

fn write_change(text: &mut Text, row: &[u8], number: u64, touched: Option<bool>) {
    text.show(b"", number);
    text.put(b" ");
    text.put(row);
    match touched {
        Some(true) => text.put_line(b" touches the section"),
        Some(false) => text.put_line(b" touches nothing of it"),
        None => text.put_line(b" is not made"),
    }
}

fn write_after(text: &mut Text, cut: &Option<Cut>) {
    match cut {
        Some(cut) => put_cut(text, cut),
        None => text.put_line(b"none"),
    }
}
