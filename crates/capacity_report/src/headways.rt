//! The text of `headways`.
ghost use Rattle.std.specs.Prelude.{◌≡◌, ◌<◌, ◌≤◌, ◌++◌, ◌∷◌, [], codes, OnOk, OnErr, IfOk};
ghost use Rattle.plan_model.specs.Cut.{IsSoundCut};
ghost use Rattle.plan_model.specs.Members.{member_count};
ghost use Rattle.headway_table.specs.Table.{table_of};
ghost use Rattle.row_text.specs.SheetRows.{text_of_rows};
ghost use Rattle.row_text.specs.Adds.{Adds};
ghost use Rattle.answer_parts.specs.Adding.{AddsRow};
ghost use Rattle.capacity_report.specs.Rows as rows;
ghost use Rattle.capacity_report.specs.Pairs as pairs;
ghost use Rattle.capacity_report.specs.Parts.{text_between};

use crate::parts::{Part, ask_for_rest, text_in_parts};
use headway_table::Headways;
use plan_model::Cut;
use rail_model::{Name, OutOfMemory};
use row_text::{Sheet, Text, Written};
use std::alloc::Global;
use std::thread::Threads;

// Fewer members aren't worth a thread of their own.
const LEAST_MEMBERS: usize = 32;

/// The text of the rows of the headways of a cut: one from each train to each other that shares a
/// place with it, by the names of the first and then the second. It is made in parts, by at most
/// as many threads as there are processors.
pub fn headways_text(
    rt: &(impl Threads + Sync),
    alloc: Global,
    cut: &Cut,
    table: &Headways,
) -> Result<Text, OutOfMemory>
    requires sound { IsSoundCut cut.now }
    requires table { table.now ≡ table_of cut.now }
    ensures { IfOk result (λ text. text ≡ text_of_rows (rows.headway_rows cut.now)) }
{
    let names = member_names(alloc, cut)?;
    text_by_names(rt, alloc, cut, table, &names)
}

// The text of the rows of the headways of a cut, by the names of its members as fields of a row.
fn text_by_names(
    rt: &(impl Threads + Sync),
    alloc: Global,
    cut: &Cut,
    table: &Headways,
    names: &[Written],
) -> Result<Text, OutOfMemory>
    requires table { table.now ≡ table_of cut.now }
    requires names { names.now ≡ pairs.names_of cut.now }
    requires few { member_count cut.now < 4_294_967_296 }
    ensures { IfOk result (λ text. text ≡ text_of_rows (rows.headway_rows cut.now)) }
{
    let text_of = |part: Part| -> Result<Vec<u8>, OutOfMemory>
        requires { (part.first ≤ part.«end») × (part.«end» ≤ member_count cut.now)
            × (member_count cut.now < 4_294_967_296) × (table.now ≡ table_of cut.now)
            × (names.now ≡ pairs.names_of cut.now) }
        ensures { IfOk result (λ text. text.items
            ≡ text_between (rows.rows_from cut.entry.now) part.first part.«end») }
    { text_of_part(alloc, cut, table, names, part) };
    text_in_parts(rt, alloc, cut.rows.len(), LEAST_MEMBERS, &text_of)
}

// The text of the rows of the headways from the members of a part.
fn text_of_part(
    alloc: Global,
    cut: &Cut,
    table: &Headways,
    names: &[Written],
    part: Part,
) -> Result<Vec<u8>, OutOfMemory>
    requires first { part.first ≤ part.«end» }
    requires there { part.«end» ≤ member_count cut.now }
    requires few { member_count cut.now < 4_294_967_296 }
    requires table { table.now ≡ table_of cut.now }
    requires names { names.now ≡ pairs.names_of cut.now }
    ensures { IfOk result (λ text. text.items
        ≡ text_between (rows.rows_from cut.now) part.first part.«end») }
{
    let mut sheet = Sheet::with_room(part.room);
    for i in part.first..part.end {
        rows_from(alloc, &mut sheet, cut, table, names, i)?;
        ask_for_rest(&mut sheet, i + 1 - part.first, part.end - 1 - i);
    }
    Ok(sheet.into_text())
}

// The names of the members, in the order of the rows.
fn member_names(alloc: Global, cut: &Cut) -> Result<Vec<Written>, OutOfMemory>
    ensures { IfOk result (λ names. names.items ≡ pairs.names_of cut.now) }
{
    let mut names = Vec::with_capacity(alloc, cut.rows.len())?;
    for row in cut.rows.slice() {
        names.push(Written::new(alloc, row.name.bytes())?)?;
    }
    Ok(names)
}

// Adds the rows of the headways from one member.
fn rows_from(
    alloc: Global,
    sheet: &mut Sheet,
    cut: &Cut,
    table: &Headways,
    names: &[Written],
    i: usize,
) -> Result<(), OutOfMemory>
    requires table { table.now ≡ table_of cut.now }
    requires names { names.now ≡ pairs.names_of cut.now }
    requires there { i < member_count cut.now }
    requires few { member_count cut.now < 4_294_967_296 }
    ensures { Adds result sheet.old sheet.new (rows.rows_from cut.now i) }
{
    let head = head_of(alloc, &cut.rows.slice()[i].name)?;
    sheet.drop_row();
    for j in 0..names.len() {
        add_headway(sheet, &head, &names[j], table.get(i as u32, j as u32))?;
    }
    Ok(())
}

// The fields with which each row of a train's headways begins.
fn head_of(alloc: Global, first: &Name) -> Result<Written, OutOfMemory>
    ensures { IfOk result (λ head. head ≡ codes "headway" ∷ first.now ∷ []) }
{
    Written::new(alloc, b"headway")?.with(alloc, first.bytes())
}

// Adds the row of a headway to a train, if there is one. Where memory runs out, no row is added.
fn add_headway(
    sheet: &mut Sheet,
    head: &Written,
    second: &Written,
    headway: Option<i64>,
) -> Result<(), OutOfMemory>
    requires { sheet.old.row ≡ [] }
    ensures ok { OnOk result (sheet.new.rows
        ≡ sheet.old.rows ++ pairs.rows_to head.now second.now headway) }
    ensures closed { OnOk result (sheet.new.row ≡ []) }
    ensures err { OnErr result (sheet.new.rows ≡ sheet.old.rows) }
{
    match headway {
        Some(seconds) => headway_row(sheet, head, second, seconds),
        None => Ok(()),
    }
}

// Adds the row `headway,FIRST,SECOND,SECONDS`.
fn headway_row(
    sheet: &mut Sheet,
    head: &Written,
    second: &Written,
    seconds: i64,
) -> Result<(), OutOfMemory>
    requires { sheet.old.row ≡ [] }
    ensures { AddsRow result sheet.old sheet.new (pairs.row_to head.now second.now seconds) }
{
    sheet.push_written(head)?;
    sheet.push_written(second)?;
    sheet.push_number(seconds)?;
    sheet.end_row()
}
