//! The text of `stairs`.
ghost use Rattle.std.specs.Prelude.{◌≡◌, ◌<◌, ◌≤◌, ◌∷◌, [], length, map, All, codes};
ghost use Rattle.std.specs.Prelude.{IfOk};
ghost use Rattle.std.specs.List.{flat_map, range_with_len};
ghost use Rattle.rail_model.specs.Blocking.{Fits};
ghost use Rattle.row_text.specs.SheetRows.{text_of_rows};
ghost use Rattle.row_text.specs.Adds.{Adds};
ghost use Rattle.answer_parts.specs.Adding.{AddsRow};
ghost use Rattle.capacity_report.specs.Rows as rows;
ghost use Rattle.capacity_report.specs.Blockings.{blocking_row, named_row, rows_by_names, rows_at, names_of, AreNamed};
ghost use Rattle.capacity_report.specs.Parts.{text_between};

use crate::parts::{Part, ask_for_rest, text_in_parts};
use blocking_time::{Blocking, blockings};
use line_tables::{LineTables, Paths};
use rail_model::{OutOfMemory, Path};
use row_text::{Sheet, Text, Written};
use std::alloc::Global;
use std::thread::Threads;

// Fewer rows aren't worth a thread of their own.
const LEAST_ROWS: usize = 4_096;

/// The text of the rows of all runs, in the order of their names: one row for each block of the
/// run's path, in the order of the path. It is made in parts, by at most as many threads
/// as there are processors.
pub fn stairs_text(
    rt: &(impl Threads + Sync),
    alloc: Global,
    tables: &LineTables,
) -> Result<Text, OutOfMemory>
    ensures { IfOk result (λ text. text ≡ text_of_rows (rows.stairs_rows tables.now)) }
{
    let names = block_names(alloc, tables)?;
    let paths = tables.paths()?;
    let least = runs_a_part(tables);
    text_of_paths(rt, alloc, &names, &paths, tables.runs() as usize, least)
}

// How many runs a part has at least: so many have rows enough for a thread, if each has the mean
// number. A run has a row for each of its legs. No clause says so.
fn runs_a_part(tables: &LineTables) -> usize
    ensures { 0 < result }
{
    let mut rows: usize = 0;
    for run in 0..tables.runs() {
        rows = rows.saturating_add(tables.run(run).legs.len());
    }
    let mean = rows / (tables.runs() as usize).max(1);
    (LEAST_ROWS / mean.max(1)).max(1)
}

// The text of the rows of the paths of so many runs, in parts of at least so many.
fn text_of_paths(
    rt: &(impl Threads + Sync),
    alloc: Global,
    names: &[Written],
    paths: &Paths<'_>,
    count: usize,
    least: usize,
) -> Result<Text, OutOfMemory>
    requires few { count < 4_294_967_296 }
    requires least { 0 < least }
    requires count { count ≤ length paths.now }
    requires named { AreNamed names.now paths.now }
    ensures { IfOk result (λ text. text
        ≡ text_of_rows (flat_map (rows_at names.now paths.now) (range_with_len 0 count))) }
{
    let text_of = |part: Part| -> Result<Vec<u8>, OutOfMemory>
        requires { (part.first ≤ part.«end») × (part.«end» < 4_294_967_296)
            × (part.«end» ≤ length paths.now) × AreNamed names.now paths.now }
        ensures { IfOk result (λ text. text.items
            ≡ text_between (rows_at names.entry.now paths.entry.now) part.first part.«end») }
    { text_of_part(alloc, names, paths, part) };
    text_in_parts(rt, alloc, count, least, &text_of)
}

// The text of the rows of the paths of a part.
fn text_of_part(
    alloc: Global,
    names: &[Written],
    paths: &Paths<'_>,
    part: Part,
) -> Result<Vec<u8>, OutOfMemory>
    requires first { part.first ≤ part.«end» }
    requires few { part.«end» < 4_294_967_296 }
    requires count { part.«end» ≤ length paths.now }
    requires named { AreNamed names.now paths.now }
    ensures { IfOk result (λ text. text.items
        ≡ text_between (rows_at names.now paths.now) part.first part.«end») }
{
    let mut sheet = Sheet::with_room(part.room);
    for run in part.first..part.end {
        let path = paths.path(run as u32)?;
        run_rows(alloc, &mut sheet, names, &path)?;
        ask_for_rest(&mut sheet, run + 1 - part.first, part.end - 1 - run);
    }
    Ok(sheet.into_text())
}

// The names of the blocks, by number.
fn block_names(alloc: Global, tables: &LineTables) -> Result<Vec<Written>, OutOfMemory>
    ensures { IfOk result (λ names. names.items ≡ names_of tables.now) }
{
    let mut names = Vec::with_capacity(alloc, tables.blocks() as usize)?;
    for block in 0..tables.blocks() {
        names.push(Written::new(alloc, tables.block(block).name.bytes())?)?;
    }
    Ok(names)
}

// Adds the rows of the run of a path.
fn run_rows(
    alloc: Global,
    sheet: &mut Sheet,
    names: &[Written],
    path: &Path,
) -> Result<(), OutOfMemory>
    requires fits { Fits path.now }
    requires there { All (λ h. h.block < length names.now) path.now.hops }
    ensures { Adds result sheet.old sheet.new (rows_by_names names.now path.now) }
{
    let head = head(alloc, path)?;
    let all = blockings(alloc, path)?;
    blocking_rows(sheet, names, &head, all.slice())
}

// The fields with which each row of a run begins.
fn head(alloc: Global, path: &Path) -> Result<Written, OutOfMemory>
    ensures { IfOk result (λ head. head ≡ codes "use" ∷ path.now.run ∷ []) }
{
    Written::new(alloc, b"use")?.with(alloc, path.run.bytes())
}

// Adds the rows of a run: one for each of its blockings.
fn blocking_rows(
    sheet: &mut Sheet,
    names: &[Written],
    head: &Written,
    all: &[Blocking],
) -> Result<(), OutOfMemory>
    requires { All (λ b. b.used.block < length names.now) all.now }
    ensures { Adds result sheet.old sheet.new (map (named_row names.now head.now) all.now) }
{
    sheet.drop_row();
    for blocking in all {
        blocking_row(sheet, head, &names[blocking.used.block as usize], blocking)?;
    }
    Ok(())
}

// Adds the row `use` of a run on a block, with its six parts. A row that is open is dropped first.
// Where memory runs out, no row is added.
fn blocking_row(
    sheet: &mut Sheet,
    head: &Written,
    block: &Written,
    blocking: &Blocking,
) -> Result<(), OutOfMemory>
    ensures { AddsRow result sheet.old sheet.new (blocking_row head.now block.now blocking.now) }
{
    sheet.drop_row();
    sheet.push_written(head)?;
    sheet.push_written(block)?;
    sheet.push_numbers(&[blocking.used.start, blocking.used.end])?;
    sheet.push_numbers(&blocking.parts)?;
    sheet.end_row()
}
