//! Lines to rows.
ghost use Rattle.std.specs.Prelude.{◌≡◌, ◌++◌, ◌∷◌, [], map, decimal, IfOk, OnOk, IsTrue, Ok, true, ◌==◌, if◌then◌else◌};
ghost use Rattle.rail_model.specs.declared.items.Item.TheVariants as item;
ghost use Rattle.row_text.specs.Lines as lines;
ghost use Rattle.row_text.specs.Lines.{read_in};
ghost use Rattle.row_text.specs.SheetRows.{field};
ghost use Rattle.row_text.specs.Words.{word_text};

use crate::fields::Fields;
use crate::leg_times::{add_up, are_clock_times, leg_times};
use crate::line::Line;
use crate::time_text::{GREATEST_CLOCK_S, clock_text};
use crate::word::Word;
use itoa::Buffer;
use rail_model::{Edit, Item, Name, OutOfMemory, Route, Run, Section, Signal};
use std::alloc::Global;

/// The row that spells a line in version 1 of the rows: where any row spells the line, reading this
/// one gives it again.
pub fn spell(alloc: Global, line: &Line) -> Result<Fields, OutOfMemory>
    ensures row { IfOk result (λ row. row ≡ lines.row_in 1 line.now) }
    ensures again { lines.IsSpelled line.now
        → IfOk result (λ row. read_in 1 row ≡ Ok line.now) }
{
    spell_in(alloc, 1, line)
}

/// The row that spells a line in a version of the rows, 1 or 2. In version 2 the times of runs and
/// sections are times of day, none above 359,999,999 s: `has_times_in` is the test. Where any row
/// spells the line, reading this one gives it again. The program calls `spell`, which
/// writes version 1; version 2 is for tests and other programs.
pub fn spell_in(alloc: Global, version: u32, line: &Line) -> Result<Fields, OutOfMemory>
    requires { IsTrue (lines.has_times_in version line.now) }
    ensures row { IfOk result (λ row. row ≡ lines.row_in version line.now) }
    ensures again { lines.IsSpelled line.now
        → IfOk result (λ row. read_in version row ≡ Ok line.now) }
{
    let mut row = Fields::new(alloc);
    push_line(&mut row, alloc, version, line)?;
    Ok(row)
}

/// Whether every time of a line can be written in a version of the rows, as `spell_in` requires.
pub fn has_times_in(alloc: Global, version: u32, line: &Line) -> Result<bool, OutOfMemory>
    ensures { IfOk result (λ has. has ≡ lines.has_times_in version line.now) }
{
    match line {
        Line::Edit(Edit::Put(item)) => has_item_times_in(alloc, version, item),
        Line::Edit(Edit::Change(item)) => has_item_times_in(alloc, version, item),
        _ => Ok(true),
    }
}

fn has_item_times_in(alloc: Global, version: u32, item: &Item) -> Result<bool, OutOfMemory>
    ensures { IfOk result (λ has. has ≡ lines.has_item_times_in version item.now) }
{
    match item {
        Item::Run(run) if version == 2 => has_clock_times(alloc, run),
        Item::Section(section) if version == 2 => {
            Ok(section.from_s <= GREATEST_CLOCK_S && section.to_s <= GREATEST_CLOCK_S)
        }
        _ => Ok(true),
    }
}

fn has_clock_times(alloc: Global, run: &Run) -> Result<bool, OutOfMemory>
    ensures { IfOk result (λ has. has ≡ lines.has_clock_times (item.Run run.now)) }
{
    if run.start_s > GREATEST_CLOCK_S {
        return Ok(false);
    }
    let steps = leg_times(alloc, run.legs.slice())?;
    Ok(are_clock_times(run.start_s, steps.slice()))
}

fn push_line(row: &mut Fields, alloc: Global, version: u32, line: &Line) -> Result<(), OutOfMemory>
    requires { IsTrue (lines.has_times_in version line.now) }
    ensures { OnOk result (row.new ≡ row.old ++ lines.row_in version line.now) }
{
    row.push(word_of_line(line).text())?;
    match line {
        Line::Edit(Edit::Put(item)) => push_item(row, alloc, version, item),
        Line::Edit(Edit::Change(item)) => push_item(row, alloc, version, item),
        Line::Edit(Edit::Drop(_, name)) => row.push(name.bytes()),
        Line::Ask(section) => row.push(section.bytes()),
        Line::Planner(planner) => push_number(row, *planner),
    }
}

// The word that the row of a line begins with.
fn word_of_line(line: &Line) -> Word
    ensures { word_text result ≡ field (lines.row_in 1 line.now) 0 }
{
    match line {
        Line::Edit(Edit::Put(item)) => Word::Put(item.kind()),
        Line::Edit(Edit::Change(item)) => Word::Change(item.kind()),
        Line::Edit(Edit::Drop(kind, _)) => Word::Drop(*kind),
        Line::Ask(_) => Word::Ask,
        Line::Planner(_) => Word::Planner,
    }
}

fn push_item(row: &mut Fields, alloc: Global, version: u32, item: &Item) -> Result<(), OutOfMemory>
    requires { version ≡ 2 → IsTrue (lines.has_clock_times item.now) }
    ensures { OnOk result (row.new ≡ row.old ++ lines.item_fields version item.now) }
{
    match item {
        Item::Block(block) => {
            let cells = [Cell::Name(&block.name), Cell::Number(block.length_m)];
            push_cells(row, alloc, version, &cells)
        }
        Item::Signal(signal) => push_signal(row, alloc, version, signal),
        Item::Route(route) => push_route(row, route),
        Item::Run(run) => push_run(row, alloc, version, run),
        Item::Section(section) => push_section(row, alloc, version, section),
        Item::Connection(connection) => {
            let cells = [
                Cell::Name(&connection.name),
                Cell::Name(&connection.first),
                Cell::Name(&connection.second),
                Cell::Number(connection.minimum_s),
            ];
            push_cells(row, alloc, version, &cells)
        }
    }
}

fn push_signal(
    row: &mut Fields,
    alloc: Global,
    version: u32,
    signal: &Signal,
) -> Result<(), OutOfMemory>
    ensures { OnOk result (row.new
        ≡ row.old ++ lines.item_fields version (item.Signal signal.now)) }
{
    let cells = [
        Cell::Name(&signal.name),
        Cell::Name(&signal.block),
        Cell::Number(signal.approach_m),
        Cell::Number(signal.watch_s),
        Cell::Number(signal.form_s),
        Cell::Number(signal.overlap_m),
        Cell::Number(signal.release_s),
    ];
    push_cells(row, alloc, version, &cells)
}

fn push_route(row: &mut Fields, route: &Route) -> Result<(), OutOfMemory>
    ensures { OnOk result (row.new ≡ row.old ++ lines.item_fields 1 (item.Route route.now)) }
{
    row.push(route.name.bytes())?;
    push_names(row, route.signals.slice())
}

fn push_run(row: &mut Fields, alloc: Global, version: u32, run: &Run) -> Result<(), OutOfMemory>
    requires { version ≡ 2 → IsTrue (lines.has_clock_times (item.Run run.now)) }
    ensures { OnOk result (row.new ≡ row.old ++ lines.item_fields version (item.Run run.now)) }
{
    let cells = [
        Cell::Name(&run.name),
        Cell::Name(&run.route),
        Cell::Number(run.length_m),
        Cell::Number(run.tail_s),
        Cell::Time(run.start_s),
    ];
    push_cells(row, alloc, version, &cells)?;
    let times = run_times(alloc, version, run)?;
    push_times(row, alloc, version, &times)
}

// The times after a run's start, as a row in a version has them.
fn run_times(alloc: Global, version: u32, run: &Run) -> Result<Vec<u32>, OutOfMemory>
    requires { version ≡ 2 → IsTrue (lines.has_clock_times (item.Run run.now)) }
    ensures { IfOk result (λ times. times.items
        ≡ lines.run_times version run.now.start_s run.now.legs) }
{
    let mut times = leg_times(alloc, run.legs.slice())?.into_vec();
    if version == 2 {
        add_up(run.start_s, &mut times);
    }
    Ok(times)
}

fn push_section(
    row: &mut Fields,
    alloc: Global,
    version: u32,
    section: &Section,
) -> Result<(), OutOfMemory>
    ensures { OnOk result (row.new
        ≡ row.old ++ lines.item_fields version (item.Section section.now)) }
{
    let cells = [
        Cell::Name(&section.name),
        Cell::Time(section.from_s),
        Cell::Time(section.to_s),
        Cell::Number(section.add_percent),
    ];
    push_cells(row, alloc, version, &cells)?;
    push_names(row, section.blocks.slice())
}

// A cell of a row by its sort.
#[derive(Clone, Copy)]
enum Cell<'a> {
    Name(&'a Name),
    Number(u32),
    Time(u32),
}

fn push_cells(
    row: &mut Fields,
    alloc: Global,
    version: u32,
    cells: &[Cell<'_>],
) -> Result<(), OutOfMemory>
    ensures { OnOk result (row.new ≡ row.old ++ map (lines.cell_text version) cells.now) }
{
    for cell in cells {
        push_cell(row, alloc, version, cell)?;
    }
    Ok(())
}

fn push_cell(
    row: &mut Fields,
    alloc: Global,
    version: u32,
    cell: &Cell<'_>,
) -> Result<(), OutOfMemory>
    ensures { OnOk result (row.new ≡ row.old ++ lines.cell_text version cell.now ∷ []) }
{
    match cell {
        Cell::Name(name) => row.push(name.bytes()),
        Cell::Number(number) => push_number(row, *number),
        Cell::Time(time) => push_time(row, alloc, version, *time),
    }
}

fn push_names(row: &mut Fields, names: &[Name]) -> Result<(), OutOfMemory>
    ensures { OnOk result (row.new ≡ row.old ++ names.now) }
{
    for name in names {
        row.push(name.bytes())?;
    }
    Ok(())
}

fn push_times(
    row: &mut Fields,
    alloc: Global,
    version: u32,
    times: &[u32],
) -> Result<(), OutOfMemory>
    ensures { OnOk result (row.new ≡ row.old ++ map (lines.time_text version) times.now) }
{
    for time in times {
        push_time(row, alloc, version, *time)?;
    }
    Ok(())
}

fn push_time(row: &mut Fields, alloc: Global, version: u32, time: u32) -> Result<(), OutOfMemory>
    ensures { OnOk result (row.new ≡ row.old ++ lines.time_text version time ∷ []) }
{
    if version != 2 {
        return push_number(row, time);
    }
    let text = clock_text(alloc, time)?;
    row.push(&text)
}

fn push_number(row: &mut Fields, number: u32) -> Result<(), OutOfMemory>
    ensures { OnOk result (row.new ≡ row.old ++ decimal number ∷ []) }
{
    row.push(Buffer::new().format(number).as_bytes())
}
