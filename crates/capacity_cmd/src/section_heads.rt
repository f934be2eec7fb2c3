//! The heads of the sections' answers, which are made side by side and then put one after the
//! other.
ghost use Rattle.std.specs.Prelude.{◌≡◌, ◌+◌, ◌<◌, [], length, IfOk, OnOk};
ghost use Rattle.rail_model.specs.Tables.{section_at};
ghost use Rattle.rail_model.specs.Conflict.{timetable};
ghost use Rattle.capacity_report.specs.Answers.{total_of};
ghost use Rattle.capacity_cmd.specs.Heads.{IsHead, IsHeadInTurn, AreHeads, IsTextOfHeads};
ghost use Rattle.capacity_cmd.specs.Heads.{folded, in_turn};

use crate::report::{add_head, answer_among};
use capacity_report::Tally;
use line_tables::LineTables;
use rail_model::{OutOfMemory, ask_for_room};
use rayon::current_num_threads;
use rayon::prelude::*;
use row_text::{Sheet, Text};
use section_cut::AllStairways;
use std::alloc::Global;
use std::mem;
use std::thread::Threads;

// Room that is asked for at once for each section: its cut is made.
const ROOM: usize = 4 * 1_048_576;

// The head of one section's answer on a sheet of its own, and the total of this answer alone.
#[derive(Drop)]
pub(crate) struct Head {
    sheet: Sheet,
    tally: Tally,
}

impl Head {
    // No rows, and the total of no answer.
    fn blank(alloc: Global) -> Head
        ensures rows { result.sheet.rows ≡ [] }
        ensures tally { result.tally ≡ total_of [] }
    {
        Head {
            sheet: Sheet::new(alloc),
            tally: Tally::new(),
        }
    }
}

// The head of each section's answer, in the order in which they are taken. There are fewer than
// twice as many pieces as processors, each made by one thread. A section's cut is let go before its
// head is handed over, so each piece holds one cut at most.
//
// Sections that follow each other take about as long. So they are taken from both ends in turn, and
// the list so made once more: else one thread would get all that take long.
pub(crate) fn heads_of(
    rt: &(impl Threads + Sync),
    alloc: Global,
    tables: &LineTables,
    stairs: &AllStairways,
) -> Result<Vec<Head>, OutOfMemory>
    requires { stairs.now ≡ timetable tables.now }
    ensures { IfOk result (λ heads. AreHeads tables.now 0 heads.items) }
{
    let count = tables.sections() as usize;
    (0..count)
        .into_par_iter()
        .with_min_len((count / current_num_threads(rt)).max(1))
        .map(
            |number: usize| -> Result<Head, OutOfMemory>
                requires { (number < length tables.now.sections) × (number < 4_294_967_296)
                    × (stairs.now ≡ timetable tables.now) }
                ensures { IfOk result (IsHeadInTurn tables.entry.now number) }
            {
                ask_for_room(alloc, ROOM);
                let section = in_turn(tables.sections(), number as u32);
                head_of(alloc, tables, stairs, section)
            },
        )
        .collect::<Result<Vec<Head>, OutOfMemory>>(rt, alloc)?
}

// The head of the answer of the section of a number.
fn head_of(
    alloc: Global,
    tables: &LineTables,
    stairs: &AllStairways,
    number: u32,
) -> Result<Head, OutOfMemory>
    requires stairs { stairs.now ≡ timetable tables.now }
    requires there { number < length tables.now.sections }
    ensures { IfOk result (IsHead tables.now (section_at tables.now number)) }
{
    let answer = answer_among(alloc, tables, stairs, number)?;
    let mut head = Head::blank(alloc);
    add_head(
        alloc,
        &mut head.sheet,
        &mut head.tally,
        tables,
        number,
        &answer,
    )?;
    Ok(head)
}

// Adds the heads of all sections to a text, each as a piece of it, and counts their answers.
pub(crate) fn take_heads(
    alloc: Global,
    text: &mut Text,
    tally: &mut Tally,
    tables: &LineTables,
    heads: Vec<Head>,
) -> Result<(), OutOfMemory>
    requires heads { AreHeads tables.now 0 heads.items }
    requires text { text.old ≡ [] }
    requires tally { tally.old ≡ total_of [] }
    ensures { OnOk result (IsTextOfHeads
        tables.now (length tables.now.sections) text.new tally.new) }
{
    let mut heads = heads;
    for number in 0..tables.sections() {
        let Head { sheet, tally: own } = take_head(alloc, tables, &mut heads, number);
        tally.join(&own);
        text.push(sheet.into_text())?;
    }
    Ok(())
}

// Takes the head of a section, by its number, out of the heads in the order in which they were
// made.
fn take_head(alloc: Global, tables: &LineTables, heads: &mut [Head], number: u32) -> Head
    requires heads { AreHeads tables.now number heads.old }
    requires there { number < length tables.now.sections }
    ensures head { IsHead tables.now (section_at tables.now number) result }
    ensures left { AreHeads tables.now (number + 1) heads.new }
{
    let turn = turn_of(tables.sections(), number) as usize;
    mem::replace(&mut heads[turn], Head::blank(alloc))
}

// The number of the item that comes at a turn, from 0, where so many are taken from both ends in
// turn, and the list so made once more.
fn in_turn(count: u32, turn: u32) -> u32
    requires { turn < count }
    ensures is { result ≡ in_turn count turn }
    ensures there { result < count }
{
    folded(count, folded(count, turn))
}

// The turn at which the item of a number is taken.
fn turn_of(count: u32, number: u32) -> u32
    requires { number < count }
    ensures is { in_turn count result ≡ number }
    ensures there { result < count }
{
    unfolded(count, unfolded(count, number))
}

// The number of the item at a place where so many are taken from both ends in turn.
fn folded(count: u32, place: u32) -> u32
    requires { place < count }
    ensures is { result ≡ folded count place }
    ensures there { result < count }
{
    if place % 2 == 0 {
        place / 2
    } else {
        count - 1 - place / 2
    }
}

// The place at which the item of a number is then.
fn unfolded(count: u32, number: u32) -> u32
    requires { number < count }
    ensures is { folded count result ≡ number }
    ensures there { result < count }
{
    if number <= (count - 1) / 2 {
        2 * number
    } else {
        2 * (count - 1 - number) + 1
    }
}
