//! Drawn edits of one section, after each of which the repair is held against the answer from
//! scratch.
ghost use Rattle.std.specs.Prelude.{◌≡◌, IfOk, IfSome, OnOk};
ghost use Rattle.acceptance_seats.specs.Kept.{IsKept};

use crate::repairs::{edited, first_kept, next_reading, repaired};
use crate::telling::{Telling, tell_answer};
use compression::answer;
use line_tables::LineTables;
use plan_book::Book;
use plan_model::{Reading, Scripts};
use plan_repair::Keep;
use rail_model::OutOfMemory;
use small_lines::{Text, tables_of};
use std::alloc::Global;

// Four blocks, with a route over all and one over the inner ones.
const TRACK: &[u8] = b"block,A,1000\n\
    block,B,1000\n\
    block,C,1000\n\
    block,D,1000\n\
    signal,SA,A,1000,10,5,0,5\n\
    signal,SB,B,1000,10,5,0,5\n\
    signal,SC,C,1000,10,5,0,5\n\
    signal,SD,D,1000,10,5,0,5\n\
    route,R,SA,SB,SC,SD\n\
    route,Q,SB,SC\n\
    section,S,0,7200,33,A,B,C,D\n";

// How many trains and edits are drawn.
const TRAINS: u64 = 12;

const EDITS: u64 = 400;

// The number that is drawn after another.
fn next_number(number: u64) -> u64 {
    number
        .wrapping_mul(6_364_136_223_846_793_005)
        .wrapping_add(1_442_695_040_888_963_407)
}

// A number below another, by the upper half of the one that was drawn.
fn below(number: u64, many: u64) -> u64 {
    if many == 0 { 0 } else { (number >> 32) % many }
}

// Adds a row with the run of a number, whose start and stop and route are drawn.
fn put_run(rows: &mut Text, verb: &[u8], run: u64, number: u64) {
    let start = (run % TRAINS)
        .wrapping_mul(400)
        .wrapping_add(below(number, 500));
    let stop = below(next_number(number), 90);
    rows.put(verb);
    rows.show(b",T", run);
    if below(number, 5) == 0 {
        rows.show(b",Q,100,10,", start);
        rows.show(b",60,", stop);
        rows.put_line(b",60");
    } else {
        rows.show(b",R,100,10,", start);
        rows.show(b",60,", stop);
        rows.put_line(b",60,0,60,0,60");
    }
}

// Adds the row of the edit that is drawn: mostly of a run, sometimes of a signal or the section.
fn put_edit(rows: &mut Text, number: u64) {
    let run = below(next_number(number), TRAINS).wrapping_add(10);
    let some = below(number, 50);
    match below(number, 20) {
        0 => rows.show(b"change-signal,SB,B,1000,10,5,0,", some),
        1 => {
            rows.show(b"change-section,S,", some);
            rows.put(b",7200,33,A,B,C,D");
        }
        2..5 => rows.show(b"drop-run,T", run),
        5..10 => put_run(rows, b"run", run, number),
        _ => put_run(rows, b"change-run", run, number),
    }
}

// A book of the line with all trains.
fn line_of_trains(alloc: Global, text: &mut Text) -> Result<Option<Book>, OutOfMemory> {
    let Some(tables) = tables_of_trains(alloc, text) else {
        return Ok(None);
    };
    Ok(Some(Book::start(alloc, tables, 30, Scripts::new(alloc))?))
}

fn tables_of_trains(alloc: Global, text: &mut Text) -> Option<LineTables> {
    let mut rows = Text::new(alloc);
    rows.put(TRACK);
    for place in 0..TRAINS {
        put_run(&mut rows, b"run", place.wrapping_add(10), place);
    }
    tables_of(alloc, text, rows.bytes())
}

// How many repairs gave the answer from scratch, and how many of these were orders.
#[derive(Clone, Copy)]
struct Found {
    same: u64,
    orders: u64,
}

// Draws edits from a number on. Tells after how many edits the repair gave the answer from scratch,
// and whether there were many orders and many others.
pub(crate) fn write_drawn(alloc: Global, text: &mut Text, first: u64) {
    match line_of_trains(alloc, text) {
        Ok(Some(mut book)) => write_held(alloc, text, &mut book, first),
        Ok(None) => text.put(b"no book"),
        Err(_) => text.lose(),
    }
}

fn write_held(alloc: Global, text: &mut Text, book: &mut Book, first: u64) {
    match held_against(alloc, text, book, first) {
        Ok(found) => put_found(text, found),
        Err(_) => text.lose(),
    }
}

fn put_found(text: &mut Text, found: Found) {
    text.show(b"answers from scratch: ", found.same);
    let others = found.same.saturating_sub(found.orders);
    if found.orders >= 100 && others >= 20 {
        text.put(b", with at least 100 orders and 20 others");
    } else {
        text.put(b", with few of a kind");
    }
}

fn held_against(
    alloc: Global,
    text: &mut Text,
    book: &mut Book,
    first: u64,
) -> Result<Found, OutOfMemory> {
    let mut found = Found { same: 0, orders: 0 };
    let Some(mut keep) = first_kept(alloc, book, u64::MAX)? else {
        return Ok(found);
    };
    let mut number = first;
    for _edit in 0..EDITS {
        number = next_number(number);
        let Some(next) = held_once(alloc, text, book, keep, number, &mut found)? else {
            return Ok(found);
        };
        keep = next;
    }
    Ok(found)
}

// Makes the edit that is drawn, and holds the repair after it against the answer from scratch.
fn held_once(
    alloc: Global,
    text: &mut Text,
    book: &mut Book,
    keep: Keep,
    number: u64,
    found: &mut Found,
) -> Result<Option<Keep>, OutOfMemory>
    requires { IsKept book.old keep }
    ensures { IfOk result (λ r. IfSome r (IsKept book.new)) }
{
    edit_drawn(alloc, text, book, &keep, number)?;
    let mut told = Text::new(alloc);
    let next = repaired(alloc, &mut told, book, keep, Telling::Whole)?;
    count_same(alloc, text, book, told.bytes(), found);
    Ok(next)
}

fn edit_drawn(
    alloc: Global,
    text: &mut Text,
    book: &mut Book,
    keep: &Keep,
    number: u64,
) -> Result<(), OutOfMemory>
    requires { IsKept book.old keep.now }
    ensures { OnOk result (IsKept book.new keep.now) }
{
    let mut row = Text::new(alloc);
    put_edit(&mut row, number);
    edited(alloc, text, book, keep, row.bytes())
}

// Counts an answer where it is the one from scratch.
fn count_same(alloc: Global, text: &mut Text, book: &Book, told: &[u8], found: &mut Found) {
    let mut other = Text::new(alloc);
    match next_reading(book) {
        Ok(Some(mut reading)) => tell_from_scratch(alloc, &mut other, &mut reading),
        Ok(None) => {}
        Err(_) => text.lose(),
    }
    count_equal(told, other.bytes(), found);
}

fn count_equal(told: &[u8], other: &[u8], found: &mut Found) {
    if other == told && !told.is_empty() {
        found.same = found.same.saturating_add(1);
        found.orders = found
            .orders
            .saturating_add(u64::from(told.starts_with(b"ordered")));
    }
}

// Tells of the answer of a reading from scratch.
fn tell_from_scratch(alloc: Global, told: &mut Text, reading: &mut Reading) {
    match answer(alloc, reading) {
        Ok(answer) => tell_answer(told, &answer),
        Err(_) => told.lose(),
    }
}
