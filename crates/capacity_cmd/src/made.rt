//! The line that is made from a number, and what is counted of it.
ghost use Rattle.std.specs.Prelude.{◌≡◌, ◌++◌, ◌<◌, [], length, IfOk, OnOk, decimal, string_bytes};
ghost use Rattle.rail_model.specs.Tables.{section_at};
ghost use Rattle.rail_model.specs.Conflict.{timetable};
ghost use Rattle.plan_model.specs.Journal.{opening, edits, tables_of};
ghost use Rattle.plan_model.specs.Session.{IsSession, AllAreCurrent};
ghost use Rattle.row_text.specs.SheetRows.{text_of_rows, with_row};
ghost use Rattle.capacity_report.specs.Answers.{IsAnswerOfSome};
ghost use Rattle.made_line.specs.declared.counts.TheConstants.{BASE_EDITS, WORKERS};
ghost use Rattle.made_line.specs.Base.{scripts_of_made, base_tables};
ghost use Rattle.capacity_cmd.specs.Ends as made;
ghost use Rattle.capacity_cmd.specs.Ends.{IsMadeText};
ghost use Rattle.capacity_cmd.specs.Counted as counted;
ghost use Rattle.capacity_cmd.specs.Counted.{counted_rows, AreCounted, CountsSection};

use crate::published::answers_of_book;
use crate::report::answer_among;
use capacity_report::{Tally, total_row};
use line_tables::LineTables;
use made_line::{BASE_EDITS, PLANNERS, WORKERS, made_counts, made_scripts, made_tables};
use plan_book::Book;
use plan_model::Answer;
use rail_model::OutOfMemory;
use rail_outside::Gate;
use row_text::{Field, Sheet};
use section_cut::{AllStairways, stairways};
use session_run::session;
use std::alloc::{AllocError, Global};
use std::marker::Model;
use std::sync::Wait;
use std::thread::Threads;

// What is counted of the answers of sections: their total, and the occupancy times of the ordered
// ones together, in seconds.
#[derive(Drop)]
struct Counts {
    tally: Tally,
    // A sum of numbers of 64 bits, of which there are fewer than 2^32.
    occupancy: u128,
}

impl Model for Counts {
    ghost use Rattle.std.specs.Prelude.{◌*◌, ◌^◌, ◌≤◌};
    ghost use Rattle.capacity_cmd.specs.Counted.{Counted};

    ghost Value = { Counted };

    ghost view = { λ c. record { total = c.tally; occupancy = c.occupancy } };

    ghost invariant = { λ c. c.occupancy ≤ c.tally.sections * 2 ^ 64 };
}

impl Counts {
    // What is counted of no section.
    fn none() -> Counts
        ensures { result ≡ counted.counted_of [] }
    {
        Counts {
            tally: Tally::new(),
            occupancy: 0,
        }
    }

    // Counts one answer more.
    fn add(&mut self, answer: &Answer)
        requires answer { IsAnswerOfSome answer.now }
        requires room { self.old.total.sections < 4_294_967_295 }
        ensures { self.new ≡ counted.with_one self.old answer.now }
    {
        self.tally.add(answer);
        self.occupancy += u128::from(occupancy_of(answer));
    }

    // Writes the rows of what is counted.
    fn write(&self, alloc: Global, sheet: &mut Sheet) -> Result<(), OutOfMemory>
        ensures { OnOk result (sheet.new.rows ≡ sheet.old.rows ++ counted_rows self.now) }
    {
        counted_rows(alloc, sheet, &self.tally, self.occupancy)
    }
}

// The occupancy time of an ordered section, in seconds; 0 of any other.
fn occupancy_of(answer: &Answer) -> u64
    ensures { result ≡ made.occupancy_of answer.now }
{
    match answer {
        Answer::Ordered(plan) => plan.occupancy,
        _ => 0,
    }
}

// The text of the line that is made from `n`. Its planners and workers have threads of their own.
#[tactic(auto, using(crate::proofs::Counted::session_opens))]
pub(crate) fn made_text<R: Threads + Wait + Sync, G: Gate>(
    rt: &R,
    alloc: Global,
    n: u32,
    gate: &G,
) -> Result<Vec<u8>, OutOfMemory>
    ensures { IfOk result (λ text. IsMadeText n text.items) }
{
    let tables = made_tables(alloc, n)?;
    let base = counts_of(alloc, &tables)?;
    let book = made_book(rt, alloc, n, tables, gate)?;
    let last = counts_of_book(alloc, &book)?;
    text_of_counts(alloc, n, &base, edits_made(&book), &last)
}

// The book of the line's session.
fn made_book<R: Threads + Wait + Sync, G: Gate>(
    rt: &R,
    alloc: Global,
    n: u32,
    tables: LineTables,
    gate: &G,
) -> Result<Book, OutOfMemory>
    requires { tables ≡ base_tables n }
    ensures { IfOk result
        (IsSession (base_tables n) BASE_EDITS (scripts_of_made n) WORKERS) }
{
    made_counts(n);
    let scripts = made_scripts(alloc, n)?;
    session(rt, alloc, tables, BASE_EDITS, scripts, WORKERS, gate)
}

// How many edits a session over the line's base has made.
#[tactic(auto, using(crate::proofs::Counted::numbers_on))]
fn edits_made(book: &Book) -> u64
    requires { (opening book.now).at ≡ BASE_EDITS }
    ensures { result ≡ length (edits book.now) }
{
    book.at() - BASE_EDITS
}

// What is counted of the answers of all sections of a line.
fn counts_of(alloc: Global, tables: &LineTables) -> Result<Counts, OutOfMemory>
    ensures { IfOk result (AreCounted tables.now (length tables.now.sections)) }
{
    let stairs = AllStairways::of(alloc, stairways(alloc, tables)?)?;
    let mut counts = Counts::none();
    for number in 0..tables.sections() {
        count_section(alloc, &mut counts, tables, &stairs, number)?;
    }
    Ok(counts)
}

// What is counted of the answers of all sections of a book: each is current, so the last
// publications are the answers.
fn counts_of_book(alloc: Global, book: &Book) -> Result<Counts, OutOfMemory>
    requires { AllAreCurrent book.now }
    ensures { IfOk result (AreCounted (tables_of book.now) (length (tables_of book.now).sections)) }
{
    let answers = answers_of_book(alloc, book)?;
    let mut counts = Counts::none();
    for number in 0..book.tables().sections() {
        let Some(answer) = answers[number as usize] else {
            unreachable!();
        };
        counts.add(answer);
    }
    Ok(counts)
}

// Counts the answer of the section of a number.
fn count_section(
    alloc: Global,
    counts: &mut Counts,
    tables: &LineTables,
    stairs: &AllStairways,
    number: u32,
) -> Result<(), OutOfMemory>
    requires stairs { stairs.now ≡ timetable tables.now }
    requires there { number < length tables.now.sections }
    requires room { counts.old.total.sections < 4_294_967_295 }
    ensures { OnOk result (CountsSection
        tables.now
        (section_at tables.now number)
        counts.old
        counts.new) }
{
    let answer = answer_among(alloc, tables, stairs, number)?;
    counts.add(&answer);
    Ok(())
}

fn text_of_counts(
    alloc: Global,
    n: u32,
    base: &Counts,
    edits: u64,
    last: &Counts,
) -> Result<Vec<u8>, OutOfMemory>
    ensures { IfOk result (λ text.
        text.items ≡ text_of_rows
        (made.made_rows n (counted_rows base.now) edits (counted_rows last.now))) }
{
    let mut sheet = Sheet::new(alloc);
    line_row(&mut sheet, n)?;
    base.write(alloc, &mut sheet)?;
    session_row(&mut sheet, edits)?;
    last.write(alloc, &mut sheet)?;
    Ok(sheet.into_text())
}

fn line_row(sheet: &mut Sheet, n: u32) -> Result<(), OutOfMemory>
    ensures { OnOk result (sheet.new ≡ with_row sheet.old (made.line_row n)) }
{
    sheet.write(&[
        Field::Text(b"made"),
        Field::Count(u64::from(n)),
        Field::Count(BASE_EDITS),
    ])
}

// The rows of a total and of the occupancy times together.
fn counted_rows(
    alloc: Global,
    sheet: &mut Sheet,
    tally: &Tally,
    occupancy: u128,
) -> Result<(), OutOfMemory>
    ensures { OnOk result (sheet.new.rows
        ≡ sheet.old.rows ++ counted_rows (counted.counted_by tally.now occupancy)) }
{
    total_row(sheet, tally)?;
    occupancy_row(alloc, sheet, occupancy)
}

fn occupancy_row(alloc: Global, sheet: &mut Sheet, sum: u128) -> Result<(), OutOfMemory>
    ensures { OnOk result (sheet.new ≡ with_row sheet.old (made.occupancy_row sum)) }
{
    let sum = decimal_text(alloc, sum)?;
    sheet.write(&[Field::Text(b"occupancy"), Field::Text(sum.as_bytes())])
}

fn decimal_text(alloc: Global, number: u128) -> Result<String, AllocError>
    ensures { IfOk result (λ text. string_bytes text ≡ decimal number) }
{
    format!(in alloc; "{number}")
}

fn session_row(sheet: &mut Sheet, edits: u64) -> Result<(), OutOfMemory>
    ensures { OnOk result (sheet.new ≡ with_row sheet.old (made.session_row edits)) }
{
    sheet.write(&[
        Field::Text(b"made-session"),
        Field::Count(u64::from(PLANNERS)),
        Field::Count(u64::from(WORKERS)),
        Field::Count(edits),
    ])
}
