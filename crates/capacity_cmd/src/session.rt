//! The command `session`.
ghost use Rattle.std.specs.Prelude.{◌≡◌, ◌≤◌, IfOk};
ghost use Rattle.plan_model.specs.Journal.{tables_of};
ghost use Rattle.plan_model.specs.Session.{AllAreCurrent};
ghost use Rattle.session_run.specs.declared.threads.TheConstants.{WORKERS};
ghost use Rattle.capacity_cmd.specs.InputSoFar.{IsWithin};
ghost use Rattle.capacity_cmd.specs.Ends.{IsSessionText, IsJournalText, IsReportText};
ghost use Rattle.capacity_cmd.specs.declared.limit.TheConstants.{INPUT_BYTES};
ghost use Rattle.plan_book.specs.declared.book.TheConstants.{PLANNERS};

use crate::accepted::Accepted;
use crate::published::answers_of_book;
use crate::report::add_report;
use capacity_report::journal_text;
use plan_book::Book;
use rail_model::OutOfMemory;
use rail_outside::Gate;
use row_text::{Sheet, Text};
use session_run::{session, session_alone};
use std::alloc::Global;
use std::sync::Wait;
use std::thread::Threads;

// The text of a session without workers.
pub(crate) fn text_alone(
    rt: &(impl Threads + Sync),
    alloc: Global,
    given: Accepted,
) -> Result<Text, OutOfMemory>
    requires { IsWithin PLANNERS INPUT_BYTES given }
    ensures { IfOk result (IsSessionText given.tables given.at given.scripts 0) }
{
    let book = session_alone(rt, alloc, given.tables, given.at, given.scripts)?;
    text_of_book(rt, alloc, book)
}

// The text of a session with workers, where each planner and each worker has a thread of its own.
pub(crate) fn text_on_threads<R: Threads + Wait + Sync, G: Gate>(
    rt: &R,
    alloc: Global,
    given: Accepted,
    workers: u32,
    gate: &G,
) -> Result<Text, OutOfMemory>
    requires within { IsWithin PLANNERS INPUT_BYTES given }
    requires some { 1 ≤ workers }
    requires most { workers ≤ WORKERS }
    ensures { IfOk result (IsSessionText given.tables given.at given.scripts workers) }
{
    let book = session(
        rt,
        alloc,
        given.tables,
        given.at,
        given.scripts,
        workers,
        gate,
    )?;
    text_of_book(rt, alloc, book)
}

// The text of a book's journal, and the report of its tables. The report is made first; then tables
// and cuts are let go of, and the journal's text is made.
fn text_of_book(rt: &(impl Threads + Sync), alloc: Global, book: Book) -> Result<Text, OutOfMemory>
    requires { AllAreCurrent book }
    ensures { IfOk result (IsJournalText book) }
{
    let report = report_of_book(alloc, &book)?;
    let mut text = journal_text(rt, alloc, book.into_journal())?;
    text.push(report)?;
    Ok(text)
}

// The report of a book's tables: each section is current, so the last publications are the answers.
fn report_of_book(alloc: Global, book: &Book) -> Result<Vec<u8>, OutOfMemory>
    requires { AllAreCurrent book.now }
    ensures { IfOk result (λ text. IsReportText (tables_of book.now) text.items) }
{
    let answers = answers_of_book(alloc, book)?;
    let mut sheet = Sheet::new(alloc);
    add_report(alloc, &mut sheet, book.tables(), &answers)?;
    Ok(sheet.into_text())
}
