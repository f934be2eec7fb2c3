//! The session without workers.
ghost use Rattle.std.specs.Prelude.{◌≡◌, ◌≢◌, ◌≤◌, [], length, sum_by, IfOk, IfSome, OnOk, None};
ghost use Rattle.plan_book.specs.declared.book.TheConstants.{PLANNERS, TASKS, FIRST_NUMBER};
ghost use Rattle.plan_model.specs.Journal.{done_by, script_of};
ghost use Rattle.plan_model.specs.Outcome.{IsPlanner, IsNextReading, IsAnswerOf, next_task};
ghost use Rattle.plan_model.specs.Legal.{IsLegal};
ghost use Rattle.plan_model.specs.Session.{IsSessionAlone};
ghost use Rattle.plan_repair.specs.Kept.{AgreesWith};
ghost use Rattle.section_worker.specs.Keeping.{kept_for, KeepsRows, KeepsWhatWasRead};
ghost use Rattle.session_run.specs.Ahead.{AreAhead, IsDoneNow};
ghost use Rattle.session_run.specs.Turns.{PublishesNow, HasCaughtUp, DoesNextTask};
ghost use Rattle.session_run.specs.Turns.{DoesTasks, by_planner, NothingIsDone, DoesScripts};

use crate::ahead::{Ahead, first_answers};
use line_tables::LineTables;
use plan_book::Book;
use plan_model::{Act, Done, Entry, Next, Reading, Scripts};
use rail_model::OutOfMemory;
use section_worker::Worker;
use std::alloc::Global;
use std::thread::Threads;

// The pass by which everything is done: the one that opens the journal.
const PASS: u32 = 0;

/// Runs the scripts of planners over these tables, whose last edit had the number `at`: planner 1's
/// script comes first, and before each task, and after the last, every section that is not current
/// is answered, in the order of names. Sections are answered for the first time side by side, in as
/// many threads as there are processors, if it takes long enough.
pub fn session_alone(
    rt: &(impl Threads + Sync),
    alloc: Global,
    tables: LineTables,
    at: u64,
    scripts: Scripts,
) -> Result<Book, OutOfMemory>
    requires planners { length scripts ≤ PLANNERS }
    requires tasks { sum_by length scripts ≤ TASKS }
    requires at { at ≤ FIRST_NUMBER }
    ensures { IfOk result (IsSessionAlone tables at scripts) }
{
    let mut book = Book::start(alloc, tables, at, scripts)?;
    let mut worker = Worker::new(alloc, 0, 1, PASS);
    answer_first(rt, alloc, &mut worker, &mut book)?;
    do_scripts(&mut worker, &mut book)?;
    Ok(book)
}

// Answers the sections that are not current, of which nothing is kept, side by side.
fn answer_first(
    rt: &(impl Threads + Sync),
    alloc: Global,
    worker: &mut Worker,
    book: &mut Book,
) -> Result<(), OutOfMemory>
    requires kept { KeepsWhatWasRead worker.old book.old }
    ensures ok { OnOk result (HasCaughtUp book.old book.new) }
    ensures kept { OnOk result (KeepsWhatWasRead worker.new book.new) }
{
    let mut ahead = first_answers(rt, alloc, book)?;
    catch_up(worker, book, &mut ahead)
}

// Does all scripts, of which nothing is done yet, and then answers the sections that are not
// current.
fn do_scripts(worker: &mut Worker, book: &mut Book) -> Result<(), OutOfMemory>
    requires none { NothingIsDone book.old }
    requires kept { KeepsWhatWasRead worker.old book.old }
    ensures { OnOk result (DoesScripts book.old book.new) }
{
    let _first = book.journal();
    let planners = book.planners();
    for place in 0..planners {
        do_script(worker, book, place + 1)?;
    }
    catch_up(worker, book, &mut [])?;
    let _last = book.journal();
    Ok(())
}

// Does the script of a planner, of which nothing is done yet.
fn do_script(worker: &mut Worker, book: &mut Book, planner: u32) -> Result<(), OutOfMemory>
    requires planner { IsPlanner book.old planner }
    requires none { done_by book.old planner ≡ [] }
    requires kept { KeepsWhatWasRead worker.old book.old }
    ensures done { OnOk result
        (DoesTasks book.old (by_planner planner (script_of book.old planner)) book.new) }
    ensures kept { OnOk result (KeepsWhatWasRead worker.new book.new) }
{
    for _task in 0..script_length(book.journal().slice(), planner) {
        do_task(worker, book, planner)?;
    }
    Ok(())
}

// How many tasks the script of a planner has.
fn script_length(journal: &[Entry], planner: u32) -> usize
    requires legal { IsLegal journal.now }
    requires planner { IsPlanner journal.now planner }
    ensures { result ≡ length (script_of journal.now planner) }
{
    match &journal[0].act {
        Act::Opened { scripts, .. } => scripts.script(planner as usize - 1).len(),
        _ => unreachable!(),
    }
}

// Answers the sections that are not current, and does a planner's next task.
fn do_task(worker: &mut Worker, book: &mut Book, planner: u32) -> Result<(), OutOfMemory>
    requires planner { IsPlanner book.old planner }
    requires left { next_task book.old planner ≢ None }
    requires kept { KeepsWhatWasRead worker.old book.old }
    ensures done { OnOk result (DoesNextTask planner book.old book.new) }
    ensures kept { OnOk result (KeepsWhatWasRead worker.new book.new) }
{
    catch_up(worker, book, &mut [])?;
    let _stepped = book.step(PASS, planner)?;
    Ok(())
}

// Answers the sections that are not current, in the order of names. `ahead` has answers that were
// worked out before, in this order.
fn catch_up(worker: &mut Worker, book: &mut Book, ahead: &mut [Ahead]) -> Result<(), OutOfMemory>
    requires kept { KeepsWhatWasRead worker.old book.old }
    requires ahead { AreAhead book.old ahead.old }
    ensures ok { OnOk result (HasCaughtUp book.old book.new) }
    ensures legal { OnOk result (IsLegal book.old) }
    ensures kept { OnOk result (KeepsWhatWasRead worker.new book.new) }
{
    let _journal = book.journal();
    for step in 0..book.tables().sections() {
        let Next::Reading(reading) = book.read_next(0, 1)? else {
            return Ok(());
        };
        publish(worker, book, ahead, step as usize, reading)?;
    }
    Ok(())
}

// Answers the section of a reading, which is not current: by the answer at this place of those that
// were worked out before, if it is of this section and edit.
fn publish(
    worker: &mut Worker,
    book: &mut Book,
    ahead: &mut [Ahead],
    place: usize,
    reading: Reading,
) -> Result<(), OutOfMemory>
    requires next { IsNextReading 0 1 book.old reading }
    requires kept { KeepsWhatWasRead worker.old book.old }
    requires ahead { AreAhead book.old ahead.old }
    ensures published { OnOk result (PublishesNow reading.cut.section.name book.old book.new) }
    ensures kept { OnOk result (KeepsWhatWasRead worker.new book.new) }
    ensures ahead { OnOk result (AreAhead book.new ahead.new) }
{
    let _found = book.journal();
    let done = done_now(worker, book, ahead, place, reading)?;
    let Ok(()) = book.publish(PASS, done)? else {
        unreachable!();
    };
    let _left = book.journal();
    Ok(())
}

// The answer of the section of a reading: the one at this place of those that were worked out
// before, if it is of this section and edit, or else a new one.
fn done_now(
    worker: &mut Worker,
    book: &Book,
    ahead: &mut [Ahead],
    place: usize,
    reading: Reading,
) -> Result<Done, OutOfMemory>
    requires next { IsNextReading 0 1 book.now reading }
    requires kept { KeepsWhatWasRead worker.old book.now }
    requires ahead { AreAhead book.now ahead.old }
    ensures done { IfOk result (IsDoneNow book.now reading) }
    ensures kept { OnOk result (KeepsWhatWasRead worker.new book.now) }
    ensures ahead { OnOk result (AreAhead book.now ahead.new) }
{
    let _found = book.journal();
    if place < ahead.len() && ahead[place].is_of(&reading) {
        return ahead[place].taken_in(worker);
    }
    answered(worker, reading)
}

// The answer of the section of a reading, by what is kept of it.
fn answered(worker: &mut Worker, reading: Reading) -> Result<Done, OutOfMemory>
    requires { IfSome (kept_for worker.old reading.cut.section.name)
        (λ h. AgreesWith h.keep reading.cut) }
    ensures answer { IfOk result (IsAnswerOf reading) }
    ensures keeps { OnOk result (KeepsRows reading.cut reading.at worker.old worker.new) }
{
    let mut reading = reading;
    let answer = worker.answer(&mut reading)?;
    Ok(Done {
        section: reading.section().name,
        at: reading.at(),
        answer,
    })
}
