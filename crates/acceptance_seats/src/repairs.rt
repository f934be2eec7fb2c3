//! Repairs of what was kept of a section, edit by edit.
//!
//! A step is the most uses that a repair may take, and the row of an edit before it. What is told
//! of a repair: the number of the reading and the stamps of its rows, the trains' entries, and their
//! occupancy.
ghost use Rattle.std.specs.Prelude.{◌≡◌, IfOk, OnOk, IfSome};
ghost use Rattle.plan_model.specs.Outcome.{IsNextReading};
ghost use Rattle.plan_repair.specs.Kept.{AgreesWith};
ghost use Rattle.acceptance_seats.specs.Kept.{IsKept};

use crate::boards::opened;
use crate::telling::{Telling, tell};
use plan_book::Book;
use plan_model::{Next, Reading};
use plan_repair::Keep;
use rail_model::OutOfMemory;
use small_lines::{Text, edit_of, number_of, parts_of};
use std::alloc::Global;

// The most uses of the first reading.
const FIRST_USES: u64 = 4;

// Makes the steps with a new book, and tells of each repair.
pub(crate) fn write_repairs(alloc: Global, text: &mut Text, steps: &[u8]) {
    match opened(alloc, text) {
        Ok(Some(mut book)) => write_steps(alloc, text, &mut book, steps),
        Ok(None) => text.put_line(b"no book"),
        Err(_) => text.lose(),
    }
}

fn write_steps(alloc: Global, text: &mut Text, book: &mut Book, steps: &[u8]) {
    match first_kept(alloc, book, FIRST_USES) {
        Ok(Some(keep)) => write_each(alloc, text, book, keep, steps),
        Ok(None) => text.put_line(b"nothing kept"),
        Err(_) => text.lose(),
    }
}

fn write_each(alloc: Global, text: &mut Text, book: &mut Book, keep: Keep, steps: &[u8])
    requires { IsKept book.old keep }
{
    let mut keep = keep;
    let mut rest = steps;
    for _step in 0..steps.len() {
        if rest.is_empty() {
            return;
        }
        let (step, later) = parts_of(rest, b';');
        rest = later;
        match stepped(alloc, text, book, keep, step) {
            Ok(Some(next)) => keep = next,
            Ok(None) => return text.put_line(b"no reading of S"),
            Err(_) => return text.lose(),
        }
    }
}

// What is kept after a step. Tells of its repair.
fn stepped(
    alloc: Global,
    text: &mut Text,
    book: &mut Book,
    keep: Keep,
    step: &[u8],
) -> Result<Option<Keep>, OutOfMemory>
    requires { IsKept book.old keep }
    ensures { IfOk result (λ r. IfSome r (IsKept book.new)) }
{
    let (most, row) = parts_of(step, b' ');
    edited(alloc, text, book, &keep, row)?;
    let most = number_of(most);
    let next = repaired(alloc, text, book, keep, Telling::Brief { most })?;
    text.put(b"\n");
    Ok(next)
}

// The next reading of a book, if a section is left.
pub(crate) fn next_reading(book: &Book) -> Result<Option<Reading>, OutOfMemory>
    ensures { IfOk result (λ r. IfSome r (IsNextReading 0 1 book.now)) }
{
    match book.read_next(0, 1)? {
        Next::Reading(reading) => Ok(Some(reading)),
        Next::Idle { .. } => Ok(None),
    }
}

// What is kept of the first reading of a book, if that takes at most so many uses.
pub(crate) fn first_kept(alloc: Global, book: &Book, most: u64) -> Result<Option<Keep>, OutOfMemory>
    ensures { IfOk result (λ keep. IfSome keep (IsKept book.now)) }
{
    let _journal = book.journal();
    let Some(mut reading) = next_reading(book)? else {
        return Ok(None);
    };
    let (keep, _) = Keep::first(alloc, &mut reading)?;
    if reading.taken() > most {
        return Ok(None);
    }
    Ok(Some(keep))
}

// The next reading of a book, if it is of the section that is kept.
fn reading_of(book: &Book, keep: &Keep) -> Result<Option<Reading>, OutOfMemory>
    requires { IsKept book.now keep.now }
    ensures { IfOk result (λ r. IfSome r (λ shown.
        IsNextReading 0 1 book.now shown × AgreesWith keep.now shown.cut)) }
{
    let _journal = book.journal();
    let Some(reading) = next_reading(book)? else {
        return Ok(None);
    };
    if reading.section().name == *keep.section() {
        Ok(Some(reading))
    } else {
        Ok(None)
    }
}

// Makes the edit of a row.
pub(crate) fn edited(
    alloc: Global,
    text: &mut Text,
    book: &mut Book,
    keep: &Keep,
    row: &[u8],
) -> Result<(), OutOfMemory>
    requires { IsKept book.old keep.now }
    ensures { OnOk result (IsKept book.new keep.now) }
{
    let Some(edit) = edit_of(alloc, text, row) else {
        return Ok(());
    };
    let _number = book.edit(0, edit)?;
    Ok(())
}

// What is kept after a repair by the next reading. Tells of the answer.
pub(crate) fn repaired(
    alloc: Global,
    text: &mut Text,
    book: &Book,
    keep: Keep,
    telling: Telling,
) -> Result<Option<Keep>, OutOfMemory>
    requires { IsKept book.now keep }
    ensures { IfOk result (λ r. IfSome r (IsKept book.now)) }
{
    let _journal = book.journal();
    let Some(mut reading) = reading_of(book, &keep)? else {
        return Ok(None);
    };
    let (keep, answer) = keep.repair(alloc, &mut reading)?;
    tell(text, &reading, &answer, telling);
    Ok(Some(keep))
}
