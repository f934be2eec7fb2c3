//! Calls of a book by pass 0, and what each of them answers.
//!
//! `read` reads the next section, of a share that has all, works out its answer and holds it;
//! `publish` publishes the answer that is held longest; `ask S` asks for a section; any other call is
//! the row of an edit.
ghost use Rattle.std.specs.Prelude.{IfOk, OnOk};
ghost use Rattle.plan_model.specs.Outcome.{IsDone, IsNextReading};
ghost use Rattle.acceptance_seats.specs.Held.{AreHeld};

use crate::boards::{opened, push_asked, push_edited};
use compression::answer;
use plan_book::Book;
use plan_model::{Done, Next, NotTaken, Reading};
use rail_model::{Name, OutOfMemory};
use small_lines::{Text, edit_of, parts_of};
use std::alloc::Global;

// Makes the calls of a line, with semicolons between them, of a new book.
pub(crate) fn write_book(alloc: Global, text: &mut Text, calls: &[u8]) {
    match opened(alloc, text) {
        Ok(Some(mut book)) => write_calls(alloc, text, &mut book, calls),
        Ok(None) => text.put(b"no book"),
        Err(_) => text.lose(),
    }
}

fn write_calls(alloc: Global, text: &mut Text, book: &mut Book, calls: &[u8]) {
    let mut held = Vec::new(alloc);
    let mut rest = calls;
    for _call in 0..calls.len() {
        if rest.is_empty() {
            return;
        }
        let (call, later) = parts_of(rest, b';');
        if played(alloc, text, book, &mut held, call).is_err() {
            return text.lose();
        }
        text.put(b";");
        rest = later;
        if !rest.is_empty() {
            text.put(b" ");
        }
    }
}

// Makes a call, and tells what it answers.
fn played(
    alloc: Global,
    text: &mut Text,
    book: &mut Book,
    held: &mut Vec<Done>,
    call: &[u8],
) -> Result<(), OutOfMemory>
    requires { AreHeld book.old held.old.items }
    ensures { OnOk result (AreHeld book.new held.new.items) }
{
    let (word, name) = parts_of(call, b' ');
    match word {
        b"read" => read(alloc, text, book, held),
        b"publish" => publish(text, book, held),
        b"ask" => ask(text, book, held, name),
        _ => edit(alloc, text, book, held, call),
    }
}

// Reads the next section, and holds its answer.
fn read(
    alloc: Global,
    text: &mut Text,
    book: &Book,
    held: &mut Vec<Done>,
) -> Result<(), OutOfMemory>
    requires { AreHeld book.now held.old.items }
    ensures { OnOk result (AreHeld book.now held.new.items) }
{
    match book.read_next(0, 1)? {
        Next::Reading(reading) => {
            tell_reading(text, &reading);
            held.push(answered(alloc, book, reading)?)?;
        }
        Next::Idle { left } => text.show(b"idle,", left),
    }
    Ok(())
}

// The number of a reading, and the stamps of its rows.
fn tell_reading(text: &mut Text, reading: &Reading) {
    text.show(b"reading,", reading.at());
    for i in 0..reading.count() {
        text.show(b",", reading.stamp(i));
    }
}

// The answer of a reading.
fn answered(alloc: Global, book: &Book, reading: Reading) -> Result<Done, OutOfMemory>
    requires { IsNextReading 0 1 book.now reading }
    ensures { IfOk result (IsDone book.now) }
{
    let mut reading = reading;
    let answer = answer(alloc, &mut reading)?;
    Ok(Done {
        section: reading.section().name,
        at: reading.at(),
        answer,
    })
}

// Publishes the answer that is held longest.
fn publish(text: &mut Text, book: &mut Book, held: &mut Vec<Done>) -> Result<(), OutOfMemory>
    requires { AreHeld book.old held.old.items }
    ensures { OnOk result (AreHeld book.new held.new.items) }
{
    if held.is_empty() {
        text.put(b"nothing");
        return Ok(());
    }
    let done = held.remove(0);
    let _found = book.journal();
    let answer = book.publish(0, done)?;
    push_published(text, &answer);
    Ok(())
}

fn push_published(text: &mut Text, answer: &Result<(), NotTaken>) {
    match answer {
        Ok(()) => text.put(b"published"),
        Err(NotTaken::Stale { by }) => text.show(b"stale,", *by),
        Err(NotTaken::Current { at }) => text.show(b"current,", *at),
    }
}

// Makes the edit of a row.
fn edit(
    alloc: Global,
    text: &mut Text,
    book: &mut Book,
    held: &Vec<Done>,
    row: &[u8],
) -> Result<(), OutOfMemory>
    requires { AreHeld book.old held.now.items }
    ensures { OnOk result (AreHeld book.new held.now.items) }
{
    let Some(edit) = edit_of(alloc, text, row) else {
        text.put(b"no edit");
        return Ok(());
    };
    let _found = book.journal();
    let answer = book.edit(0, edit)?;
    push_edited(text, answer);
    Ok(())
}

// Asks for a section.
fn ask(text: &mut Text, book: &mut Book, held: &Vec<Done>, name: &[u8]) -> Result<(), OutOfMemory>
    requires { AreHeld book.old held.now.items }
    ensures { OnOk result (AreHeld book.new held.now.items) }
{
    let Ok(section) = Name::read(name) else {
        text.put(b"no name");
        return Ok(());
    };
    let _found = book.journal();
    let answer = book.ask(0, section)?;
    push_asked(text, &answer);
    Ok(())
}
