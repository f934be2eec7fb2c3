//! Boards over a book, and what is told of their calls.
ghost use Rattle.std.specs.Prelude.{◌≡◌, IfOk, IfSome, OnOk};
ghost use Rattle.plan_model.specs.Call.{Calls};
ghost use Rattle.section_worker.specs.Keeping.{KeepsWhatWasRead};
ghost use Rattle.acceptance_seats.specs.Opened.{IsJustOpened};

use plan_book::Book;
use plan_model::{Asked, Board, Scripts};
use rail_model::{Edit, Name, OutOfMemory, Rule};
use rail_outside::Gate;
use section_worker::{Turned, Worker};
use small_lines::{Text, small_line};
use std::alloc::Global;
use std::sync::Wait;

// A book of the line with its two runs and its section, opened at 8.
pub(crate) fn opened(alloc: Global, text: &mut Text) -> Result<Option<Book>, OutOfMemory>
    ensures { IfOk result (λ book. IfSome book IsJustOpened) }
{
    let Some(tables) = small_line(alloc, text) else {
        return Ok(None);
    };
    Ok(Some(Book::start(alloc, tables, 8, Scripts::new(alloc))?))
}

// Makes an edit, and tells what is answered.
pub(crate) fn edited<R: Wait, B: Board>(
    rt: &R,
    text: &mut Text,
    board: &mut B,
    edit: Edit,
) -> Result<(), OutOfMemory>
    ensures { OnOk result (Calls (B.access board.old).pass (B.access board.old).numbers
        (B.access board.old).seen (B.access board.new).seen) }
{
    let answer = board.edit(rt, edit)?;
    push_edited(text, answer);
    Ok(())
}

// Tells what an edit is answered.
pub(crate) fn push_edited(text: &mut Text, answer: Result<u64, Rule>) {
    match answer {
        Ok(at) => text.show(b"edited,", at),
        Err(_) => text.put(b"refused"),
    }
}

// Asks for S, and tells what is answered.
pub(crate) fn asked<R: Wait, B: Board>(rt: &R, text: &mut Text, board: &mut B) {
    let Ok(section) = Name::read(b"S") else {
        return text.put(b"no name");
    };
    match board.ask(rt, section) {
        Ok(answer) => push_asked(text, &answer),
        Err(_) => text.lose(),
    }
}

// Tells what a question is answered.
pub(crate) fn push_asked(text: &mut Text, answer: &Asked) {
    match answer {
        Asked::Ready { at, .. } => text.show(b"ready,", *at),
        Asked::Stale { at, by } => {
            text.show(b"stale,", *at);
            text.show(b",", *by);
        }
        Asked::NotYet => text.put(b"not-yet"),
        Asked::Unknown => text.put(b"unknown"),
    }
}

// One turn of a worker. Tells what came of it.
pub(crate) fn turned<R: Wait, B: Board, G: Gate>(
    rt: &R,
    text: &mut Text,
    worker: &mut Worker,
    board: &mut B,
    gate: &G,
)
    requires { KeepsWhatWasRead worker.old (B.access board.old).seen }
    ensures { KeepsWhatWasRead worker.new (B.access board.new).seen }
{
    match worker.turn(rt, board, gate) {
        Ok(turned) => push_turned(text, &turned),
        Err(_) => text.lose(),
    }
}

fn push_turned(text: &mut Text, turned: &Turned) {
    match turned {
        Turned::Published { section, at } => push_of(text, b"published,", section, *at),
        Turned::Stale { section, at, by } => {
            push_of(text, b"stale,", section, *at);
            text.show(b",", *by);
        }
        Turned::Current { section, at } => push_of(text, b"current,", section, *at),
        Turned::Idle { left } => text.show(b"idle,", *left),
    }
}

fn push_of(text: &mut Text, word: &[u8], section: &Name, at: u64) {
    text.put(word);
    text.put(section.bytes());
    text.show(b",", at);
}
