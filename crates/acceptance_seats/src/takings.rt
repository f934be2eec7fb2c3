//! How many uses the turns of a worker take.
ghost use Rattle.std.specs.Prelude.{◌≡◌, ◌<◌};
ghost use Rattle.plan_model.specs.Journal.{issued};

use crate::boards::{edited, opened, turned};
use plan_book::{Alone, Book};
use plan_model::{Asked, Board, Done, Next, NotTaken, Rows, Stepped};
use rail_model::{Edit, Name, OutOfMemory, Rule};
use rail_outside::OpenGate;
use section_worker::Worker;
use small_lines::{Text, edit_of, number_of, parts_of};
use std::alloc::Global;
use std::sync::Wait;

// A board, and how many uses were taken of the reading that it was handed last.
#[derive(Drop)]
struct Noting<B> {
    board: B,
    handed: u64,
}

impl<B: Board> Board for Noting<B> {
    type Read = B::Read;

    ghost access = { λ n. B.access n.board };

    fn step<R: Wait>(&mut self, rt: &R, planner: u32) -> Result<Stepped, OutOfMemory> {
        self.board.step(rt, planner)
    }

    fn edit<R: Wait>(&mut self, rt: &R, edit: Edit) -> Result<Result<u64, Rule>, OutOfMemory> {
        self.board.edit(rt, edit)
    }

    fn ask<R: Wait>(&mut self, rt: &R, section: Name) -> Result<Asked, OutOfMemory> {
        self.board.ask(rt, section)
    }

    fn read_next<R: Wait>(
        &mut self,
        rt: &R,
        share: u32,
        of: u32,
    ) -> Result<Next<B::Read>, OutOfMemory> {
        self.board.read_next(rt, share, of)
    }

    fn publish<R: Wait>(
        &mut self,
        rt: &R,
        done: Done,
        reading: B::Read,
    ) -> Result<Result<(), NotTaken>, OutOfMemory> {
        self.handed = reading.taken();
        self.board.publish(rt, done, reading)
    }
}

// Makes a turn of a new worker, an edit and a further turn. Tells of them, and whether the two turns
// took at most so many uses as the line says.
pub(crate) fn write_takings<R: Wait>(rt: &R, alloc: Global, text: &mut Text, line: &[u8]) {
    let (first, rest) = parts_of(line, b' ');
    let (second, row) = parts_of(rest, b' ');
    match two_turns(rt, alloc, text, row) {
        Ok(Some((taken, later))) => {
            if taken > number_of(first) || later > number_of(second) {
                text.put(b" too many uses");
            }
        }
        Ok(None) => text.put(b"no book or no edit"),
        Err(_) => text.lose(),
    }
}

// Tells of a new worker's turn, of an edit and of a further turn; how many uses the two turns took.
fn two_turns<R: Wait>(
    rt: &R,
    alloc: Global,
    text: &mut Text,
    row: &[u8],
) -> Result<Option<(u64, u64)>, OutOfMemory> {
    match opened(alloc, text)? {
        Some(mut book) => turns_with(rt, alloc, text, &mut book, row),
        None => Ok(None),
    }
}

fn turns_with<R: Wait>(
    rt: &R,
    alloc: Global,
    text: &mut Text,
    book: &mut Book,
    row: &[u8],
) -> Result<Option<(u64, u64)>, OutOfMemory> {
    let mut board = Noting {
        board: Alone::new(book, 0),
        handed: 0,
    };
    let mut worker = Worker::new(alloc, 0, 1, 101);
    turned(rt, text, &mut worker, &mut board, &OpenGate);
    let handed = board.handed;
    text.put(b" ");
    let Some(edit) = edit_of(alloc, text, row) else {
        return Ok(None);
    };
    edited(rt, text, &mut board, edit)?;
    text.put(b" ");
    turned(rt, text, &mut worker, &mut board, &OpenGate);
    Ok(Some((handed, board.handed)))
}
