//! The script of a planner, on a board that has a book alone.
ghost use Rattle.std.specs.Prelude.{◌≡◌, ◌∷◌, [], IfOk, IfSome};
ghost use Rattle.plan_model.specs.declared.scripts.Task.TheVariants as task;
ghost use Rattle.plan_model.specs.Outcome.{IsPlanner};

use crate::boards::{asked, push_asked};
use plan_book::{Alone, Book};
use plan_model::{Board, Scripts, Stepped, Task};
use rail_model::{Edit, OutOfMemory};
use small_lines::{Text, edit_of, small_line};
use std::alloc::Global;
use std::sync::Wait;

// Does the only task of planner 1, the edit of a row, and then asks for S. Tells of both.
pub(crate) fn write_script<R: Wait>(rt: &R, alloc: Global, text: &mut Text, row: &[u8]) {
    let Some(edit) = edit_of(alloc, text, row) else {
        return text.put(b"no edit");
    };
    match book_with(alloc, text, edit) {
        Ok(Some(mut book)) => write_step(rt, text, &mut book),
        Ok(None) => text.put(b"no book"),
        Err(_) => text.lose(),
    }
}

// A book of the line, opened at 8, with the script of one planner, whose only task is an edit.
fn book_with(alloc: Global, text: &mut Text, edit: Edit) -> Result<Option<Book>, OutOfMemory>
    ensures { IfOk result (λ book. IfSome book (λ journal. IsPlanner journal 1)) }
{
    let Some(tables) = small_line(alloc, text) else {
        return Ok(None);
    };
    let scripts = script_of(alloc, edit)?;
    Ok(Some(Book::start(alloc, tables, 8, scripts)?))
}

// The script of one planner, whose only task is an edit.
pub(crate) fn script_of(alloc: Global, edit: Edit) -> Result<Scripts, OutOfMemory>
    ensures { IfOk result (λ scripts. scripts ≡ (task.Edit edit ∷ []) ∷ []) }
{
    let mut scripts = Scripts::new(alloc);
    scripts.begin()?;
    scripts.push(Task::Edit(edit))?;
    Ok(scripts)
}

fn write_step<R: Wait>(rt: &R, text: &mut Text, book: &mut Book)
    requires { IsPlanner book.old 1 }
{
    let mut board = Alone::new(book, 0);
    match board.step(rt, 1) {
        Ok(stepped) => push_stepped(text, &stepped),
        Err(_) => text.lose(),
    }
    text.put(b" ");
    asked(rt, text, &mut board);
}

fn push_stepped(text: &mut Text, stepped: &Stepped) {
    match stepped {
        Stepped::Edited { at } => text.show(b"edited,", *at),
        Stepped::Refused { .. } => text.put(b"refused"),
        Stepped::Asked(asked) => push_asked(text, asked),
        Stepped::Ended => text.put(b"ended"),
    }
}
