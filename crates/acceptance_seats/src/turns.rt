//! Who has the turn at a desk over a book.
ghost use Rattle.std.specs.Prelude.{◌≡◌};
ghost use Rattle.turn_desk.specs.Known.{IsReady};

use crate::races::started;
use plan_book::Book;
use plan_model::{Act, Entry};
use small_lines::Text;
use std::alloc::Global;
use std::sync::Wait;
use turn_desk::{Desk, Pass};

// What the first drawn pass finds that tries to take the turn while the main pass has it, and then
// again; and the book once the desk is closed.
pub(crate) fn write_turns<R: Wait>(rt: &R, alloc: Global, text: &mut Text) {
    match started(rt, alloc, text) {
        Ok(Some((desk, main, one, _two))) => write_passed(rt, text, desk, (main, one)),
        Ok(None) => text.put(b"no desk"),
        Err(_) => text.lose(),
    }
}

fn write_passed<R: Wait>(
    rt: &R,
    text: &mut Text,
    desk: Desk<Book>,
    passes: (Pass<Book>, Pass<Book>),
)
    requires { IsReady desk passes.0 × IsReady desk passes.1 }
{
    let (mut main, mut pass) = passes;
    tell_turns(rt, text, &desk, &mut main, &mut pass);
    desk.leave(&mut main, pass);
    let book = desk.close(rt, main);
    tell_entries(text, book.journal().slice());
}

fn tell_turns<R: Wait>(
    rt: &R,
    text: &mut Text,
    desk: &Desk<Book>,
    main: &mut Pass<Book>,
    pass: &mut Pass<Book>,
)
    requires main { IsReady desk.now main.old }
    requires pass { IsReady desk.now pass.old }
    ensures main { IsReady desk.now main.new }
    ensures pass { IsReady desk.now pass.new }
{
    text.show(b"pass ", pass.number());
    let turn = desk.take(rt, main);
    tell_tried(text, desk, pass);
    desk.give(main, turn);
    tell_tried(text, desk, pass);
}

// What a pass finds that tries to take the turn. It gives the turn back.
fn tell_tried(text: &mut Text, desk: &Desk<Book>, pass: &mut Pass<Book>)
    requires { IsReady desk.now pass.old }
    ensures { IsReady desk.now pass.new }
{
    match desk.try_take(pass) {
        Ok(turn) => {
            tell_entries(text, turn.value().journal().slice());
            desk.give(pass, turn);
        }
        Err(_) => text.put(b"; the turn is taken"),
    }
}

fn tell_entries(text: &mut Text, entries: &[Entry]) {
    text.put(b";");
    for entry in entries {
        match &entry.act {
            Act::Opened { .. } => text.put(b" opened"),
            Act::Entered { number } => text.show(b" entered ", *number),
            _ => text.put(b" another act"),
        }
    }
}
