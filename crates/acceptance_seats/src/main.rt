//! Tries books, seats at a desk, workers and what they keep, each alone and where another thread
//! comes first.
//!
//! Standard input tells the cases, a line for each; what a case is, its first word says:
//!
//! ```text
//! # a remark
//! repairs 0 ROW;2 ROW     edits by rows, and how many uses each repair may take: `repairs.rt`
//! takings 4 2 ROW         how many uses a worker takes before and after an edit: `takings.rt`
//! drawn 1                 many drawn edits, drawn from a number: `drawn_edits.rt`
//! book read;publish;ROW   calls of a book: `books.rt`
//! script ROW              the script of a planner, step by step: `scripts.rt`
//! turns                   who has the turn at a desk over a book: `turns.rt`
//! race after-reading ROW  a worker beside a planner: `races.rt`
//! shortage ROW            a planner is refused memory before a worker sleeps: `shortage.rt`
//! ```
//!
//! For each case its line is written again, and then what came of it.
#![tactic(auto)]

mod boards;
mod books;
mod cases;
mod drawn_edits;
mod hoard;
mod races;
mod repairs;
mod scripts;
mod shortage;
mod takings;
mod telling;
mod turns;

use cases::write_cases;
use rail_outside::{StdSink, StdSource, take_all};
use small_lines::{Text, end_of};
use std::process::ExitCode;

// The most bytes of standard input.
const MOST: usize = 1_000_000;

fn main(rt: HostRuntime) -> ExitCode {
    let Ok(Ok(script)) = take_all(rt.alloc(), &mut StdSource::of(rt.stdin()), MOST) else {
        return ExitCode::from(3);
    };
    let mut text = Text::new(rt.alloc());
    write_cases(&rt, &mut text, script.slice());
    end_of(&mut StdSink::of(rt.stdout()), &text)
}
