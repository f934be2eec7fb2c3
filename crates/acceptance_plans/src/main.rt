//! Rows, lines, and what the sections of lines are answered: names, lists and rows of text; edits
//! and blocking times; cuts and what edits make of them; orders, occupancy, the compressed timetable
//! and its checker; copies that fill a section; cycles, and what shows one.
//!
//! Standard input has the cases, in the form that `small_lines` reads; standard output repeats the
//! line of each case, and what comes of it. In the bytes of a case, `\\n`, `\\r` and `\\x00` stand for
//! a line feed, a carriage return and the byte of that number.
#![tactic(auto)]

mod answers;
mod blockings;
mod cases;
mod changes;
mod cuts;
mod cycles;
mod escapes;
mod faults;
mod fillings;
mod line_edits;
mod look_ups;
mod names;
mod orders;
mod reaching;
mod readings;
mod sheets;
mod shown;
mod spelling;
mod texts;

use cases::write_cases;
use rail_outside::{StdSink, StdSource, take_all};
use small_lines::{Text, end_of};
use std::process::ExitCode;

// The most bytes of the cases.
const SCRIPT_BYTES: usize = 1_000_000;

fn main(rt: HostRuntime) -> ExitCode {
    let mut source = StdSource::of(rt.stdin());
    let Ok(Ok(script)) = take_all(rt.alloc(), &mut source, SCRIPT_BYTES) else {
        return ExitCode::from(3);
    };
    let mut text = Text::new(rt.alloc());
    write_cases(rt.alloc(), &mut text, script.slice());
    end_of(&mut StdSink::of(rt.stdout()), &text)
}
