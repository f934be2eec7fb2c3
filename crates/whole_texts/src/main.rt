//! Makes many small calls of the program, and writes what each ends with.
//!
//! Standard input tells the calls, line by line; what a line is, its first byte says. A call and
//! its rows:
//!
//! ```text
//! # a remark
//! =line             from here on, up to a `=` or a `?`, the plain rows of a piece named `line`
//! ?compress S       from here on, the rows of a call with these words
//! %compress S       the rows of a call that is made in all ways: `each_way.rt`
//! >compress S       the rows of a call of which it is written what people are told: `telling.rt`
//! |                 from here on, the rows of a text that the call above may write: `times.rt`
//! ~reads 16         how the outside of the next call behaves: `outside.rt`
//! :take 1 0 5       a call of another kind: `tries.rt`
//! ```
//!
//! Rows:
//!
//! ```text
//! <line             the rows of that piece
//! *3 run,t@,R,@5+2  three rows: t1000 and 5, t1001 and 7, t1002 and 9
//! &1 437            the first 437 rows of the line that is made from 1
//! ^3                three line ends
//! +3 \ff,           bytes three times, without a line end; \ff is the byte of that number
//! !block,A          bytes without a line end
//! ```
//!
//! Any other line is a row. For each call the line of its words is written again, then the number
//! of its status after `=`, then its text. The last line is of a read and a write of no byte of the
//! standard streams.
#![tactic(auto)]

mod by_bytes;
mod call;
mod calls;
mod each_way;
mod outside;
mod printing;
mod race;
mod rows;
mod telling;
mod times;
mod tries;
mod words;
mod worn;

use calls::write_calls;
use capacity_cmd::INPUT_BYTES;
use printing::put_answer;
use rail_outside::{Sink, Source, StdSink, StdSource, take_all};
use small_lines::{Text, end_of};
use std::process::ExitCode;

fn main(rt: HostRuntime) -> ExitCode {
    let mut source = StdSource::of(rt.stdin());
    let mut sink = StdSink::of(rt.stdout());
    let Ok(Ok(script)) = take_all(rt.alloc(), &mut source, INPUT_BYTES) else {
        return ExitCode::from(3);
    };
    let mut text = Text::new(rt.alloc());
    write_calls(&rt, &mut text, script.slice());
    text.put(b"of no byte ");
    put_answer(&mut text, source.read(&mut []));
    text.put(b" ");
    put_answer(&mut text, sink.write(b""));
    text.put(b"\n");
    end_of(&mut sink, &text)
}
