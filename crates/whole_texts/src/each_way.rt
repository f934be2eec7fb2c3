//! A call that is made in all ways: with each read and each write failing, in other pieces, with too
//! little room, and by the call that can't wait.
//!
//! ```text
//! ?stairs
//! =0 Done
//! use,...           its text
//! alone 0/183       its end by the call that can't wait: the number of its status, and how many
//!                   bytes of the text are written; `waits` where the words may not be called so
//! pieces 0/183 ..   in reads of a byte, in writes of a byte, and with room for all but one byte
//! reads 3/0 ..      with the first read failing, the second .., up to one that is not made
//! writes 4/0 ..     with the first write failing .., up to one that is not made
//! worn reads ..     reads that fail while the counts of faults stand at their last value
//! worn writes ..    writes that fail while they stand there
//! ```
//!
//! A mark `!` after an end says that its bytes don't begin the text, or that a refusal is another.
use crate::call::{Call, made};
use crate::outside::{Outside, WORKING};
use crate::printing::{put_whole_status, put_written};
use crate::words::words_of;
use crate::worn::{WornSink, WornSource};
use capacity_cmd::{Status, alone, run, run_alone};
use rail_model::OutOfMemory;
use rail_outside::OpenGate;
use small_lines::Text;
use std::sync::Wait;
use std::thread::Threads;

// The most ends of one line.
const MOST: u32 = 200;

// How a call ends where nothing fails.
#[derive(Clone, Copy)]
struct Whole<'a> {
    status: Status,
    text: &'a [u8],
}

// How a call ends.
#[derive(Clone, Copy)]
struct End {
    status: Status,
    written: usize,
    begins: bool,
}

impl Whole<'_> {
    fn end(self, status: Status, written: &[u8]) -> End {
        End {
            status,
            written: written.len(),
            begins: self.text.starts_with(written),
        }
    }

    fn is(self, end: End) -> bool {
        end.status == self.status && end.begins && end.written == self.text.len()
    }

    // Adds the number of a status and how many bytes are written.
    fn put(self, text: &mut Text, end: End) {
        text.show(b" ", end.status.number());
        text.show(b"/", end.written);
        let is_other = end.status.number() == 1 && end.status != self.status;
        if is_other || !end.begins {
            text.put(b"!");
        }
    }
}

// What fails, one after the other.
#[derive(Clone, Copy)]
enum Failing {
    Reads,
    Writes,
}

impl Failing {
    fn outside(self, number: u32) -> Outside {
        match self {
            Failing::Reads => Outside {
                failing_reads: (number, 0),
                ..WORKING
            },
            Failing::Writes => Outside {
                failing_write: number,
                ..WORKING
            },
        }
    }
}

// Whether the counts of faults stand at their last value, where they show no fault.
#[derive(Clone, Copy)]
enum Counts {
    Rising,
    Worn,
}

// Makes a call in all ways, and adds how it ends.
pub(crate) fn write_each_way<R: AllocGlobal + Threads + Wait + Sync>(
    rt: &R,
    text: &mut Text,
    words: &[u8],
    input: &[u8],
) {
    let words = words_of(rt.alloc(), text, words);
    let call = Call {
        words: &words,
        input,
        outside: WORKING,
    };
    match made(rt, call, &OpenGate) {
        Ok(ended) => {
            let whole = Whole {
                status: ended.status,
                text: ended.sink.bytes(),
            };
            write_ways(rt, text, call, whole);
        }
        Err(_) => text.lose(),
    }
}

fn write_ways<R: AllocGlobal + Threads + Wait + Sync>(
    rt: &R,
    text: &mut Text,
    call: Call<'_>,
    whole: Whole<'_>,
) {
    put_whole_status(text, whole.status);
    put_written(text, whole.text);
    write_alone(rt, text, call, whole);
    write_pieces(rt, text, call, whole);
    text.put(b"\nreads");
    write_failing(rt, text, call, whole, Failing::Reads, Counts::Rising);
    text.put(b"\nwrites");
    write_failing(rt, text, call, whole, Failing::Writes, Counts::Rising);
    text.put(b"\nworn reads");
    write_failing(rt, text, call, whole, Failing::Reads, Counts::Worn);
    text.put(b"\nworn writes");
    write_failing(rt, text, call, whole, Failing::Writes, Counts::Worn);
    text.put(b"\n");
}

fn write_alone<R: AllocGlobal + Threads + Sync>(
    rt: &R,
    text: &mut Text,
    call: Call<'_>,
    whole: Whole<'_>,
) {
    text.put(b"alone");
    match end_alone(rt, call, whole) {
        Ok(Some(end)) => whole.put(text, end),
        Ok(None) => text.put(b" waits"),
        Err(_) => text.lose(),
    }
}

fn end_alone<R: AllocGlobal + Threads + Sync>(
    rt: &R,
    call: Call<'_>,
    whole: Whole<'_>,
) -> Result<Option<End>, OutOfMemory> {
    if !alone(call.words) {
        return Ok(None);
    }
    let mut source = WORKING.source(rt.alloc(), call.input)?;
    let mut sink = WORKING.sink(rt.alloc())?;
    let status = run_alone(rt, call.words, &mut source, &mut sink);
    Ok(Some(whole.end(status, sink.bytes())))
}

fn write_pieces<R: AllocGlobal + Threads + Wait + Sync>(
    rt: &R,
    text: &mut Text,
    call: Call<'_>,
    whole: Whole<'_>,
) {
    text.put(b"\npieces");
    let ways = [
        Outside {
            source_piece: 1,
            sink_piece: 4_096,
            ..WORKING
        },
        Outside {
            source_piece: 4_096,
            sink_piece: 1,
            ..WORKING
        },
        Outside {
            room: whole.text.len().saturating_sub(1),
            ..WORKING
        },
    ];
    for outside in ways {
        let call = Call { outside, ..call };
        write_is_whole(rt, text, call, whole, Counts::Rising);
    }
}

// Lets one call of the outside after the other fail, up to one that is not made.
fn write_failing<R: AllocGlobal + Threads + Wait + Sync>(
    rt: &R,
    text: &mut Text,
    call: Call<'_>,
    whole: Whole<'_>,
    failing: Failing,
    counts: Counts,
) {
    for number in 1..=MOST {
        let outside = failing.outside(number);
        let call = Call { outside, ..call };
        if write_is_whole(rt, text, call, whole, counts) {
            return;
        }
    }
}

// Makes a call and adds how it ends; whether it ends as where nothing fails.
fn write_is_whole<R: AllocGlobal + Threads + Wait + Sync>(
    rt: &R,
    text: &mut Text,
    call: Call<'_>,
    whole: Whole<'_>,
    counts: Counts,
) -> bool {
    let end = match counts {
        Counts::Rising => end_of(rt, call, whole),
        Counts::Worn => worn_end_of(rt, call, whole),
    };
    match end {
        Ok(end) => {
            whole.put(text, end);
            whole.is(end)
        }
        Err(_) => {
            text.lose();
            true
        }
    }
}

fn end_of<R: AllocGlobal + Threads + Wait + Sync>(
    rt: &R,
    call: Call<'_>,
    whole: Whole<'_>,
) -> Result<End, OutOfMemory> {
    let ended = made(rt, call, &OpenGate)?;
    Ok(whole.end(ended.status, ended.sink.bytes()))
}

fn worn_end_of<R: AllocGlobal + Threads + Wait + Sync>(
    rt: &R,
    call: Call<'_>,
    whole: Whole<'_>,
) -> Result<End, OutOfMemory> {
    let mut source = WornSource {
        source: call.outside.source(rt.alloc(), call.input)?,
    };
    let mut sink = WornSink {
        sink: call.outside.sink(rt.alloc())?,
    };
    let status = run(rt, call.words, &mut source, &mut sink, &OpenGate);
    Ok(whole.end(status, sink.sink.bytes()))
}
