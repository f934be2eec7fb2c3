//! One call of the program over bytes in memory.
use crate::outside::Outside;
use crate::printing::{put_answer, put_ends, put_whole_status, put_written};
use crate::words::words_of;
use capacity_cmd::{Status, run};
use rail_model::OutOfMemory;
use rail_outside::{Gate, MemorySink, MemorySource, OpenGate, Source};
use small_lines::Text;
use std::sync::Wait;
use std::thread::Threads;

// A call: its words, its input and its outside.
#[derive(Clone, Copy)]
pub(crate) struct Call<'a> {
    pub(crate) words: &'a [String],
    pub(crate) input: &'a [u8],
    pub(crate) outside: Outside,
}

// A call that has ended: its status, and what it leaves of its source and its sink.
#[derive(Drop)]
pub(crate) struct Ended {
    pub(crate) status: Status,
    pub(crate) source: MemorySource,
    pub(crate) sink: MemorySink,
}

// Makes a call.
pub(crate) fn made<R: AllocGlobal + Threads + Wait + Sync, G: Gate>(
    rt: &R,
    call: Call<'_>,
    gate: &G,
) -> Result<Ended, OutOfMemory> {
    let mut source = call.outside.source(rt.alloc(), call.input)?;
    let mut sink = call.outside.sink(rt.alloc())?;
    let status = run(rt, call.words, &mut source, &mut sink, gate);
    Ok(Ended {
        status,
        source,
        sink,
    })
}

// Makes a call. Adds the number of its status and its text. Where a line says something of the
// outside, it adds all that the status says, and what two more reads answer.
pub(crate) fn write_call<R: AllocGlobal + Threads + Wait + Sync>(
    rt: &R,
    text: &mut Text,
    words: &[u8],
    input: &[u8],
    outside: Outside,
) {
    let words = words_of(rt.alloc(), text, words);
    let call = Call {
        words: &words,
        input,
        outside,
    };
    match made(rt, call, &OpenGate) {
        Ok(mut ended) => write_end(text, outside, &mut ended),
        Err(_) => text.lose(),
    }
}

fn write_end(text: &mut Text, outside: Outside, ended: &mut Ended) {
    if !outside.is_set {
        text.show(b"=", ended.status.number());
        text.put(b"\n");
        return put_written(text, ended.sink.bytes());
    }
    put_whole_status(text, ended.status);
    if outside.last_lines > 0 {
        put_ends(text, ended.sink.bytes(), outside.last_lines);
    } else {
        put_written(text, ended.sink.bytes());
    }
    write_reads(text, &mut ended.source);
}

// Adds what two more reads of a source answer.
fn write_reads(text: &mut Text, source: &mut MemorySource) {
    let mut piece = [0u8; 16];
    text.put(b"then ");
    put_answer(text, source.read(&mut piece));
    text.put(b" ");
    put_answer(text, source.read(&mut piece));
    text.put(b"\n");
}
