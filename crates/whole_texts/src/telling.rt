//! What people are told of a call.
use crate::outside::WHOLE;
use crate::words::words_of;
use capacity_cmd::{Status, Told, alone, run_alone_telling};
use rail_model::OutOfMemory;
use small_lines::Text;
use std::thread::Threads;

// Makes a call that waits for nobody. Adds the number of its status, and what people are told.
pub(crate) fn write_told<R: AllocGlobal + Threads + Sync>(
    rt: &R,
    text: &mut Text,
    words: &[u8],
    input: &[u8],
) {
    let words = words_of(rt.alloc(), text, words);
    let mut told = Told::nothing();
    match status_of(rt, &words, input, &mut told) {
        Ok(Some(status)) => write_end(text, status, told.text()),
        Ok(None) => text.put_line(b"waits"),
        Err(_) => text.lose(),
    }
}

fn status_of<R: AllocGlobal + Threads + Sync>(
    rt: &R,
    words: &[String],
    input: &[u8],
    told: &mut Told,
) -> Result<Option<Status>, OutOfMemory> {
    if !alone(words) {
        return Ok(None);
    }
    let mut source = WHOLE.source(rt.alloc(), input)?;
    let mut sink = WHOLE.sink(rt.alloc())?;
    Ok(Some(run_alone_telling(rt, words, &mut source, &mut sink, told)))
}

fn write_end(text: &mut Text, status: Status, told: &str) {
    text.show(b"=", status.number());
    text.put(b"\n");
    if !told.is_empty() {
        text.put_line(told.as_bytes());
    }
}
