//! Calls whose text depends on the schedule of threads: how often each writes one of some texts.
use crate::call::{Call, made};
use crate::outside::Outside;
use crate::race::Race;
use crate::rows::{after_rows, put_rows};
use crate::words::words_of;
use capacity_cmd::Status;
use rail_outside::{Gate, OpenGate};
use small_lines::{Text, after_line};
use std::sync::Wait;
use std::thread::Threads;

// Makes a call so often as its outside says. Adds how many calls were done with one of the texts
// that stand in `texts`; where there is a race, also how many were run in its order.
pub(crate) fn write_times<R: AllocGlobal + Threads + Wait + Sync>(
    rt: &R,
    text: &mut Text,
    words: &[u8],
    input: &[u8],
    outside: Outside,
    texts: &[u8],
) {
    let words = words_of(rt.alloc(), text, words);
    let call = Call {
        words: &words,
        input,
        outside,
    };
    match outside.race {
        Some(race) => write_raced(rt, text, call, texts, race),
        None => write_unraced(rt, text, call, texts),
    }
}

fn write_unraced<R: AllocGlobal + Threads + Wait + Sync>(
    rt: &R,
    text: &mut Text,
    call: Call<'_>,
    texts: &[u8],
) {
    let mut done = 0u64;
    for _ in 0..call.outside.times {
        let is_done = writes_one_of(rt, text, call, &OpenGate, texts);
        done = done.saturating_add(u64::from(is_done));
    }
    put_done(text, done, call.outside.times);
}

fn write_raced<R: AllocGlobal + Threads + Wait + Sync>(
    rt: &R,
    text: &mut Text,
    call: Call<'_>,
    texts: &[u8],
    (readings, tasks): (u32, u32),
) {
    let (mut done, mut in_order) = (0u64, 0u64);
    for _ in 0..call.outside.times {
        let race = Race::new(u64::from(readings), u64::from(tasks));
        let is_done = writes_one_of(rt, text, call, &race, texts);
        done = done.saturating_add(u64::from(is_done));
        in_order = in_order.saturating_add(u64::from(race.was_run()));
    }
    put_done(text, done, call.outside.times);
    text.show(b"", in_order);
    text.put_line(b" in the order of the race");
}

fn put_done(text: &mut Text, done: u64, times: u32) {
    text.show(b"", done);
    text.show(b" of ", times);
    text.put_line(b" write one of the texts");
}

// Whether a call is done with one of the texts.
fn writes_one_of<R: AllocGlobal + Threads + Wait + Sync, G: Gate>(
    rt: &R,
    text: &mut Text,
    call: Call<'_>,
    gate: &G,
    texts: &[u8],
) -> bool {
    match made(rt, call, gate) {
        Ok(ended) => { ended.status == Status::Done && is_one_of(rt, ended.sink.bytes(), texts) }
        Err(_) => {
            text.lose();
            false
        }
    }
}

fn is_one_of<R: AllocGlobal>(rt: &R, written: &[u8], texts: &[u8]) -> bool {
    let mut rest = texts;
    for _ in 0..texts.len() {
        if rest.first() != Some(&b'|') {
            return false;
        }
        if is_text(rt, written, rest) {
            return true;
        }
        rest = after_rows(rest, 0);
    }
    false
}

// Whether a call wrote the first of the texts.
fn is_text<R: AllocGlobal>(rt: &R, written: &[u8], texts: &[u8]) -> bool {
    let mut rows = Text::new(rt.alloc());
    put_rows(rt.alloc(), &mut rows, b"", after_line(texts, 0));
    rows.bytes() == written
}
