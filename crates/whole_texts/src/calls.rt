//! The lines of a script: calls on rows, settings, and calls of other kinds.
use crate::call::write_call;
use crate::each_way::write_each_way;
use crate::outside::{Outside, WHOLE};
use crate::rows::{after_rows, rows_at};
use crate::telling::write_told;
use crate::times::write_times;
use crate::tries::write_try;
use small_lines::{Text, line_at};
use std::sync::Wait;
use std::thread::Threads;

// Makes the calls of a script, one after the other, and adds what each ends with.
pub(crate) fn write_calls<R: AllocGlobal + Threads + Wait + Sync>(
    rt: &R,
    text: &mut Text,
    script: &[u8],
) {
    let mut outside = WHOLE;
    for at in 0..script.len() {
        if at == 0 || script[at - 1] == b'\n' {
            outside = write_line(rt, text, script, at, outside);
        }
    }
}

// Takes the line that starts at a place; the outside of the next call.
fn write_line<R: AllocGlobal + Threads + Wait + Sync>(
    rt: &R,
    text: &mut Text,
    script: &[u8],
    at: usize,
    outside: Outside,
) -> Outside {
    match line_at(script, at) {
        [b'~', setting @ ..] => outside.and(setting),
        [b':', line @ ..] => {
            write_try(rt.alloc(), text, line);
            outside
        }
        [b'?' | b'%' | b'>', ..] => {
            write_call_at(rt, text, script, at, outside);
            WHOLE
        }
        _ => outside,
    }
}

fn write_call_at<R: AllocGlobal + Threads + Wait + Sync>(
    rt: &R,
    text: &mut Text,
    script: &[u8],
    at: usize,
    outside: Outside,
) {
    let line = line_at(script, at);
    text.put_line(line);
    let rows = rows_at(rt.alloc(), script, at);
    if !rows.is_whole() {
        text.lose();
    }
    let input = rows.bytes();
    match line {
        [b'%', words @ ..] => write_each_way(rt, text, words, input),
        [b'>', words @ ..] => write_told(rt, text, words, input),
        [b'?', words @ ..] => {
            let texts = after_rows(script, at);
            if texts.first() == Some(&b'|') {
                write_times(rt, text, words, input, outside, texts);
            } else {
                write_call(rt, text, words, input, outside);
            }
        }
        _ => {}
    }
}
