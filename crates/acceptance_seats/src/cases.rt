//! The cases, by their first word.
use crate::books::write_book;
use crate::drawn_edits::write_drawn;
use crate::races::write_race;
use crate::repairs::write_repairs;
use crate::scripts::write_script;
use crate::shortage::write_shortage;
use crate::takings::write_takings;
use crate::turns::write_turns;
use small_lines::{Text, number_of, parts_of};
use std::sync::Wait;
use std::thread::Threads;

// Adds the line of each case and what comes of it. An empty line and a remark are none.
pub(crate) fn write_cases<R: AllocGlobal + Threads + Wait + Sync>(
    rt: &R,
    text: &mut Text,
    script: &[u8],
) {
    let mut rest = script;
    for _ in 0..script.len() {
        let (line, later) = parts_of(rest, b'\n');
        if !matches!(line, [] | [b'#', ..]) {
            write_case(rt, text, line);
        }
        rest = later;
    }
}

fn write_case<R: AllocGlobal + Threads + Wait + Sync>(rt: &R, text: &mut Text, line: &[u8]) {
    text.put_line(line);
    let (word, rest) = parts_of(line, b' ');
    let alloc = rt.alloc();
    match word {
        b"repairs" => return write_repairs(alloc, text, rest),
        b"takings" => write_takings(rt, alloc, text, rest),
        b"drawn" => write_drawn(alloc, text, number_of(rest)),
        b"book" => write_book(alloc, text, rest),
        b"script" => write_script(rt, alloc, text, rest),
        b"turns" => write_turns(rt, alloc, text),
        b"race" => write_race(rt, alloc, text, rest),
        b"shortage" => write_shortage(rt, alloc, text, rest),
        _ => text.put(b"unknown"),
    }
    text.put(b"\n");
}
