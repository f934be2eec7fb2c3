//! Where a row stands in a text without double quotes. There no field has a line's end in it, so
//! each line that isn't blank is a row.

use std::simd::prelude::*;

// So many bytes are looked at together.
const LANES: usize = 64;

// The line in which a row stands, counted from 1, and where it starts.
#[derive(Clone, Copy)]
pub(crate) struct RowPlace {
    pub(crate) line: u64,
    pub(crate) start: usize,
}

// How many lines have ended before the place at hand, how many rows have begun, and the byte before
// it.
#[derive(Clone, Copy)]
struct Passed {
    lines: u64,
    rows: u64,
    before: u8,
}

// Where the row of a number stands, counted from 1, if there are so many rows. A byte order mark at
// the start is passed over.
pub(crate) fn place_of_row(input: &[u8], number: u64) -> Option<RowPlace> {
    let mark: &[u8] = b"\xef\xbb\xbf";
    let start = if input.starts_with(mark) { 3 } else { 0 };
    let mut passed = Passed {
        lines: 0,
        rows: 0,
        before: b'\n',
    };
    for piece in 0..input.len() / LANES + 1 {
        let at = piece.saturating_mul(LANES).saturating_add(start);
        match passed_together(input, at, passed) {
            Some(more) if more.rows < number => passed = more,
            _ => {
                let found = place_one_by_one(input, at, &mut passed, number);
                if found.is_some() {
                    return found;
                }
            }
        }
    }
    None
}

// Where the row of a number starts among the bytes from a place on, which are passed one by one.
fn place_one_by_one(input: &[u8], at: usize, passed: &mut Passed, number: u64) -> Option<RowPlace> {
    for i in at..at.saturating_add(LANES).min(input.len()) {
        *passed = passed_one(*passed, input[i]);
        if passed.rows == number {
            return Some(RowPlace {
                line: passed.lines.saturating_add(1),
                start: i,
            });
        }
    }
    None
}

// What has passed after the bytes from a place on that are looked at together. `None` says nothing:
// fewer are left, a carriage return stands among or right before them, or a line is blank.
fn passed_together(input: &[u8], at: usize, passed: Passed) -> Option<Passed> {
    if input.len().saturating_sub(at) < LANES || passed.before == b'\r' {
        return None;
    }
    let lanes = u8x64::from_slice(&input[at..]);
    let ends = lanes.simd_eq(u8x64::splat(b'\n')).to_bitmask();
    let starts = ends << 1 | u64::from(passed.before == b'\n');
    if starts & ends != 0 || lanes.simd_eq(u8x64::splat(b'\r')).to_bitmask() != 0 {
        return None;
    }
    Some(Passed {
        lines: passed.lines.saturating_add(u64::from(ends.count_ones())),
        rows: passed.rows.saturating_add(u64::from(starts.count_ones())),
        before: input[at + LANES - 1],
    })
}

// What has passed after one byte more.
fn passed_one(passed: Passed, byte: u8) -> Passed {
    let Passed {
        mut lines,
        mut rows,
        before,
    } = passed;
    if byte == b'\r' || (byte == b'\n' && before != b'\r') {
        lines = lines.saturating_add(1);
    } else if byte != b'\n' && (before == b'\n' || before == b'\r') {
        rows = rows.saturating_add(1);
    }
    Passed {
        lines,
        rows,
        before: byte,
    }
}

// The line of a text that starts at a place, without its end.
pub(crate) fn line_at(input: &[u8], start: usize) -> &[u8] {
    let from = start.min(input.len());
    for end in from..input.len() {
        if input[end] == b'\n' || input[end] == b'\r' {
            return &input[from..end];
        }
    }
    &input[from..]
}
