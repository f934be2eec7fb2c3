//! The rows of a call or of a text.
use crate::printing::first_lines;
use crate::words::two_of;
use made_line::made_input;
use small_lines::{Text, after_line, number_of, parts_of, put_piece, small_number};
use std::alloc::Global;

// The most rows of one line, and the most times that it adds bytes.
const MOST: u32 = 10_000;

// The most line ends of one line.
const MOST_LINE_ENDS: usize = 20_000_000;

const LINE_ENDS: [u8; 1_024] = [b'\n'; 1_024];

// The rows after the line that starts at a place, up to the next line of another kind.
pub(crate) fn rows_at(alloc: Global, script: &[u8], at: usize) -> Text {
    let mut rows = Text::new(alloc);
    put_rows(alloc, &mut rows, script, after_line(script, at));
    rows
}

// What stands after these rows.
pub(crate) fn after_rows(script: &[u8], at: usize) -> &[u8] {
    let lines = after_line(script, at);
    let mut rest = lines;
    for _ in 0..lines.len() {
        if ends_rows(rest) {
            return rest;
        }
        rest = after_line(rest, 0);
    }
    rest
}

// Whether lines start with one that is no row.
fn ends_rows(lines: &[u8]) -> bool {
    matches!(lines, [b'=' | b'?' | b'%' | b'>' | b'|' | b'~' | b':', ..])
}

// Adds the rows that lines start with.
pub(crate) fn put_rows(alloc: Global, rows: &mut Text, script: &[u8], lines: &[u8]) {
    let mut rest = lines;
    for _ in 0..lines.len() {
        if ends_rows(rest) {
            return;
        }
        let (line, later) = parts_of(rest, b'\n');
        put_of_line(alloc, rows, script, line);
        rest = later;
    }
}

fn put_of_line(alloc: Global, rows: &mut Text, script: &[u8], line: &[u8]) {
    match line {
        [] | [b'#', ..] => {}
        [b'<', name @ ..] => put_piece(rows, script, name),
        [b'*', repeated @ ..] => put_numbered(rows, repeated),
        [b'^', count @ ..] => put_line_ends(rows, small_number(count) as usize),
        [b'+', repeated @ ..] => put_repeated(alloc, rows, repeated),
        [b'&', made @ ..] => put_made(alloc, rows, made),
        [b'!', bytes @ ..] => rows.put(bytes),
        _ => rows.put_line(line),
    }
}

// Adds so many rows as a line says before its first blank, of what comes after it, with a number in
// the place of each `@`.
fn put_numbered(rows: &mut Text, line: &[u8]) {
    let (count, row) = parts_of(line, b' ');
    for n in 0..small_number(count).min(MOST) {
        put_with_numbers(rows, row, n);
    }
}

// Adds the row of a place, from 0 on.
fn put_with_numbers(rows: &mut Text, row: &[u8], n: u32) {
    let mut rest = row;
    for _ in 0..row.len() {
        let (piece, later) = parts_of(rest, b'@');
        rows.put(piece);
        if piece.len() == rest.len() {
            return rows.put(b"\n");
        }
        rest = put_number(rows, later, n);
    }
    rows.put(b"\n");
}

// Adds the number of a place: the first and the step stand after the `@`, as in `@100+150`, and are
// else 1000 and 1. Gives what comes after them.
fn put_number<'a>(rows: &mut Text, spelled: &'a [u8], n: u32) -> &'a [u8] {
    let (first, rest) = digits_of(spelled);
    let first = if first.is_empty() {
        1_000
    } else {
        number_of(first)
    };
    let (step, rest) = match rest {
        [b'+', later @ ..] => digits_of(later),
        _ => (b"1".as_slice(), rest),
    };
    let passed = number_of(step).saturating_mul(u64::from(n));
    rows.show(b"", first.saturating_add(passed));
    rest
}

// The digits that a text starts with, and what comes after them.
fn digits_of(text: &[u8]) -> (&[u8], &[u8]) {
    for place in 0..text.len() {
        if !text[place].is_ascii_digit() {
            return (&text[..place], &text[place..]);
        }
    }
    (text, b"")
}

// Adds the first rows of the line that is made from a number.
fn put_made(alloc: Global, rows: &mut Text, line: &[u8]) {
    let (number, count) = two_of(line);
    match made_input(alloc, number) {
        Ok(made) => rows.put(first_lines(made.slice(), count as usize)),
        Err(_) => rows.lose(),
    }
}

fn put_line_ends(rows: &mut Text, count: usize) {
    let count = count.min(MOST_LINE_ENDS);
    for _ in 0..count / 1_024 {
        rows.put(&LINE_ENDS);
    }
    rows.put(&LINE_ENDS[..count % 1_024]);
}

// Adds the bytes after the first blank so many times as a line says before it.
fn put_repeated(alloc: Global, rows: &mut Text, line: &[u8]) {
    let (count, spelled) = parts_of(line, b' ');
    let mut bytes = Text::new(alloc);
    put_spelled(&mut bytes, spelled);
    for _ in 0..small_number(count).min(MOST) {
        rows.put(bytes.bytes());
    }
}

// Adds bytes that are spelled, of which some by two digits after a backslash.
pub(crate) fn put_spelled(bytes: &mut Text, spelled: &[u8]) {
    let (plain, mut rest) = parts_of(spelled, b'\\');
    bytes.put(plain);
    for _ in 0..spelled.len() {
        let (piece, later) = parts_of(rest, b'\\');
        if let [high, low, plain @ ..] = piece {
            bytes.put(&[
                digit_of(*high)
                    .wrapping_mul(16)
                    .wrapping_add(digit_of(*low)),
            ]);
            bytes.put(plain);
        }
        rest = later;
    }
}

fn digit_of(byte: u8) -> u8 {
    match byte {
        b'a'..=b'f' => byte.wrapping_sub(b'a').wrapping_add(10),
        _ => byte.wrapping_sub(b'0'),
    }
}
