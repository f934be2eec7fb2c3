//! Scripts: cases that a program reads and writes again with what comes of them.
//!
//! ```text
//! # a remark, which is written again where a case may begin
//! =line             from here on, the rows of a piece that is named `line`
//! ?cut S 7          a case: what is done, and its words
//! <line             the rows of that piece
//! run,T1,R,..       a row
//! ```
//!
//! All is read by places in borrowed bytes, without closures and iterators, whose proofs cost more.
ghost use Rattle.std.specs.Prelude.{◌≤◌, length};

use crate::Text;
use std::alloc::Global;

/// Whether a line that starts with this byte starts at a place.
pub fn starts_line(script: &[u8], at: usize, with: u8) -> bool {
    at < script.len() && script[at] == with && (at == 0 || script[at - 1] == b'\n')
}

// How many bytes stand before the first such byte, or at all where there is none.
fn count_before(text: &[u8], end: u8) -> usize
    ensures { result ≤ length text.now }
{
    for place in 0..text.len() {
        if text[place] == end {
            return place;
        }
    }
    text.len()
}

/// What stands before the first such byte of a text, and what comes after it.
pub fn parts_of(text: &[u8], end: u8) -> (&[u8], &[u8]) {
    let place = count_before(text, end);
    if place == text.len() {
        return (text, b"");
    }
    (&text[..place], &text[place + 1..])
}

/// What stands in a text after so many such bytes.
pub fn after_pieces(text: &[u8], between: u8, count: usize) -> &[u8] {
    let mut rest = text;
    for _ in 0..count {
        rest = parts_of(rest, between).1;
    }
    rest
}

/// The piece of a text at a place, where a byte stands between pieces; empty where there is none.
pub fn piece_at(text: &[u8], between: u8, place: usize) -> &[u8] {
    parts_of(after_pieces(text, between, place), between).0
}

/// The word of a case's line at a place, where blanks stand between words.
pub fn word(line: &[u8], place: usize) -> &[u8] {
    piece_at(line, b' ', place)
}

// The line that starts at a place, and what comes after it.
fn parts_at(script: &[u8], at: usize) -> (&[u8], &[u8]) {
    if at > script.len() {
        return (b"", b"");
    }
    parts_of(&script[at..], b'\n')
}

/// What stands from a place up to the end of its line.
pub fn line_at(script: &[u8], at: usize) -> &[u8] {
    parts_at(script, at).0
}

/// What stands after the line of a place.
pub fn after_line(script: &[u8], at: usize) -> &[u8] {
    parts_at(script, at).1
}

/// The rows of the case whose line starts at a place, with those of its pieces.
pub fn rows_of_case(alloc: Global, script: &[u8], at: usize) -> Text {
    let mut rows = Text::new(alloc);
    put_rows(&mut rows, script, after_line(script, at));
    rows
}

// Adds rows, and those of their pieces, up to the next case or piece.
fn put_rows(rows: &mut Text, script: &[u8], lines: &[u8]) {
    let mut rest = lines;
    for _ in 0..lines.len() {
        let (line, later) = parts_of(rest, b'\n');
        match line {
            [b'?' | b'=', ..] => return,
            [b'<', name @ ..] => put_piece(rows, script, name),
            _ => put_row(rows, line),
        }
        rest = later;
    }
}

/// Adds the rows of the piece of a name; none where no piece has it.
pub fn put_piece(rows: &mut Text, script: &[u8], name: &[u8]) {
    let lines = piece_of(script, name);
    let mut rest = lines;
    for _ in 0..lines.len() {
        let (line, later) = parts_of(rest, b'\n');
        if matches!(line, [b'?' | b'=', ..]) {
            return;
        }
        put_row(rows, line);
        rest = later;
    }
}

// Adds a row; a remark and an empty line are none.
fn put_row(rows: &mut Text, line: &[u8]) {
    if !matches!(line, [] | [b'#', ..]) {
        rows.put_line(line);
    }
}

// What stands after the line that names a piece; nothing where no piece has the name.
fn piece_of<'a>(script: &'a [u8], name: &[u8]) -> &'a [u8] {
    for at in 0..script.len() {
        if starts_line(script, at, b'=') && line_at(script, at + 1) == name {
            return after_line(script, at);
        }
    }
    b""
}

/// The rows before the first line that starts with a dash, and those after it.
pub fn halves(rows: &[u8]) -> (&[u8], &[u8]) {
    for at in 0..rows.len() {
        if starts_line(rows, at, b'-') {
            return (&rows[..at], after_line(rows, at));
        }
    }
    (rows, b"")
}

/// The number that digits spell; 2^64 - 1 where it is greater.
pub fn number_of(digits: &[u8]) -> u64 {
    let mut number = 0u64;
    for digit in digits {
        number = number
            .saturating_mul(10)
            .saturating_add(u64::from(digit.saturating_sub(b'0')));
    }
    number
}

/// The number that digits spell; 2^32 - 1 where it is greater.
pub fn small_number(digits: &[u8]) -> u32 {
    number_of(digits).min(u64::from(u32::MAX)) as u32
}

/// The number that digits spell, below 0 where a minus stands before them; its size is at most
/// 2^63 - 1.
pub fn signed_number(digits: &[u8]) -> i64 {
    match digits {
        [b'-', rest @ ..] => -(number_of(rest).min(i64::MAX as u64) as i64),
        _ => number_of(digits).min(i64::MAX as u64) as i64,
    }
}
