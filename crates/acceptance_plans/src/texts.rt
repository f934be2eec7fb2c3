//! The rows of texts.
use crate::escapes::{put_escaped, unescaped};
use row_text::{Row, RowList};
use small_lines::{Text, after_pieces, number_of, word};
use std::alloc::Global;

// The bytes that a case's line has, after its word and where it has one its number. A long row has
// so many times a piece after its start and before its end.
pub(crate) fn bytes_of(alloc: Global, line: &[u8]) -> Text {
    match word(line, 0) {
        b"?long" => long_row(alloc, line),
        b"?version" | b"?rows" => unescaped(alloc, after_pieces(line, b' ', 1)),
        _ => unescaped(alloc, after_pieces(line, b' ', 2)),
    }
}

fn long_row(alloc: Global, line: &[u8]) -> Text {
    let mut row = Text::new(alloc);
    row.put(word(line, 3));
    for _ in 0..number_of(word(line, 1)).min(10_000) {
        row.put(word(line, 2));
    }
    row.put(word(line, 4));
    row
}

// The rows of a text: a bar after each field, and a slash after each row. A double quote changes
// how a text is read, and not what its other rows are.
pub(crate) fn write_rows(text: &mut Text, rows: &RowList<'_>) {
    for i in 0..rows.len() {
        put_row(text, &rows.get(i));
    }
    text.put(b"\n");
}

fn put_row(text: &mut Text, row: &Row<'_>) {
    for k in 0..row.len() {
        put_escaped(text, row.get(k));
        text.put(b"|");
    }
    text.put(b"/");
}

// The version of a text's rows, the place of the first that is to spell a line, and how many rows
// there are.
pub(crate) fn write_version(text: &mut Text, rows: &RowList<'_>) {
    text.show_all(b"", &rows.version());
    text.show(b", first line ", rows.first_line());
    text.show(b", rows ", rows.len());
    text.put(b"\n");
}
