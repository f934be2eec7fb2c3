//! How statuses, answers and texts are written.
use capacity_cmd::Status;
use rail_outside::Failed;
use small_lines::{Text, after_pieces};

// The most lines of a text that are written.
const MOST_LINES: usize = 1_000;

// Adds the number that a call of the outside answers, or that it failed.
pub(crate) fn put_answer(text: &mut Text, answer: Result<usize, Failed>) {
    match answer {
        Ok(count) => text.show(b"", count),
        Err(Failed) => text.put(b"failed"),
    }
}

// Adds the number of a status, all that it says, and what the cause of a refusal says of itself.
pub(crate) fn put_whole_status(text: &mut Text, status: Status) {
    text.show(b"=", status.number());
    text.show_all(b" ", &status);
    if let Status::Refused { cause, .. } = status {
        text.show(b": ", cause);
    }
    text.put(b"\n");
}

// Adds what a call wrote: of more lines than `MOST_LINES` the first, their number and the last two.
// Where it doesn't end in a line end, a backslash and a line end come after it.
pub(crate) fn put_written(text: &mut Text, written: &[u8]) {
    let lines = lines_of(written);
    if lines > MOST_LINES {
        return put_long(text, written, lines);
    }
    text.put(written);
    if !matches!(written.last(), None | Some(b'\n')) {
        text.put(b"\\\n");
    }
}

// How many lines end in a text.
pub(crate) fn lines_of(written: &[u8]) -> usize {
    let mut lines = 0usize;
    for byte in written {
        lines = lines.saturating_add(usize::from(*byte == b'\n'));
    }
    lines
}

fn put_long(text: &mut Text, written: &[u8], lines: usize) {
    text.put(first_lines(written, 1));
    text.show(b".. ", lines);
    text.put(b" lines ..\n");
    text.put(last_lines(written, 2));
}

// Adds of what a call wrote the first line and so many of the last.
pub(crate) fn put_ends(text: &mut Text, written: &[u8], last: usize) {
    text.put(first_lines(written, 1));
    text.put(b"..\n");
    text.put(last_lines(written, last));
}

// The first lines of a text.
pub(crate) fn first_lines(text: &[u8], count: usize) -> &[u8] {
    let rest = after_pieces(text, b'\n', count).len();
    &text[..text.len().saturating_sub(rest)]
}

fn last_lines(text: &[u8], count: usize) -> &[u8] {
    after_pieces(text, b'\n', lines_of(text).saturating_sub(count))
}
