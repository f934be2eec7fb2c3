//! Pieces of a text that can be read one after the other.
ghost use Rattle.std.specs.Prelude.{◌≡◌, ◌<◌, ◌≤◌, ◌↔◌, ◌++◌, length, drop, slice_range, IsTrue};
ghost use Rattle.row_text.specs.Rows.{rows_of};
ghost use Rattle.row_text.specs.TextPieces.{IsPlain};

use crate::plain_rows::{ends_line, starts_with_mark};

// A piece has at least so many bytes, unless the text ends before.
const PIECE_BYTES: usize = 262_144;

/// Whether a text has no double quote and doesn't start as a byte order mark does, so that it can
/// be read in pieces.
pub fn is_plain(text: &[u8]) -> bool
    ensures { IsTrue result ↔ IsPlain text.now }
{
    !starts_with_mark(text) && !text.contains(&b'"')
}

/// The end of the piece that starts at a place, from which on a text is plain: the place after the
/// first line end at least 262,144 bytes on, after which no byte 0xEF stands, or the end of the
/// text. The rows of what is left are those of the piece and then those after it. No clause says
/// where the piece ends.
pub fn piece_end(text: &[u8], from: usize) -> usize
    requires there { from < length text.now }
    requires plain { IsPlain (drop from text.now) }
    ensures within { (from < result) × (result ≤ length text.now) }
    ensures rows { rows_of (drop from text.now)
        ≡ rows_of (slice_range text.now from result) ++ rows_of (drop result text.now) }
    ensures rest { IsPlain (drop result text.now) }
{
    if text.len() - from <= PIECE_BYTES {
        return text.len();
    }
    for i in from + PIECE_BYTES - 1..text.len() {
        if ends_line(text[i]) && !starts_with_mark(&text[i + 1..]) {
            return i + 1;
        }
    }
    text.len()
}
