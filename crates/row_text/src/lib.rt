//! Rows of a planner's text to lines and back: what a row spells, or its first fault; the row that
//! spells a line; and the text of rows that are written.
//!
//! A text without double quotes is cut at its commas and line ends, in one pass over its bytes. Its
//! rows lie in the text itself. Any other text, and one that may begin with a byte order mark, is
//! read by a `csv` reader, which copies the fields. By the contract both give the rows of CSV. A text
//! that is `is_plain` may also be read piece by piece, each up to its `piece_end`.
//!
//! Rows that are written go to a `Sheet`. A `Text` is a text in pieces, so that the sheets of
//! several threads need not be copied into one.
//!
//! ```text
//! let rows = rows(alloc, b"block,A,1000\nblock,B,1000\n")?;
//! let version = rows.version()?;
//! for i in rows.first_line()..rows.len() {
//!     match rows.line(alloc, version, i)? {
//!         Ok(Line::Edit(edit)) => ..,
//!         Ok(Line::Planner(number)) => ..,
//!         Ok(Line::Ask(section)) => ..,
//!         Err(form) => ..,
//!     }
//! }
//! ```
#![tactic(auto)]

mod fields;
mod item_row;
mod laws;
mod leg_times;
mod line;
mod line_row;
mod lists;
mod places;
mod plain_rows;
mod put;
mod read_field;
mod row_list;
mod sheet;
mod text;
mod text_pieces;
mod time_text;
mod unread;
mod word;
mod write_field;
mod written;

pub use fields::{Fields, Row};
pub use laws::limits;
pub use line::{Line, read_row, read_row_in};
pub use line_row::{has_times_in, spell, spell_in};
pub use read_field::{HOUR_DIGITS, NUMBER_DIGITS, number};
pub use row_list::{RowList, rows};
pub use sheet::Sheet;
pub use text::Text;
pub use text_pieces::{is_plain, piece_end};
pub use time_text::GREATEST_CLOCK_S;
pub use unread::Unread;
pub use word::{Word, word_of};
pub use write_field::Field;
pub use written::Written;
