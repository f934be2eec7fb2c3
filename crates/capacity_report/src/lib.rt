//! The texts of the commands, or their rows, written to a sheet.
//!
//! Each call that takes a sheet adds its rows to it, or a prefix of them where memory runs out.
//! Which rows these are stands in `specs/`.
//!
//! `stairs_text` makes the hop beyond each signal once. The runs are then parted among threads, and
//! each writes the rows of its runs to a sheet of its own. The texts of these sheets are the pieces
//! of the whole. `headways_text` writes its table in parts in the same way. `journal_text` writes
//! the entries of a journal in a piece for each thread, and lets go of those it has written. A row
//! of a train that is the same as in the section's last answer is copied from the text of that.
//!
//! ```text
//! let mut sheet = Sheet::new(alloc);
//! let mut tally = Tally::new();
//! answer_rows(alloc, &mut sheet, &section, &answer, Detail::Head)?;
//! tally.add(&answer);
//! total_row(&mut sheet, &tally)?;
//! let text = sheet.into_text();
//! ```
#![tactic(auto)]

mod answers;
mod check;
mod compressed;
mod headways;
mod journal;
mod journal_pieces;
mod last_trains;
mod laws;
mod parts;
mod rates;
mod rule;
mod stairs;
mod text_so_far;
mod timetable;
mod total;

pub use answer_parts::crowded_row;
pub use answers::{Detail, answer_rows};
pub use check::conflict_rows;
pub use headways::headways_text;
pub use journal::journal_rows;
pub use journal_pieces::journal_text;
pub use laws::total_adds_up;
pub use rule::rule_text;
pub use stairs::stairs_text;
pub use timetable::stairways;
pub use total::{Tally, total_row};
