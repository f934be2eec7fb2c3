//! The book of a timetable: tables, scripts and published answers, with the journal of all that was
//! done and asked.
//!
//! Whatever calls come, the journal is legal, each planner keeps to its script, and each answer is
//! the one that the journal gives. No call goes through the journal. For each section name that a
//! section has or had the book keeps a shelf: the last edit that touched it, its last publication,
//! and its cut with a stamp on each row.
//!
//! An edit is tried on a second copy of the tables, so nothing is lost where it fails. Then each
//! shelf's cut is brought to the tables after the edit. A cut is shared with the readings that were
//! given of it, and copied for a change only while others hold it.
//!
//! ```text
//! let mut book = Book::start(alloc, tables, at, scripts)?;
//! let stepped = book.step(0, 1)?;
//! if let Next::Reading(mut reading) = book.read_next(0, 1)? {
//!     let (section, at) = (reading.section().name, reading.at());
//!     let answer = compression::answer(alloc, &mut reading)?;
//!     let taken = book.publish(0, Done { section, at, answer })?;
//! }
//! ```
#![tactic(auto)]

mod alone;
mod book;
mod changes;
mod entries;
mod first;
mod kept;
mod laws;
mod reading;
mod shelf;
mod stored;
mod tasks;
mod twin;

pub use alone::{Alone, counted};
pub use book::{Book, FIRST_NUMBER, PLANNERS, TASKS};
pub use laws::{limits, nobody_else_adds};
