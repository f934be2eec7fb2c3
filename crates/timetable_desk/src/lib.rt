//! The timetable at a desk: each thread has a seat, by which it does all that a board offers to the
//! one book that the desk hands from thread to thread.
//!
//! Each call takes the turn, makes one call of the book and gives the turn back, also where memory
//! runs out. In a turn no answer is worked out.
//!
//! ```text
//! let mut seat = Seat::new(&desk, pass);
//! match seat.ask(rt, section)? {
//!     Asked::Ready { at, answer } => ..,
//!     Asked::Stale { at, by } => ..,
//!     Asked::NotYet | Asked::Unknown => ..,
//! }
//! let pass = seat.end();
//! ```
#![tactic(auto)]

mod seat;

pub use seat::Seat;
