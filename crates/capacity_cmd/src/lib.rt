//! The program's commands, from bytes to bytes: rows are read, their edits make tables, and the
//! text of a command is written.
//!
//! A call goes through `command` (words), `input` (rows and edits), one file for each command (its
//! text), `reply` and `send`. The whole text is made before any of it is written. Why an input is
//! refused and what `compress` leaves out is said in words by the crate `sentences`.
//!
//! ```text
//! match run(rt, &words, &mut source, &mut sink, &OpenGate) {
//!     Status::Done => ..,
//!     Status::Refused { row, cause } => ..,
//!     status => exit(status.number()),
//! }
//! ```
#![tactic(auto)]

mod accepted;
mod call;
mod check;
mod command;
mod compress;
mod cut;
mod cycle;
mod delays;
mod fill;
mod given_delay;
mod headways;
mod input;
pub mod laws;
mod limit;
mod made;
mod named;
mod no_plan;
mod published;
mod refusal;
mod reply;
mod report;
mod script_rows;
mod section_heads;
mod send;
mod session;
mod status;
mod stopped;
mod texts;

pub use call::{alone, run, run_alone, run_alone_telling, run_telling};
pub use command::Command;
pub use given_delay::{DELAY_DIGITS, Delay, GIVEN_DELAYS, GivenDelay};
pub use limit::INPUT_BYTES;
pub use sentences::{Told, USAGE};
pub use status::{Cause, Status};
