//! The compressed timetable of a section from scratch: the compression of UIC Code 406, with
//! running times, dwell times and order kept. No train enters later than in any other such
//! timetable that lets none enter before the window.
//!
//! The trains are put in their order by `train_order` and placed in it by `train_placing`. The last
//! use of the busiest block is then that of the critical train.
//!
//! ```text
//! let mut reading = Reading::new(cut, at);
//! match answer(alloc, &mut reading)? {
//!     Answer::Ordered(plan) => ..,
//!     Answer::Opposite { first, second, block1, block2 } => ..,
//!     Answer::Ring(links) => ..,
//!     Answer::Crowded { count } => ..,
//! }
//! ```
#![tactic(auto)]

mod answering;
mod laws;

pub use answering::{answer, answer_of_cut};
pub use laws::{
    answer_is_there, least_is_there, none_is_later_without, order_stays_without, sound_without,
};
