//! How much of its window a section's timetable occupies: the occupancy time, and the two rates of
//! UIC Code 406 as reduced fractions. Nothing here takes memory.
//!
//! The occupancy time is measured on the busiest block, from the first start there to the last end.
//! `occupancy` works it out from entries, and `occupancy_of` from the spans of blocks where these
//! are known.
//!
//! ```text
//! let (seconds, busiest) = occupancy(&cut, &entries);
//! let rate = Fraction::of(seconds as u128, 3_600);
//! let consumed = consumption(seconds, 33, 3_600);
//! let per_cent = consumed.hundredths_up();
//! let verdict = consumed.is_within();
//! ```
#![tactic(auto)]

mod fraction;
mod occupied;
mod spans;

pub use fraction::{Fraction, consumption};
pub use occupied::{occupancy, occupancy_of};
pub use spans::{Span, span_all};
