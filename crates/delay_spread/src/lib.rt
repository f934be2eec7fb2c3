//! Knock-on delays: given delays spread over the planned timetable of a section, with running
//! times, dwell times and the order kept, so that no train enters later than it must.
//!
//! The trains are placed as in compression, but each has a floor of its own, before which it can't
//! enter: its planned entry and its own delay.
//!
//! ```text
//! let delays = [300, 0]; // seconds, in the order of the trains' names
//! match spread(alloc, &cut, &delays)? {
//!     Ok(spread) => spread_rows(&mut sheet, &cut, &spread)?,
//!     Err(disorder) => ..,
//! }
//! ```
#![tactic(auto)]

mod found;
mod knock_on;
mod laws;
mod rows;
mod spreading;

pub use found::{Held, Spread};
pub use laws::{
    enters_by_its_knock_on, none_is_earlier, none_is_knocked_on, spread_is_there, spread_is_unique,
    spreading_is_there, spreading_is_unique,
};
pub use rows::spread_rows;
pub use spreading::{GREATEST_DELAY_S, spread};
